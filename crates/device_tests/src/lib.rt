//! Tests of offers, of the journal, of steps of the device and of the device without a journal, and of what a host is
//! replied alone.
#![tactic(auto)]

#[cfg(test)]
mod items;
#[cfg(test)]
mod journals;
#[cfg(test)]
mod living;
#[cfg(test)]
mod offers;
#[cfg(test)]
mod seeing;
#[cfg(test)]
mod steps;
