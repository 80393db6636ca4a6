//! Tests of texts, of standard input and output, and of what goes over the wire against what others wrote.
#![tactic(auto)]

#[cfg(test)]
mod configuration;
#[cfg(test)]
mod edges;
#[cfg(test)]
mod generated;
#[cfg(test)]
mod host_requests;
#[cfg(test)]
mod manager_requests;
#[cfg(test)]
mod qemu;
#[cfg(test)]
mod qemu_messages;
#[cfg(test)]
mod qemu_records;
#[cfg(test)]
mod qemu_replies;
#[cfg(test)]
mod seeing;
#[cfg(test)]
mod texts;
