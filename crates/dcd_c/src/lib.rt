//! The device as a library for C, whose header is `include/dcd.h`.
//!
//! A caller keeps a handle and calls one function after another: it opens the device from the head of a script, sends
//! messages as a host or as the Fabric Manager, loads, stores, lets the sanitizer take its turns, asks what is held and
//! free, and closes it. Each call answers a number that says what went wrong, and none ends the process.
#![tactic(auto)]

mod accesses;
mod actors;
mod asking;
mod changes;
mod exports;
mod faults;
mod handles;
mod head_faults;
mod heads;
mod laws;
mod lists;
mod loose;
mod names;
mod places;
mod refusals;
mod responses;
mod rule_numbers;
mod sending;
mod sessions;
mod stepping;
mod tags;
mod telling;
mod texts;
