//! A load for the whole device that is made and not read: the script of a seed.
//!
//! Four hosts share one region. In each of 256 rounds the Fabric Manager offers each of them an extent, and each
//! takes it, stores and loads 16 words of it, and gives it back; the sanitizer zeroes what was given back.
//! `Rounds` makes the lines round by round, `generate` all at once; the seed alone says which words and which values.
#![tactic(auto)]

mod by_rounds;
mod commands;
mod draws;
mod generating;
mod payloads;
mod putting;
mod rounds;
mod settings;
mod uses;

pub use by_rounds::Rounds;
pub use generating::generate;
pub use script_codec;
