//! The media of a device: the words of its granules (`GranuleWords`), and which hosts hold each granule beside them (`Memory`).
//!
//! A granule keeps the words that were stored since it was last zeroed; every other word of it is 0. Up to
//! eight stand in a row, which is looked through, and more in an ordered map. So a granule of 256 MiB with ten
//! words stored takes memory for ten words, a load or a store takes a logarithm of the words stored in that
//! granule, and zeroing takes what was stored. The room of a row is kept when its granule is zeroed.
#![tactic(auto)]

mod granule_words;
mod kept;
mod media;
mod words;

pub use granule_words::GranuleWords;
pub use media::Memory;
