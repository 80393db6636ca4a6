//! Names, lists, bytes and the outside world of a Dynamic Capacity Device.
//!
//! Everything that several crates speak of and that needs no rule of the device: the ids, tags and extents
//! of the CXL specification, lists that take memory only where they say so, fields of messages, records and scripts
//! as bytes (numbers low byte first), and the traits by which the program reads and writes.
#![tactic(auto)]

mod appending;
mod boxed;
mod capacity;
mod event_commands;
mod extents;
mod failures;
mod faults;
mod field_reading;
mod field_writing;
mod gates;
pub mod host_bits;
mod ids;
mod lengths;
pub mod limits;
mod lists;
mod media;
mod mem_sink;
mod mem_source;
mod page_requests;
mod ranges;
mod reading;
mod rooms;
mod sequence;
mod steps;
mod tags;
mod writing;

pub use appending::{add_u8, add_u16, add_u32, add_u64};
pub use boxed::Boxed;
pub use capacity::{Extent, Tag, is_no_tag, no_tag};
pub use event_commands::{clear_length, clear_payload, handles_of};
pub use extents::{extents_of, put_extent, put_extents};
pub use failures::{AccessFault, Failed, NoMemory};
pub use faults::PayloadFault;
pub use field_reading::{flag_at, tag_at, u16_at, u32_at, u64_at};
pub use field_writing::{
    put_byte, put_bytes, put_flag, put_tag, put_u8, put_u16, put_u24, put_u32, put_u64, put_zeros,
};
pub use gates::{Gate, NoGate};
pub use ids::{Granule, HostId, RegionId};
pub use lengths::{expect_length, zeros};
pub use lists::ShortList;
pub use media::{Change, Place, Run, shard_of};
pub use mem_sink::MemSink;
pub use mem_source::{MemSource, SoundSource};
pub use page_requests::page_request;
pub use ranges::{are_bytes, fits_8, fits_16, fits_32, fits_64};
pub use reading::Source;
pub use rooms::with_zeros;
pub use sequence::{Bytes, Changes, Duplicate, Extents, Handles, Runs, Seq};
pub use steps::{Actor, LogId, Stamp};
pub use tags::TagView;
pub use writing::{Sink, write_all};
