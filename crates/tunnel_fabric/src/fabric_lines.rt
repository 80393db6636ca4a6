//! Lines of a fabric.

use cci_codec::Request;
use dcd_base::{Actor, Seq};
use journal_core::Act;

/// A line of a fabric. Lines are numbered from 1.
#[derive(Debug, Drop)]
pub enum FabricLine {
    /// An act on the device of this number, from 0: of one of its hosts, or of its sanitizer.
    Local { device: u8, actor: Actor, act: Act },
    /// A message of the Fabric Manager to the tunnel (5300h), which may name a device or break a rule.
    Tunnel(Request),
}

/// The lines of a fabric, at most 65,536.
pub type FabricLines = Seq<FabricLine>;
