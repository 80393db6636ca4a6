//! What is printed of a fabric.

use crate::fabrics::Fabric;
use dcd_base::Bytes;

/// What is printed.
#[derive(Drop)]
pub(crate) enum FabricText {
    /// The lines of the replies to messages to the tunnel, and the texts of all devices behind them.
    Ran { lines: Bytes, fabric: Fabric },
    Line(Bytes),
}
