//! What is demanded of a pool.

use dcd_base::Seq;

/// So many blocks that a host is to have in a region, no more and no less. A block is the region's present block.
///
/// The numbers are as written: the device may have no such host or region.
#[derive(Clone, Copy, Debug, PartialEq, Eq)]
pub struct Demand {
    pub host: u32,
    pub region: u32,
    pub blocks: u32,
}

/// What is demanded, and the hosts that are dead: they are to have nothing. Both stand in the order of the text.
#[derive(Debug, Drop)]
pub struct Demands {
    pub demands: Seq<Demand>,
    pub dead: Seq<u32>,
}
