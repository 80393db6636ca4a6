//! Fabrics.

use crate::fabric_lines::FabricLines;
use dcd_base::Seq;
use region_config::Config;

/// The configurations of devices, at most 8.
pub type Configs = Seq<Config>;

/// What a user hands in: the configurations of 1 to 8 devices, and what is done with them.
#[derive(Debug, Drop)]
pub struct FabricScript {
    /// Those of device 0, device 1 and so on.
    pub configs: Configs,
    /// At most 65,536.
    pub lines: FabricLines,
}
