//! Scripts.

use crate::script_line::Lines;
use region_config::Config;

/// What a user hands in: the device's configuration and what is done with it.
///
/// Version 1 has one lane; version 2 has 1 to 4 lanes, which each host has.
#[derive(Debug, Drop)]
pub struct Script {
    /// 1 or 2.
    pub version: u16,
    /// How many activities each host has, 1 to 4.
    pub lanes: u8,
    pub config: Config,
    /// At most 65,536.
    pub lines: Lines,
}
