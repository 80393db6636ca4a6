//! What a seat's view says.

use dcd_base::{Actor, Seq, Stamp};
use journal_core::{Entry, Journal};
use region_config::Config;

/// What never changes: the configuration of all cells, and the actor of each seat's number. No value of it is made.
pub struct About {
    pub config: Config,
    pub actors: Seq<Actor>,
}

/// What a seat knows, beside which turns it has. No value of it is made.
pub struct SeatView {
    pub number: u32,
    pub about: About,
    /// The entry that the seat has noted and whose cells it still changes, while it has the turn of the first cell.
    pub entry: Option<Entry>,
    /// The cells that it has changed for that entry. Cell 0 is the first one, and cell i + 1 that of index i.
    pub changed: Seq<u32>,
    /// All entries that it made, in their order.
    pub calls: Journal,
    /// The stamp of the last of them, (0, 0) at first.
    pub seen: Stamp,
    /// Whether another seat took it in.
    pub spent: bool,
    /// The numbers and the calls of the seats that it took in.
    pub kept: Seq<(u32, Journal)>,
}
