//! The cells.

ghost use Rattle.std.specs.Prelude.{◌≡◌, ◌+◌};
ghost use Rattle.ruled_cells.specs.Turning.{HasWords};

use crate::about::SeatView;
use crate::cell_value::{CellValue, OpeningValues};
use crate::chief::Chief;
use crate::member::Member;
use crate::ruling::Ruling;
use crate::turns::{Sleepers, Store};

/// One first cell and a row of cells, each with a turn word, and a count word.
#[derive(Drop)]
pub struct Cells<F: Chief, S: Member> {
    pub(crate) table: Store<CellValue<F, S>, SeatView, OpeningValues<F, S>, Ruling<F, S>>,
    pub(crate) row: u32,
    pub(crate) sleepers: Sleepers,
    ghost sized: { HasWords table.shared.table_id × (table.shared.table_id.slots ≡ row + 1) },
}
