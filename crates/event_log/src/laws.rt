//! What the log keeps of all that ever happened to it.

ghost use Rattle.event_log.specs.LogStates.{new_log};
ghost use Rattle.event_log.specs.Logs.{Follows, IsHistory, Log, StaysHistory, empty_log, state_of};
ghost use Rattle.std.specs.Prelude.{◌≡◌, ℕ};

/// A law of the definitions: over any calls the log is what its history makes it.
///
/// A history has all records that were ever put, how many of the oldest were cleared and how many records found
/// the log full. The k-th record ever put, counted from 1, has the handle 1 + (k - 1) modulo 65,535.
pub fn law_history()
    ensures begins { (capacity : ℕ) → (state_of capacity empty_log ≡ new_log capacity) × IsHistory empty_log }
    ensures follows { (capacity : ℕ) (log : Log) → IsHistory log → Follows capacity log }
    ensures stays { (log : Log) → IsHistory log → StaysHistory log }
{}
