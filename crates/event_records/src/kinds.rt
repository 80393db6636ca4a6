//! Numbers of kinds.

ghost use Rattle.event_records.specs.Records.{kind_number};
ghost use Rattle.std.specs.Prelude.{◌≡◌, ◌<◌, IfNone, IfSome};

use crate::events::EventKind;

/// The number of a kind in a record.
pub fn kind_number(kind: EventKind) -> u8
    ensures { result ≡ kind_number kind }
{
    match kind {
        EventKind::Add => 0,
        EventKind::Release => 1,
        EventKind::Forced => 2,
        EventKind::RegionUpdated => 3,
        EventKind::AddResponse => 4,
        EventKind::Released => 5,
    }
}

/// The kind of a number; None exactly where the number is above 5.
pub fn kind_of(number: u8) -> Option<EventKind>
    ensures known { IfSome result (λ kind. kind_number kind ≡ number) }
    ensures unknown { IfNone result (5 < number) }
{
    match number {
        0 => Some(EventKind::Add),
        1 => Some(EventKind::Release),
        2 => Some(EventKind::Forced),
        3 => Some(EventKind::RegionUpdated),
        4 => Some(EventKind::AddResponse),
        5 => Some(EventKind::Released),
        _ => None,
    }
}
