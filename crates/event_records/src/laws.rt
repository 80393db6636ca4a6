//! What ties the spelling of an event to its reading.

ghost use Rattle.event_records.specs.Records.{ReadsRecord, WritesRecord, record_bytes};
ghost use Rattle.event_records.specs.declared.events.Event.{Event};
ghost use Rattle.std.specs.Prelude.{◌≡◌, List, Ok, ℕ};

use crate::events::Event;
use crate::faults::RecordFault;
use crate::reading::decode;
use crate::writing::encode;
use dcd_base::{are_bytes, fits_8, fits_16, fits_32, fits_64};

/// The bytes that `encode` answers are the one spelling of the event. The call does nothing.
pub fn law_event_is_spelled(event: &Event)
    ensures { WritesRecord event.now (record_bytes event.now) }
{
    fits_16(event.handle);
    fits_16(event.host);
    fits_8(event.region);
    fits_64(event.extent.start);
    fits_64(event.extent.length);
    are_bytes(&event.extent.tag.0);
    fits_16(event.extent.sequence);
    fits_32(event.extents_available);
    fits_32(event.tags_available);
}

/// The spelling of an event reads as that event. The call does nothing.
pub fn law_spelling_reads()
    ensures { (event : Event) (bytes : List ℕ) → WritesRecord event bytes → ReadsRecord bytes event }
{}

/// What `encode` writes, `decode` reads: the event itself.
pub fn decoded_again(event: &Event) -> Result<Event, RecordFault>
    ensures { result ≡ Ok event.now }
{
    law_event_is_spelled(event);
    decode(&encode(event))
}
