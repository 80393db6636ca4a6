//! The identifier of Dynamic Capacity event records.

ghost use Rattle.event_records.specs.Records.{record_uuid};
ghost use Rattle.std.specs.Prelude.{◌≡◌, ◌==◌};
ghost use lib.Pointwise.{pointwise};

use uuid::Uuid;

/// The identifier of a Dynamic Capacity event record (CXL 3.1, 8.2.9.2.1.6).
pub fn identifier() -> Uuid
    ensures { result ≡ record_uuid }
{
    Uuid::from_u128(0xca95afa7_f183_4018_8c2f_95268e101a2a)
}

/// Whether these bytes are that identifier.
pub fn is_identifier(bytes: &[u8]) -> bool
    ensures { result ≡ pointwise ◌==◌ bytes.now record_uuid }
{
    bytes == identifier().into_bytes().as_slice()
}
