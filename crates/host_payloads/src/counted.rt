//! How long a payload has to be.

ghost use Rattle.host_payloads.specs.HostPayloads.{list_length, page_length};
ghost use Rattle.std.specs.Prelude.{◌≡◌, ◌+◌, ◌*◌};

use event_records::dcd_base::u32_at;

/// The length of a list of extents without tags: 8 bytes and 24 for each extent of its count.
pub fn list_length(payload: &[u8]) -> u64
    ensures { result ≡ list_length payload.now }
{
    if payload.len() < 8 {
        8
    } else {
        8 + 24 * u64::from(u32_at(payload, 0))
    }
}

/// The length of a page of extents: 16 bytes and 40 for each extent of its count.
pub fn page_length(payload: &[u8]) -> u64
    ensures { result ≡ page_length payload.now }
{
    if payload.len() < 16 {
        16
    } else {
        16 + 40 * u64::from(u32_at(payload, 0))
    }
}
