//! The kinds of replies, and how their payloads are built.

ghost use Rattle.explainer.specs.ReplyKinds.{has_kind, head_length, item_count, item_length, kind_of_opcode, tail_length, whole_length};
ghost use Rattle.explainer.specs.ReplyWords.{kind_answered};
ghost use Rattle.std.specs.Prelude.{◌≡◌, ◌==◌, ◌<◌, ◌≤◌, ◌^◌, length};

use dcd_base::{u16_at, u32_at};

/// What the payload of a successful reply is: a head, items of one length, and a tail.
#[derive(Clone, Copy, Debug, PartialEq, Eq)]
pub enum ReplyKind {
    /// 0100h: event records.
    Records,
    /// 4800h: regions, and what the host may have.
    Regions,
    /// 4801h: extents.
    Extents,
    /// 5600h: the block sizes of each region.
    Info,
    /// 5601h: regions of a host, and what it may have.
    HostRegions,
    /// 5603h: extents of a host.
    HostExtents,
    /// 5608h: live tags.
    Tags,
}

/// The kind of the reply to a command.
#[tactic(auto, unfolding(crate::specs::ReplyKinds::kind_of_opcode))]
fn kind_of_opcode(opcode: u16) -> Option<ReplyKind>
    ensures { result ≡ kind_of_opcode opcode }
{
    match opcode {
        0x0100 => Some(ReplyKind::Records),
        0x4800 => Some(ReplyKind::Regions),
        0x4801 => Some(ReplyKind::Extents),
        0x5600 => Some(ReplyKind::Info),
        0x5601 => Some(ReplyKind::HostRegions),
        0x5603 => Some(ReplyKind::HostExtents),
        0x5608 => Some(ReplyKind::Tags),
        _ => None,
    }
}

/// The kind of a reply with this code.
pub(crate) fn kind_answered(opcode: u16, code: u16) -> Option<ReplyKind>
    ensures { result ≡ kind_answered opcode code }
{
    if code == 0 {
        kind_of_opcode(opcode)
    } else {
        None
    }
}

/// How many bytes the head has.
pub(crate) fn head_length(kind: ReplyKind) -> usize
    ensures value { result ≡ head_length kind }
    ensures small { result ≤ 32 }
{
    match kind {
        ReplyKind::Records => 32,
        ReplyKind::Regions | ReplyKind::HostRegions => 8,
        ReplyKind::Extents | ReplyKind::Tags => 16,
        ReplyKind::Info | ReplyKind::HostExtents => 24,
    }
}

/// How many bytes each item has.
pub(crate) fn item_length(kind: ReplyKind) -> usize
    ensures value { result ≡ item_length kind }
    ensures small { result ≤ 128 }
{
    match kind {
        ReplyKind::Records => 128,
        ReplyKind::Regions | ReplyKind::HostRegions | ReplyKind::Extents | ReplyKind::HostExtents =>
            40,
        ReplyKind::Info => 8,
        ReplyKind::Tags => 24,
    }
}

/// How many bytes the tail has.
fn tail_length(kind: ReplyKind) -> usize
    ensures value { result ≡ tail_length kind }
    ensures small { result ≤ 16 }
{
    match kind {
        ReplyKind::Regions | ReplyKind::HostRegions => 16,
        _ => 0,
    }
}

/// How many items the head says that there are.
pub(crate) fn item_count(kind: ReplyKind, payload: &[u8]) -> usize
    requires { head_length kind ≤ length payload.now }
    ensures value { result ≡ item_count kind payload.now }
    ensures small { result < 2 ^ 32 }
{
    match kind {
        ReplyKind::Records => usize::from(u16_at(payload, 20)),
        ReplyKind::Regions | ReplyKind::Info => usize::from(payload[1]),
        ReplyKind::Extents => u32_at(payload, 0) as usize,
        ReplyKind::HostRegions => usize::from(payload[3]),
        ReplyKind::HostExtents => u32_at(payload, 8) as usize,
        ReplyKind::Tags => u32_at(payload, 4) as usize,
    }
}

/// Whether the payload has the length that its head says.
fn has_length(kind: ReplyKind, payload: &[u8]) -> bool
    requires { head_length kind ≤ length payload.now }
    ensures { result ≡ (length payload.now == whole_length kind payload.now) }
{
    let items = item_length(kind) * item_count(kind, payload);
    payload.len() == head_length(kind) + items + tail_length(kind)
}

/// Whether the payload has a head and the length that it says.
pub(crate) fn has_kind(kind: ReplyKind, payload: &[u8]) -> bool
    ensures { result ≡ has_kind kind payload.now }
{
    head_length(kind) <= payload.len() && has_length(kind, payload)
}
