//! Why an event log refuses a call.

/// The log has as many records as it can have, which is this many.
#[derive(Clone, Copy, Debug, PartialEq, Eq)]
pub struct LogFull(pub u32);

/// Why records are not cleared (CXL 3.1, 8.2.9.2.3).
#[derive(Clone, Copy, Debug, PartialEq, Eq)]
pub enum ClearFault {
    /// The listed handle is a later record's; the oldest record that is not listed before it has this handle.
    OlderLeft(u16),
    /// No record that is not listed before it has this handle.
    UnknownHandle(u16),
    /// No record was missed, so that the log cannot be cleared whole.
    NotOverflowed,
}
