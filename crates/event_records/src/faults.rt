//! Why bytes are no record.

/// Why 128 bytes are no Dynamic Capacity event record. They are tried in this order, and the first that is
/// met is answered.
#[derive(Clone, Copy, Debug, PartialEq, Eq)]
pub enum RecordFault {
    /// Bytes 0 to 15 are not the identifier of these records.
    OtherUuid,
    /// Byte 16, the record's length, is that value and not 128.
    OtherLength(u8),
    /// Byte 48, the kind, is that value and above 5.
    UnknownKind(u8),
}
