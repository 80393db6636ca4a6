//! Where bytes come from.

ghost use Rattle.dcd_base.specs.Streams.{HasRisen, IsAtEnd, with_front};
ghost use Rattle.std.specs.Prelude.{◌≡◌, ◌<◌, ◌≤◌, IfOk, List, OnErr, Option, length, take, ℕ};

use crate::failures::Failed;

/// Bytes that are read once, in order.
///
/// Its meaning is what is left, which an object in memory tells and a file does not, and a count of its
/// faults. The count never falls, and stays at 2^64 - 1 once it is there.
pub trait Source {
    /// The bytes that are left, where the object tells them.
    ghost left: { Self → Option (List ℕ) };

    /// How many of its reads failed.
    ghost faults: { Self → ℕ };

    /// Reads into the front of the buffer and answers how many bytes, 0 exactly at the end.
    ///
    /// At `Failed` nothing is gone and the count of faults has risen.
    fn read(&mut self, buf: &mut [u8]) -> Result<usize, Failed>
        requires { 0 < length buf.old }
        ensures count { IfOk result (λ n. n ≤ length buf.old) }
        ensures given { IfOk result (λ n. left self.old ≡ with_front (take n buf.new) (left self.new)) }
        ensures end { IfOk result (λ n. n ≡ 0 → IsAtEnd (left self.new)) }
        ensures kept { OnErr result (left self.new ≡ left self.old) }
        ensures failed { OnErr result (HasRisen (faults self.old) (faults self.new)) }
        ensures never_falls { faults self.old ≤ faults self.new };
}
