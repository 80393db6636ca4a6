//! Where bytes go.

ghost use Rattle.dcd_base.specs.Streams.{HasRisen, Passes, taken_after};
ghost use Rattle.std.specs.Prelude.{◌≡◌, ◌<◌, ◌≤◌, [], IfOk, List, OnErr, OnOk, Option, length, take, ℕ};

use crate::failures::Failed;

/// Bytes that are written once, in order.
///
/// Its meaning is what it took, which an object in memory tells and a file does not, and a count of its
/// faults. The count never falls, and stays at 2^64 - 1 once it is there.
pub trait Sink {
    /// The bytes that it took, where the object tells them.
    ghost taken: { Self → Option (List ℕ) };

    /// How many of its writes failed. To take nothing is a fault.
    ghost faults: { Self → ℕ };

    /// Takes bytes from the front of the piece and answers how many, at least one.
    ///
    /// At `Failed` nothing was taken and the count of faults has risen.
    fn write(&mut self, piece: &[u8]) -> Result<usize, Failed>
        requires { 0 < length piece.now }
        ensures some { IfOk result (λ n. 0 < n) }
        ensures count { IfOk result (λ n. n ≤ length piece.now) }
        ensures taken { IfOk result (λ n. taken self.new ≡ taken_after (take n piece.now) (taken self.old)) }
        ensures kept { OnErr result (taken self.new ≡ taken self.old) }
        ensures failed { OnErr result (HasRisen (faults self.old) (faults self.new)) }
        ensures never_falls { faults self.old ≤ faults self.new };
}

/// Writes the whole piece, handing in again what a write left of it. It takes no memory of its own.
///
/// At `Failed` the sink took a front of the piece, maybe none of it, and its count of faults has risen.
#[tactic(auto, using(crate::proofs::Passing::passes_start, crate::proofs::Passing::passes_write, crate::proofs::Passing::passes_end, crate::proofs::Passing::risen_before))]
pub fn write_all<K: Sink>(sink: &mut K, piece: &[u8]) -> Result<(), Failed>
    ensures whole { OnOk result (Passes (K.taken sink.old) (K.taken sink.new) [] piece.now) }
    ensures front { OnErr result ((rest : List ℕ) × Passes (K.taken sink.old) (K.taken sink.new) rest piece.now) }
    ensures failed { OnErr result (HasRisen (K.faults sink.old) (K.faults sink.new)) }
    ensures never_falls { K.faults sink.old ≤ K.faults sink.new }
{
    let mut at = 0;
    while at < piece.len() {
        let (_, rest) = piece.split_at(at);
        at += sink.write(rest)?;
    }
    Ok(())
}
