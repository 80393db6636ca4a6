//! What a program says of itself.

ghost use Rattle.dcd_base.specs.Streams.{HasRisen, Passes};
ghost use Rattle.edge_io.specs.Words.{words_of};
ghost use Rattle.edge_io.specs.Ends.{stop_end};
ghost use Rattle.edge_io.specs.Meanings.{Decides};
ghost use Rattle.std.specs.Prelude.{◌≡◌, ◌<◌, ◌≤◌, ◌-◌, ◌^◌, IfOk, IfSome, List, [], OnErr, OnOk, Option, Some, length, ℕ};

use crate::ends::Stop;
use dcd_base::{Bytes, Failed, NoMemory, Sink};
use std::alloc::Global;

/// A program: what its words ask for, what is to come of an input, and how that is printed.
pub trait Program {
    ghost use Rattle.edge_io.specs.Meanings.{Meaning};
    ghost use Rattle.std.specs.Prelude.{List, ℕ, ⊤};

    /// What words may ask for.
    type Task: Drop;

    /// How a run ends.
    type Status: Drop;

    /// What is printed.
    type Text: Drop;

    /// What it is to do.
    ghost means: { Self → Meaning Self.Task Self.Status };

    /// The bytes of what is printed.
    ghost bytes: { Self.Text → List ℕ };

    /// What is so of all that is printed.
    ghost ready: { Self.Text → Type 0 };

    /// What has to be so of a program that decides.
    ghost able: { Self → Type 0 } = { λ _. ⊤ };

    /// What the words ask for, and no more than that: nothing where they are refused.
    fn asked(&self, words: &[String]) -> Option<Self::Task>
        ensures asked { (means self.now).asks (words_of words.now) result }
        ensures alone { (other : Option Self.Task) → (means self.now).asks (words_of words.now) other → other ≡ result };

    /// The line on words that are refused.
    fn usage(&self) -> &[u8]
        ensures { result.now ≡ (means self.now).usage };

    /// How many bytes of input the task has at most, or nothing where none is read.
    fn most(&self, task: &Self::Task) -> Option<usize>
        ensures is { result ≡ (means self.now).most task.now }
        ensures small { IfSome result (λ most. most < 2 ^ 64 - 1) };

    /// How the task over an input ends, and what is printed then. An input that is not read is empty.
    fn decide(
        &self,
        alloc: Global,
        task: Self::Task,
        input: Bytes,
    ) -> Result<(Self::Status, Self::Text), NoMemory>
        requires able { able self.now }
        requires short { IfSome ((means self.now).most task) (λ most. length input ≤ most) }
        ensures decides { IfOk result (λ end. Decides (means self.now) task input end.0 (bytes end.1)) }
        ensures ready { IfOk result (λ end. ready end.1) };

    /// The same over each input that has more bytes than the task reads.
    fn decide_long(
        &self,
        alloc: Global,
        task: Self::Task,
    ) -> Result<(Self::Status, Self::Text), NoMemory>
        ensures decides { IfOk result (λ end. (input : List ℕ) (most : ℕ) → (means self.now).most task ≡ Some most → most < length input → Decides (means self.now) task input end.0 (bytes end.1)) }
        ensures ready { IfOk result (λ end. ready end.1) };

    /// Writes what is printed. It takes no memory.
    fn print<K: Sink>(&self, text: &Self::Text, sink: &mut K) -> Result<(), Failed>
        requires { ready text.now }
        ensures whole { OnOk result (Passes (K.taken sink.old) (K.taken sink.new) [] (bytes text.now)) }
        ensures front { OnErr result ((rest : List ℕ) × Passes (K.taken sink.old) (K.taken sink.new) rest (bytes text.now)) }
        ensures failed { OnErr result (HasRisen (K.faults sink.old) (K.faults sink.new)) };

    /// The status of a run that stopped short.
    fn stopped(&self, stop: Stop) -> Self::Status
        ensures { (means self.now).end result ≡ stop_end stop };
}
