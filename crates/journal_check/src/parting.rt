//! A sink that finds where what is written parts from a text.

ghost use Rattle.dcd_base.specs.Streams.{HasRisen, taken_after};
ghost use Rattle.journal_check.specs.Parting.{IsParted, has_agreed, parted_taken, parted_told};
ghost use Rattle.std.specs.Prelude.{◌≡◌, ◌≢◌, ◌+◌, ◌<◌, ◌≤◌, ◌++◌, ◌∷◌, [], IfOk, IsTrue, OnErr, Some, None, length, take, drop, slice_get};

use dcd_base::{Failed, Sink};
use std::marker::Model;

/// A sink that takes what agrees with a text, and one byte that does not; then its writes fail.
///
/// Contracts see the text, how many bytes agreed, the byte that did not, and how many writes failed since.
#[derive(Drop)]
pub(crate) struct Parting<'a> {
    text: &'a [u8],
    agreed: usize,
    other: Option<u8>,
    faults: u64,
}

impl<'a> Model for Parting<'a> {
    ghost use Rattle.journal_check.specs.Parting.{IsParted, Parted};

    ghost Value = { Parted };

    ghost view = { λ p. record { text = p.text.now; agreed = p.agreed; other = p.other; faults = p.faults } };

    ghost invariant = { λ p. IsParted (record { text = p.text.now; agreed = p.agreed; other = p.other; faults = p.faults }) };
}

/// How many bytes of the piece are those of the text.
fn agreeing(text: &[u8], piece: &[u8]) -> usize
    ensures text { result ≤ length text.now }
    ensures piece { result ≤ length piece.now }
    ensures same { take result piece.now ≡ take result text.now }
    ensures parts { result < length piece.now → slice_get text.now result ≢ slice_get piece.now result }
{
    if begins_with(text, piece) {
        piece.len()
    } else {
        agreeing_each(text, piece)
    }
}

fn begins_with(text: &[u8], piece: &[u8]) -> bool
    ensures within { IsTrue result → length piece.now ≤ length text.now }
    ensures same { IsTrue result → take (length piece.now) text.now ≡ piece.now }
{
    if piece.len() > text.len() {
        return false;
    }
    let (front, _) = text.split_at(piece.len());
    front == piece
}

/// The same, byte by byte.
#[tactic(auto, using(crate::proofs::Pieces::same_more))]
fn agreeing_each(text: &[u8], piece: &[u8]) -> usize
    ensures text { result ≤ length text.now }
    ensures piece { result ≤ length piece.now }
    ensures same { take result piece.now ≡ take result text.now }
    ensures parts { result < length piece.now → slice_get text.now result ≢ slice_get piece.now result }
{
    let most = text.len().min(piece.len());
    let mut n = 0;
    while n < most && text[n] == piece[n] {
        n += 1;
    }
    n
}

impl<'a> Parting<'a> {
    /// Nothing is taken yet.
    pub(crate) fn new(text: &'a [u8]) -> Parting<'a>
        ensures { result ≡ record { text = text.now; agreed = 0; other = None; faults = 0 } }
    {
        Parting {
            text,
            agreed: 0,
            other: None,
            faults: 0,
        }
    }

    /// How many bytes of the text agreed.
    pub(crate) fn agreed(&self) -> usize
        ensures count { result ≡ self.now.agreed }
        ensures parted { IsParted self.now }
    {
        self.agreed
    }

    /// Whether all of the text agreed, and nothing else came.
    pub(crate) fn has_agreed(&self) -> bool
        ensures { result ≡ has_agreed self.now }
    {
        self.agreed == self.text.len() && self.other.is_none()
    }

    /// Takes what agrees of the piece, and one byte more.
    fn take_on(&mut self, piece: &[u8]) -> usize
        requires some { 0 < length piece.now }
        requires whole { self.old.other ≡ None }
        ensures some { 0 < result }
        ensures count { result ≤ length piece.now }
        ensures taken { parted_taken self.new ≡ parted_taken self.old ++ take result piece.now }
        ensures faults { self.new.faults ≡ self.old.faults }
        ensures text { self.new.text ≡ self.old.text }
    {
        let (_, rest) = self.text.split_at(self.agreed);
        let n = agreeing(rest, piece);
        self.agreed += n;
        if n < piece.len() {
            self.other = Some(piece[n]);
            n + 1
        } else {
            n
        }
    }
}

/// What it tells of is the text that it compares with, and then what it took.
impl<'a> Sink for Parting<'a> {
    ghost taken = { λ p. Some (parted_told p) };

    ghost faults = { λ p. p.faults };

    #[tactic(auto, using(crate::proofs::PartingLaws::told_more))]
    fn write(&mut self, piece: &[u8]) -> Result<usize, Failed>
        requires { 0 < length piece.now }
        ensures some { IfOk result (λ n. 0 < n) }
        ensures count { IfOk result (λ n. n ≤ length piece.now) }
        ensures taken { IfOk result (λ n. Some (parted_told self.new) ≡ taken_after (take n piece.now) (Some (parted_told self.old))) }
        ensures kept { OnErr result (Some (parted_told self.new) ≡ Some (parted_told self.old)) }
        ensures failed { OnErr result (HasRisen self.old.faults self.new.faults) }
        ensures never_falls { self.old.faults ≤ self.new.faults }
    {
        match self.other {
            None => Ok(self.take_on(piece)),
            Some(_) => {
                self.faults = self.faults.saturating_add(1);
                Err(Failed)
            }
        }
    }
}
