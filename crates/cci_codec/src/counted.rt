//! The first bytes of an array.

ghost use Rattle.std.specs.Prelude.{◌≡◌, ◌<◌, ◌≤◌, [], length, take};

use std::marker::Model;

/// So many of the first bytes of an array, which has at most 255.
///
/// Contracts see the bytes.
#[derive(Debug, Drop)]
pub struct Counted<const N: usize> {
    count: u8,
    all: [u8; N],
}

impl<const N: usize> Model for Counted<N> {
    ghost use Rattle.std.specs.Prelude.{◌≤◌, List, ℕ, length, take};

    ghost Value = { List ℕ };

    ghost view = { λ b. take b.count b.all };

    ghost invariant = { λ b. b.count ≤ length b.all };
}

impl<const N: usize> Counted<N> {
    /// These bytes.
    pub(crate) fn of(bytes: &[u8]) -> Counted<N>
        requires room { length bytes.now ≤ N }
        requires few { N < 256 }
        ensures { result ≡ bytes.now }
    {
        let mut all = [0u8; N];
        let (front, _) = all.split_at_mut(bytes.len());
        front.copy_from_slice(bytes);
        Counted {
            count: bytes.len() as u8,
            all,
        }
    }

    /// No bytes.
    pub(crate) fn none() -> Counted<N>
        ensures { result ≡ [] }
    {
        Counted {
            count: 0,
            all: [0u8; N],
        }
    }

    /// The bytes.
    pub(crate) fn as_slice(&self) -> &[u8]
        ensures { result.now ≡ self.now }
    {
        let (front, _) = self.all.split_at(usize::from(self.count));
        front
    }

    /// Equal ones.
    pub(crate) fn copy(&self) -> Counted<N>
        ensures { result ≡ self.now }
    {
        Counted {
            count: self.count,
            all: self.all,
        }
    }

    /// Makes them the first `count` of these bytes.
    #[inline(always)]
    pub(crate) fn fill(&mut self, bytes: &[u8], count: usize)
        requires room { count ≤ N }
        requires few { N < 256 }
        requires within { count ≤ length bytes.now }
        ensures { self.new ≡ take count bytes.now }
    {
        fill_front(&mut self.all, bytes, count);
        self.count = count as u8;
    }
}

/// Makes the front of the array the first `count` of these bytes. Where there are enough of them it copies as many as the
/// array has room for, which takes no count.
#[inline(always)]
fn fill_front<const N: usize>(all: &mut [u8; N], bytes: &[u8], count: usize)
    requires room { count ≤ N }
    requires within { count ≤ length bytes.now }
    ensures { take count all.new ≡ take count bytes.now }
{
    if bytes.len() >= N {
        let (front, _) = bytes.split_at(N);
        all.copy_from_slice(front);
    } else {
        let (front, _) = bytes.split_at(count);
        let (place, _) = all.split_at_mut(count);
        place.copy_from_slice(front);
    }
}
