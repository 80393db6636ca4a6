//! Growable lists that take memory only in `push`, `extend_from_slice` and `copy`.

ghost use Rattle.std.specs.Iterator.Adapters.{IterYieldsInOrder};
ghost use Rattle.std.specs.Option.{option_copied};
ghost use Rattle.std.specs.Prelude.{◌≡◌, ◌==◌, ◌++◌, ◌∷◌, [], IfOk, OnErr, OnOk, length, slice_get};
ghost use Rattle.std.specs.Slice.Iter.{iter_rest};

use crate::capacity::Extent;
use crate::failures::NoMemory;
use crate::media::{Change, Run};
use std::alloc::Global;
use std::marker::Model;
use std::slice::Iter;

/// What a list can be copied of: anything `Copy`, and what says itself how it is copied.
pub trait Duplicate: Sized {
    /// An equal list of equal items, or no memory.
    fn duplicate_all(alloc: Global, items: &[Self]) -> Result<Vec<Self>, NoMemory>
        ensures { IfOk result (λ copy. copy.items ≡ items.now) };
}

impl<T: Copy> Duplicate for T {
    fn duplicate_all(alloc: Global, items: &[T]) -> Result<Vec<T>, NoMemory> {
        Ok(Vec::from_slice(alloc, items)?)
    }
}

/// A list that contracts see as its items in order.
#[derive(Debug, Drop)]
pub struct Seq<T> {
    alloc: Global,
    items: Vec<T>,
}

impl<T> Model for Seq<T> {
    ghost use Rattle.std.specs.Prelude.{List};

    ghost Value = { List T };

    ghost view = { λ list. list.items.items };
}

impl<T> Seq<T> {
    /// An empty list. It takes no memory.
    pub fn new(alloc: Global) -> Seq<T>
        ensures { result ≡ [] }
    {
        Seq {
            alloc,
            items: Vec::new(alloc),
        }
    }

    /// An empty list with room for so many items, so that the first ones take no more memory.
    pub fn with_capacity(alloc: Global, items: usize) -> Result<Seq<T>, NoMemory>
        ensures { IfOk result (λ list. list ≡ []) }
    {
        Ok(Seq {
            alloc,
            items: Vec::with_capacity(alloc, items)?,
        })
    }

    /// The list of the items of a `Vec`. It takes no memory.
    pub fn from_vec(alloc: Global, items: Vec<T>) -> Seq<T>
        ensures { result ≡ items.items }
    {
        Seq { alloc, items }
    }

    /// Its items as a `Vec`. It takes no memory.
    pub fn into_vec(self) -> Vec<T>
        ensures { result.items ≡ self }
    {
        let Seq { alloc: _, items } = self;
        items
    }

    /// The allocator that it grows by.
    pub fn allocator(&self) -> Global {
        self.alloc
    }

    pub fn len(&self) -> usize
        ensures { result ≡ length self.now }
    {
        self.items.len()
    }

    pub fn is_empty(&self) -> bool
        ensures { result ≡ (length self.now == 0) }
    {
        self.items.is_empty()
    }

    /// The item at the index; None exactly where the index is at or past the length.
    pub fn get(&self, index: usize) -> Option<&T>
        ensures { option_copied result ≡ slice_get self.now index }
    {
        self.items.get(index)
    }

    /// All its items, without copying.
    pub fn as_slice(&self) -> &[T]
        ensures { result.now ≡ self.now }
    {
        self.items.as_slice()
    }

    /// Its items in order.
    pub fn iter(&self) -> Iter<'_, T>
        ensures rest { iter_rest result ≡ self.now }
        ensures runs { IterYieldsInOrder T }
    {
        self.items.iter()
    }
}

impl<T: Drop> Seq<T> {
    /// Puts an item at the end. Without memory the item is let go and the list is as it was.
    pub fn push(&mut self, item: T) -> Result<(), NoMemory>
        ensures pushed { OnOk result (self.new ≡ self.old ++ item ∷ []) }
        ensures kept { OnErr result (self.new ≡ self.old) }
    {
        self.items.push(item)?;
        Ok(())
    }

    /// Lets all items go.
    pub fn clear(&mut self)
        ensures { self.new ≡ [] }
    {
        self.items.clear();
    }
}

impl<T: Duplicate> Seq<T> {
    /// An equal list of its own.
    pub fn copy(&self) -> Result<Seq<T>, NoMemory>
        ensures { IfOk result (λ copy. copy ≡ self.now) }
    {
        Ok(Seq {
            alloc: self.alloc,
            items: T::duplicate_all(self.alloc, self.items.as_slice())?,
        })
    }
}

impl<T: Copy> Seq<T> {
    /// A list of the same items as the slice.
    pub fn from_slice(alloc: Global, items: &[T]) -> Result<Seq<T>, NoMemory>
        ensures { IfOk result (λ list. list ≡ items.now) }
    {
        Ok(Seq {
            alloc,
            items: Vec::from_slice(alloc, items)?,
        })
    }

    /// Puts the items of a slice at the end, in order. Without memory the list is as it was.
    pub fn extend_from_slice(&mut self, items: &[T]) -> Result<(), NoMemory>
        ensures extended { OnOk result (self.new ≡ self.old ++ items.now) }
        ensures kept { OnErr result (self.new ≡ self.old) }
    {
        self.items.extend_from_slice(items)?;
        Ok(())
    }

    /// Puts another list at the end. Where this one is empty, the other takes its place and none of its items is copied.
    /// Without memory the list is as it was, and the other is let go.
    pub fn append(&mut self, other: Seq<T>) -> Result<(), NoMemory>
        ensures appended { OnOk result (self.new ≡ self.old ++ other) }
        ensures kept { OnErr result (self.new ≡ self.old) }
    {
        if self.is_empty() {
            *self = other;
            return Ok(());
        }
        self.extend_from_slice(other.as_slice())
    }
}

/// Bytes of a message, a payload, a script or a printed text.
pub type Bytes = Seq<u8>;

/// Extents in the addresses of one host.
pub type Extents = Seq<Extent>;

/// Runs of granules.
pub type Runs = Seq<Run>;

/// Handles of event records.
pub type Handles = Seq<u16>;

/// What a command changes of holders and words.
pub type Changes = Seq<Change>;
