//! The list.

ghost use Rattle.dcd_base.specs.ShortLists.{items_of};
ghost use Rattle.std.specs.Prelude.{◌≡◌, ◌==◌, ◌∷◌, [], IfOk, length};

use crate::{NoMemory, Seq};
use std::alloc::Global;
use std::marker::Model;

/// A list whose items lie in the value itself where it has one, or none. Only where it was made of several do they lie on
/// the heap.
///
/// Contracts see its items in order.
#[derive(Debug, Drop)]
pub struct ShortList<T> {
    kept: Kept<T>,
}

/// What a short list keeps.
#[derive(Debug, Drop)]
pub(crate) enum Kept<T> {
    Nothing,
    One([T; 1]),
    Several(Seq<T>),
}

impl<T> Model for ShortList<T> {
    ghost use Rattle.dcd_base.specs.ShortLists.{items_of};
    ghost use Rattle.std.specs.Prelude.{List};

    ghost Value = { List T };

    ghost view = { λ list. items_of list.kept };
}

impl<T> ShortList<T> {
    /// No items. It takes no memory.
    pub fn new() -> ShortList<T>
        ensures { result ≡ [] }
    {
        ShortList {
            kept: Kept::Nothing,
        }
    }

    /// One item. It takes no memory.
    pub fn of(item: T) -> ShortList<T>
        ensures { result ≡ item ∷ [] }
    {
        ShortList {
            kept: Kept::One([item]),
        }
    }

    /// The items of a list, which stay where they lie.
    pub fn of_list(items: Seq<T>) -> ShortList<T>
        ensures { result ≡ items }
    {
        ShortList {
            kept: Kept::Several(items),
        }
    }

    /// All its items.
    #[inline(always)]
    pub fn as_slice(&self) -> &[T]
        ensures { result.now ≡ self.now }
    {
        match &self.kept {
            Kept::Nothing => &[],
            Kept::One(items) => items,
            Kept::Several(items) => items.as_slice(),
        }
    }

    /// How many items it has.
    pub fn len(&self) -> usize
        ensures { result ≡ length self.now }
    {
        self.as_slice().len()
    }

    /// Whether it has none.
    pub fn is_empty(&self) -> bool
        ensures { result ≡ (length self.now == 0) }
    {
        self.as_slice().is_empty()
    }
}

impl<T: Copy> ShortList<T> {
    /// A list of the same items as the slice. It takes memory only for several.
    pub fn of_slice(alloc: Global, items: &[T]) -> Result<ShortList<T>, NoMemory>
        ensures { IfOk result (λ list. list ≡ items.now) }
    {
        match items {
            [] => Ok(ShortList::new()),
            [item] => Ok(ShortList::of(*item)),
            _ => Ok(ShortList::of_list(Seq::from_slice(alloc, items)?)),
        }
    }
}
