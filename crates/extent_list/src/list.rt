//! The list, and the calls that change it.

ghost use Rattle.dcd_base.specs.declared.capacity.Extent.{Extent};
ghost use Rattle.extent_list.specs.Apart.{StandApart};
ghost use Rattle.extent_list.specs.ExtentLists.{cut, cut_all, has_range, holder_of, shares_range};
ghost use Rattle.extent_list.specs.Rooms.{IsCutInAddresses};
ghost use Rattle.std.specs.List.{list_any};
ghost use Rattle.std.specs.Prelude.{◌≡◌, ◌==◌, ◌++◌, ◌∷◌, ◌+◌, ◌-◌, ◌^◌, ◌<◌, ◌≤◌, [], All, IfErr, IfOk, IfSome, IsSome, IsTrue, OnErr, OnOk, Some, drop, length, option_to_list, slice_get, slice_index_or, suc, take, true, vec_capacity, vec_len};

use crate::pieces::{count_of, has_range_in, lower_piece, shares_range_with, upper_piece};
use crate::standing::stand_apart;
use dcd_base::{Extent, Extents, NoMemory};
use std::alloc::Global;
use std::error::Error;
use std::fmt::{self, Display};
use std::marker::Model;

/// The list would have this many extents, which is above the limit.
#[derive(Clone, Copy, Debug, PartialEq, Eq)]
pub struct TooMany(pub usize);

impl Display for TooMany {
    fn fmt<W: fmt::Write>(&self, f: &mut fmt::Formatter<W>) -> fmt::Result {
        write!(f, "the list would have {} extents", self.0)
    }
}

impl Error for TooMany {}

/// Extents in the order in which they were appended, the pieces of a cut one in its place.
///
/// Contracts see the list and its spare: how many more extents it takes without memory.
#[derive(Debug, Drop)]
pub struct ExtentList {
    alloc: Global,
    kept: Vec<Extent>,
}

impl Model for ExtentList {
    ghost use Rattle.extent_list.specs.Rooms.{Room};
    ghost use Rattle.std.specs.Prelude.{◌-◌, vec_capacity, vec_len};

    ghost Value = { Room };

    ghost view = { λ list. record { extents = list.kept.items; spare = vec_capacity list.kept - vec_len list.kept } };
}

impl ExtentList {
    /// An empty list. It takes no memory.
    pub fn new(alloc: Global) -> ExtentList
        ensures { result.extents ≡ [] }
    {
        ExtentList {
            alloc,
            kept: Vec::new(alloc),
        }
    }

    /// An empty list with its memory for so many extents.
    pub fn with_room(alloc: Global, room: usize) -> Result<ExtentList, NoMemory>
        ensures extents { IfOk result (λ new. new.extents ≡ []) }
        ensures spare { IfOk result (λ new. room ≤ new.spare) }
    {
        Ok(ExtentList {
            alloc,
            kept: Vec::with_capacity(alloc, room)?,
        })
    }

    /// An equal list of its own.
    pub fn copy(&self) -> Result<ExtentList, NoMemory>
        ensures { IfOk result (λ copy. copy.extents ≡ self.now.extents) }
    {
        Ok(ExtentList {
            alloc: self.alloc,
            kept: Vec::from_slice(self.alloc, self.kept.as_slice())?,
        })
    }

    /// An equal list of its own, which has its memory for so many more extents from the start.
    pub fn copy_with_room(&self, more: usize) -> Result<ExtentList, NoMemory>
        ensures { IfOk result (λ copy. copy.extents ≡ self.now.extents) }
    {
        let room = self.kept.len().saturating_add(more);
        let mut kept = Vec::with_capacity(self.alloc, room)?;
        kept.extend_from_slice(self.kept.as_slice())?;
        Ok(ExtentList {
            alloc: self.alloc,
            kept,
        })
    }

    /// Makes the spare at least `n`. The extents stay, and without memory the spare does too.
    pub fn reserve(&mut self, n: usize) -> Result<(), NoMemory>
        ensures room { OnOk result (n ≤ self.new.spare) }
        ensures extents { self.new.extents ≡ self.old.extents }
        ensures spare { self.old.spare ≤ self.new.spare }
        ensures kept { OnErr result (self.new ≡ self.old) }
    {
        self.kept.reserve(n)?;
        Ok(())
    }

    /// Makes the extents equal to these. Takes memory only where they are more than there are places for; the places stay.
    pub fn stand_as(&mut self, others: &[Extent]) -> Result<(), NoMemory>
        ensures extents { OnOk result (self.new.extents ≡ others.now) }
        ensures places { length self.old.extents + self.old.spare ≤ length self.new.extents + self.new.spare }
    {
        self.kept.clear();
        self.kept.extend_from_slice(others)?;
        Ok(())
    }

    pub fn len(&self) -> usize
        ensures { result ≡ length self.now.extents }
    {
        self.kept.len()
    }

    pub fn is_empty(&self) -> bool
        ensures { result ≡ (length self.now.extents == 0) }
    {
        self.kept.is_empty()
    }

    /// The extent at an index below the length.
    pub fn at(&self, index: usize) -> Extent
        requires { index < length self.now.extents }
        ensures { slice_get self.now.extents index ≡ Some result }
    {
        self.kept[index]
    }

    /// All its extents in order, without copying.
    pub fn as_slice(&self) -> &[Extent]
        ensures { result.now ≡ self.now.extents }
    {
        self.kept.as_slice()
    }

    /// Appends an extent. Takes no memory, and uses one of the spare.
    pub fn add(&mut self, extent: Extent)
        requires { 0 < self.old.spare }
        ensures added { self.new.extents ≡ self.old.extents ++ extent ∷ [] }
        ensures spare { self.old.spare ≤ self.new.spare + 1 }
        ensures room { length self.old.extents + self.old.spare ≤ length self.new.extents + self.new.spare }
    {
        self.kept.push_reserved(extent);
    }

    /// The index of the first extent in which the range of `bytes` bytes from `start` on lies; None exactly
    /// where it lies in none.
    pub fn holder_of(&self, start: u64, bytes: u64) -> Option<usize>
        ensures { result ≡ holder_of start bytes self.now.extents }
    {
        self.kept
            .iter()
            .position(|extent| has_range_in(extent, start, bytes))
    }

    /// Whether an extent overlaps the range of `bytes` bytes from `start` on.
    ///
    /// A range of no bytes overlaps the extents that have addresses on both sides of it.
    pub fn overlaps(&self, start: u64, bytes: u64) -> bool
        ensures { result ≡ list_any (shares_range start bytes) self.now.extents }
    {
        self.kept
            .iter()
            .any(|extent| shares_range_with(extent, start, bytes))
    }

    /// Puts in place of the first extent in which the range lies what remains of it, the lower piece first.
    ///
    /// The range is `bytes` bytes from `start` on, and ends below 2^64, or that extent ends at 2^64 or below: else
    /// what remains above would begin at no address. The pieces keep the extent's tag and sequence. At
    /// `TooMany(n)`, which comes exactly where the list would have n extents and n is above `most`, nothing
    /// changes. Takes no memory, and uses one of the spare.
    pub fn cut(&mut self, start: u64, bytes: u64, most: usize) -> Result<(), TooMany>
        requires spare { 0 < self.old.spare }
        requires held { IsSome (holder_of start bytes self.old.extents) }
        requires in_addresses { IsCutInAddresses start bytes self.old.extents }
        ensures cut { OnOk result (self.new.extents ≡ cut start bytes self.old.extents) }
        ensures within { OnOk result (length self.new.extents ≤ most) }
        ensures too_many { IfErr result (λ fault. fault.0 ≡ length (cut start bytes self.old.extents)) }
        ensures above { IfErr result (λ fault. most < fault.0) }
        ensures unchanged { OnErr result (self.new ≡ self.old) }
        ensures spare { self.old.spare ≤ self.new.spare + 1 }
    {
        match self.holder_of(start, bytes) {
            Some(index) => replace_at(&mut self.kept, index, start, bytes, most),
            None => unreachable!(),
        }
    }

    /// How many extents there are once the range is cut out, which lies first in the extent at the index.
    pub fn len_without_at(&self, index: usize, start: u64, bytes: u64) -> usize
        requires index { holder_of start bytes self.now.extents ≡ Some index }
        requires in_addresses { IsCutInAddresses start bytes self.now.extents }
        ensures value { result ≡ length (cut start bytes self.now.extents) }
        ensures few { result ≤ length self.now.extents + 1 }
    {
        len_cut_at(&self.kept, index, start, bytes)
    }

    /// Cuts these extents out one after another, each where it lies in one of the list when its turn comes. Takes no
    /// memory, and uses one of the spare for each extent more.
    pub fn cut_all(&mut self, leaving: &[Extent])
        requires spare { length leaving.now ≤ self.old.spare }
        requires ends { All (λ x. x.start + x.length < 2 ^ 64) leaving.now }
        ensures cut { self.new.extents ≡ cut_all leaving.now self.old.extents }
        ensures room { length self.old.extents + self.old.spare ≤ length self.new.extents + self.new.spare }
    {
        let whole = whole_in_front(self.kept.as_slice(), leaving);
        drop_front(&mut self.kept, whole);
        let (_, rest) = leaving.split_at(whole);
        self.cut_each(rest);
    }

    /// Cuts these extents out one after another, those first that are the last of the list.
    fn cut_each(&mut self, leaving: &[Extent])
        requires spare { length leaving.now ≤ self.old.spare }
        requires ends { All (λ x. x.start + x.length < 2 ^ 64) leaving.now }
        ensures cut { self.new.extents ≡ cut_all leaving.now self.old.extents }
        ensures room { length self.old.extents + self.old.spare ≤ length self.new.extents + self.new.spare }
    {
        let apart = leaving.len() > 1 && stand_apart(self.kept.as_slice());
        let whole = whole_at_back(self.kept.as_slice(), leaving, apart);
        drop_back(&mut self.kept, whole);
        let (_, rest) = leaving.split_at(whole);
        self.cut_one_by_one(rest, apart);
    }

    /// Cuts these extents out one after another. Where the list is known to stand `apart`, each is looked for beside the
    /// last one at first.
    fn cut_one_by_one(&mut self, leaving: &[Extent], apart: bool)
        requires spare { length leaving.now ≤ self.old.spare }
        requires ends { All (λ x. x.start + x.length < 2 ^ 64) leaving.now }
        requires apart { apart ≡ true → StandApart self.old.extents }
        ensures cut { self.new.extents ≡ cut_all leaving.now self.old.extents }
        ensures room { length self.old.extents + self.old.spare ≤ length self.new.extents + self.new.spare }
    {
        let mut near = 0;
        for extent in leaving {
            self.cut_where_held(extent, apart, &mut near);
        }
    }

    /// Cuts an extent out where it lies in one of the list.
    ///
    /// Where the list is known to stand `apart`, that one is looked for at `near` first, which then becomes its index.
    fn cut_where_held(&mut self, extent: &Extent, apart: bool, near: &mut usize)
        requires spare { 0 < self.old.spare }
        requires ends { extent.now.start + extent.now.length < 2 ^ 64 }
        requires apart { apart ≡ true → StandApart self.old.extents }
        ensures cut { self.new.extents ≡ cut extent.now.start extent.now.length self.old.extents }
        ensures spare { self.old.spare ≤ self.new.spare + 1 }
        ensures room { length self.old.extents + self.old.spare ≤ length self.new.extents + self.new.spare }
        ensures apart { apart ≡ true → StandApart self.new.extents }
    {
        match self.holder_from(extent, apart, *near) {
            None => (),
            Some(index) => {
                *near = index;
                match replace_at(
                    &mut self.kept,
                    index,
                    extent.start,
                    extent.length,
                    usize::MAX,
                ) {
                    Ok(()) => (),
                    Err(_) => unreachable!(),
                }
            }
        }
    }

    /// The index of the first extent of the list in which this one lies.
    ///
    /// Where the list is known to stand `apart`, it is looked for beside the index `near` first.
    fn holder_from(&self, extent: &Extent, apart: bool, near: usize) -> Option<usize>
        requires { apart ≡ true → StandApart self.now.extents }
        ensures { result ≡ holder_of extent.now.start extent.now.length self.now.extents }
    {
        if apart && extent.length > 0 {
            if let Some(index) = holder_beside(self.as_slice(), near, extent) {
                return Some(index);
            }
        }
        self.holder_of(extent.start, extent.length)
    }

    /// The extents from the index `first` on, without copying: `count` of them, or all where there are fewer.
    pub fn part(&self, first: usize, count: usize) -> &[Extent]
        ensures { result.now ≡ take count (drop first self.now.extents) }
    {
        let (_, rest) = self.kept.as_slice().split_at(first.min(self.kept.len()));
        let (page, _) = rest.split_at(count.min(rest.len()));
        page
    }

    /// Appends the extents from the index `first` on to `out`: `count` of them, or all where there are fewer.
    ///
    /// Without memory `out` is as it was.
    pub fn page(&self, first: usize, count: usize, out: &mut Extents) -> Result<(), NoMemory>
        ensures appended { OnOk result (out.new ≡ out.old ++ take count (drop first self.now.extents)) }
        ensures kept { OnErr result (out.new ≡ out.old) }
    {
        out.extend_from_slice(self.part(first, count))
    }
}

/// How many of the extents that leave are the first of the list, whole and in order.
fn whole_in_front(kept: &[Extent], leaving: &[Extent]) -> usize
    ensures kept { result ≤ length kept.now }
    ensures leaving { result ≤ length leaving.now }
    ensures cut { cut_all leaving.now kept.now ≡ cut_all (drop result leaving.now) (drop result kept.now) }
{
    let most = kept.len().min(leaving.len());
    for i in 0..most {
        if kept[i].start != leaving[i].start || kept[i].length != leaving[i].length {
            return i;
        }
    }
    most
}

/// How many of the extents that leave are the last of the list, whole and from the last one on, where the list is known to
/// stand `apart`.
fn whole_at_back(kept: &[Extent], leaving: &[Extent], apart: bool) -> usize
    requires { apart ≡ true → StandApart kept.now }
    ensures kept { result ≤ length kept.now }
    ensures leaving { result ≤ length leaving.now }
    ensures cut { cut_all leaving.now kept.now ≡ cut_all (drop result leaving.now) (take (length kept.now - result) kept.now) }
{
    if !apart {
        return 0;
    }
    let most = kept.len().min(leaving.len());
    for i in 0..most {
        if !is_whole(&kept[kept.len() - 1 - i], &leaving[i]) {
            return i;
        }
    }
    most
}

/// Whether an extent that leaves has all addresses of this one, and some.
fn is_whole(extent: &Extent, leaving: &Extent) -> bool
    ensures { result ≡ true → (0 < leaving.now.length) × (leaving.now.start ≡ extent.now.start) × (leaving.now.length ≡ extent.now.length) }
{
    leaving.length > 0 && leaving.start == extent.start && leaving.length == extent.length
}

/// An extent of the list in which this one lies, at the index `near` or beside it.
fn holder_beside(kept: &[Extent], near: usize, extent: &Extent) -> Option<usize>
    ensures known { IfSome result (λ index. index < length kept.now) }
    ensures holder { IfSome result (λ index. (d : Extent) → IsTrue (has_range extent.now.start extent.now.length (slice_index_or kept.now index d))) }
{
    let to = near.saturating_add(2).min(kept.len());
    for index in near.saturating_sub(1)..to {
        if has_range_in(&kept[index], extent.start, extent.length) {
            return Some(index);
        }
    }
    None
}

/// Lets so many extents go from the front.
fn drop_front(kept: &mut Vec<Extent>, count: usize)
    requires { count ≤ vec_len kept.old }
    ensures items { kept.new.items ≡ drop count kept.old.items }
    ensures len { vec_len kept.new + count ≡ vec_len kept.old }
    ensures capacity { vec_capacity kept.new ≡ vec_capacity kept.old }
{
    let len = kept.len();
    if count > 0 {
        kept.copy_within(count..len, 0);
        kept.truncate(len - count);
    }
}

/// Lets so many extents go from the back.
fn drop_back(kept: &mut Vec<Extent>, count: usize)
    requires { count ≤ vec_len kept.old }
    ensures items { kept.new.items ≡ take (length kept.old.items - count) kept.old.items }
    ensures len { vec_len kept.new + count ≡ vec_len kept.old }
    ensures capacity { vec_capacity kept.new ≡ vec_capacity kept.old }
{
    let len = kept.len();
    kept.truncate(len - count);
}

/// Puts the pieces in place of the extent at the index, the lower one first. Only where there are none or two, those
/// behind are moved.
fn append_pieces(kept: &mut Vec<Extent>, index: usize, lower: Option<Extent>, upper: Option<Extent>)
    requires index { index < vec_len kept.old }
    requires spare { vec_len kept.old < vec_capacity kept.old }
    ensures put { kept.new.items ≡ take index kept.old.items ++ (option_to_list lower ++ option_to_list upper ++ drop (suc index) kept.old.items) }
    ensures len { vec_len kept.new + 1 ≡ vec_len kept.old + length (option_to_list lower) + length (option_to_list upper) }
    ensures capacity { vec_capacity kept.old ≤ vec_capacity kept.new }
{
    match (lower, upper) {
        (None, None) => {
            kept.remove(index);
        }
        (Some(piece), None) => kept[index] = piece,
        (None, Some(piece)) => kept[index] = piece,
        (Some(lower), Some(upper)) => {
            kept[index] = lower;
            let _ = kept.insert(index + 1, upper);
        }
    }
}

/// How many extents there are once what remains of the one at the index without the range has taken its place.
fn len_cut_at(kept: &Vec<Extent>, index: usize, start: u64, bytes: u64) -> usize
    requires index { holder_of start bytes kept.now.items ≡ Some index }
    requires in_addresses { IsCutInAddresses start bytes kept.now.items }
    ensures value { result ≡ length (cut start bytes kept.now.items) }
    ensures few { result ≤ length kept.now.items + 1 }
{
    let extent = kept[index];
    let lower = lower_piece(&extent, start);
    let upper = upper_piece(&extent, start, bytes);
    kept.as_slice().len() - 1 + count_of(&lower) + count_of(&upper)
}

/// Replaces the extent at the index by what remains of it without the range, unless the list gets too long.
fn replace_at(
    kept: &mut Vec<Extent>,
    index: usize,
    start: u64,
    bytes: u64,
    most: usize,
) -> Result<(), TooMany>
    requires index { holder_of start bytes kept.old.items ≡ Some index }
    requires spare { vec_len kept.old < vec_capacity kept.old }
    requires in_addresses { IsCutInAddresses start bytes kept.old.items }
    ensures cut { OnOk result (kept.new.items ≡ cut start bytes kept.old.items) }
    ensures within { OnOk result (length kept.new.items ≤ most) }
    ensures too_many { IfErr result (λ fault. fault.0 ≡ length (cut start bytes kept.old.items)) }
    ensures above { IfErr result (λ fault. most < fault.0) }
    ensures unchanged { OnErr result (kept.new ≡ kept.old) }
    ensures spare { vec_capacity kept.old + vec_len kept.new ≤ vec_capacity kept.new + vec_len kept.old + 1 }
    ensures capacity { vec_capacity kept.old ≤ vec_capacity kept.new }
{
    let extent = kept[index];
    let lower = lower_piece(&extent, start);
    let upper = upper_piece(&extent, start, bytes);
    let len = kept.as_slice().len() - 1 + count_of(&lower) + count_of(&upper);
    if len > most {
        return Err(TooMany(len));
    }
    append_pieces(kept, index, lower, upper);
    Ok(())
}
