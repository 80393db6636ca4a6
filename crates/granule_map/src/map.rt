//! The map from granules to states.

ghost use Rattle.granule_map.specs.Blocks.{IsArea, free_block_count, longest_free_run, lowest_run_in};
ghost use Rattle.granule_map.specs.StateLists.{count_of, dirty_from, is_dirty_at, is_dirty_state, is_free_at, is_free_state, part_of, with_run};
ghost use Rattle.granule_map.specs.Stretches.{IsNext, fails};
ghost use Rattle.std.specs.List.{list_all, prefix_len, range_with_len};
ghost use Rattle.std.specs.Prelude.{◌≡◌, ◌↔◌, ◌+◌, ◌-◌, ◌<◌, ◌≤◌, IfOk, IsNone, OnErr, OnOk, Some, length, replicate, slice_get, slice_set, count_by, ◌++◌, take, drop};

use crate::blocks::{count_free_blocks, longest_run_of, lowest_block};
use crate::lowest::{lowest_after, next_behind};
use crate::marks::{next_other, next_with};
use crate::replacing::{Replaced, replace_both, write_tag};
use crate::states::{DIRTY, FREE, GranuleState, is_same_state, told};
use dcd_base::{Granule, NoMemory, Run, Tag};
use std::alloc::Global;
use std::marker::Model;

/// The states of granules 0, 1, 2 and so on.
///
/// Contracts see the list of states and its spare: where there is some, `set_run` takes no memory. A place is kept for
/// each granule, so there is always spare; `reserve` and the spare are there for callers that rest on no such thing.
///
/// A state is kept as a mark, a byte that says what it is, beside the host and the tag that it may name. Searches read the
/// marks alone, many at a time, so what a question costs goes by the runs that it passes and not by the granules in them.
/// No granule below `lowest` is free, so that a search for free ones passes by all of them at once.
#[derive(Debug, Drop)]
pub struct GranuleMap {
    alloc: Global,
    marks: Vec<u8>,
    hosts: Vec<u8>,
    tags: Vec<Tag>,
    lowest: u32,
}

impl Model for GranuleMap {
    ghost use Rattle.granule_map.specs.StateLists.{States};
    ghost use Rattle.granule_map.specs.Told.{IsKept, states_of};
    ghost use Rattle.std.specs.Prelude.{◌^◌, ◌-◌};

    ghost Value = { States };

    // A place is kept for each granule, so a change takes no memory and there is spare for any number of them.
    ghost view = { λ map. record { states = states_of map.marks.items map.hosts.items map.tags.items; spare = 2 ^ 64 - 1 } };

    ghost invariant = { λ map. IsKept map.marks.items map.hosts.items map.tags.items map.lowest };
}

impl GranuleMap {
    /// A map of so many granules, all free.
    pub fn new(alloc: Global, count: u32) -> Result<GranuleMap, NoMemory>
        ensures states { IfOk result (λ map. map.states ≡ replicate count GranuleState.Free) }
        ensures spare { IfOk result (λ map. 0 < map.spare) }
    {
        Ok(GranuleMap {
            alloc,
            marks: vec![in alloc; FREE; count as usize]?,
            hosts: vec![in alloc; 0u8; count as usize]?,
            tags: vec![in alloc; Tag([0; 16]); count as usize]?,
            lowest: 0,
        })
    }

    /// An equal map of its own.
    pub fn copy(&self) -> Result<GranuleMap, NoMemory>
        ensures { IfOk result (λ copy. copy.states ≡ self.now.states) }
    {
        Ok(GranuleMap {
            alloc: self.alloc,
            marks: Vec::from_slice(self.alloc, self.marks.as_slice())?,
            hosts: Vec::from_slice(self.alloc, self.hosts.as_slice())?,
            tags: Vec::from_slice(self.alloc, self.tags.as_slice())?,
            lowest: self.lowest,
        })
    }

    /// Makes the spare at least `n`. A new map has some. The states stay, and without memory the spare does too.
    pub fn reserve(&mut self, n: usize) -> Result<(), NoMemory>
        ensures room { OnOk result (n ≤ self.new.spare) }
        ensures states { self.new.states ≡ self.old.states }
        ensures spare { self.old.spare ≤ self.new.spare }
        ensures kept { OnErr result (self.new ≡ self.old) }
    {
        // Each granule has its place already, so no change wants memory, however many come.
        let _marks = &self.marks;
        let _changes = n;
        Ok(())
    }

    /// How many granules there are.
    pub fn len(&self) -> u32
        ensures { result ≡ length self.now.states }
    {
        self.marks.len() as u32
    }

    /// The state of a granule of the map.
    pub fn at(&self, granule: Granule) -> GranuleState
        requires { granule < length self.now.states }
        ensures { slice_get self.now.states granule ≡ Some result }
    {
        let place = granule.0 as usize;
        told(self.marks[place], self.hosts[place], &self.tags[place])
    }

    /// Gives each granule of the run this state. Takes no memory where there is spare, and leaves the spare.
    pub fn set_run(&mut self, run: Run, state: GranuleState)
        requires spare { 0 < self.old.spare }
        requires within { run.first + run.count ≤ length self.old.states }
        ensures states { self.new.states ≡ with_run self.old.states run state }
        ensures granules { length self.new.states ≡ length self.old.states }
        ensures spare { self.old.spare ≤ self.new.spare }
    {
        let _replaced = self.replace_run(run, state);
    }

    /// Gives each granule of the run this state, as `set_run` does, and counts those that were free and dirty before.
    #[inline(always)]
    pub fn replace_run(&mut self, run: Run, state: GranuleState) -> Replaced
        requires spare { 0 < self.old.spare }
        requires within { run.first + run.count ≤ length self.old.states }
        ensures states { self.new.states ≡ with_run self.old.states run state }
        ensures granules { length self.new.states ≡ length self.old.states }
        ensures spare { self.old.spare ≤ self.new.spare }
        ensures free { result.free ≡ count_by is_free_state (part_of self.old.states run) }
        ensures dirty { result.dirty ≡ count_by is_dirty_state (part_of self.old.states run) }
    {
        let _granules = self.len();
        let mark = state.mark();
        self.lowest = lowest_after(self.lowest, &run, mark);
        write_tag(self.tags.as_mut_slice(), &run, &state);
        replace_both(
            self.marks.as_mut_slice(),
            self.hosts.as_mut_slice(),
            &run,
            mark,
            state.host(),
        )
    }

    /// Gives one granule of the map this state. Takes no memory where there is spare, and leaves the spare.
    pub fn set(&mut self, granule: Granule, state: GranuleState)
        requires spare { 0 < self.old.spare }
        requires within { granule < length self.old.states }
        ensures states { self.new.states ≡ slice_set self.old.states granule state }
        ensures spare { self.old.spare ≤ self.new.spare }
    {
        let run = Run {
            first: granule,
            count: 1,
        };
        let _replaced = self.replace_run(run, state);
    }

    /// How many blocks of the area are free: blocks of `per_block` granules, from its first granule on.
    pub fn free_blocks(&self, area: Run, per_block: u32) -> u32
        requires { IsArea self.now.states area per_block }
        ensures { result ≡ free_block_count self.now.states area per_block }
    {
        count_free_blocks(self, &area, per_block)
    }

    /// The most free blocks of the area that lie together.
    pub fn longest(&self, area: Run, per_block: u32) -> u32
        requires { IsArea self.now.states area per_block }
        ensures { result ≡ longest_free_run self.now.states area per_block }
    {
        longest_run_of(self, &area, per_block)
    }

    /// The lowest place in the area where so many free blocks lie together, as a run of their granules.
    pub fn lowest_run(&self, area: Run, per_block: u32, blocks: u32) -> Option<Run>
        requires area { IsArea self.now.states area per_block }
        requires some { 0 < blocks }
        ensures lowest { result ≡ lowest_run_in self.now.states area per_block blocks }
        ensures none { IsNone result ↔ (longest_free_run self.now.states area per_block < blocks) }
    {
        // There are fewer than 2^32 granules, so that their numbers do not wrap.
        let _granules = self.len();
        match lowest_block(self, &area, per_block, blocks) {
            Some(k) => Some(Run {
                first: Granule(area.first.0 + k * per_block),
                count: blocks * per_block,
            }),
            None => None,
        }
    }

    /// Whether so many granules from the first on are free.
    pub fn are_free(&self, first: u32, count: u32) -> bool
        requires { first + count ≤ length self.now.states }
        ensures { result ≡ list_all (is_free_at self.now.states) (range_with_len first count) }
    {
        let _granules = self.len();
        self.next_taken(first, first + count) == first + count
    }

    /// How many granules are in the state: of the same host or tag, where it names one.
    pub fn count(&self, state: GranuleState) -> u32
        ensures { result ≡ count_of self.now.states state }
    {
        let mut count = 0;
        for granule in 0..self.len() {
            if is_same_state(&state, &self.at(Granule(granule))) {
                count += 1;
            }
        }
        count
    }

    /// The lowest dirty granule from the number `from` on; None exactly where none is dirty from there on.
    pub fn next_dirty(&self, from: u32) -> Option<Granule>
        ensures { result ≡ dirty_from self.now.states from }
    {
        let end = self.len();
        if from >= end {
            return None;
        }
        let dirty = self.next_dirty_below(from, end);
        if dirty < end {
            Some(Granule(dirty))
        } else {
            None
        }
    }

    /// How many granules are dirty from one on up to the first that is not, at most so many.
    pub fn dirty_run(&self, first: u32, most: u32) -> u32
        requires { first + most ≤ length self.now.states }
        ensures count { result ≡ prefix_len (is_dirty_at self.now.states) (range_with_len first most) }
        ensures few { result ≤ most }
    {
        let _granules = self.len();
        self.next_clean(first, first + most) - first
    }

    /// The lowest free granule from one on, or the end where none below it is free.
    pub(crate) fn next_free(&self, from: u32, end: u32) -> u32
        requires ordered { from ≤ end }
        requires within { end ≤ length self.now.states }
        ensures { IsNext (is_free_at self.now.states) from end result }
    {
        let _granules = self.len();
        next_behind(
            self.marks.as_slice(),
            FREE,
            self.lowest as usize,
            from as usize,
            end as usize,
        ) as u32
    }

    /// The lowest granule from one on that is not free, or the end where each below it is.
    pub(crate) fn next_taken(&self, from: u32, end: u32) -> u32
        requires ordered { from ≤ end }
        requires within { end ≤ length self.now.states }
        ensures { IsNext (fails (is_free_at self.now.states)) from end result }
    {
        let _granules = self.len();
        next_other(self.marks.as_slice(), FREE, from as usize, end as usize) as u32
    }

    /// The lowest dirty granule from one on, or the end where none below it is dirty.
    fn next_dirty_below(&self, from: u32, end: u32) -> u32
        requires ordered { from ≤ end }
        requires within { end ≤ length self.now.states }
        ensures { IsNext (is_dirty_at self.now.states) from end result }
    {
        let _granules = self.len();
        next_with(self.marks.as_slice(), DIRTY, from as usize, end as usize) as u32
    }

    /// The lowest granule from one on that is not dirty, or the end where each below it is.
    fn next_clean(&self, from: u32, end: u32) -> u32
        requires ordered { from ≤ end }
        requires within { end ≤ length self.now.states }
        ensures { IsNext (fails (is_dirty_at self.now.states)) from end result }
    {
        let _granules = self.len();
        next_other(self.marks.as_slice(), DIRTY, from as usize, end as usize) as u32
    }
}
