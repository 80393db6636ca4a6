//! The table of the granules.

ghost use Rattle.granule_map.specs.StateLists.{count_of};
ghost use Rattle.dcd_base.specs.Words.{has_granule};
ghost use Rattle.granule_map.specs.Parts.{between, flags_in, marked_unclean, with_part};
ghost use Rattle.granule_map.specs.Tables.{IsChanged, given, settled, soiled, zeroed};
ghost use Rattle.std.specs.Prelude.{◌≡◌, ◌+◌, ◌^◌, ◌<◌, ◌≤◌, ℕ, IfOk, IfSome, false, true, length, replicate, slice_index_or, if◌then◌else◌};

use crate::{GranuleMap, GranuleState, alike_from, are_few_alike, fill_few};
use dcd_base::{Granule, NoMemory, Run};
use std::alloc::Global;
use std::marker::Model;

/// So many flags are written at once.
const FEW: usize = 16;

/// The state of each granule, whether it has to be zeroed before it is free, and how many are free and dirty. The flags are
/// kept as bytes, 1 for true, so that many of them are read at a time.
#[derive(Drop)]
pub struct GranuleTable {
    map: GranuleMap,
    unclean: Vec<u8>,
    free: u32,
    dirty: u32,
}

impl Model for GranuleTable {
    ghost use Rattle.granule_map.specs.Counts.{IsCountOf};
    ghost use Rattle.granule_map.specs.Parts.{flags_in};
    ghost use Rattle.granule_map.specs.Tables.{CellTable};

    ghost Value = { CellTable };

    ghost view = { λ table. record { states = table.map.states; unclean = flags_in table.unclean.items } };

    ghost invariant = { λ table. IsCountOf table.map table.unclean.items table.free table.dirty };
}

impl GranuleTable {
    /// A table of so many granules, all free and none to be zeroed.
    pub fn new(alloc: Global, granules: u32) -> Result<GranuleTable, NoMemory>
        ensures states { IfOk result (λ table. table.states ≡ replicate granules GranuleState.Free) }
        ensures unclean { IfOk result (λ table. table.unclean ≡ replicate granules false) }
    {
        let map = GranuleMap::new(alloc, granules)?;
        Ok(GranuleTable {
            map,
            unclean: vec![in alloc; 0u8; granules as usize]?,
            free: granules,
            dirty: 0,
        })
    }

    /// The states alone, as the selection of free blocks reads them.
    pub fn states(&self) -> &GranuleMap
        ensures { result.now.states ≡ self.now.states }
    {
        &self.map
    }

    /// How many granules there are.
    pub fn len(&self) -> u32
        ensures len { result ≡ length self.now.states }
        ensures each { length self.now.unclean ≡ length self.now.states }
        ensures few { length self.now.states < 2 ^ 32 }
    {
        self.map.len()
    }

    /// How many granules are free.
    pub fn free(&self) -> u32
        ensures { result ≡ count_of self.now.states GranuleState.Free }
    {
        self.free
    }

    /// How many granules are dirty.
    pub fn dirty(&self) -> u32
        ensures { result ≡ count_of self.now.states GranuleState.Dirty }
    {
        self.dirty
    }

    /// Gives each granule of the run this state. Whether it has to be zeroed stays.
    #[inline(always)]
    pub fn give(&mut self, run: Run, state: GranuleState)
        ensures { IsChanged (given state) run self.old self.new }
    {
        let within = self.within(&run);
        self.set_states(&within, &state);
    }

    /// Makes each granule of the run dirty where it has to be zeroed, and free where it has not.
    pub fn settle(&mut self, run: Run)
        ensures { IsChanged settled run self.old self.new }
    {
        let within = self.within(&run);
        match flag_of_few(self.unclean.as_slice(), &within) {
            Some(unclean) => self.set_states(&within, &settled_state(unclean)),
            None => self.settle_each(&within),
        }
    }

    /// Each granule of the run has to be zeroed before it is free. Its state stays.
    pub fn soil(&mut self, run: Run)
        ensures { IsChanged soiled run self.old self.new }
    {
        let within = self.within(&run);
        self.set_unclean(&within, true);
    }

    /// Each granule of the run was zeroed: it is free, and has not to be zeroed any more.
    pub fn zero(&mut self, run: Run)
        ensures { IsChanged zeroed run self.old self.new }
    {
        let within = self.within(&run);
        self.set_unclean(&within, false);
        self.set_states(&within, &GranuleState::Free);
    }

    /// The granules of the run that are in the table.
    fn within(&self, run: &Run) -> Run
        ensures within { result.first + result.count ≤ length self.now.states }
        ensures same { (g : ℕ) → g < length self.now.states → has_granule result g ≡ has_granule run.now g }
    {
        let len = self.len();
        if u64::from(run.first.0) + u64::from(run.count) <= u64::from(len) {
            return *run;
        }
        let first = run.first.0.min(len);
        let end = run.first.0.saturating_add(run.count).min(len);
        run_between(first, end)
    }

    /// Gives each granule of a run of the table this state. A state that is known where this is called costs no test.
    #[inline(always)]
    fn set_states(&mut self, run: &Run, state: &GranuleState)
        requires { run.now.first + run.now.count ≤ length self.old.states }
        ensures changed { IsChanged (given state.now) run.now self.old self.new }
        ensures unclean { self.new.unclean ≡ self.old.unclean }
    {
        let was = self.map.replace_run(*run, *state);
        self.free = recounted(self.free, was.free, all_or_none(state.is_free(), run.count));
        self.dirty = recounted(
            self.dirty,
            was.dirty,
            all_or_none(state.is_dirty(), run.count),
        );
    }

    /// Each granule of a run of the table has to be zeroed from now on, or has not.
    fn set_unclean(&mut self, run: &Run, unclean: bool)
        requires { run.now.first + run.now.count ≤ length self.old.states }
        ensures changed { IsChanged (marked_unclean unclean) run.now self.old self.new }
        ensures states { self.new.states ≡ self.old.states }
    {
        fill_bytes(self.unclean.as_mut_slice(), run, byte_of(unclean));
    }

    /// Settles the granules of a run of the table, those that are alike at a time.
    #[inline(never)]
    fn settle_each(&mut self, run: &Run)
        requires { run.now.first + run.now.count ≤ length self.old.states }
        ensures { IsChanged settled run.now self.old self.new }
    {
        let _granules = self.len();
        let first = first_of(run);
        let end = end_of(run);
        let mut at = first;
        while at < end {
            let unclean = is_set(self.unclean.as_slice(), at as usize);
            let alike = like_from(
                self.unclean.as_slice(),
                unclean,
                at as usize,
                end as usize,
            ) as u32;
            self.set_states(&run_between(at, alike), &settled_state(unclean));
            at = alike;
        }
    }
}

/// The first granule of a run.
fn first_of(run: &Run) -> u32
    ensures { result ≡ run.now.first }
{
    run.first.0
}

/// The granule behind a run.
fn end_of(run: &Run) -> u32
    requires { run.now.first + run.now.count < 2 ^ 32 }
    ensures { result ≡ run.now.first + run.now.count }
{
    run.first.0 + run.count
}

/// The run from a granule up to the one before another.
fn run_between(first: u32, end: u32) -> Run
    ensures { result ≡ between first end }
{
    Run {
        first: Granule(first),
        count: end.saturating_sub(first),
    }
}

/// The state of a granule that nobody has: dirty where it has to be zeroed, and else free.
fn settled_state(unclean: bool) -> GranuleState
    ensures { result ≡ (if unclean then GranuleState.Dirty else GranuleState.Free) }
{
    if unclean {
        GranuleState::Dirty
    } else {
        GranuleState::Free
    }
}

/// All of so many, or none.
fn all_or_none(all: bool, count: u32) -> u32
    ensures { result ≡ (if all then count else 0) }
{
    if all { count } else { 0 }
}

/// A count once some of those that are counted were taken out, and others are counted.
fn recounted(count: u32, was: u32, is: u32) -> u32
    requires counted { was ≤ count }
    requires fits { count + is < 2 ^ 32 + was }
    ensures { result + was ≡ count + is }
{
    count - was + is
}

/// The byte that a flag is kept as.
fn byte_of(flag: bool) -> u8
    ensures { result ≡ (if flag then 1 else 0) }
{
    if flag { 1 } else { 0 }
}

fn is_set(flags: &[u8], place: usize) -> bool
    requires { place < length flags.now }
    ensures { slice_index_or (flags_in flags.now) place true ≡ result }
{
    flags[place] == 1
}

/// The flag of each place of a run, where they are few and all have the same.
#[inline(always)]
fn flag_of_few(flags: &[u8], run: &Run) -> Option<bool>
    requires { run.now.first + run.now.count ≤ length flags.now }
    ensures { IfSome result (λ flag. (k : ℕ) → run.now.first ≤ k → k < run.now.first + run.now.count → slice_index_or (flags_in flags.now) k true ≡ flag) }
{
    let first = run.first.0 as usize;
    if are_few_alike(flags, first, run.count as usize) {
        Some(is_set(flags, first))
    } else {
        None
    }
}

/// The first place from one on, but not that one itself, that has another flag, or the end where none below it has.
fn like_from(flags: &[u8], flag: bool, from: usize, end: usize) -> usize
    requires below { from < end }
    requires within { end ≤ length flags.now }
    requires here { slice_index_or (flags_in flags.now) from true ≡ flag }
    ensures later { from < result }
    ensures within { result ≤ end }
    ensures alike { (k : ℕ) → from ≤ k → k < result → slice_index_or (flags_in flags.now) k true ≡ flag }
{
    // The flag is the one at the first place.
    let _flag = flag;
    alike_from(flags, flags[from], from, end)
}

/// Makes each byte of the run this one.
fn fill_bytes(bytes: &mut [u8], run: &Run, byte: u8)
    requires { run.now.first + run.now.count ≤ length bytes.old }
    ensures { bytes.new ≡ with_part run.now byte bytes.old }
{
    let first = run.first.0 as usize;
    let count = run.count as usize;
    if count <= FEW {
        fill_few(bytes, first, count, byte);
    } else {
        bytes[first..first + count].fill(byte);
    }
}
