//! The lines of a phase, parted by pass in one sweep.

ghost use Rattle.std.specs.List.{list_all};
ghost use Rattle.std.specs.Prelude.{◌≡◌, ◌==◌, ◌<◌, ◌≤◌, ◌+◌, ◌*◌, IfOk, IsTrue, drop, length, slice_index, suc, take};
ghost use Rattle.script_codec.specs.Scripts.{is_sound_line};
ghost use Rattle.workers.specs.Worklists.{ArePartedFrom};

use dcd_base::NoMemory;
use script_codec::{Line, pass_of};
use std::alloc::Global;

#[derive(Clone, Copy)]
pub(crate) struct PhaseLines<'a> {
    /// How many hosts and lanes the lines may name.
    pub(crate) hosts: u8,
    pub(crate) lanes: u8,
    /// The number of the first line.
    pub(crate) first: u32,
    pub(crate) lines: &'a [Line],
}

/// The lines of a phase, and where those of each pass stand. A place is the index of a line; the number of lines is the place of
/// none.
#[derive(Drop)]
pub(crate) struct Worklist<'a> {
    pub(crate) phase: PhaseLines<'a>,
    /// For each pass the place of its first line.
    pub(crate) heads: Vec<usize>,
    /// For each line the place of the next one of its pass.
    pub(crate) next: Vec<usize>,
}

impl<'a> Worklist<'a> {
    /// The place of the first line of a pass.
    pub(crate) fn head_of(&self, pass: u32) -> usize
        requires { pass < length self.now.heads.items }
        ensures { result ≡ slice_index self.now.heads.items pass }
    {
        self.heads[pass as usize]
    }

    /// The place of the next line of the same pass.
    pub(crate) fn next_after(&self, place: usize) -> usize
        requires { place < length self.now.next.items }
        ensures { result ≡ slice_index self.now.next.items place }
    {
        self.next[place]
    }

    /// Whether none of so many passes has a line, the first of which has this number.
    pub(crate) fn are_idle(&self, first: u32, count: usize) -> bool
        requires { first + count ≤ length self.now.heads.items }
        ensures { result ≡ list_all (λ head. head == length self.now.phase.lines.now) (take count (drop first self.now.heads.items)) }
    {
        let (_, from) = self.heads.as_slice().split_at(first as usize);
        let (heads, _) = from.split_at(count);
        let none = self.phase.lines.len();
        heads.iter().all(|&head| head == none)
    }
}

/// Links a line before those that are parted already.
#[tactic(auto, using(crate::proofs::Parting::mark_linked))]
fn link(hosts: u8, lanes: u8, lines: &[Line], place: usize, heads: &mut [usize], next: &mut [usize])
    requires sound { IsTrue (list_all (is_sound_line hosts lanes) lines.now) }
    requires place { place < length lines.now }
    requires parted { ArePartedFrom hosts lanes lines.now (suc place) heads.old next.old }
    ensures { ArePartedFrom hosts lanes lines.now place heads.new next.new }
{
    match &lines[place] {
        Line::Do { actor, lane, .. } => {
            let pass = pass_of(hosts, lanes, actor, *lane) as usize;
            next[place] = heads[pass];
            heads[pass] = place;
        }
        Line::Mark => {}
    }
}

/// Links all lines, from the last to the first.
fn link_all(hosts: u8, lanes: u8, lines: &[Line], heads: &mut [usize], next: &mut [usize])
    requires sound { IsTrue (list_all (is_sound_line hosts lanes) lines.now) }
    requires parted { ArePartedFrom hosts lanes lines.now (length lines.now) heads.old next.old }
    ensures { ArePartedFrom hosts lanes lines.now 0 heads.new next.new }
{
    for place in (0..lines.len()).rev() {
        link(hosts, lanes, lines, place, heads, next);
    }
}

/// The lines of a phase parted by pass, of which there are so many.
#[tactic(auto, using(crate::proofs::Parting::none_parted))]
pub(crate) fn parted<'a>(
    alloc: Global,
    phase: &PhaseLines<'a>,
    passes: usize,
) -> Result<Worklist<'a>, NoMemory>
    requires sound { IsTrue (list_all (is_sound_line phase.now.hosts phase.now.lanes) phase.now.lines.now) }
    requires passes { passes ≡ phase.now.hosts * phase.now.lanes + 2 }
    ensures phase { IfOk result (λ work. work.phase ≡ phase.now) }
    ensures parted { IfOk result (λ work. ArePartedFrom phase.now.hosts phase.now.lanes phase.now.lines.now 0 work.heads.items work.next.items) }
{
    let count = phase.lines.len();
    let mut heads = vec![in alloc; count; passes]?;
    let mut next = vec![in alloc; count; count]?;
    link_all(
        phase.hosts,
        phase.lanes,
        phase.lines,
        heads.as_mut_slice(),
        next.as_mut_slice(),
    );
    Ok(Worklist {
        phase: *phase,
        heads,
        next,
    })
}
