//! Lines of a script, read word by word.

ghost use Rattle.std.specs.Prelude.{◌≡◌};
ghost use Rattle.text_lines.specs.Fields.{GivesWords, GivesLast};
ghost use Rattle.text_lines.specs.Lines.{actor_line_ahead, host_act_ahead, host_rest_ahead, host_word as host_word_said, load_ahead, manager_act_ahead, manager_word as manager_word_said, opened_ahead, opening_ahead, opening_of_word as opening_said, rest_ahead, scrub_ahead, speaker_act_ahead, store_ahead};

use crate::Words;
use crate::actors::{Frame, Speaker, actor_of_word};
use crate::commands::{ManagerCommand, host_command, manager_command};
use crate::faults::{Cause, TextFault, Wanted};
use crate::fields::{end, number, one_word};
use crate::messages::{command, host_asked, line_by, manager_asked};
use crate::openings::{HostWord, Opening};
use dcd_base::Actor;
use journal_core::Act;
use script_codec::Line;
use std::alloc::Global;

/// What the first word of a line begins.
#[tactic(auto, unfolding(crate::specs::Lines::opening_of_word))]
fn opening_of_word(frame: Frame, word: &[u8]) -> Result<Opening, Cause>
    ensures { result ≡ opening_said frame word.now }
{
    if word == b"mark".as_slice() {
        return Ok(Opening::Mark);
    }
    if word == b"scrub".as_slice() {
        return Ok(Opening::Scrub);
    }
    if word == b"command".as_slice() {
        return Ok(Opening::Command);
    }
    match actor_of_word(frame, Wanted::Line, word) {
        Ok(speaker) => Ok(Opening::By(speaker)),
        Err(cause) => Err(cause),
    }
}

/// The first word of a line.
#[tactic(auto, unfolding(crate::specs::Lines::opening_ahead))]
pub fn opening(words: &mut Words<'_>, frame: Frame) -> Result<Opening, TextFault>
    ensures { GivesWords (λ opening. opening) result words.new (opening_ahead frame words.old) }
{
    let read = opening_of_word(frame, words.next());
    one_word(words, Wanted::Line, read)
}

/// What a host does.
#[tactic(auto, unfolding(crate::specs::Lines::host_word))]
fn host_word(word: &[u8]) -> Result<HostWord, Cause>
    ensures { result ≡ host_word_said word.now }
{
    if word == b"load".as_slice() {
        return Ok(HostWord::Load);
    }
    if word == b"store".as_slice() {
        return Ok(HostWord::Store);
    }
    match host_command(word) {
        Some(command) => Ok(HostWord::Ask(command)),
        None => Err(Cause::Wanted(Wanted::HostCommand)),
    }
}

/// A load: the DPA.
#[tactic(auto, unfolding(crate::specs::Lines::load_ahead))]
fn load(words: &mut Words<'_>) -> Result<Act, TextFault>
    ensures { GivesWords (λ act. act) result words.new (load_ahead words.old) }
{
    let dpa = number(words, u64::MAX)?;
    Ok(Act::Load(dpa))
}

/// A store: the DPA and the word.
#[tactic(auto, unfolding(crate::specs::Lines::store_ahead))]
fn store(words: &mut Words<'_>) -> Result<Act, TextFault>
    ensures { GivesWords (λ act. act) result words.new (store_ahead words.old) }
{
    let dpa = number(words, u64::MAX)?;
    let value = number(words, u64::MAX)?;
    Ok(Act::Store(dpa, value))
}

/// What stands behind what a host does.
fn host_rest(alloc: Global, name: HostWord, words: &mut Words<'_>) -> Result<Act, TextFault>
    ensures { GivesWords (λ act. act) result words.new (host_rest_ahead name words.old) }
{
    match name {
        HostWord::Load => load(words),
        HostWord::Store => store(words),
        HostWord::Ask(command) => host_asked(alloc, command, words),
    }
}

/// What a host does, and what stands behind that.
#[tactic(auto, unfolding(crate::specs::Lines::host_act_ahead))]
fn host_act(alloc: Global, words: &mut Words<'_>) -> Result<Act, TextFault>
    ensures { GivesWords (λ act. act) result words.new (host_act_ahead words.old) }
{
    let read = host_word(words.next());
    let name = one_word(words, Wanted::HostCommand, read)?;
    host_rest(alloc, name, words)
}

/// The command of the manager that was read.
fn manager_word(command: Option<ManagerCommand>) -> Result<ManagerCommand, Cause>
    ensures { result ≡ manager_word_said command }
{
    match command {
        Some(command) => Ok(command),
        None => Err(Cause::Wanted(Wanted::ManagerCommand)),
    }
}

/// What the manager does.
#[tactic(auto, unfolding(crate::specs::Lines::manager_act_ahead))]
fn manager_act(alloc: Global, words: &mut Words<'_>) -> Result<Act, TextFault>
    ensures { GivesWords (λ act. act) result words.new (manager_act_ahead words.old) }
{
    let read = manager_word(manager_command(words.next()));
    let name = one_word(words, Wanted::ManagerCommand, read)?;
    manager_asked(alloc, name, words)
}

/// A turn of the sanitizer.
#[tactic(auto, unfolding(crate::specs::Lines::scrub_ahead))]
fn scrub(words: &mut Words<'_>) -> Result<Line, TextFault>
    ensures { GivesWords (λ line. line) result words.new (scrub_ahead words.old) }
{
    let most = number(words, 65535)? as u16;
    let actor = Actor::Sanitizer;
    let act = Act::Scrub(most);
    Ok(Line::Do {
        actor,
        lane: 0,
        act,
    })
}

/// What an actor does.
fn speaker_act(alloc: Global, speaker: Speaker, words: &mut Words<'_>) -> Result<Act, TextFault>
    ensures { GivesWords (λ act. act) result words.new (speaker_act_ahead speaker words.old) }
{
    match speaker {
        Speaker::Host { .. } => host_act(alloc, words),
        Speaker::Manager => manager_act(alloc, words),
    }
}

/// The line of what an actor does.
#[tactic(auto, unfolding(crate::specs::Lines::actor_line_ahead))]
fn actor_line(alloc: Global, speaker: Speaker, words: &mut Words<'_>) -> Result<Line, TextFault>
    ensures { GivesWords (λ line. line) result words.new (actor_line_ahead speaker words.old) }
{
    let act = speaker_act(alloc, speaker, words)?;
    Ok(line_by(speaker, act))
}

/// What stands behind what opens a line.
fn opened(
    alloc: Global,
    frame: Frame,
    opening: Opening,
    words: &mut Words<'_>,
) -> Result<Line, TextFault>
    ensures { GivesWords (λ line. line) result words.new (opened_ahead frame opening words.old) }
{
    match opening {
        Opening::Mark => Ok(Line::Mark),
        Opening::Scrub => scrub(words),
        Opening::Command => command(alloc, words, frame),
        Opening::By(speaker) => actor_line(alloc, speaker, words),
    }
}

/// The rest of a line behind what opens it, up to its end.
#[tactic(auto, unfolding(crate::specs::Lines::rest_ahead))]
pub fn rest(
    alloc: Global,
    frame: Frame,
    opening: Opening,
    words: &mut Words<'_>,
) -> Result<Line, TextFault>
    ensures { GivesLast (λ line. line) result (rest_ahead frame opening words.old) }
{
    let line = opened(alloc, frame, opening, words)?;
    end(words)?;
    Ok(line)
}
