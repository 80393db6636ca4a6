//! Tokens to effects.

ghost use Rattle.kept_journal.specs.Gathering.{IsGathered};
ghost use Rattle.kept_journal.specs.Slots.{no_slots};
ghost use Rattle.kept_journal.specs.Tokens.{effect_alone, effects_from, tokens_in};
ghost use Rattle.kept_journal.specs.declared.tokens.Token.{Token};
ghost use Rattle.std.specs.Prelude.{◌≡◌, ◌++◌, [], ◌∷◌, IfOk, List, MatchOption, None, OnOk, filter_map};

use crate::reading::Tokens;
use crate::tokens::Token;
use dcd_base::{Extent, Extents, NoMemory};
use journal_core::{Effect, Effects};
use std::alloc::Global;
use std::mem::replace;

/// What a token does to the effects that are gathered.
#[derive(Debug, Drop)]
enum Step {
    /// One more extent waits.
    Wait(Extent),
    /// This effect ends.
    End(Effect),
}

/// The effects that the bytes tell.
pub(crate) fn effects_told(alloc: Global, bytes: &[u8]) -> Result<Effects, NoMemory>
    ensures { IfOk result (λ effects. effects ≡ effects_from [] (tokens_in no_slots None bytes.now)) }
{
    let mut tokens = Tokens::new(bytes);
    let mut effects = Effects::new(alloc);
    let mut waiting = Extents::new(alloc);
    while let Some(token) = tokens.next() {
        gather(&mut effects, &mut waiting, token)?;
    }
    Ok(effects)
}

/// Gathers one more token.
fn gather(effects: &mut Effects, waiting: &mut Extents, token: Token) -> Result<(), NoMemory>
    ensures { OnOk result ((tokens : List Token) → effects.old ++ effects_from waiting.old (token ∷ tokens) ≡ effects.new ++ effects_from waiting.new tokens) }
{
    match step_of(token, waiting) {
        Step::Wait(extent) => waiting.push(extent)?,
        Step::End(effect) => effects.push(effect)?,
    }
    Ok(())
}

/// What the token does; an effect that has extents takes those that wait.
fn step_of(token: Token, waiting: &mut Extents) -> Step
    ensures { IsGathered waiting.old token waiting.new result }
{
    match token {
        Token::More(extent) => Step::Wait(extent),
        Token::Offer(host) => Step::End(Effect::Offer(host, taken(waiting))),
        Token::Answer(host) => Step::End(Effect::Answer(host, taken(waiting))),
        Token::Hold(host, kind) => Step::End(Effect::Hold(host, kind, taken(waiting))),
        Token::Take(host, run) => Step::End(Effect::Take(host, run)),
        Token::Leave(host, run) => Step::End(Effect::Leave(host, run)),
        Token::Zero(run) => Step::End(Effect::Zero(run)),
        Token::Soil(run) => Step::End(Effect::Soil(run)),
        Token::Unhold(host, kind) => Step::End(Effect::Unhold(host, kind)),
        Token::Logged(log, event) => Step::End(Effect::Logged(log, event)),
        Token::Missed(log) => Step::End(Effect::Missed(log)),
        Token::Cleared(log, count) => Step::End(Effect::Cleared(log, count)),
        Token::Reset(log) => Step::End(Effect::Reset(log)),
        Token::Ref(tag, is_on) => Step::End(Effect::Ref(tag, is_on)),
        Token::TagEnd(tag) => Step::End(Effect::TagEnd(tag)),
        Token::Block(region, size) => Step::End(Effect::Block(region, size)),
    }
}

/// Takes all extents that wait.
fn taken(waiting: &mut Extents) -> Extents
    ensures taken { result ≡ waiting.old }
    ensures left { waiting.new ≡ [] }
{
    let none = Extents::new(waiting.allocator());
    replace(waiting, none)
}

/// The next effect without extents, or none behind the last.
pub(crate) fn next_alone(tokens: &mut Tokens<'_>) -> Option<Effect>
    ensures { MatchOption result (filter_map effect_alone tokens.old ≡ [])
        (λ effect. filter_map effect_alone tokens.old ≡ effect ∷ filter_map effect_alone tokens.new) }
{
    while let Some(token) = tokens.next() {
        if let Some(effect) = effect_alone(&token) {
            return Some(effect);
        }
    }
    None
}

/// The effect that the token is, if it is one without extents.
fn effect_alone(token: &Token) -> Option<Effect>
    ensures { result ≡ effect_alone token.now }
{
    match token {
        Token::More(_) | Token::Offer(_) | Token::Answer(_) | Token::Hold(_, _) => None,
        Token::Take(host, run) => Some(Effect::Take(*host, *run)),
        Token::Leave(host, run) => Some(Effect::Leave(*host, *run)),
        Token::Zero(run) => Some(Effect::Zero(*run)),
        Token::Soil(run) => Some(Effect::Soil(*run)),
        Token::Unhold(host, kind) => Some(Effect::Unhold(*host, *kind)),
        Token::Logged(log, event) => Some(Effect::Logged(*log, *event)),
        Token::Missed(log) => Some(Effect::Missed(*log)),
        Token::Cleared(log, count) => Some(Effect::Cleared(*log, *count)),
        Token::Reset(log) => Some(Effect::Reset(*log)),
        Token::Ref(tag, is_on) => Some(Effect::Ref(*tag, *is_on)),
        Token::TagEnd(tag) => Some(Effect::TagEnd(*tag)),
        Token::Block(region, size) => Some(Effect::Block(*region, *size)),
    }
}
