//! Effects that have no extents, read from where they are.

ghost use Rattle.kept_journal.specs.Tokens.{IsAlone, effects_told, without_extents};
ghost use Rattle.std.specs.Prelude.{◌≡◌, [], ◌∷◌, MatchOption};

use crate::gathering::next_alone;
use crate::reading::Tokens;
use journal_core::Effect;
use std::marker::Model;

/// Effects without extents, one after another: all but offers, answers and held lists. Contracts see those that are still to come.
#[derive(Debug, Drop)]
pub struct WithoutExtents<'a> {
    listed: &'a [Effect],
    /// Those behind the listed ones.
    tokens: Tokens<'a>,
}

impl<'a> Model for WithoutExtents<'a> {
    ghost use Rattle.journal_core.specs.declared.outcome.Effect.{Effect};
    ghost use Rattle.kept_journal.specs.Tokens.{effect_alone, without_extents};
    ghost use Rattle.std.specs.Prelude.{◌++◌, List, filter_map};

    ghost Value = { List Effect };

    ghost view = { λ w. without_extents w.listed.now ++ filter_map effect_alone w.tokens };
}

impl WithoutExtents<'_> {
    /// Those among some effects.
    pub fn among(effects: &[Effect]) -> WithoutExtents<'_>
        ensures { result ≡ without_extents effects.now }
    {
        WithoutExtents {
            listed: effects,
            tokens: Tokens::new(&[]),
        }
    }

    /// Those that these bytes tell.
    pub(crate) fn told_by(bytes: &[u8]) -> WithoutExtents<'_>
        ensures { result ≡ without_extents (effects_told bytes.now) }
    {
        WithoutExtents {
            listed: &[],
            tokens: Tokens::new(bytes),
        }
    }

    /// The next one, or none behind the last.
    pub fn next(&mut self) -> Option<Effect>
        ensures { MatchOption result (self.old ≡ []) (λ effect. self.old ≡ effect ∷ self.new) }
    {
        let listed = self.listed;
        match next_listed(listed) {
            Some((effect, rest)) => {
                self.listed = rest;
                Some(effect)
            }
            None => {
                self.listed = &[];
                next_alone(&mut self.tokens)
            }
        }
    }
}

/// The first of the effects that has no extents, and those behind it.
fn next_listed(effects: &[Effect]) -> Option<(Effect, &[Effect])>
    ensures { MatchOption result (without_extents effects.now ≡ [])
        (λ found. without_extents effects.now ≡ found.0 ∷ without_extents found.1.now) }
{
    let mut left = effects;
    while let Some((first, rest)) = left.split_first() {
        if let Some(effect) = alone(first) {
            return Some((effect, rest));
        }
        left = rest;
    }
    None
}

/// An equal effect, if it is one without extents.
fn alone(effect: &Effect) -> Option<Effect>
    ensures { IsAlone effect.now result }
{
    match effect {
        Effect::Offer(_, _) | Effect::Answer(_, _) | Effect::Hold(_, _, _) => None,
        Effect::Take(host, run) => Some(Effect::Take(*host, *run)),
        Effect::Leave(host, run) => Some(Effect::Leave(*host, *run)),
        Effect::Zero(run) => Some(Effect::Zero(*run)),
        Effect::Soil(run) => Some(Effect::Soil(*run)),
        Effect::Unhold(host, kind) => Some(Effect::Unhold(*host, *kind)),
        Effect::Logged(log, event) => Some(Effect::Logged(*log, *event)),
        Effect::Missed(log) => Some(Effect::Missed(*log)),
        Effect::Cleared(log, count) => Some(Effect::Cleared(*log, *count)),
        Effect::Reset(log) => Some(Effect::Reset(*log)),
        Effect::Ref(tag, is_on) => Some(Effect::Ref(*tag, *is_on)),
        Effect::TagEnd(tag) => Some(Effect::TagEnd(*tag)),
        Effect::Block(region, size) => Some(Effect::Block(*region, *size)),
    }
}
