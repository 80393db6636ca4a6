//! That the records of a journal have one spelling, as they are read. The calls do nothing.

ghost use Rattle.host_driver.specs.Running.{EndsSpelled};
ghost use Rattle.host_driver.specs.Spelling.{AreSpelled, AreSpelledIn, IsSpelledIn};
ghost use Rattle.journal_core.specs.declared.entries.Entry.{Entry};
ghost use Rattle.std.specs.Prelude.{◌≡◌, ◌++◌, ◌∷◌, [], List};

use device_plain::Device;
use device_plain::kept_journal::{KeptEntries, WithoutExtents};
use event_records::law_event_is_spelled;
use journal_core::{Effect, Effects, Entry};

/// The bytes of each record that went into a log are its one spelling.
pub(crate) fn are_spelled(journal: &[Entry])
    ensures { AreSpelled journal.now }
{
    for entry in journal {
        effects_are_spelled(&entry.effects);
    }
}

/// So are those of the effects of one entry.
fn effects_are_spelled(effects: &Effects)
    ensures { AreSpelledIn effects.now }
{
    left_are_spelled(WithoutExtents::among(effects.as_slice()));
}

/// So are those of effects that are lent one after another.
fn left_are_spelled(effects: WithoutExtents<'_>)
    ensures { AreSpelledIn effects.entry }
{
    let mut left = effects;
    while let Some(effect) = left.next() {
        is_spelled(&effect);
    }
}

/// So are those of one effect.
fn is_spelled(effect: &Effect)
    ensures { IsSpelledIn effect.now }
{
    match effect {
        Effect::Logged(_, event) => law_event_is_spelled(event),
        _ => (),
    }
}

/// The records that the last of these entries put into logs are spelled as they are read.
fn last_is_spelled(entries: &KeptEntries)
    ensures { (before : List Entry) (e : Entry) → entries.now.entries ≡ before ++ e ∷ [] → AreSpelledIn e.effects }
{
    match entries.last() {
        Some(entry) => left_are_spelled(entry.effects_without_extents()),
        None => (),
    }
}

/// The journal of a device is legal, and the records that its last entry put into logs are spelled as they are read.
pub(crate) fn ends_spelled(device: &Device)
    ensures { EndsSpelled device.now }
{
    let _journal = device.journal();
    last_is_spelled(device.control().entries());
}
