//! The policies of adds and of releases.

ghost use Rattle.std.specs.Prelude.{◌≡◌, ◌<◌, IfOk, IfSome};
ghost use Rattle.text_lines.specs.Fields.{GivesWords};
ghost use Rattle.text_lines.specs.Policies.{add_name_ahead, add_policy_ahead, add_policy_said, named_flags_ahead, policy_or, release_flags as flags_of, release_flags_ahead, release_name_ahead, release_policy_said};

use crate::Words;
use crate::faults::{Cause, TextFault, Wanted};
use crate::fields::{begins, flag, number, one_word};
use crate::keywords::Keyword;

/// The policy of an add that a word names.
#[tactic(auto, unfolding(crate::specs::Policies::add_policy_said))]
fn add_policy_of(word: &[u8]) -> Option<u8>
    ensures { result ≡ add_policy_said word.now }
{
    if word == b"free".as_slice() {
        Some(0)
    } else if word == b"contiguous".as_slice() {
        Some(1)
    } else if word == b"prescriptive".as_slice() {
        Some(2)
    } else if word == b"enable-shared-access".as_slice() {
        Some(3)
    } else {
        None
    }
}

/// The policy of a release that a word names.
#[tactic(auto, unfolding(crate::specs::Policies::release_policy_said))]
fn release_policy_of(word: &[u8]) -> Option<u8>
    ensures value { result ≡ release_policy_said word.now }
    ensures small { IfSome result (λ policy. policy < 2) }
{
    if word == b"tag-based".as_slice() {
        Some(0)
    } else if word == b"prescriptive".as_slice() {
        Some(1)
    } else {
        None
    }
}

/// The policy that was read.
fn told_policy(wanted: Wanted, policy: Option<u8>) -> Result<u8, Cause>
    ensures { result ≡ policy_or wanted policy }
{
    match policy {
        Some(policy) => Ok(policy),
        None => Err(Cause::Wanted(wanted)),
    }
}

/// A policy by its name.
fn named_policy(words: &mut Words<'_>) -> Result<u8, TextFault>
    ensures { GivesWords (λ policy. policy) result words.new (add_name_ahead words.old) }
{
    let read = told_policy(Wanted::AddPolicy, add_policy_of(words.next()));
    one_word(words, Wanted::AddPolicy, read)
}

/// The policy of an add, by its name or its number.
#[tactic(auto, unfolding(crate::specs::Policies::add_policy_ahead))]
pub fn add_policy(words: &mut Words<'_>) -> Result<u8, TextFault>
    ensures { GivesWords (λ policy. policy) result words.new (add_policy_ahead words.old) }
{
    if !begins(words, Keyword::Policy) {
        return named_policy(words);
    }
    words.advance();
    Ok(number(words, 255)? as u8)
}

/// The policy of a release by its name.
fn release_name(words: &mut Words<'_>) -> Result<u8, TextFault>
    ensures value { GivesWords (λ policy. policy) result words.new (release_name_ahead words.old) }
    ensures small { IfOk result (λ policy. policy < 2) }
{
    let read = told_policy(Wanted::ReleasePolicy, release_policy_of(words.next()));
    one_word(words, Wanted::ReleasePolicy, read)
}

/// The flags of a release: bits 3:0 are the policy, bit 4 forced, bit 5 sanitize.
fn release_flags_of(policy: u8, forced: bool, sanitize: bool) -> u8
    requires { policy < 2 }
    ensures { result ≡ flags_of policy forced sanitize }
{
    match (forced, sanitize) {
        (false, false) => policy,
        (true, false) => policy + 16,
        (false, true) => policy + 32,
        (true, true) => policy + 48,
    }
}

/// The policy by its name, and what is set.
#[tactic(auto, unfolding(crate::specs::Policies::named_flags_ahead))]
fn named_flags(words: &mut Words<'_>) -> Result<u8, TextFault>
    ensures { GivesWords (λ flags. flags) result words.new (named_flags_ahead words.old) }
{
    let policy = release_name(words)?;
    let forced = flag(words, Keyword::Forced);
    let sanitize = flag(words, Keyword::Sanitize);
    Ok(release_flags_of(policy, forced, sanitize))
}

/// The flags of a release, by the name of the policy or as a number.
#[tactic(auto, unfolding(crate::specs::Policies::release_flags_ahead))]
pub fn release_flags(words: &mut Words<'_>) -> Result<u8, TextFault>
    ensures { GivesWords (λ flags. flags) result words.new (release_flags_ahead words.old) }
{
    if !begins(words, Keyword::Flags) {
        return named_flags(words);
    }
    words.advance();
    Ok(number(words, 255)? as u8)
}
