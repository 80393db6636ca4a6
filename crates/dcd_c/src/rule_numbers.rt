//! Rules as numbers, names and values.

ghost use Rattle.dcd_c.specs.RuleNumbers.{first_word, later_word, rule_number, rule_values, rule_word, value_count};
ghost use Rattle.std.specs.Prelude.{◌≡◌};

use dcd_codes::Rule;

/// The number of a rule, from 1 on.
#[tactic(auto, unfolding(crate::specs::RuleNumbers::rule_number))]
pub(crate) fn rule_number(rule: &Rule) -> u16
    ensures { result ≡ rule_number rule.now }
{
    match rule {
        Rule::UnknownOpcode(_) => 1,
        Rule::WrongLength { .. } => 2,
        Rule::NoSuchRegion(_) => 3,
        Rule::NoSuchHost(_) => 4,
        Rule::PastEnd { .. } => 5,
        Rule::NoSuchLog(_) => 6,
        Rule::UnknownHandle(_) => 7,
        Rule::OlderLeft(_) => 8,
        Rule::NotOverflowed => 9,
        Rule::TooManyListed(_) => 10,
        Rule::ZeroLength(_) => 11,
        Rule::OutsideRegion(_) => 12,
        Rule::Unaligned(_) => 13,
        Rule::NotOffered(_) => 14,
        Rule::NotAccepted(_) => 15,
        Rule::NotFree(_) => 16,
        Rule::Overlap { .. } => 17,
        Rule::NotWhole(_) => 18,
        Rule::TagIncomplete { .. } => 19,
        Rule::TooManyExtents(_) => 20,
        Rule::NoSuchPolicy(_) => 21,
        Rule::EmptyList => 22,
        Rule::NotShareable(_) => 23,
        Rule::ZeroTag => 24,
        Rule::TagInUse => 25,
        Rule::NoSuchTag => 26,
        Rule::AlreadyShared => 27,
        Rule::BadLength(_) => 28,
        Rule::TooFewFree { .. } => 29,
        Rule::TooManyTags(_) => 30,
        Rule::LogFull { .. } => 31,
        Rule::UnsupportedFlag => 32,
        Rule::NotSupportedSize(_) => 33,
        Rule::SanitizeDiffers => 34,
        Rule::RegionInUse(_) => 35,
        Rule::NoReference => 36,
    }
}

/// Its values, in the order in which it names them, and zeros behind them.
#[tactic(auto, unfolding(crate::specs::RuleNumbers::rule_values))]
pub(crate) fn rule_values(rule: &Rule) -> [u64; 3]
    ensures { result ≡ rule_values rule.now }
{
    match *rule {
        Rule::UnknownOpcode(n) => [u64::from(n), 0, 0],
        Rule::WrongLength { need, have } => [need, have, 0],
        Rule::NoSuchRegion(n) => [u64::from(n), 0, 0],
        Rule::NoSuchHost(n) => [u64::from(n), 0, 0],
        Rule::PastEnd { first, total } => [u64::from(first), u64::from(total), 0],
        Rule::NoSuchLog(n) => [u64::from(n), 0, 0],
        Rule::UnknownHandle(n) => [u64::from(n), 0, 0],
        Rule::OlderLeft(n) => [u64::from(n), 0, 0],
        Rule::NotOverflowed => [0, 0, 0],
        Rule::TooManyListed(n) => [n, 0, 0],
        Rule::ZeroLength(n) => [u64::from(n), 0, 0],
        Rule::OutsideRegion(n) => [u64::from(n), 0, 0],
        Rule::Unaligned(n) => [u64::from(n), 0, 0],
        Rule::NotOffered(n) => [u64::from(n), 0, 0],
        Rule::NotAccepted(n) => [u64::from(n), 0, 0],
        Rule::NotFree(n) => [u64::from(n), 0, 0],
        Rule::Overlap { index, with } => [u64::from(index), u64::from(with), 0],
        Rule::NotWhole(n) => [u64::from(n), 0, 0],
        Rule::TagIncomplete { listed, need } => [u64::from(listed), u64::from(need), 0],
        Rule::TooManyExtents(n) => [n, 0, 0],
        Rule::NoSuchPolicy(n) => [u64::from(n), 0, 0],
        Rule::EmptyList => [0, 0, 0],
        Rule::NotShareable(n) => [u64::from(n), 0, 0],
        Rule::ZeroTag => [0, 0, 0],
        Rule::TagInUse => [0, 0, 0],
        Rule::NoSuchTag => [0, 0, 0],
        Rule::AlreadyShared => [0, 0, 0],
        Rule::BadLength(n) => [n, 0, 0],
        Rule::TooFewFree { need, have } => [need, have, 0],
        Rule::TooManyTags(n) => [u64::from(n), 0, 0],
        Rule::LogFull { host, need, have } => [u64::from(host), u64::from(need), u64::from(have)],
        Rule::UnsupportedFlag => [0, 0, 0],
        Rule::NotSupportedSize(n) => [n, 0, 0],
        Rule::SanitizeDiffers => [0, 0, 0],
        Rule::RegionInUse(n) => [u64::from(n), 0, 0],
        Rule::NoReference => [0, 0, 0],
    }
}

/// How many of them are its own.
#[tactic(auto, unfolding(crate::specs::RuleNumbers::value_count))]
pub(crate) fn value_count(rule: &Rule) -> u32
    ensures { result ≡ value_count rule.now }
{
    match rule {
        Rule::UnknownOpcode(_) => 1,
        Rule::WrongLength { .. } => 2,
        Rule::NoSuchRegion(_) => 1,
        Rule::NoSuchHost(_) => 1,
        Rule::PastEnd { .. } => 2,
        Rule::NoSuchLog(_) => 1,
        Rule::UnknownHandle(_) => 1,
        Rule::OlderLeft(_) => 1,
        Rule::NotOverflowed => 0,
        Rule::TooManyListed(_) => 1,
        Rule::ZeroLength(_) => 1,
        Rule::OutsideRegion(_) => 1,
        Rule::Unaligned(_) => 1,
        Rule::NotOffered(_) => 1,
        Rule::NotAccepted(_) => 1,
        Rule::NotFree(_) => 1,
        Rule::Overlap { .. } => 2,
        Rule::NotWhole(_) => 1,
        Rule::TagIncomplete { .. } => 2,
        Rule::TooManyExtents(_) => 1,
        Rule::NoSuchPolicy(_) => 1,
        Rule::EmptyList => 0,
        Rule::NotShareable(_) => 1,
        Rule::ZeroTag => 0,
        Rule::TagInUse => 0,
        Rule::NoSuchTag => 0,
        Rule::AlreadyShared => 0,
        Rule::BadLength(_) => 1,
        Rule::TooFewFree { .. } => 2,
        Rule::TooManyTags(_) => 1,
        Rule::LogFull { .. } => 3,
        Rule::UnsupportedFlag => 0,
        Rule::NotSupportedSize(_) => 1,
        Rule::SanitizeDiffers => 0,
        Rule::RegionInUse(_) => 1,
        Rule::NoReference => 0,
    }
}

/// The names of the first 18 numbers.
#[tactic(auto, unfolding(crate::specs::RuleNumbers::first_word))]
fn first_name(number: u16) -> &'static [u8]
    ensures { result.now ≡ first_word number }
{
    match number {
        1 => b"UnknownOpcode".as_slice(),
        2 => b"WrongLength".as_slice(),
        3 => b"NoSuchRegion".as_slice(),
        4 => b"NoSuchHost".as_slice(),
        5 => b"PastEnd".as_slice(),
        6 => b"NoSuchLog".as_slice(),
        7 => b"UnknownHandle".as_slice(),
        8 => b"OlderLeft".as_slice(),
        9 => b"NotOverflowed".as_slice(),
        10 => b"TooManyListed".as_slice(),
        11 => b"ZeroLength".as_slice(),
        12 => b"OutsideRegion".as_slice(),
        13 => b"Unaligned".as_slice(),
        14 => b"NotOffered".as_slice(),
        15 => b"NotAccepted".as_slice(),
        16 => b"NotFree".as_slice(),
        17 => b"Overlap".as_slice(),
        18 => b"NotWhole".as_slice(),
        _ => b"".as_slice(),
    }
}

/// The names of those from 19 on.
#[tactic(auto, unfolding(crate::specs::RuleNumbers::later_word))]
fn later_name(number: u16) -> &'static [u8]
    ensures { result.now ≡ later_word number }
{
    match number {
        19 => b"TagIncomplete".as_slice(),
        20 => b"TooManyExtents".as_slice(),
        21 => b"NoSuchPolicy".as_slice(),
        22 => b"EmptyList".as_slice(),
        23 => b"NotShareable".as_slice(),
        24 => b"ZeroTag".as_slice(),
        25 => b"TagInUse".as_slice(),
        26 => b"NoSuchTag".as_slice(),
        27 => b"AlreadyShared".as_slice(),
        28 => b"BadLength".as_slice(),
        29 => b"TooFewFree".as_slice(),
        30 => b"TooManyTags".as_slice(),
        31 => b"LogFull".as_slice(),
        32 => b"UnsupportedFlag".as_slice(),
        33 => b"NotSupportedSize".as_slice(),
        34 => b"SanitizeDiffers".as_slice(),
        35 => b"RegionInUse".as_slice(),
        36 => b"NoReference".as_slice(),
        _ => b"".as_slice(),
    }
}

/// The name of the rule of this number, none of any other.
pub(crate) fn rule_name(number: u16) -> &'static [u8]
    ensures { result.now ≡ rule_word number }
{
    if number < 19 {
        first_name(number)
    } else {
        later_name(number)
    }
}
