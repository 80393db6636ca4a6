//! The fault of a script in words.

use cci_codec::MessageFault;
use region_config::ConfigFault;
use script_runner::script_codec::ScriptFault;
use std::fmt::{self, Display};

/// The fault of a script, which prints as what is wrong, with its values.
#[derive(Clone, Copy)]
pub(crate) struct FaultWords(pub(crate) ScriptFault);

impl Display for FaultWords {
    fn fmt<W: fmt::Write>(&self, f: &mut fmt::Formatter<W>) -> fmt::Result {
        match of_script(self.0) {
            Phrase::Plain(text) => f.write_str(text),
            Phrase::One(before, value, after) => write!(f, "{before}{value}{after}"),
            Phrase::Two(before, first, between, second, after) => {
                write!(f, "{before}{first}{between}{second}{after}")
            }
        }
    }
}

/// A text with the values between its parts.
#[derive(Clone, Copy)]
enum Phrase {
    Plain(&'static str),
    One(&'static str, u64, &'static str),
    Two(&'static str, u64, &'static str, u64, &'static str),
}

/// What a script's fault says.
fn of_script(fault: ScriptFault) -> Phrase {
    match fault {
        ScriptFault::BadMagic => Phrase::Plain("it does not begin with the bytes DCDS"),
        ScriptFault::BadVersion(version) => {
            Phrase::One(
                "it has the version ",
                u64::from(version),
                ", neither 1 nor 2",
            )
        }
        ScriptFault::BadConfig(fault) => of_configuration(fault),
        ScriptFault::BadLanes(lanes) => {
            Phrase::One(
                "it has ",
                u64::from(lanes),
                " lanes for each host, not 1 to 4",
            )
        }
        ScriptFault::Truncated(bytes) => Phrase::One("its ", bytes, " bytes end too early"),
        ScriptFault::UnknownKind(_) => Phrase::Plain("the kind byte of the line is above 05h"),
        ScriptFault::UnknownActor(_) => {
            Phrase::Plain("the actor byte names nobody of the device who may do this")
        }
        ScriptFault::BadMessage { fault, .. } => of_message(fault),
        ScriptFault::TooLong => Phrase::Plain("it has more than 16777216 bytes"),
        ScriptFault::AfterEnd(_) => Phrase::Plain("a byte stands behind its end word"),
        ScriptFault::TooManyLines(_) => Phrase::Plain("it has more than 65536 lines"),
        ScriptFault::NoMemory => Phrase::Plain("out of memory"),
    }
}

/// What the fault of a configuration says.
fn of_configuration(fault: ConfigFault) -> Phrase {
    match fault {
        ConfigFault::Count => Phrase::Plain("it has not 1 to 16 hosts and 1 to 8 regions"),
        ConfigFault::Base { host, region } => Phrase::Two(
            "for host ",
            u64::from(host),
            " region ",
            u64::from(region),
            " has a base that is no multiple of 256 MiB, or ends above 2^52",
        ),
        ConfigFault::BlockSize(region) => Phrase::One(
            "region ",
            u64::from(region),
            " has a block that it does not support, or supports none or one that is not 2^6 to 2^40",
        ),
        ConfigFault::Length(region) => Phrase::One(
            "region ",
            u64::from(region),
            " has no whole number of its largest blocks, or more than it decodes",
        ),
        ConfigFault::Overlap { host, region } => Phrase::Two(
            "for host ",
            u64::from(host),
            " region ",
            u64::from(region),
            " begins below the end of the region before it",
        ),
        ConfigFault::TooManyGranules(granules) => {
            Phrase::One("it has ", granules, " granules, more than 4096")
        }
        ConfigFault::NoMemory => Phrase::Plain("out of memory"),
    }
}

/// What the fault of a message says.
fn of_message(fault: MessageFault) -> Phrase {
    match fault {
        MessageFault::Short(bytes) => {
            Phrase::One(
                "the message has ",
                bytes,
                " bytes, less than its header of 12",
            )
        }
        MessageFault::NotRequest(category) => Phrase::One(
            "the message has the category ",
            u64::from(category),
            ", not 0 as a request",
        ),
        MessageFault::LengthDiffers { field, rest } => Phrase::Two(
            "the header of the message says ",
            u64::from(field),
            " bytes of payload, and there are ",
            rest,
            "",
        ),
        MessageFault::NoMemory => Phrase::Plain("out of memory"),
    }
}

/// The place of a fault that was met in a line, and none of another.
pub(crate) fn place_in_lines(fault: ScriptFault) -> Option<u64> {
    match fault {
        ScriptFault::Truncated(place)
        | ScriptFault::UnknownKind(place)
        | ScriptFault::UnknownActor(place)
        | ScriptFault::TooManyLines(place) => Some(place),
        ScriptFault::BadMessage { at, .. } => Some(at),
        _ => None,
    }
}
