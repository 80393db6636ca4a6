//! The line that is printed of a script that is refused.

ghost use Rattle.script_runner.specs.script_codec.specs.declared.faults.ScriptFault.{ScriptFault};

use crate::seeing::see_list;
use cci_codec::MessageFault;
use dcd_base::MemSink;
use region_config::ConfigFault;
use script_runner::report::refusal;
use script_runner::script_codec::ScriptFault;
use std::alloc::Global;
use std::process::Abort;
use std::test::Fail;

/// What is printed of the fault.
fn line_of(alloc: Global, fault: ScriptFault) -> MemSink {
    let mut sink = MemSink::new(alloc, 16, Vec::new(alloc));
    if fault != ScriptFault::NoMemory {
        let _ = refusal(&fault, &mut sink);
    }
    sink
}

/// Faults with the number and the place that are printed.
static FAULTS: [(ScriptFault, u32, u32); 11] = [
    (ScriptFault::BadMagic, 1, 0),
    (ScriptFault::BadVersion(9), 2, 4),
    (ScriptFault::BadConfig(ConfigFault::Count), 3, 8),
    (ScriptFault::Truncated(137), 4, 137),
    (ScriptFault::UnknownKind(128), 5, 128),
    (ScriptFault::UnknownActor(129), 6, 129),
    (
        ScriptFault::BadMessage {
            at: 130,
            fault: MessageFault::Short(3),
        },
        7,
        130,
    ),
    (ScriptFault::TooLong, 8, 16_777_216),
    (ScriptFault::AfterEnd(129), 9, 129),
    (ScriptFault::TooManyLines(4000), 10, 4000),
    (ScriptFault::BadLanes(5), 12, 10),
];

/// Sees the line of a fault.
fn see_line(
    rt: &impl Abort,
    alloc: Global,
    fault: ScriptFault,
    number: u32,
    place: u32,
) -> Result<(), Fail> {
    let line = format!(in alloc; "script refused: {number} at {place}\n")?;
    let printed = line_of(alloc, fault);
    see_list(rt, printed.taken().as_slice(), line.as_bytes());
    Ok(())
}

#[test]
fn a_refused_script_has_the_number_and_the_place_of_its_fault(rt: HostRuntime) -> Result<(), Fail> {
    for (fault, number, place) in &FAULTS {
        see_line(&rt, rt.alloc(), *fault, *number, *place)?;
    }
    Ok(())
}
