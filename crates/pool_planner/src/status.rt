//! How a run of the planner ends.

ghost use Rattle.pool_planner.specs.PlanStatuses.{plan_end};
ghost use Rattle.edge_io.specs.Ends.{number_of};
ghost use Rattle.std.specs.Prelude.{◌≡◌};

use edge_io::{End, FAULT_PRINTED};
use plan_rules::{DemandFault, PlanFault};
use report::script_codec::ScriptFault;

/// How a run of the planner ends.
#[derive(Clone, Copy, Debug, PartialEq, Eq)]
pub enum PlanStatus {
    /// The list and the state behind it were written.
    Done,
    /// There are words on the command line, and one line says that none is taken.
    Usage,
    /// The script of the frame has this fault, and one line says so.
    ScriptRefused(ScriptFault),
    /// Memory was wanted and not to be had. Nothing was written.
    NoMemory,
    /// A read failed. Nothing was written.
    ReadFault,
    /// A write failed. A front of what was to be written is written.
    WriteFault,
    /// The frame needs so many bytes and the input has fewer. Nothing was written.
    InputShort { need: u64, have: u64 },
    /// The input has more than 33,554,432 bytes. Nothing was written.
    InputLong,
    /// The rest of the frame states no demands, and one line says so.
    Demands(DemandFault),
    /// There is no list, and one line says so.
    Plan(PlanFault),
}

impl PlanStatus {
    /// Which end it is.
    pub fn end(self) -> End
        ensures { result ≡ plan_end self }
    {
        match self {
            PlanStatus::Done => End::Done,
            PlanStatus::Usage => End::Usage,
            PlanStatus::ScriptRefused(_) => End::Refused,
            PlanStatus::NoMemory => End::NoMemory,
            PlanStatus::ReadFault => End::ReadFault,
            PlanStatus::WriteFault => End::WriteFault,
            PlanStatus::InputShort { .. } => End::Refusal(7),
            PlanStatus::InputLong => End::Refusal(8),
            PlanStatus::Demands(_) => End::Refusal(9),
            PlanStatus::Plan(_) => End::Refusal(10),
        }
    }

    /// The exit status of the program.
    pub fn number(self) -> u8
        ensures { result ≡ number_of (plan_end self) }
    {
        self.end().number()
    }

    /// What is said of an input that is refused.
    pub fn why<'a>(&self) -> &'a str {
        match self {
            PlanStatus::InputShort { .. } => "the input ends within its script",
            PlanStatus::InputLong => "the input has more than 33554432 bytes",
            PlanStatus::Demands(_) => {
                "the demands are refused: 1 is no JSON, 2 another shape (docs/planner.md)"
            }
            PlanStatus::Plan(_) =>
                "there is no plan for the fault that was printed (docs/planner.md)",
            _ => FAULT_PRINTED,
        }
    }
}
