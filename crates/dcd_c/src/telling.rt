//! What a call answers, as a number and at a pointer.

ghost use Rattle.dcd_c.specs.Statuses.{number_told, status_of_call};
ghost use Rattle.std.specs.Prelude.{◌≡◌};

use crate::faults::Fault;

/// Tells whether it was done.
pub(crate) fn tell_done(outcome: &Result<(), Fault>) -> u32
    ensures { result ≡ status_of_call outcome.now }
{
    match outcome {
        Ok(_) => 0,
        Err(fault) => fault.status(),
    }
}

/// Tells what was answered, or the room that is needed.
pub(crate) fn tell_number(outcome: &Result<u64, Fault>, number: &mut u64) -> u32
    ensures status { result ≡ status_of_call outcome.now }
    ensures number { number.new ≡ number_told number.old outcome.now }
{
    match outcome {
        Ok(answered) => {
            *number = *answered;
            0
        }
        Err(Fault::NoRoom(needed)) => {
            *number = *needed;
            9
        }
        Err(fault) => fault.status(),
    }
}
