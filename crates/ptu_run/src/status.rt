//! The statuses with which the program ends.

ghost use Rattle.std.specs.Prelude.{◌≡◌};
ghost use Rattle.ptu_run.specs.Daemons.{status_of_daemon};
ghost use Rattle.ptu_run.specs.Run.{status_of_answer, status_of_audit, status_of_fault};

use ptu_audit::{Answer, AuditFault};
use ptu_outside::DaemonFault;
use ptu_report::RunFault;

/// The command line does not match the words.
pub const USAGE: u8 = 64;

/// A line of the input is refused, or the settings are.
pub const BAD_LINE: u8 = 65;

/// The source failed.
pub const SOURCE_FAULT: u8 = 66;

/// The sink failed.
pub const SINK_FAULT: u8 = 67;

/// The host did not open its ports and clocks.
pub const HOST_FAULT: u8 = 69;

/// A grandmaster of the report that was audited did not keep its promises.
pub const BROKEN_PROMISE: u8 = 70;

/// No memory was found.
pub const OUT_OF_MEMORY: u8 = 71;

/// The status of why a program over lines did not read its input to the end.
fn fault_status<C: Drop>(fault: RunFault<C>) -> u8
    ensures { result ≡ status_of_fault fault }
{
    match fault {
        RunFault::Line { .. } => BAD_LINE,
        RunFault::Read => SOURCE_FAULT,
        RunFault::Write => SINK_FAULT,
        RunFault::OutOfMemory => OUT_OF_MEMORY,
    }
}

/// The status of an answer of a program over lines.
pub(crate) fn status_of<A: Drop, C: Drop>(answer: Result<A, RunFault<C>>) -> u8
    ensures { result ≡ status_of_answer answer }
{
    match answer {
        Ok(_) => 0,
        Err(fault) => fault_status(fault),
    }
}

/// The status of an answer of `audit`.
pub(crate) fn audit_status(answer: Result<Answer, AuditFault>) -> u8
    ensures { result ≡ status_of_audit answer }
{
    match answer {
        Ok(Answer::Yes { .. }) => 0,
        Ok(Answer::No { .. }) => BROKEN_PROMISE,
        Err(fault) => fault_status(fault),
    }
}

/// The status of an answer of a daemon.
pub(crate) fn daemon_status(answer: Result<(), DaemonFault>) -> u8
    ensures { result ≡ status_of_daemon answer }
{
    match answer {
        Ok(()) => 0,
        Err(DaemonFault::Open) => HOST_FAULT,
        Err(DaemonFault::Write) => SINK_FAULT,
        Err(DaemonFault::OutOfMemory) => OUT_OF_MEMORY,
    }
}
