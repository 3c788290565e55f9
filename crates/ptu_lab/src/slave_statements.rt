//! What is said of what a slave of a script heard.

ghost use Rattle.std.specs.Prelude.{◌≡◌, length, map, OnOk};
ghost use Rattle.ptu_world.specs.Slaves.{heard_said, reason_of, signal_said};
ghost use Rattle.ptu_nodes.specs.Noted.{with_said};
ghost use Rattle.ptu_lab.specs.SlaveStatements.{IsOfOne, is_ignored};

use ptu_nodes::Journal;
use ptu_report_lines::{Hearing, Reason, Received, Statement};
use ptu_slave::{Heard, Master, Signal, SlaveReason};
use ptu_units::OutOfMemory;

// Why a slave ignored a datagram, as it is said.
fn said_reason(reason: SlaveReason) -> Reason
    ensures { result ≡ reason_of reason }
{
    match reason {
        SlaveReason::Fault(fault) => Reason::Fault(fault),
        SlaveReason::UnknownType(code) => Reason::Type(code),
        SlaveReason::Other(code) => Reason::Other(code),
        SlaveReason::Stranger => Reason::Stranger,
        SlaveReason::Domain(domain) => Reason::Domain(domain),
        SlaveReason::Target => Reason::Target,
    }
}

// What is said of what a TLV said.
fn said_signal(signal: Signal) -> Statement
    ensures { result ≡ signal_said signal }
{
    let received = match signal {
        Signal::Grant(kind, seconds) => Received::Grant { kind, seconds },
        Signal::Denial(kind) => Received::Denial { kind },
        Signal::Cancel(code) => Received::Cancel { code },
        Signal::Ack(code) => Received::Ack { code },
    };
    Statement::Received(received)
}

// Says what each TLV of a Signaling said.
fn say_signals(signals: &[Signal], journal: &mut Journal) -> Result<(), OutOfMemory>
    ensures { OnOk result (journal.new ≡ with_said (map signal_said signals.now) journal.old) }
{
    for signal in signals {
        journal.say(said_signal(*signal))?;
    }
    Ok(())
}

/// Says what a slave with these masters heard.
///
/// # Errors
/// `OutOfMemory`. Nothing is said of the journal then: the run ends.
pub fn say_heard(
    heard: &Heard,
    masters: &[Master],
    journal: &mut Journal,
) -> Result<(), OutOfMemory>
    requires { IsOfOne (length masters.now) heard.now }
    ensures { OnOk result
        (journal.new ≡ with_said (heard_said masters.now heard.now) journal.old) }
{
    let hearing = match heard {
        Heard::Ignored(reason) => {
            return journal.say(Statement::Ignored(said_reason(*reason)));
        }
        Heard::Signals { list, .. } => return say_signals(list.list(), journal),
        Heard::Announce { at, master, class } => Hearing::Announce {
            master: masters[*master].ip,
            class: *class,
            at: *at,
        },
        Heard::Sync { at, master, seq } => Hearing::Sync {
            master: masters[*master].ip,
            seq: *seq,
            at: *at,
        },
        Heard::FollowUp { at, master } => Hearing::FollowUp {
            master: masters[*master].ip,
            at: *at,
        },
        Heard::DelayResp { at, master, seq } => Hearing::DelayResp {
            master: masters[*master].ip,
            seq: *seq,
            at: *at,
        },
    };
    journal.say(Statement::Heard(hearing))
}

/// Whether the datagram was ignored, and so was no event.
pub fn was_ignored(heard: &Heard) -> bool
    ensures { result ≡ is_ignored heard.now }
{
    matches!(heard, Heard::Ignored(_))
}
