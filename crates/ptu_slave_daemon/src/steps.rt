//! One thing that happens to the slave, at a new moment of the clock.

ghost use Rattle.std.specs.Prelude.{◌≡◌, ◌^◌, ℕ, List, [], ◌∷◌, OnOk};
ghost use Rattle.ptu_record.specs.Record.{Record};
ghost use Rattle.ptu_slave.specs.SeenBy.{seen_by};
ghost use Rattle.ptu_outside.specs.Replies.{reply_failed, reply_sent};
ghost use Rattle.ptu_slave_messages.specs.{Heard.{reply_in}, Node.{Node}};
ghost use Rattle.ptu_slave_daemon.specs.Happenings.{SlaveHappening, Stops, Ticks};
ghost use Rattle.ptu_slave_daemon.specs.Running.{Counted, CountsGrow, IsFew, SlaveRan, Stands, SlaveTook, sees};

use ptu_outside::{Clock, Port, Reply, Tally};
use ptu_slave::{Heard, Slave};
use ptu_units::{Moment, OutOfMemory};
use std::alloc::Global;

/// For how many nanoseconds a wait goes on after the moment at which something is due. A port waits
/// by one call of the system, which counts whole milliseconds and may end a little early: so it
/// ends once for each thing that is due, and not before it is.
const SLACK: u64 = 1_100_000;

// Counts what became of the reply to a datagram.
fn count_reply(counts: &mut Tally, heard: &Heard)
    requires few { IsFew 1 counts.old }
    ensures grows { CountsGrow 1 counts.old counts.new }
    ensures counted { Counted (reply_sent (reply_in heard.now)) (reply_failed (reply_in heard.now))
        counts.old counts.new }
{
    if let Heard::Signals { reply, .. } = heard {
        match reply {
            Reply::Sent => counts.add(1, 0),
            Reply::Failed => counts.add(0, 1),
            Reply::Nothing => (),
        }
    }
}

/// The slave takes a datagram that came from this IPv4 address.
///
/// # Errors
/// `OutOfMemory`.
pub(crate) fn take<P: Port, C: Clock>(
    alloc: Global,
    slave: &mut Slave<P>,
    clock: &mut C,
    from: u32,
    octets: &[u8],
    counts: &mut Tally,
) -> Result<(), OutOfMemory>
    requires few { IsFew 1 counts.old }
    ensures grows { CountsGrow 1 counts.old counts.new }
    ensures waiting { P.waiting (seen_by held slave.new).port ≡ P.waiting
        (seen_by held slave.old).port }
    ensures ran { OnOk result ((node : Node) (L : Record) → Stands node
        (seen_by held slave.old) L →
        (sent : ℕ) × (failed : ℕ) × Counted sent failed counts.old counts.new
        × SlaveTook P.counts_once node L
        (sees P.Port C.Clock (seen_by held slave.old) clock.old)
        (sees P.Port C.Clock (seen_by held slave.new) clock.new)
        (record { ip = from; bytes = octets.now } ∷ []) sent failed 0) }
{
    let at = clock.now();
    let heard = slave.take(alloc, at, from, octets)?;
    count_reply(counts, &heard);
    Ok(())
}

// Until when the daemon waits for what is due at this moment.
fn wake_for(due: Moment) -> Moment {
    Moment::of(due.nanos() + SLACK).unwrap_or(due)
}

/// The slave ticks; what it then selects. Then the port of the event channel waits until a datagram
/// is there, or until a tick may send something or another master may be selected.
pub(crate) fn tick<P: Port, C: Clock>(
    slave: &mut Slave<P>,
    event: &mut P,
    clock: &mut C,
    counts: &mut Tally,
) -> Option<u32>
    requires few { IsFew (2 ^ 64) counts.old }
    ensures grows { CountsGrow (2 ^ 64) counts.old counts.new }
    ensures sent { P.sent event.new ≡ P.sent event.old }
    ensures event_waiting { P.waiting event.new ≡ P.waiting event.old }
    ensures event_quiet { P.faults event.new ≡ P.faults event.old }
    ensures waiting { P.waiting (seen_by held slave.new).port ≡ P.waiting
        (seen_by held slave.old).port }
    ensures ran { (node : Node) (L : Record) (round : ℕ) → Stands node
        (seen_by held slave.old) L →
        (sent : ℕ) × (failed : ℕ) × (hs : List SlaveHappening)
        × Counted sent failed counts.old counts.new
        × SlaveRan P.counts_once node L
        (sees P.Port C.Clock (seen_by held slave.old) clock.old)
        (sees P.Port C.Clock (seen_by held slave.new) clock.new)
        (Ticks round ∷ []) hs (record { round = round; master = result } ∷ []) sent failed 0 }
{
    let at = clock.now();
    let ticked = slave.tick(at);
    let master = slave.selected_address(at);
    counts.add(ticked.sent, ticked.failed);
    let due = slave.next_due(Moment::last());
    event.wait(wake_for(due));
    master
}

/// The slave stops, and sends each master the CANCELs of its live grants.
pub(crate) fn stop<P: Port, C: Clock>(slave: &mut Slave<P>, clock: &mut C, counts: &mut Tally)
    requires few { IsFew (2 ^ 64) counts.old }
    ensures waiting { P.waiting (seen_by held slave.new).port ≡ P.waiting
        (seen_by held slave.old).port }
    ensures ran { (node : Node) (L : Record) → Stands node (seen_by held slave.old) L
        →
        (sent : ℕ) × (failed : ℕ) × (hs : List SlaveHappening)
        × Counted sent failed counts.old counts.new
        × SlaveRan P.counts_once node L
        (sees P.Port C.Clock (seen_by held slave.old) clock.old)
        (sees P.Port C.Clock (seen_by held slave.new) clock.new)
        (Stops ∷ []) hs [] sent failed 0 }
{
    let at = clock.now();
    let stopped = slave.stop(at);
    counts.add(stopped.sent, stopped.failed);
}
