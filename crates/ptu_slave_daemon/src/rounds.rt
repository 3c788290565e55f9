//! The rounds of a slave's daemon.

ghost use Rattle.std.specs.Prelude.{◌≡◌, ◌≤◌, ◌+◌, ◌*◌, ◌^◌, ℕ, List, [], ◌∷◌, ◌++◌, map, IfOk, OnOk, OnErr, IsErrOf, None};
ghost use Rattle.ptu_outside.specs.declared.arrival.Arrival.{Arrival};
ghost use Rattle.ptu_outside.specs.Handing.{HasPut, HasPutPart};
ghost use Rattle.ptu_record.specs.Record.{Record};
ghost use Rattle.ptu_config.specs.Rounds.{IsRoundCount};
ghost use Rattle.ptu_slave_messages.specs.Node.{Node};
ghost use Rattle.ptu_slave_daemon.specs.{declared.line.SlaveLine.{SlaveLine}, Answers.{Halts}};
ghost use Rattle.ptu_slave_daemon.specs.Happenings.{SlaveHappening, Selection, Ticks, arrive};
ghost use Rattle.ptu_slave_daemon.specs.Lines.{changes, output, selected_line, slave_texts};
ghost use Rattle.ptu_slave_daemon.specs.Running.{Counted, CountsGrow, HasFailed, IsFew, IsFront, SlaveRan, RoundTook, RoundsDone, RunDone, Stands, Went, sees};
ghost use Rattle.ptu_slave.specs.{Seen.{HasJudges}, SeenBy.{seen_by}};

use crate::halt::Halt;
use crate::line::SlaveLine;
use crate::steps::{stop, tick};
use crate::taking::{take_all_event, take_all_general};
use crate::writing::{say, write_line};
use ptu_outside::{Clock, Port, Sink, Tally};
use ptu_slave::Slave;
use ptu_units::OutOfMemory;
use std::alloc::Global;

// What happens to the slave in a round, which ends with a wait; what it selects at its end.
fn happen<P: Port, C: Clock>(
    alloc: Global,
    slave: &mut Slave<P>,
    event: &mut P,
    clock: &mut C,
    counts: &mut Tally,
) -> Result<Option<u32>, OutOfMemory>
    requires few { IsFew (2 ^ 65) counts.old }
    ensures grows { CountsGrow (2 ^ 65) counts.old counts.new }
    ensures sent { P.sent event.new ≡ P.sent event.old }
    ensures ran { IfOk result (λ master. (node : Node) (L : Record) (round : ℕ) →
        Stands node (seen_by held slave.old) L →
        (arrivals : List Arrival) × (event_arrivals : List Arrival) × (hs : List SlaveHappening)
        × (sent : ℕ) × (failed : ℕ) × (event_failed : ℕ) × (missed : ℕ)
        × Counted sent (failed + event_failed) counts.old counts.new
        × HasFailed P.counts_once (P.faults event.old) (P.faults event.new) event_failed
        × RoundTook (P.waiting (seen_by held slave.old).port)
        (P.waiting (seen_by held slave.new).port)
        (P.faults (seen_by held slave.old).port)
        (P.faults (seen_by held slave.new).port) arrivals missed
        × RoundTook (P.waiting event.old) (P.waiting event.new)
        (P.faults event.old) (P.faults event.new) event_arrivals event_failed
        × SlaveRan P.counts_once node L (sees P.Port C.Clock (seen_by held slave.old) clock.old)
        (sees P.Port C.Clock (seen_by held slave.new) clock.new)
        (map arrive (arrivals ++ event_arrivals) ++ Ticks round ∷ []) hs
        (record { round = round; master = master } ∷ []) sent failed missed) }
{
    take_all_general(alloc, slave, clock, counts)?;
    take_all_event(alloc, slave, event, clock, counts)?;
    Ok(tick(slave, event, clock, counts))
}

// All rounds, with the lines of the selections. Gives what they counted.
fn run_rounds<P: Port, C: Clock, K: Sink>(
    alloc: Global,
    rounds: u64,
    slave: &mut Slave<P>,
    event: &mut P,
    clock: &mut C,
    sink: &mut K,
) -> Result<Tally, Halt>
    requires { IsRoundCount rounds }
    ensures few { IfOk result (IsFew (2 ^ 64)) }
    ensures sent { P.sent event.new ≡ P.sent event.old }
    ensures done { IfOk result (λ counts. (selections : List Selection)
        × HasPut K.written K.handed sink.old sink.new
        (slave_texts (map selected_line (changes None selections)))
        × Went P.Port C.Clock (seen_by held slave.old)
        (seen_by held slave.new) clock.old clock.new event.old event.new
        (RoundsDone P.counts_once rounds selections counts.sent counts.failed)) }
    ensures part { OnErr result ((selections : List Selection)
        × HasPutPart K.written K.handed sink.old sink.new
        (slave_texts (map selected_line selections))) }
    ensures stopped { IsErrOf result Halt.Write → (n : ℕ) × (selections : List Selection)
        × (sends : ℕ) × (failures : ℕ) × (n ≤ rounds)
        × HasPutPart K.written K.handed sink.old sink.new
        (slave_texts (map selected_line (changes None selections)))
        × Went P.Port C.Clock (seen_by held slave.old)
        (seen_by held slave.new) clock.old clock.new event.old event.new
        (RoundsDone P.counts_once n selections sends failures) }
    ensures counts { Halts result (K.faults sink.old) (K.faults sink.new) }
{
    let mut counts = Tally::default();
    let mut said = None;
    for before in 0..rounds {
        let Ok(master) = happen(alloc, slave, event, clock, &mut counts) else {
            return Err(Halt::OutOfMemory);
        };
        say(alloc, sink, before + 1, said, master)?;
        said = Some(master);
    }
    Ok(counts)
}

/// The whole run of a slave: all rounds, the stop after them, and the closing line.
///
/// # Errors
/// `Write` where the sink failed, and `OutOfMemory`.
pub(crate) fn run<P: Port, C: Clock, K: Sink>(
    alloc: Global,
    rounds: u64,
    slave: &mut Slave<P>,
    event: &mut P,
    clock: &mut C,
    sink: &mut K,
) -> Result<(), Halt>
    requires rounds { IsRoundCount rounds }
    requires judged { HasJudges (seen_by held slave.old) }
    ensures sent { P.sent event.new ≡ P.sent event.old }
    ensures done { OnOk result ((selections : List Selection) × (sends : ℕ) × (failures : ℕ)
        × HasPut K.written K.handed sink.old sink.new
        (slave_texts (output rounds (changes None selections) sends failures))
        × Went P.Port C.Clock (seen_by held slave.old)
        (seen_by held slave.new) clock.old clock.new event.old event.new
        (RunDone P.counts_once rounds selections sends failures)) }
    ensures part { OnErr result ((selections : List Selection) × (sends : ℕ) × (failures : ℕ)
        × HasPutPart K.written K.handed sink.old sink.new
        (slave_texts (output rounds selections sends failures))) }
    ensures stopped { IsErrOf result Halt.Write → (lines : List SlaveLine)
        × HasPutPart K.written K.handed sink.old sink.new (slave_texts lines)
        × Went P.Port C.Clock (seen_by held slave.old)
        (seen_by held slave.new) clock.old clock.new event.old event.new
        (IsFront rounds lines) }
    ensures counts { Halts result (K.faults sink.old) (K.faults sink.new) }
{
    let mut counts = run_rounds(alloc, rounds, slave, event, clock, sink)?;
    stop(slave, clock, &mut counts);
    let line = SlaveLine::Closing {
        rounds,
        sent: counts.sent,
        failed: counts.failed,
    };
    write_line(alloc, sink, line)
}
