//! What waits on a channel is taken, at most 64 datagrams a round.

ghost use Rattle.std.specs.Prelude.{◌≡◌, map, IfOk, OnOk};
ghost use Rattle.ptu_outside.specs.Rounds.{most};
ghost use Rattle.ptu_slave_daemon.specs.Running.{CountsGrow, IsFew, RoundTook, TookEvent, TookGeneral, TookOne};
ghost use Rattle.ptu_slave.specs.SeenBy.{seen_by};

use crate::steps::take;
use ptu_config::MOST_DATAGRAMS;
use ptu_outside::{Clock, Port, Tally};
use ptu_slave::Slave;
use ptu_units::OutOfMemory;
use ptu_units::sizes::LONGEST_DATAGRAM;
use std::alloc::Global;

// Takes the next datagram of the general channel, which comes by the slave's own port; false where
// none is received.
fn take_general<P: Port, C: Clock>(
    alloc: Global,
    slave: &mut Slave<P>,
    clock: &mut C,
    counts: &mut Tally,
) -> Result<bool, OutOfMemory>
    requires few { IsFew 1 counts.old }
    ensures grows { CountsGrow 1 counts.old counts.new }
    ensures took { IfOk result (λ more. TookGeneral P.Port C.Clock
        (seen_by held slave.old) (seen_by held slave.new)
        clock.old clock.new (TookOne more) counts.old counts.new) }
{
    let mut octets = [0; LONGEST_DATAGRAM];
    match slave.receive(&mut octets) {
        Ok(Some((from, length))) => {
            take(alloc, slave, clock, from, &octets[..length], counts)?;
            Ok(true)
        }
        Ok(None) => Ok(false),
        Err(_) => {
            counts.add(0, 1);
            Ok(false)
        }
    }
}

// Takes the next datagram of the event channel; false where none is received.
fn take_event<P: Port, C: Clock>(
    alloc: Global,
    slave: &mut Slave<P>,
    event: &mut P,
    clock: &mut C,
    counts: &mut Tally,
) -> Result<bool, OutOfMemory>
    requires few { IsFew 1 counts.old }
    ensures grows { CountsGrow 1 counts.old counts.new }
    ensures waiting { P.waiting (seen_by held slave.new).port ≡ P.waiting
        (seen_by held slave.old).port }
    ensures sent { P.sent event.new ≡ P.sent event.old }
    ensures took { IfOk result (λ more. TookEvent P.Port C.Clock
        (seen_by held slave.old) (seen_by held slave.new)
        clock.old clock.new event.old event.new (TookOne more) counts.old counts.new) }
{
    let mut octets = [0; LONGEST_DATAGRAM];
    match event.receive(&mut octets) {
        Ok(Some((from, length))) => {
            take(alloc, slave, clock, from, &octets[..length], counts)?;
            Ok(true)
        }
        Ok(None) => Ok(false),
        Err(_) => {
            counts.add(0, 1);
            Ok(false)
        }
    }
}

/// Takes what waits on the general channel, up to 64 datagrams.
///
/// # Errors
/// `OutOfMemory`.
pub(crate) fn take_all_general<P: Port, C: Clock>(
    alloc: Global,
    slave: &mut Slave<P>,
    clock: &mut C,
    counts: &mut Tally,
) -> Result<(), OutOfMemory>
    requires few { IsFew most counts.old }
    ensures grows { CountsGrow most counts.old counts.new }
    ensures took { OnOk result (TookGeneral P.Port C.Clock
        (seen_by held slave.old) (seen_by held slave.new)
        clock.old clock.new RoundTook counts.old counts.new) }
{
    for _taken in 0..MOST_DATAGRAMS {
        if !take_general(alloc, slave, clock, counts)? {
            return Ok(());
        }
    }
    Ok(())
}

/// Takes what waits on the event channel, up to 64 datagrams.
///
/// # Errors
/// `OutOfMemory`.
pub(crate) fn take_all_event<P: Port, C: Clock>(
    alloc: Global,
    slave: &mut Slave<P>,
    event: &mut P,
    clock: &mut C,
    counts: &mut Tally,
) -> Result<(), OutOfMemory>
    requires few { IsFew most counts.old }
    ensures grows { CountsGrow most counts.old counts.new }
    ensures waiting { P.waiting (seen_by held slave.new).port ≡ P.waiting
        (seen_by held slave.old).port }
    ensures sent { P.sent event.new ≡ P.sent event.old }
    ensures took { OnOk result (TookEvent P.Port C.Clock
        (seen_by held slave.old) (seen_by held slave.new)
        clock.old clock.new event.old event.new RoundTook counts.old counts.new) }
{
    for _taken in 0..MOST_DATAGRAMS {
        if !take_event(alloc, slave, event, clock, counts)? {
            return Ok(());
        }
    }
    Ok(())
}
