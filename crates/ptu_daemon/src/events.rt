//! Events of a grandmaster, with what was sent by each.

ghost use Rattle.std.specs.Prelude.{◌≡◌, ◌<◌, IfOk};
ghost use Rattle.ptu_grandmaster.specs.declared.driving.GmEvent.{GmEvent};
ghost use Rattle.ptu_daemon.specs.{Counting.{failed_for, sent_for}, Ran.{Does, IsSmall}};

use ptu_admit::InForce;
use ptu_grandmaster::{Gm, Reply, Taken};
use ptu_outside::{Port, Tally};
use ptu_shard::Answered;
use ptu_units::{Moment, OutOfMemory};

/// The table of this index, from 0 to 3, takes a turn.
pub(crate) fn turn<P: Port>(gm: &mut Gm<P>, at: Moment, table: usize) -> Tally
    requires { table < 4 }
    ensures does { Does P.Port gm.old gm.new (GmEvent.Turn at table) result.sent result.failed }
    ensures small { IsSmall 1 result }
{
    let turned = gm.turn(table, at);
    Tally {
        sent: turned.sent.into(),
        failed: turned.failed.into(),
    }
}

/// The capacity in force changes to this one.
pub(crate) fn change<P: Port>(
    gm: &mut Gm<P>,
    at: Moment,
    capacity: InForce,
) -> Result<Tally, OutOfMemory>
    ensures does { IfOk result (λ tally.
        Does P.Port gm.old gm.new (GmEvent.Capacity at capacity) tally.sent tally.failed) }
    ensures small { IfOk result (λ tally. IsSmall 1 tally) }
{
    let changed = gm.put_in_force(at, capacity)?;
    Ok(Tally {
        sent: changed.sent.into(),
        failed: changed.failed.into(),
    })
}

// What was sent for a datagram.
fn tally_of(taken: &Taken) -> Tally
    ensures sent { result.sent ≡ sent_for taken.now }
    ensures failed { result.failed ≡ failed_for taken.now }
    ensures small { IsSmall 1 result }
{
    match taken {
        Taken::Delay(Answered::Sent { .. }) | Taken::Asked(_, Reply::Sent) => Tally {
            sent: 1,
            failed: 0,
        },
        Taken::Delay(Answered::Failed { .. }) | Taken::Asked(_, Reply::Failed) => Tally {
            sent: 0,
            failed: 1,
        },
        Taken::Delay(Answered::NoGrant { .. } | Answered::TooSoon { .. })
        | Taken::Asked(_, Reply::Nothing)
        | Taken::Ignored(_) => Tally { sent: 0, failed: 0 },
    }
}

/// A datagram comes from this IPv4 address.
pub(crate) fn take<P: Port>(
    gm: &mut Gm<P>,
    at: Moment,
    from: u32,
    bytes: &[u8],
) -> Result<Tally, OutOfMemory>
    ensures does { IfOk result (λ tally.
        Does P.Port gm.old gm.new (GmEvent.Take at from bytes.now) tally.sent tally.failed) }
    ensures small { IfOk result (λ tally. IsSmall 1 tally) }
{
    let taken = gm.take(at, from, bytes)?;
    let tally = tally_of(&taken);
    gm.give_back(taken);
    Ok(tally)
}
