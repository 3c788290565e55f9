//! Rounds of the lane that takes Delay_Reqs.

ghost use Rattle.std.specs.Prelude.{◌≡◌, ◌+◌, ◌≤◌, [], true, false, if◌then◌else◌, IfOk, IfSome, OnErr};
ghost use Rattle.ptu_outside.specs.Faults.{HasNotFallen, HasRisen};
ghost use Rattle.ptu_outside.specs.Rounds.{most as most_in_round};
ghost use Rattle.ptu_shard.specs.Answered.{failed_by, sent_by};
ghost use Rattle.ptu_shared.specs.Opening.{HaveFailed};
ghost use Rattle.ptu_lanes.specs.Waiting.{GaveFirst, HasTaken, Took};

use crate::answering::Origin;
use crate::service::Service;
use ptu_config::MOST_DATAGRAMS;
use ptu_gm_messages::{Heard, client_of, hear};
use ptu_outside::{Clock, Port};
use ptu_shard::Answered;
use ptu_shared::Rates;
use ptu_units::OutOfMemory;
use ptu_units::sizes::LONGEST_DATAGRAM;
use std::sync::Wait;
use std::sync::ledger::Ledger;

/// What a lane did that takes Delay_Reqs.
#[derive(Clone, Copy, Debug, PartialEq, Eq)]
pub struct Delays {
    /// How many Delay_Resps were sent.
    pub sent: u64,
    /// How many Delay_Resps failed to be sent.
    pub failed: u64,
    /// How many receives failed.
    pub missed: u64,
}

// Nothing was done.
const IDLE: Delays = Delays {
    sent: 0,
    failed: 0,
    missed: 0,
};

// What was sent for a Delay_Req that was answered so.
fn delays_of(answered: &Answered) -> Delays
    ensures sent { result.sent ≡ sent_by answered.now }
    ensures failed { result.failed ≡ failed_by answered.now }
    ensures most { result.sent + result.failed ≤ 1 }
    ensures missed { result.missed ≡ 0 }
{
    match answered {
        Answered::Sent { .. } => Delays { sent: 1, ..IDLE },
        Answered::Failed { .. } => Delays { failed: 1, ..IDLE },
        Answered::NoGrant { .. } | Answered::TooSoon { .. } => IDLE,
    }
}

// Answers a datagram of this origin. Whatever is no Delay_Req is ignored.
fn answer_delay<P: Port + Send, L: Rates, G: Ledger, R: Ledger, W: Wait>(
    service: &Service<'_, P, L, G, R, W>,
    origin: Origin,
    bytes: &[u8],
) -> Result<Delays, OutOfMemory>
    requires config { service.now.base.now.config.now ≡ L.config }
    ensures most { IfOk result (λ s. s.sent + s.failed ≤ 1) }
    ensures missed { IfOk result (λ s. s.missed ≡ 0) }
{
    let Service { base, shared } = service;
    match hear(base.alloc, base.config, bytes)? {
        Ok(Heard::DelayReq(header)) => {
            let client = client_of(origin.from, &header);
            let answered = shared.answer_delay(base.rt, base.config, origin.at, &client, &header);
            Ok(delays_of(&answered))
        }
        Ok(Heard::Asks(..)) | Err(_) => Ok(IDLE),
    }
}

// Takes the first datagram that waits, if one does, and answers it at a new moment of the clock.
// Gives what was sent, and whether there may be more to take.
fn take_one<P: Port + Send, C: Clock, L: Rates, G: Ledger, R: Ledger, W: Wait>(
    service: &Service<'_, P, L, G, R, W>,
    port: &mut P,
    clock: &mut C,
    buffer: &mut [u8; LONGEST_DATAGRAM],
) -> Result<(Delays, bool), OutOfMemory>
    requires config { service.now.base.now.config.now ≡ L.config }
    ensures most { IfOk result (λ r. r.0.sent + r.0.failed + r.0.missed ≤ 1) }
    ensures once { IfOk result (λ r. r.1 ≡ true → r.0.missed ≡ 0) }
    ensures taken { IfOk result (λ r. HasTaken P.Port C.Clock (if r.1 then 1 else 0) r.0.missed
        port.old port.new clock.old clock.new) }
    ensures end { IfOk result (λ r. r.1 ≡ false
        → ¬ HasRisen (P.faults port.old) (P.faults port.new)
        → IfSome (P.waiting port.new) (λ left. left ≡ [])) }
    ensures broke_off { OnErr result (HasTaken P.Port C.Clock 1 0
        port.old port.new clock.old clock.new) }
{
    match port.receive(buffer) {
        Ok(Some((from, size))) => {
            let at = clock.now();
            let delays = answer_delay(service, Origin { from, at }, &buffer[..size])?;
            Ok((delays, true))
        }
        Ok(None) => Ok((IDLE, false)),
        Err(_) => {
            let missed = Delays { missed: 1, ..IDLE };
            Ok((missed, false))
        }
    }
}

/// Takes up to 64 datagrams from the port, until none waits or a receive fails, each at a new
/// moment of the clock. A Delay_Req is answered by its client's table, whose port sends the answer
/// (IEEE 1588-2019 clause 11.3); all other datagrams are ignored.
///
/// # Errors
/// `OutOfMemory`, with the answers so far, which were sent. The datagram at which it comes is taken
/// and not answered.
pub fn delay_round<P: Port + Send, C: Clock, L: Rates, G: Ledger, R: Ledger, W: Wait>(
    service: &Service<'_, P, L, G, R, W>,
    port: &mut P,
    clock: &mut C,
) -> Result<Delays, OutOfMemory>
    requires config { service.now.base.now.config.now ≡ L.config }
    ensures most { IfOk result (λ s. s.sent + s.failed + s.missed ≤ most_in_round) }
    // A receive that failed was the last.
    ensures once { IfOk result (λ s. s.missed ≤ 1) }
    // Where the port's count did not rise, these were the first that waited there.
    ensures round { IfOk result (λ s. ¬ HasRisen (P.faults port.old) (P.faults port.new)
        → GaveFirst most_in_round (P.waiting port.old) (P.waiting port.new)) }
    // Whatever its count did, whether or not it tells, and after want of memory too.
    ensures took { Took P.Port C.Clock most_in_round 0
        port.old port.new clock.old clock.new }
    // Each receive that failed is a fault, and there are no other faults.
    ensures failed { IfOk result (λ s.
        HaveFailed P.counts_once s.missed (P.faults port.old) (P.faults port.new)) }
    // The port was sent nothing, and goes on to tell that.
    ensures unsent { P.sent port.new ≡ P.sent port.old }
    ensures no_fall { HasNotFallen (P.faults port.old) (P.faults port.new) }
{
    let mut delays = IDLE;
    let mut buffer = [0; LONGEST_DATAGRAM];
    for _i in 0..MOST_DATAGRAMS {
        let (one, goes_on) = take_one(service, port, clock, &mut buffer)?;
        delays.sent += one.sent;
        delays.failed += one.failed;
        delays.missed += one.missed;
        if !goes_on {
            break;
        }
    }
    Ok(delays)
}
