//! Changes of the capacity in force of a grandmaster that is served by lanes.

ghost use Rattle.std.specs.Prelude.{◌≡◌, ◌+◌, ◌-◌, ◌^◌, ◌≤◌, min, ℕ, IfOk, OnErr, OnOk, ◌%◌, length, List};
ghost use Rattle.ptu_outside.specs.HandsOver.{HandsOver};
ghost use Rattle.ptu_units.specs.declared.{client.Client.{Client}, kind.Kind.{Kind}};
ghost use Rattle.ptu_gm_messages.specs.Replies.{cancels_to};
ghost use Rattle.ptu_lanes.specs.{Changing.{new_with}, Waiting.{PassedBy}};

use crate::lanes::ControlLane;
use crate::service::Service;
use ptu_admit::InForce;
use ptu_config::GmSettings;
use ptu_grandmaster::{send_cancels, sequence_after};
use ptu_outside::{Clock, Port};
use ptu_shared::Rates;
use ptu_units::{Capacity, OutOfMemory};
use std::sync::Wait;
use std::sync::ledger::Ledger;

/// The capacity to which the settings change with the round before which there were so many, if
/// they do.
pub(crate) fn capacity_with(settings: &GmSettings, before: u64) -> Option<Capacity>
    ensures { result ≡ new_with settings.now before }
{
    if u64::from(settings.change_round).checked_sub(1) == Some(before) {
        settings.new_capacity
    } else {
        None
    }
}

/// How many rounds there are before the one with which the settings change the capacity, where they
/// do.
pub(crate) fn rounds_before_change(settings: &GmSettings) -> Option<u64> {
    match settings.new_capacity {
        Some(_) => u64::from(settings.change_round).checked_sub(1),
        None => None,
    }
}

/// Changes the capacity in force at a new moment of the lane's clock, and sends the CANCELs of the
/// grants that are shed by its port. Gives how many were shed.
///
/// # Errors
/// `OutOfMemory`, and then nothing has changed.
pub(crate) fn change_capacity<P: Port + Send, C: Clock, L: Rates, G: Ledger, R: Ledger, W: Wait>(
    service: &Service<'_, P, L, G, R, W>,
    capacity: InForce,
    lane: &mut ControlLane<P, C, G, R>,
) -> Result<u64, OutOfMemory>
    requires ledger { L.parts ≡ 4 }
    requires most { capacity ≤ L.most }
    ensures sends { IfOk result (λ count. (shed : List (Client × Kind)) × (sent : ℕ) × (failed : ℕ)
        × HandsOver P.Port lane.old.port lane.new.port
        (cancels_to service.now.base.now.config.now lane.old.sequence shed) sent failed
        × (count ≡ length shed) × (lane.new.sequence ≡ (lane.old.sequence + length shed) % 65536)
        × (lane.new.tally.sent ≡ min (lane.old.tally.sent + sent) (2 ^ 128 - 1))
        × (lane.new.tally.failed ≡ min (lane.old.tally.failed + failed) (2 ^ 64 - 1))) }
    ensures moment { IfOk result (λ _.
        PassedBy 1 (C.moments lane.old.clock) (C.moments lane.new.clock)) }
    ensures unsent { OnErr result (lane.new.port ≡ lane.old.port) }
    ensures seat { lane.new.seat ≡ lane.old.seat }
    ensures in_force { OnOk result (lane.new.in_force ≡ capacity) }
    ensures rest { (lane.new.control ≡ lane.old.control) × (lane.new.class ≡ lane.old.class)
        × (lane.new.done ≡ lane.old.done) × (lane.new.stopped ≡ lane.old.stopped) }
{
    let resized = service
        .shared
        .resize(service.base.rt, lane.clock.now(), capacity)?;
    let shed = resized.shed.list();
    let sends = send_cancels(&mut lane.port, service.base.config, lane.sequence, shed);
    lane.tally = lane.tally.plus(sends.sent, sends.failed);
    lane.sequence = sequence_after(lane.sequence, sends.sent + sends.failed);
    lane.in_force = capacity;
    Ok(sends.sent + sends.failed)
}
