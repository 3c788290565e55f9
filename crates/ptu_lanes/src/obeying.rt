//! The rounds of the lane that takes Signaling, with the orders that come in them.

ghost use Rattle.std.specs.Prelude.{◌≡◌, ◌≤◌, ◌<◌, ◌+◌, ◌^◌, ◌∷◌, [], true, false, is_some, IfOk, IfSome, Ok, OnOk, Some};
ghost use Rattle.ptu_units.specs.Limits.{greatest_capacity};
ghost use Rattle.ptu_config.specs.{Limits.{IsGmInRange}, Rounds.{all_rounds}};
ghost use Rattle.ptu_shared.specs.Seats.{no_verdicts};
ghost use Rattle.ptu_lanes.specs.Crew.{IsFresh, ServedAs};
ghost use Rattle.ptu_lanes.specs.Heard.{Hears, Leaves, SpokenTo, answer_sent};
ghost use Rattle.ptu_lanes.specs.Orders.{peak_ordered};
ghost use Rattle.ptu_lanes.specs.Stretches.{DidLaneRound, HasBegun, HasExecuted, HasHeard, HasObeyed, TookSignaling};

use crate::changing::{capacity_with, change_capacity};
use crate::lanes::{ControlLane, Rounds};
use crate::orders::{Order, answer, next_order};
use crate::service::Service;
use crate::signaling::control_round;
use ptu_admit::InForce;
use ptu_config::{Cause, Command, GmSettings, Reply, Status};
use ptu_outside::{Clock, Port};
use ptu_shared::{Rates, Standing};
use ptu_units::{Capacity, OutOfMemory};
use std::sync::Wait;
use std::sync::ledger::Ledger;

// How a grandmaster stands whose tables and book stand so, with what the lanes count: `missed`
// receives of the event channel failed.
fn status_of<P: Port, C: Clock, G: Ledger, R: Ledger>(
    standing: &Standing,
    lane: &ControlLane<P, C, G, R>,
    missed: u64,
) -> Status
    requires { lane.now.done + 1 < 2 ^ 64 }
    ensures round { result.round ≡ lane.now.done + 1 }
    ensures class { result.class ≡ lane.now.class }
    ensures capacity { result.capacity ≡ lane.now.in_force }
{
    Status {
        class: lane.class,
        capacity: lane.in_force.get(),
        held: standing.live.rates,
        live_announce: standing.live.announces,
        live_sync: standing.live.syncs,
        live_delay_resp: standing.live.delay_resps,
        granted: standing.granted,
        refused: standing.refused,
        sent: standing.sent.saturating_add(lane.tally.sent),
        failed: standing
            .failed
            .saturating_add(u128::from(lane.tally.failed))
            .saturating_add(u128::from(missed)),
        round: lane.done + 1,
        moment: standing.moment.nanos(),
    }
}

impl<P: Port + Send, L: Rates, G: Ledger, R: Ledger, W: Wait> Service<'_, P, L, G, R, W> {
    // Begins a round. Where the settings change the capacity with it, that is done, and all lanes
    // meet behind it.
    fn begin_signaling<C: Clock>(
        &self,
        settings: &GmSettings,
        rounds: &Rounds,
        lane: ControlLane<P, C, G, R>,
    ) -> Result<ControlLane<P, C, G, R>, OutOfMemory>
        requires ledger { L.parts ≡ 4 }
        requires range { IsGmInRange settings.now }
        requires most { L.most ≡ peak_ordered L.told settings.now }
        requires left { lane.done < all_rounds settings.now }
        ensures { IfOk result
            (HasBegun P.Port C.Clock settings.now self.now.base.now.config.now lane) }
    {
        let Some(capacity) = capacity_with(settings, lane.done) else {
            return Ok(lane);
        };
        let mut lane = lane;
        let changed = change_capacity(self, InForce::of(capacity), &mut lane);
        rounds.met(self.base.rt, changed)?;
        Ok(lane)
    }

    // Takes what waits of Signaling in a round.
    fn take_signaling<C: Clock>(
        &self,
        mut lane: ControlLane<P, C, G, R>,
    ) -> Result<ControlLane<P, C, G, R>, OutOfMemory>
        requires ledger { L.parts ≡ 4 }
        requires counts { (lane.seat.granted ≤ 2 ^ 55) × (lane.seat.refused ≤ 2 ^ 55) }
        ensures took { IfOk result
            (TookSignaling P.Port C.Clock L.most self.now.base.now.config.now lane) }
        ensures control { IfOk result (λ new. new.control ≡ lane.control) }
    {
        let control = control_round(self, &mut lane.seat, &mut lane.port, &mut lane.clock)?;
        lane.tally = lane.tally.plus(control.sent, control.failed);
        Ok(lane)
    }

    // Takes the next datagram of the control port, where there is one.
    fn hear<C: Clock>(
        &self,
        settings: &GmSettings,
        lane: &mut ControlLane<P, C, G, R>,
    ) -> Option<Result<Command, Cause>>
        ensures heard { Hears P.Port settings.now lane.old.control lane.new.control result }
        ensures rest { lane.new ≡ record lane.old { control = lane.new.control } }
    {
        let key = settings.control_key.unwrap_or(0);
        match &mut lane.control {
            Some(port) => next_order(port, key),
            None => None,
        }
    }

    // Answers by the control port, where there is one.
    fn reply<C: Clock>(
        &self,
        lane: &mut ControlLane<P, C, G, R>,
        reply: &Reply,
    ) -> Result<(), OutOfMemory>
        ensures answered { OnOk result
            (SpokenTo P.Port [] (answer_sent reply.now ∷ []) lane.old.control lane.new.control) }
        ensures rest { lane.new ≡ record lane.old { control = lane.new.control } }
    {
        match &mut lane.control {
            Some(port) => answer(self.base.alloc, port, reply),
            None => Ok(()),
        }
    }

    // How the grandmaster stands in this round.
    fn status<C: Clock>(&self, rounds: &Rounds, lane: &ControlLane<P, C, G, R>) -> Status
        requires { lane.now.done + 1 < 2 ^ 64 }
        ensures round { result.round ≡ lane.now.done + 1 }
        ensures class { result.class ≡ lane.now.class }
        ensures capacity { result.capacity ≡ lane.now.in_force }
    {
        let standing = self.shared.standing(self.base.rt);
        status_of(&standing, lane, rounds.missed())
    }

    // A command that changes nothing is answered. One that changes something is left, to be obeyed
    // behind the meeting.
    fn answer_or_leave<C: Clock>(
        &self,
        rounds: &Rounds,
        lane: &mut ControlLane<P, C, G, R>,
        command: Command,
    ) -> Result<Option<Order>, OutOfMemory>
        requires { lane.old.done + 1 < 2 ^ 64 }
        ensures left { IfOk result (Leaves P.Port (Some (Ok command)) lane.old.done lane.old.class
            lane.old.in_force lane.old.control lane.new.control) }
        ensures rest { lane.new ≡ record lane.old { control = lane.new.control } }
    {
        match command {
            Command::Status => {
                let status = self.status(rounds, lane);
                self.reply(lane, &Reply::Stands(status))?;
                Ok(None)
            }
            Command::Class(class) => Ok(Some(Order::Class(class))),
            Command::Capacity(capacity) => Ok(Some(Order::Capacity(capacity))),
            Command::Stop { cancels } => Ok(Some(Order::Stop { cancels })),
        }
    }

    // The same of what was asked for. What is no command is answered, too.
    fn answer_any<C: Clock>(
        &self,
        rounds: &Rounds,
        lane: &mut ControlLane<P, C, G, R>,
        asked: Option<Result<Command, Cause>>,
    ) -> Result<Option<Order>, OutOfMemory>
        requires { lane.old.done + 1 < 2 ^ 64 }
        ensures left { IfOk result (Leaves P.Port asked lane.old.done lane.old.class
            lane.old.in_force lane.old.control lane.new.control) }
        ensures rest { lane.new ≡ record lane.old { control = lane.new.control } }
    {
        match asked {
            None => Ok(None),
            Some(Err(cause)) => {
                self.reply(lane, &Reply::Bad(cause))?;
                Ok(None)
            }
            Some(Ok(command)) => self.answer_or_leave(rounds, lane, command),
        }
    }

    // Takes what waits of Signaling in a round, and behind that one datagram of the control port.
    // Gives the order that came there, of which the other lanes hear at the meeting.
    fn take_and_hear<C: Clock>(
        &self,
        settings: &GmSettings,
        rounds: &Rounds,
        lane: ControlLane<P, C, G, R>,
    ) -> Result<(ControlLane<P, C, G, R>, Option<Order>), OutOfMemory>
        requires ledger { L.parts ≡ 4 }
        requires counts { (lane.seat.granted ≤ 2 ^ 55) × (lane.seat.refused ≤ 2 ^ 55) }
        requires done { lane.done + 1 < 2 ^ 64 }
        ensures { IfOk result (λ r. HasHeard P.Port C.Clock L.most settings.now
            self.now.base.now.config.now lane r.0 r.1) }
    {
        let mut lane = self.take_signaling(lane)?;
        let asked = self.hear(settings, &mut lane);
        let order = self.answer_any(rounds, &mut lane, asked)?;
        if let Some(order) = &order {
            rounds.meeting.say(self.base.rt, order.ahead());
        }
        Ok((lane, order))
    }

    // The Announces have this class from a new moment on.
    fn execute_class<C: Clock>(&self, class: u8, lane: &mut ControlLane<P, C, G, R>) -> Reply
        requires told { L.told ≡ true }
        requires sequence { lane.old.sequence < 65536 }
        ensures { HasExecuted P.Port C.Clock self.now.base.now.config.now (Order.Class class)
            lane.old lane.new result }
    {
        let _ = lane.clock.now();
        self.shared.set_class(self.base.rt, class);
        lane.class = class;
        Reply::Done
    }

    // The capacity is this from a new moment on.
    fn execute_capacity<C: Clock>(
        &self,
        capacity: Capacity,
        lane: &mut ControlLane<P, C, G, R>,
    ) -> Result<Reply, OutOfMemory>
        requires ledger { L.parts ≡ 4 }
        requires most { capacity ≤ L.most }
        ensures { IfOk result (HasExecuted P.Port C.Clock self.now.base.now.config.now
            (Order.Capacity capacity) lane.old lane.new) }
    {
        let shed = change_capacity(self, InForce::of(capacity), lane)?;
        Ok(Reply::Shed(shed.into()))
    }

    // The round was the last one, and each live grant is ended at a new moment.
    fn execute_cancel<C: Clock>(
        &self,
        lane: &mut ControlLane<P, C, G, R>,
    ) -> Result<Reply, OutOfMemory>
        requires ledger { L.parts ≡ 4 }
        ensures { IfOk result (HasExecuted P.Port C.Clock self.now.base.now.config.now
            (Order.Stop true) lane.old lane.new) }
    {
        change_capacity(self, InForce::NONE, lane)?;
        lane.stopped = true;
        Ok(Reply::Done)
    }

    // The round was the last one, and all grants stay.
    fn execute_stop<C: Clock>(&self, lane: &mut ControlLane<P, C, G, R>) -> Reply
        requires { lane.old.sequence < 65536 }
        ensures { HasExecuted P.Port C.Clock self.now.base.now.config.now (Order.Stop false)
            lane.old lane.new result }
    {
        lane.stopped = true;
        Reply::Done
    }

    // Does what is ordered, and gives the answer.
    fn execute<C: Clock>(
        &self,
        order: Order,
        lane: &mut ControlLane<P, C, G, R>,
    ) -> Result<Reply, OutOfMemory>
        requires ledger { L.parts ≡ 4 }
        requires most { greatest_capacity ≤ L.most }
        requires told { L.told ≡ true }
        requires sequence { lane.old.sequence < 65536 }
        ensures { IfOk result (HasExecuted P.Port C.Clock self.now.base.now.config.now order
            lane.old lane.new) }
    {
        match order {
            Order::Class(class) => Ok(self.execute_class(class, lane)),
            Order::Capacity(capacity) => self.execute_capacity(capacity, lane),
            Order::Stop { cancels: true } => self.execute_cancel(lane),
            Order::Stop { cancels: false } => Ok(self.execute_stop(lane)),
        }
    }

    // Obeys an order and answers it, while no other lane is in a round.
    fn obey<C: Clock>(
        &self,
        order: Order,
        lane: ControlLane<P, C, G, R>,
    ) -> Result<ControlLane<P, C, G, R>, OutOfMemory>
        requires ledger { L.parts ≡ 4 }
        requires most { greatest_capacity ≤ L.most }
        requires told { L.told ≡ true }
        ensures { IfOk result
            (HasObeyed P.Port C.Clock self.now.base.now.config.now (Some order) lane) }
    {
        let mut lane = lane;
        let reply = self.execute(order, &mut lane)?;
        self.reply(&mut lane, &reply)?;
        Ok(lane)
    }

    // Obeys the order that came in a round, behind its meeting. The other lanes wait for that,
    // where it is not the end.
    fn obey_any<C: Clock>(
        &self,
        rounds: &Rounds,
        order: Option<Order>,
        lane: ControlLane<P, C, G, R>,
    ) -> Result<ControlLane<P, C, G, R>, OutOfMemory>
        requires ledger { L.parts ≡ 4 }
        requires told { IfSome order (λ _. (L.told ≡ true) × (greatest_capacity ≤ L.most)) }
        ensures { IfOk result
            (HasObeyed P.Port C.Clock self.now.base.now.config.now order lane) }
    {
        let Some(order) = order else {
            return Ok(lane);
        };
        let lane = self.obey(order, lane);
        if order.is_end() {
            return lane;
        }
        let (lane, _) = rounds.met(self.base.rt, lane)?;
        Ok(lane)
    }

    // A round of the lane that takes Signaling, with its meeting. An order that changes something
    // is obeyed behind that.
    fn take_signaling_round<C: Clock>(
        &self,
        settings: &GmSettings,
        rounds: &Rounds,
        lane: ControlLane<P, C, G, R>,
    ) -> Result<ControlLane<P, C, G, R>, OutOfMemory>
        requires ledger { L.parts ≡ 4 }
        requires range { IsGmInRange settings.now }
        requires most { L.most ≡ peak_ordered L.told settings.now }
        requires told { L.told ≡ is_some lane.control }
        requires left { (lane.done < all_rounds settings.now) × (lane.done < 2 ^ 42) }
        requires counts { (lane.seat.granted ≤ 2 ^ 55) × (lane.seat.refused ≤ 2 ^ 55) }
        ensures { IfOk result (DidLaneRound P.Port C.Clock L.most settings.now
            self.now.base.now.config.now lane) }
    {
        let lane = self.begin_signaling(settings, rounds, lane)?;
        let heard = self.take_and_hear(settings, rounds, lane);
        let ((lane, order), _) = rounds.met(self.base.rt, heard)?;
        let mut lane = self.obey_any(rounds, order, lane)?;
        lane.done += 1;
        Ok(lane)
    }

    /// The rounds of the lane that takes Signaling, with a meeting after each: all, or less where
    /// an order stops them. A change of the settings comes before the round of its number, and has
    /// a meeting behind it. An order that changes something is obeyed behind the meeting of its
    /// round.
    ///
    /// # Errors
    /// `OutOfMemory`, with the lane dropped: after the round in which it or another lane gave up.
    pub(crate) fn take_signaling_all<C: Clock>(
        &self,
        settings: &GmSettings,
        rounds: &Rounds,
        lane: ControlLane<P, C, G, R>,
    ) -> Result<ControlLane<P, C, G, R>, OutOfMemory>
        requires ledger { L.parts ≡ 4 }
        requires range { IsGmInRange settings.now }
        requires most { L.most ≡ peak_ordered L.told settings.now }
        requires told { L.told ≡ is_some lane.control }
        requires seat { lane.seat ≡ no_verdicts }
        requires tally { (lane.tally.sent ≡ 0) × (lane.tally.failed ≡ 0) }
        requires fresh { IsFresh settings.now lane }
        ensures { IfOk result (ServedAs P.Port C.Clock settings.now
            self.now.base.now.config.now lane) }
    {
        let mut lane = lane;
        for _i in 0..settings.all_rounds() {
            lane = self.take_signaling_round(settings, rounds, lane)?;
            if lane.stopped {
                return Ok(lane);
            }
        }
        Ok(lane)
    }
}
