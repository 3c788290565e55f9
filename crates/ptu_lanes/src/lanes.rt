//! The lanes of a grandmaster, with what each keeps from round to round.

ghost use Rattle.std.specs.Prelude.{◌≡◌, ◌+◌, ◌-◌, ◌*◌, ◌^◌, ◌≤◌, false, min, Ok, IfOk};
ghost use Rattle.ptu_shared.specs.Turning.{after_rounds};
ghost use Rattle.ptu_lanes.specs.Crew.{turns_by};
ghost use Rattle.ptu_lanes.specs.Stretches.{EventLaneDid, SendingLaneDid};
ghost use Rattle.ptu_lanes.specs.Waiting.{PassedBy, rights};

use crate::delays::delay_round;
use crate::service::Service;
use crate::turns::turn_round;
use ptu_admit::InForce;
use ptu_config::GmSettings;
use ptu_outside::{Ahead, Clock, Meeting, Port};
use ptu_shared::{PortTally, Rates, Seat, Turner};
use ptu_units::{Moment, OutOfMemory};
use std::sync::Wait;
use std::sync::atomic::{AtomicU64, Ordering};
use std::sync::ledger::Ledger;

/// The lane that takes Signaling.
#[derive(Drop)]
pub(crate) struct ControlLane<P: Port, C: Clock, G: Ledger, R: Ledger> {
    pub seat: Seat<G, R>,
    pub port: P,
    pub clock: C,
    pub tally: PortTally,
    /// The port by which an operator speaks, where there is one.
    pub control: Option<P>,
    /// The class of the Announces.
    pub class: u8,
    /// The capacity that was put in force last.
    pub in_force: InForce,
    /// The sequenceId of the next CANCEL.
    pub sequence: u16,
    /// How many rounds it did.
    pub done: u64,
    /// Whether an order has stopped it.
    pub stopped: bool,
}

impl<P: Port, C: Clock, G: Ledger, R: Ledger> ControlLane<P, C, G, R> {
    /// The lane of a grandmaster of these settings, before its first round.
    pub(crate) fn new(
        settings: &GmSettings,
        seat: Seat<G, R>,
        port: P,
        clock: C,
        control: Option<P>,
    ) -> ControlLane<P, C, G, R>
        ensures { result ≡ record {
          seat = seat;
          port = port;
          clock = clock;
          tally = record { sent = 0; failed = 0 };
          control = control;
          class = settings.now.class;
          in_force = settings.now.capacity;
          sequence = 0;
          done = 0;
          stopped = false;
        } }
    {
        ControlLane {
            seat,
            port,
            clock,
            tally: PortTally::none(),
            control,
            class: settings.class,
            in_force: InForce::of(settings.capacity),
            sequence: 0,
            done: 0,
            stopped: false,
        }
    }
}

/// The lane that takes Delay_Reqs, and how many of its receives failed. What the tables' ports are
/// sent is counted beside the tables.
#[derive(Drop)]
pub(crate) struct EventLane<P: Port, C: Clock> {
    pub port: P,
    pub clock: C,
    pub failed: u64,
    /// How many rounds it did.
    pub done: u64,
}

impl<P: Port, C: Clock> EventLane<P, C> {
    /// The lane at this port and clock, before its first round.
    pub(crate) fn new(port: P, clock: C) -> EventLane<P, C>
        ensures { result ≡ record { port = port; clock = clock; failed = 0; done = 0 } }
    {
        EventLane {
            port,
            clock,
            failed: 0,
            done: 0,
        }
    }
}

/// A lane that turns tables, with the right to do so. What their ports are sent is counted beside
/// them.
#[derive(Drop)]
pub(crate) struct SendingLane<C: Clock, L: Rates> {
    pub clock: C,
    pub turner: Turner<L>,
    /// How many rounds it did.
    pub done: u64,
}

/// The lanes that turn tables, of which the first ones are at work.
#[derive(Drop)]
pub(crate) struct SendingLanes<C: Clock, L: Rates> {
    pub first: SendingLane<C, L>,
    pub second: SendingLane<C, L>,
    pub third: SendingLane<C, L>,
    pub fourth: SendingLane<C, L>,
}

impl<C: Clock, L: Rates> SendingLanes<C, L> {
    /// What they may turn together, and their clocks.
    pub(crate) fn into_parts(self) -> (Turner<L>, (C, C, C, C))
        ensures turner { result.0 ≡ turns_by self }
        ensures clocks { (result.1.0 ≡ self.first.clock) × (result.1.1 ≡ self.second.clock)
            × (result.1.2 ≡ self.third.clock) × (result.1.3 ≡ self.fourth.clock) }
    {
        let SendingLanes {
            first,
            second,
            third,
            fourth,
        } = self;
        let last = third.turner.and(fourth.turner);
        let turner = first.turner.and(second.turner.and(last));
        let clocks = (first.clock, second.clock, third.clock, fourth.clock);
        (turner, clocks)
    }
}

/// All rounds, with a meeting after each, and one more behind the change of capacity.
#[derive(Drop)]
pub(crate) struct Rounds {
    pub meeting: Meeting,
    pub count: u64,
    /// The number of rounds before the change of capacity, or `None` where there is no change.
    pub early: Option<u64>,
    // How many receives of the lane that takes Delay_Reqs have failed.
    missed: AtomicU64,
}

impl Rounds {
    /// So many rounds, with this meeting, of which so many come before a change of capacity, where
    /// there is one.
    pub(crate) fn new(meeting: Meeting, count: u64, early: Option<u64>) -> Rounds
        ensures { result.count ≡ count }
    {
        Rounds {
            meeting,
            count,
            early,
            missed: AtomicU64::new(0),
        }
    }

    /// How many receives of the lane that takes Delay_Reqs have failed.
    pub(crate) fn missed(&self) -> u64 {
        self.missed.load(Ordering::SeqCst)
    }

    /// A lane once it has met the others, and what comes then.
    ///
    /// # Errors
    /// `OutOfMemory`, with the lane dropped: it or another lane gave up, and it takes part no more.
    pub(crate) fn met<T: Drop>(
        &self,
        rt: &impl Wait,
        lane: Result<T, OutOfMemory>,
    ) -> Result<(T, Ahead), OutOfMemory>
        ensures { IfOk result (λ new. lane ≡ Ok new.0) }
    {
        if let Ok(lane) = lane {
            if let Some(ahead) = self.meeting.meet(rt) {
                return Ok((lane, ahead));
            }
        }
        self.meeting.give_up(rt);
        Err(OutOfMemory)
    }

    // Begins a round, before which there were so many: the round of the change once the capacity
    // has changed. `OutOfMemory` where another lane gave up.
    fn begin(&self, rt: &impl Wait, before: u64) -> Result<(), OutOfMemory> {
        if self.early == Some(before) {
            self.met(rt, Ok(()))?;
        }
        Ok(())
    }

    // Whether rounds go on behind a meeting that comes before this: once an order was obeyed.
    // `OutOfMemory` where another lane gave up.
    fn goes_on(&self, rt: &impl Wait, ahead: Ahead) -> Result<bool, OutOfMemory> {
        match ahead {
            Ahead::Round => Ok(true),
            Ahead::Order => {
                self.met(rt, Ok(()))?;
                Ok(true)
            }
            Ahead::End => Ok(false),
        }
    }
}

/// All lanes of a grandmaster.
#[derive(Drop)]
pub(crate) struct Lanes<P: Port, C: Clock, L: Rates, G: Ledger, R: Ledger> {
    pub control: ControlLane<P, C, G, R>,
    pub event: EventLane<P, C>,
    pub sending: SendingLanes<C, L>,
}

impl<P: Port + Send, L: Rates, G: Ledger, R: Ledger, W: Wait> Service<'_, P, L, G, R, W> {
    // Once all other lanes have come to the meeting, waits until a datagram is there to receive or
    // a message may be due, as long as the port does. So what was granted in this round counts, and
    // the other lanes sleep meanwhile. Where a lane has given up it does not wait.
    fn wait(&self, rounds: &Rounds, port: &mut P)
        ensures sent { P.sent port.new ≡ P.sent port.old }
        ensures waiting { P.waiting port.new ≡ P.waiting port.old }
        ensures quiet { P.faults port.new ≡ P.faults port.old }
    {
        if rounds.meeting.await_others(self.base.rt) {
            self.shared.wait(self.base.rt, port, Moment::last());
        }
    }

    // A round of the lane that takes Delay_Reqs, at whose end it waits.
    fn take_delay_reqs<C: Clock>(
        &self,
        rounds: &Rounds,
        mut lane: EventLane<P, C>,
    ) -> Result<EventLane<P, C>, OutOfMemory>
        requires config { self.now.base.now.config.now ≡ L.config }
        ensures { IfOk result (EventLaneDid P.Port C.Clock 1 lane) }
    {
        let delays = delay_round(self, &mut lane.port, &mut lane.clock)?;
        lane.failed = lane.failed.saturating_add(delays.missed);
        rounds.missed.store(lane.failed, Ordering::SeqCst);
        self.wait(rounds, &mut lane.port);
        Ok(lane)
    }

    // A round of a lane that turns tables.
    fn turn_own<C: Clock>(&self, mut lane: SendingLane<C, L>) -> SendingLane<C, L>
        requires { self.now.base.now.config.now ≡ L.config }
        ensures moments { PassedBy (rights lane.turner) (C.moments lane.clock)
            (C.moments result.clock) }
        ensures turns { result.turner ≡ after_rounds 1 lane.turner }
    {
        turn_round(self, &mut lane.turner, &mut lane.clock);
        lane
    }

    /// The rounds of the lane that takes Delay_Reqs, with a meeting after each: all, or less where
    /// an order stops them.
    ///
    /// # Errors
    /// `OutOfMemory`, with the lane dropped: after the round in which it or another lane gave up.
    pub(crate) fn take_part_delay_reqs<C: Clock>(
        &self,
        rounds: &Rounds,
        lane: EventLane<P, C>,
    ) -> Result<EventLane<P, C>, OutOfMemory>
        requires config { self.now.base.now.config.now ≡ L.config }
        requires fresh { lane.done ≡ 0 }
        ensures { IfOk result (λ new. EventLaneDid P.Port C.Clock new.done lane new) }
    {
        let mut lane = lane;
        for i in 0..rounds.count {
            rounds.begin(self.base.rt, i)?;
            let (next, ahead) = rounds.met(self.base.rt, self.take_delay_reqs(rounds, lane))?;
            lane = next;
            lane.done = i + 1;
            if !rounds.goes_on(self.base.rt, ahead)? {
                return Ok(lane);
            }
        }
        Ok(lane)
    }

    /// The rounds of a lane that turns tables, with a meeting after each: all, or less where an
    /// order stops them.
    ///
    /// # Errors
    /// `OutOfMemory`, with the lane dropped: after the round in which another lane gave up.
    pub(crate) fn take_part_turning<C: Clock>(
        &self,
        rounds: &Rounds,
        lane: SendingLane<C, L>,
    ) -> Result<SendingLane<C, L>, OutOfMemory>
        requires config { self.now.base.now.config.now ≡ L.config }
        requires fresh { lane.done ≡ 0 }
        ensures { IfOk result (λ new. SendingLaneDid C.Clock new.done lane new) }
    {
        let mut lane = lane;
        for i in 0..rounds.count {
            rounds.begin(self.base.rt, i)?;
            let (next, ahead) = rounds.met(self.base.rt, Ok(self.turn_own(lane)))?;
            lane = next;
            lane.done = i + 1;
            if !rounds.goes_on(self.base.rt, ahead)? {
                return Ok(lane);
            }
        }
        Ok(lane)
    }
}
