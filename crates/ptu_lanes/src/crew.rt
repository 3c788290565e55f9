//! The crew of a grandmaster: its lanes, each in a thread of its own but for the one that takes
//! Signaling. All threads are made before the first datagram is taken. Where one is refused, no
//! lane serves, and all is given back as it was opened.

ghost use Rattle.std.specs.Prelude.{◌≡◌, ◌+◌, ◌≤◌, ◌<◌, [], is_some, IfOk, IfSome};
ghost use Rattle.ptu_shared.specs.{Blanks.{IsBlankOf}, Opening.{seen_of}, Seats.{no_verdicts}};
ghost use Rattle.ptu_config.specs.{Limits.{IsGmInRange}, Rounds.{all_rounds}};
ghost use Rattle.ptu_lanes.specs.Orders.{peak_ordered};
ghost use Rattle.ptu_lanes.specs.Crew.{AreTurning, CrewCameTo, Ends, EventKept, HasDone, HasLeft, IsAtWork, IsFresh, IsServed, IsTurning, SendingKept, ServedAs};
ghost use Rattle.ptu_shared.specs.Turning.{AreTurnBlanks};
ghost use Rattle.ptu_lanes.specs.Stretches.{EventLaneDid, HaveTurned, SendingLaneDid};

use crate::calls::{Call, Called, EventCall, EventWork, SendingCall, SendingCalls, SendingWork};
use crate::changing::rounds_before_change;
use crate::lanes::{ControlLane, EventLane, Lanes, Rounds, SendingLane, SendingLanes};
use crate::service::{Base, Service};
use ptu_config::GmSettings;
use ptu_outside::{Clock, Meeting, Opened, Port};
use ptu_shared::{Blanks, Ledgers, Rates, Seat, Shared, TablePorts, Turners};
use ptu_units::OutOfMemory;
use std::snapshot::Snapshot;
use std::sync::ledger::Ledger;
use std::sync::{OnceLock, Wait};
use std::thread;
use std::thread::{Promise, Scope, Threads};

/// Where lanes wait until it is known whether all have their threads. It has the tables then, or
/// none where a lane was refused its thread.
pub(crate) type Gate<P, L, G, R> = OnceLock<Option<Shared<P, L, G, R>>>;

/// How the calls of all lanes have ended.
#[derive(Drop)]
pub(crate) enum Done<P: Port, C: Clock, L: Rates, G: Ledger, R: Ledger> {
    /// The lanes did all rounds. Beside them are the seats that no lane has: none.
    Served(Lanes<P, C, L, G, R>, Vec<Seat<G, R>>),
    /// A lane was refused its thread. All is as it was opened.
    Refused(Opened<P, C>, Option<P>),
}

/// What the lanes of a grandmaster have in common before they serve.
#[derive(Drop)]
pub(crate) struct Crew<'a, P: Port + Send, L: Rates, G: Ledger, R: Ledger, W> {
    pub base: &'a Base<'a, W>,
    pub gate: &'a Gate<P, L, G, R>,
    pub rounds: Rounds,
    /// How many threads may be made. One more is refused, as where the system refuses it.
    pub threads: usize,
}

// The lanes that turn tables at these clocks, before their first round, by these rights.
fn sending_lanes<C: Clock, L: Rates>(
    turners: Turners<L>,
    c2: C,
    c3: C,
    c4: C,
    c5: C,
) -> SendingLanes<C, L>
    ensures clocks { (result.first.clock ≡ c2) × (result.second.clock ≡ c3)
        × (result.third.clock ≡ c4) × (result.fourth.clock ≡ c5) }
    ensures turners { (result.first.turner ≡ turners.first)
        × (result.second.turner ≡ turners.second) × (result.third.turner ≡ turners.third)
        × (result.fourth.turner ≡ turners.fourth) }
    ensures fresh { (result.first.done ≡ 0) × (result.second.done ≡ 0)
        × (result.third.done ≡ 0) × (result.fourth.done ≡ 0) }
{
    let Turners {
        first,
        second,
        third,
        fourth,
    } = turners;
    SendingLanes {
        first: SendingLane {
            clock: c2,
            turner: first,
            done: 0,
        },
        second: SendingLane {
            clock: c3,
            turner: second,
            done: 0,
        },
        third: SendingLane {
            clock: c4,
            turner: third,
            done: 0,
        },
        fourth: SendingLane {
            clock: c5,
            turner: fourth,
            done: 0,
        },
    }
}

// How many lanes turn tables.
fn sender_count(settings: &GmSettings) -> usize
    ensures value { result ≡ settings.now.senders }
    ensures most { result ≤ 4 }
{
    usize::from(settings.senders.get())
}

impl<P, L, G, R, W> Crew<'_, P, L, G, R, W>
where
    P: Port + Send,
    L: Rates + Send + Sync,
    G: Ledger + Send + Sync,
    R: Ledger + Send + Sync,
    W: Threads + Wait + Sync,
{
    // Lets all lanes leave.
    fn refuse(&self) {
        let _ = self.gate.set(self.base.rt, None);
    }

    // What the lanes serve with, once all have their threads. None where one was refused.
    fn service(&self) -> Option<Service<'_, P, L, G, R, W>>
        ensures { IfSome result (λ service. service.base ≡ self.now.base) }
    {
        match self.gate.wait(self.base.rt) {
            Some(shared) => Some(Service {
                base: self.base,
                shared,
            }),
            None => None,
        }
    }

    // The call of the lane that takes Signaling.
    fn call_control<C: Clock>(
        &self,
        settings: &GmSettings,
        lane: ControlLane<P, C, G, R>,
    ) -> Called<ControlLane<P, C, G, R>>
        requires range { IsGmInRange settings.now }
        requires ledger { L.parts ≡ 4 }
        requires most { L.most ≡ peak_ordered L.told settings.now }
        requires told { L.told ≡ is_some lane.control }
        requires seat { lane.seat ≡ no_verdicts }
        requires tally { (lane.tally.sent ≡ 0) × (lane.tally.failed ≡ 0) }
        requires fresh { IsFresh settings.now lane }
        ensures { CrewCameTo (ServedAs P.Port C.Clock settings.now
            self.now.base.now.config.now lane) lane result }
    {
        match self.service() {
            Some(service) => Called::Served(service.take_signaling_all(
                settings,
                &self.rounds,
                lane,
            )),
            None => Called::Left(lane),
        }
    }

    // The call of the lane that takes Delay_Reqs.
    fn call_event<C: Clock>(&self, lane: EventLane<P, C>) -> Called<EventLane<P, C>>
        requires config { self.now.base.now.config.now ≡ L.config }
        requires fresh { lane.done ≡ 0 }
        ensures { CrewCameTo (λ new. EventLaneDid P.Port C.Clock new.done lane new) lane result }
    {
        match self.service() {
            Some(service) => Called::Served(service.take_part_delay_reqs(&self.rounds, lane)),
            None => Called::Left(lane),
        }
    }

    // The call of a lane that turns tables.
    fn call_sending<C: Clock>(&self, lane: SendingLane<C, L>) -> Called<SendingLane<C, L>>
        requires config { self.now.base.now.config.now ≡ L.config }
        requires fresh { lane.done ≡ 0 }
        ensures { CrewCameTo (λ new. SendingLaneDid C.Clock new.done lane new) lane result }
    {
        match self.service() {
            Some(service) => Called::Served(service.take_part_turning(&self.rounds, lane)),
            None => Called::Left(lane),
        }
    }

    // Makes the thread of this number, from 0, and makes the call there. Where the thread is
    // refused, all lanes are to leave, and the call is made here.
    fn start<'s, E, T, Q, F>(
        &self,
        scope: &Scope<'s, E>,
        thread: usize,
        promise: Q,
        call: F,
    ) -> Call<T, Q>
    where
        T: Send + Drop + 's,
        Q: Promise<T> + Drop,
        F: FnOnce() -> T + Send + 's,
        requires runs { F.pre call }
        requires keeps { (called : T) → F.post call called → Q.kept_by promise called }
        ensures { (called : T) → Ends Q.kept_by result called → Q.kept_by promise called }
    {
        if self.threads <= thread {
            self.refuse();
            return Call::Here(call());
        }
        match scope.spawn_with(promise, call) {
            Ok(handle) => Call::Thread(handle),
            Err(refused) => {
                self.refuse();
                Call::Here((refused.value)())
            }
        }
    }

    // The lane that takes Delay_Reqs begins.
    fn start_event<'s, E, C: Clock + Send + 's>(
        &'s self,
        scope: &Scope<'s, E>,
        lane: EventLane<P, C>,
    ) -> EventCall<P, C>
        requires config { self.now.base.now.config.now ≡ L.config }
        requires fresh { lane.done ≡ 0 }
        ensures { IsAtWork (λ new. EventLaneDid P.Port C.Clock new.done lane new) lane
            (EventKept P.Port C.Clock) result }
    {
        let work = EventWork {
            lane: Snapshot::of(&lane),
        };
        self.start(
            scope,
            0,
            work,
            move ||
                requires { (self.now.base.now.config.now ≡ L.config) × (lane.done ≡ 0) }
            { self.call_event(lane) },
        )
    }

    // The lane of this index that turns tables begins, if it may turn one.
    fn start_sending<'s, E, C: Clock + Send + 's>(
        &'s self,
        scope: &Scope<'s, E>,
        index: usize,
        lane: SendingLane<C, L>,
    ) -> SendingCall<C, L>
        requires config { self.now.base.now.config.now ≡ L.config }
        requires index { index < 4 }
        requires fresh { lane.done ≡ 0 }
        ensures { IsTurning C.Clock lane result }
    {
        if !lane.turner.may_turn_any() {
            return Call::Here(Called::Idle(lane));
        }
        let work = SendingWork {
            lane: Snapshot::of(&lane),
        };
        self.start(
            scope,
            1 + index,
            work,
            move ||
                requires { (self.now.base.now.config.now ≡ L.config) × (lane.done ≡ 0) }
            { self.call_sending(lane) },
        )
    }

    // The lanes begin that turn tables.
    fn start_all_sending<'s, E, C: Clock + Send + 's>(
        &'s self,
        scope: &Scope<'s, E>,
        lanes: SendingLanes<C, L>,
    ) -> SendingCalls<C, L>
        requires config { self.now.base.now.config.now ≡ L.config }
        requires fresh { (lanes.first.done ≡ 0) × (lanes.second.done ≡ 0)
            × (lanes.third.done ≡ 0) × (lanes.fourth.done ≡ 0) }
        ensures { AreTurning C.Clock lanes result }
    {
        let SendingLanes {
            first,
            second,
            third,
            fourth,
        } = lanes;
        SendingCalls {
            first: self.start_sending(scope, 0, first),
            second: self.start_sending(scope, 1, second),
            third: self.start_sending(scope, 2, third),
            fourth: self.start_sending(scope, 3, fourth),
        }
    }

    // The lanes that turned tables, once all have served.
    fn served_sending<C: Clock>(
        &self,
        calls: SendingCalls<C, L>,
    ) -> Result<SendingLanes<C, L>, OutOfMemory>
        ensures { (old : SendingLanes C L) → AreTurning C.Clock old calls
            → IfOk result (HaveTurned C.Clock old) }
    {
        let SendingCalls {
            first,
            second,
            third,
            fourth,
        } = calls;
        Ok(SendingLanes {
            first: first.called(self.base.rt).served()?,
            second: second.called(self.base.rt).served()?,
            third: third.called(self.base.rt).served()?,
            fourth: fourth.called(self.base.rt).served()?,
        })
    }

    // The lanes that were to turn tables, once all have left.
    fn left_sending<C: Clock>(
        &self,
        calls: SendingCalls<C, L>,
    ) -> Result<SendingLanes<C, L>, OutOfMemory>
        ensures { (old : SendingLanes C L) → AreTurning C.Clock old calls
            → IfOk result (λ lanes. lanes ≡ old) }
    {
        let SendingCalls {
            first,
            second,
            third,
            fourth,
        } = calls;
        Ok(SendingLanes {
            first: first.called(self.base.rt).left()?,
            second: second.called(self.base.rt).left()?,
            third: third.called(self.base.rt).left()?,
            fourth: fourth.called(self.base.rt).left()?,
        })
    }

    // Lets all lanes serve, over tables with these ports. Gives the seat, and the seats beside it.
    // After `OutOfMemory` all lanes are to leave.
    fn open(
        &self,
        settings: &GmSettings,
        ledgers: Ledgers<L>,
        p0: P,
        p1: P,
        p2: P,
        p3: P,
    ) -> Result<(Seat<G, R>, Vec<Seat<G, R>>), OutOfMemory>
        requires rates { IsBlankOf L.name L.parts 4 ledgers.rates }
        requires granted { IsBlankOf G.name G.parts L.seats ledgers.granted }
        requires refused { IsBlankOf R.name R.parts L.seats ledgers.refused }
        requires range { IsGmInRange settings.now }
        requires opening { L.opening ≡ settings.now.capacity }
        requires most { L.most ≡ peak_ordered L.told settings.now }
        requires seats { L.seats ≡ 1 }
        requires ports { (seen_of P.Port p0 ≡ L.opened 0) × (seen_of P.Port p1 ≡ L.opened 1)
            × (seen_of P.Port p2 ≡ L.opened 2) × (seen_of P.Port p3 ≡ L.opened 3) }
        ensures seat { IfOk result (λ seats. seats.0 ≡ no_verdicts) }
        ensures others { IfOk result (λ seats. seats.1.items ≡ []) }
    {
        let ports = TablePorts { p0, p1, p2, p3 };
        let made = Shared::<P, L, G, R>::new(self.base.alloc, ledgers, settings.capacity, 1, ports);
        let Ok((shared, mut seats)) = made else {
            self.refuse();
            return Err(OutOfMemory);
        };
        let seat = seats.remove(0);
        let _ = self.gate.set(self.base.rt, Some(shared));
        Ok((seat, seats))
    }

    // All lanes begin, and serve over tables with these ports where all have their threads.
    fn work<'s, E, C: Clock + Send + 's>(
        &'s self,
        scope: &Scope<'s, E>,
        settings: &GmSettings,
        blanks: Blanks,
        opened: Opened<P, C>,
        control: Option<P>,
    ) -> Result<Done<P, C, L, G, R>, OutOfMemory>
        requires rates { IsBlankOf L.name L.parts 4 blanks.rates }
        requires granted { IsBlankOf G.name G.parts L.seats blanks.granted }
        requires refused { IsBlankOf R.name R.parts L.seats blanks.refused }
        requires turns { AreTurnBlanks L.turns blanks.turns }
        requires opening { L.opening ≡ settings.now.capacity }
        requires most { L.most ≡ peak_ordered L.told settings.now }
        requires told { L.told ≡ is_some control }
        requires seats { L.seats ≡ 1 }
        requires ports { (seen_of P.Port opened.p0 ≡ L.opened 0)
            × (seen_of P.Port opened.p1 ≡ L.opened 1) × (seen_of P.Port opened.p2 ≡ L.opened 2)
            × (seen_of P.Port opened.p3 ≡ L.opened 3) }
        requires range { IsGmInRange settings.now }
        requires senders { 1 ≤ settings.now.senders }
        requires config { self.now.base.now.config.now ≡ L.config }
        requires rounds { self.now.rounds.count ≡ all_rounds settings.now }
        ensures { IfOk result
            (HasDone P.Port C.Clock settings.now self.now.base.now.config.now opened control) }
    {
        let (ledgers, turner) = blanks.open();
        let turners = turner.share_out(sender_count(settings));
        let sending = sending_lanes(turners, opened.c2, opened.c3, opened.c4, opened.c5);
        let event = self.start_event(scope, EventLane::new(opened.p5, opened.c1));
        let sending = self.start_all_sending(scope, sending);
        if self.gate.get().is_some() {
            let event = event.called(self.base.rt).left()?;
            let sending = self.left_sending(sending)?;
            let (_, (c2, c3, c4, c5)) = sending.into_parts();
            let back = Opened {
                p5: event.port,
                c1: event.clock,
                c2,
                c3,
                c4,
                c5,
                ..opened
            };
            return Ok(Done::Refused(back, control));
        }
        let (seat, seats) = self.open(
            settings, ledgers, opened.p0, opened.p1, opened.p2, opened.p3,
        )?;
        let control = ControlLane::new(settings, seat, opened.p4, opened.c0, control);
        let control = self.call_control(settings, control).served()?;
        let event = event.called(self.base.rt).served()?;
        let sending = self.served_sending(sending)?;
        let lanes = Lanes {
            control,
            event,
            sending,
        };
        Ok(Done::Served(lanes, seats))
    }
}

/// Calls all lanes of a grandmaster of these settings over these ports and clocks, each in a thread
/// of its own but for the one that takes Signaling, with at most so many threads. They serve at the
/// gate's tables once all have their threads, and else leave.
///
/// # Errors
/// `OutOfMemory`, after the round in which it came, with the ports and clocks dropped.
pub(crate) fn call_all<'a, P, C, L, G, R, W>(
    base: &'a Base<'a, W>,
    gate: &'a Gate<P, L, G, R>,
    threads: usize,
    settings: &GmSettings,
    blanks: Blanks,
    opened: Opened<P, C>,
    control: Option<P>,
) -> Result<Done<P, C, L, G, R>, OutOfMemory>
where
    P: Port + Send,
    C: Clock + Send,
    L: Rates + Send + Sync,
    G: Ledger + Send + Sync,
    R: Ledger + Send + Sync,
    W: Threads + Wait + Sync,
    requires rates { IsBlankOf L.name L.parts 4 blanks.rates }
    requires granted { IsBlankOf G.name G.parts L.seats blanks.granted }
    requires refused { IsBlankOf R.name R.parts L.seats blanks.refused }
    requires turns { AreTurnBlanks L.turns blanks.turns }
    requires opening { L.opening ≡ settings.now.capacity }
    requires most { L.most ≡ peak_ordered L.told settings.now }
    requires told { L.told ≡ is_some control }
    requires seats { L.seats ≡ 1 }
    requires ports { (seen_of P.Port opened.p0 ≡ L.opened 0)
        × (seen_of P.Port opened.p1 ≡ L.opened 1) × (seen_of P.Port opened.p2 ≡ L.opened 2)
        × (seen_of P.Port opened.p3 ≡ L.opened 3) }
    requires range { IsGmInRange settings.now }
    requires senders { 1 ≤ settings.now.senders }
    requires config { base.now.config.now ≡ L.config }
    ensures { IfOk result (HasDone P.Port C.Clock settings.now base.now.config.now opened control) }
{
    let rounds = Rounds::new(
        Meeting::new(2 + u64::from(settings.senders.get())),
        settings.all_rounds(),
        rounds_before_change(settings),
    );
    let crew = Crew {
        base,
        gate,
        rounds,
        threads,
    };
    let crew = &crew;
    thread::scope(
        thread::scope_env(),
        base.rt,
        move |scope| -> Result<Done<P, C, L, G, R>, OutOfMemory>
            requires { IsBlankOf L.name L.parts 4 blanks.rates
                × IsBlankOf G.name G.parts L.seats blanks.granted
                × IsBlankOf R.name R.parts L.seats blanks.refused
                × AreTurnBlanks L.turns blanks.turns
                × (L.opening ≡ settings.now.capacity)
                × (L.most ≡ peak_ordered L.told settings.now) × (L.told ≡ is_some control)
                × (L.seats ≡ 1)
                × (seen_of P.Port opened.p0 ≡ L.opened 0)
                × (seen_of P.Port opened.p1 ≡ L.opened 1)
                × (seen_of P.Port opened.p2 ≡ L.opened 2)
                × (seen_of P.Port opened.p3 ≡ L.opened 3)
                × IsGmInRange settings.now × (1 ≤ settings.now.senders)
                × (crew.now.base.now.config.now ≡ L.config)
                × (crew.now.rounds.count ≡ all_rounds settings.now) }
            ensures { IfOk result
                (HasDone P.Port C.Clock settings.entry.now crew.entry.now.base.now.config.now
                opened control) }
        { crew.work(scope, settings, blanks, opened, control) },
    )
}
