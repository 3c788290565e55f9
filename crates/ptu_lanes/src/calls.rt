//! The calls of lanes, in threads of their own, and what comes of them.

ghost use Rattle.std.specs.Prelude.{◌≡◌, IfOk};
ghost use Rattle.ptu_lanes.specs.Crew.{Ends, EventKept, HasLeft, IsServed, SendingKept};

use crate::lanes::{EventLane, SendingLane};
use ptu_outside::{Clock, Port};
use ptu_shared::Rates;
use ptu_units::OutOfMemory;
use std::snapshot::Snapshot;
use std::thread::{Promise, PromisedHandle, Threads};

/// What came of a lane's call.
#[derive(Drop)]
pub(crate) enum Called<T: Drop> {
    /// All lanes had their threads: it did all rounds, or gave up.
    Served(Result<T, OutOfMemory>),
    /// A lane was refused its thread: it is as it was.
    Left(T),
    /// It has no work, and is as it was.
    Idle(T),
}

impl<T: Drop> Called<T> {
    /// The lane, where all served. What a lane finds at the gate is what the others find there, so
    /// no other has left then; no clause of a `OnceLock` says so, and it would be a fault.
    ///
    /// # Errors
    /// `OutOfMemory`, with the lane dropped.
    pub(crate) fn served(self) -> Result<T, OutOfMemory>
        ensures { IfOk result (λ lane. IsServed lane self) }
    {
        match self {
            Called::Served(lane) => lane,
            Called::Left(_) => Err(OutOfMemory),
            Called::Idle(lane) => Ok(lane),
        }
    }

    /// The lane, where all have left. As with `served`, no other has served then.
    ///
    /// # Errors
    /// `OutOfMemory`, with the lane dropped.
    pub(crate) fn left(self) -> Result<T, OutOfMemory>
        ensures { IfOk result (λ lane. HasLeft lane self) }
    {
        match self {
            Called::Served(_) => Err(OutOfMemory),
            Called::Left(lane) => Ok(lane),
            Called::Idle(lane) => Ok(lane),
        }
    }
}

/// A call that was to be made in a thread of its own.
#[derive(Drop)]
pub(crate) enum Call<T: Drop, Q: Promise<T>> {
    /// It has its thread.
    Thread(PromisedHandle<T, Q>),
    /// It was made by its caller.
    Here(T),
}

impl<T: Drop, Q: Promise<T>> Call<T, Q> {
    /// What comes of it, once its thread has ended.
    pub(crate) fn called(self, rt: &impl Threads) -> T
        ensures { Ends Q.kept_by self result }
    {
        match self {
            Call::Thread(handle) => handle.join(rt),
            Call::Here(called) => called,
        }
    }
}

/// What the lane that takes Delay_Reqs is called for: rounds of this lane.
#[derive(Drop)]
pub(crate) struct EventWork<P: Port, C: Clock> {
    pub lane: Snapshot<EventLane<P, C>>,
}

impl<P: Port, C: Clock> Promise<Called<EventLane<P, C>>> for EventWork<P, C> {
    ghost kept_by = { λ work called. EventKept P.Port C.Clock work called };
}

/// What a lane that turns tables is called for: rounds of this lane.
#[derive(Drop)]
pub(crate) struct SendingWork<C: Clock, L: Rates> {
    pub lane: Snapshot<SendingLane<C, L>>,
}

impl<C: Clock, L: Rates> Promise<Called<SendingLane<C, L>>> for SendingWork<C, L> {
    ghost kept_by = { λ work called. SendingKept C.Clock work called };
}

/// The call of the lane that takes Delay_Reqs.
pub(crate) type EventCall<P, C> = Call<Called<EventLane<P, C>>, EventWork<P, C>>;

/// The call of a lane that turns tables.
pub(crate) type SendingCall<C, L> = Call<Called<SendingLane<C, L>>, SendingWork<C, L>>;

/// The calls of all lanes that turn tables.
#[derive(Drop)]
pub(crate) struct SendingCalls<C: Clock, L: Rates> {
    pub first: SendingCall<C, L>,
    pub second: SendingCall<C, L>,
    pub third: SendingCall<C, L>,
    pub fourth: SendingCall<C, L>,
}
