//! A grandmaster that is driven by a list of events.

ghost use Rattle.std.specs.Prelude.{◌≡◌, ◌+◌, ◌*◌, ◌^◌, ◌<◌, ◌≤◌, ℕ, List, All, IfOk, OnOk};
ghost use Rattle.ptu_history.specs.{Core.{history_after}, Counts.{counts}, Held.{budget, count}};
ghost use Rattle.ptu_history.specs.History.{Record};
ghost use Rattle.ptu_gm_messages.specs.Deciding.{opened_with};
ghost use Rattle.ptu_units.specs.{Limits.{IsCapacity}, Time.{second}};
ghost use Rattle.ptu_grandmaster.specs.Driven.{IsPossible, IsSetUpAs, IsTimely, driven_history, events_of, sent_taken};
ghost use Rattle.ptu_grandmaster.specs.Gm.{StandsFor};

use crate::gm::Gm;
use crate::outcome::Taken;
use ptu_outside::{Datagram, Port};
use ptu_profile::GmConfig;
use ptu_shard::Answered;
use ptu_units::{Capacity, Moment, OutOfMemory};
use std::alloc::Global;

/// What may happen to a grandmaster.
#[derive(Drop)]
pub enum GmEvent {
    /// A datagram comes.
    Take {
        t: Moment,
        /// The IPv4 address that it came from.
        from: u32,
        bytes: Datagram,
    },
    /// A table takes a turn.
    Turn {
        t: Moment,
        /// The table's index, from 0 to 3.
        table: usize,
    },
    /// The clockClass becomes this.
    Class(u8),
    /// The capacity in force becomes this.
    Capacity {
        t: Moment,
        capacity: Capacity,
    },
}

/// What became of a grandmaster that was driven by a list of events.
#[derive(Drop)]
pub struct Driven<P: Port> {
    /// The grandmaster.
    pub gm: Gm<P>,
    /// How many timing messages it handed to its ports, failed sends too.
    pub sent: u64,
}

// How many timing messages a datagram made a grandmaster hand to its ports.
fn sent_by(taken: &Taken) -> u64
    ensures { result ≡ sent_taken taken.now }
{
    match taken {
        Taken::Delay(Answered::Sent { .. } | Answered::Failed { .. }) => 1,
        Taken::Delay(Answered::NoGrant { .. } | Answered::TooSoon { .. })
        | Taken::Ignored(_)
        | Taken::Asked(..) => 0,
    }
}

// The moment, which is below 2^62.
fn handed(t: &Moment) -> Moment
    ensures value { result ≡ t.now }
    ensures below { result < 2 ^ 62 }
{
    let _nanos = t.nanos();
    *t
}

// The capacity, which is within its limits.
fn lent(capacity: &Capacity) -> Capacity
    ensures value { result ≡ capacity.now }
    ensures range { IsCapacity result }
{
    let _sixteenths = capacity.get();
    *capacity
}

impl<P: Port> Gm<P> {
    // Takes an event. Gives how many timing messages were sent, and how many of their sends failed.
    fn follow(&mut self, event: &GmEvent) -> Result<(u64, u64), OutOfMemory>
        requires { IsPossible event.now }
        ensures timely { OnOk result (IsTimely event.now) }
        ensures config { OnOk result (IsSetUpAs self.old.config self.new.config) }
        ensures follows { (opening : ℕ) (history : List Record) →
            StandsFor opening self.old history → IfOk result (λ n.
            let after = history_after (opened_with opening self.old.config) history
            (events_of self.old.config event.now) in
            StandsFor opening self.new after
            × ((counts after).sent ≡ (counts history).sent + (n.0 + n.1))) }
    {
        match event {
            GmEvent::Take { t, from, bytes } => {
                let taken = self.take(handed(t), *from, bytes.bytes())?;
                Ok((sent_by(&taken), 0))
            }
            GmEvent::Turn { t, table } => {
                let turned = self.turn(*table, handed(t));
                Ok((turned.sent, turned.failed))
            }
            GmEvent::Class(class) => {
                self.set_class(*class);
                Ok((0, 0))
            }
            GmEvent::Capacity { t, capacity } => {
                self.set_capacity(handed(t), lent(capacity))?;
                Ok((0, 0))
            }
        }
    }
}

/// Makes a grandmaster, and drives it by these events, in order. Whatever they are, its timing
/// messages up to each moment, at sixteen seconds of one sixteenth each, are within the budget: the
/// sum of the capacity in force over all nanoseconds before it. Failed sends count too.
///
/// # Errors
/// `OutOfMemory` if a `take` or a `set_capacity` runs out of memory.
pub fn drive<P: Port>(
    alloc: Global,
    config: GmConfig,
    capacity: Capacity,
    p0: P,
    p1: P,
    p2: P,
    p3: P,
    reply: P,
    events: &[GmEvent],
) -> Result<Driven<P>, OutOfMemory>
    requires possible { All IsPossible events.now }
    ensures stands { IfOk result (λ d.
        StandsFor capacity d.gm (driven_history config capacity events.now)) }
    ensures sent { IfOk result (λ d.
        d.sent ≡ (counts (driven_history config capacity events.now)).sent) }
    ensures budget { (x : ℕ) → let history = driven_history config capacity events.now in
        count history x * (16 * second) ≤ budget capacity history x }
{
    let _sixteenths = capacity.get();
    let mut gm = Gm::new(alloc, config, capacity, p0, p1, p2, p3, reply);
    let mut sent = 0;
    for event in events {
        let (more, failed) = gm.follow(event)?;
        sent += more;
        sent += failed;
    }
    Ok(Driven { gm, sent })
}
