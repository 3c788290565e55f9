//! The records of one grandmaster in the order of a report, judged one by one.

ghost use Rattle.std.specs.Prelude.{◌≡◌, ◌<◌, ◌≤◌, ◌+◌, ◌^◌, ◌∷◌, [], ◌++◌, ℕ, List, length, IfNone, IfSome, IfOk, MatchOption, map, nat_lt, not, true};
ghost use Rattle.ptu_units.specs.Log.{rate_of};
ghost use Rattle.ptu_history.specs.History.{Record, Capacity, Ended, Granted};
ghost use Rattle.ptu_history.specs.{Moments.{book_moment}, Live.{Grant}, Verdict.{rate_sum}};
ghost use Rattle.ptu_trail.specs.Clients.{AreKnown};
ghost use Rattle.ptu_trail.specs.Faults.{fault_of, first_fault, is_no_moment, message_to, moment_of_stamp, record_of};
ghost use Rattle.ptu_trail.specs.{Live.{AreLive, AreOf, total_of}, Trail.{StandsFor}};

use crate::cause::{Fault, NoCause, Shedding};
use crate::clients::Clients;
use crate::live::{End, LiveGrants};
use ptu_units::timescale::NANOS_PER_SECOND;
use ptu_units::{Client, Kind, Log, OutOfMemory, Stamp, rate};
use std::alloc::Global;

/// The trail of one grandmaster: what its decisions and messages so far leave, as far as the next
/// one is judged by it. Each call takes one more record, or a change of capacity with its
/// sheddings, and answers its first fault. After a fault, or after `OutOfMemory`, a trail stands
/// for nothing: no further call is made on it.
#[derive(Drop)]
pub struct Trail {
    capacity: u64,
    // The greatest moment of a decision or change, in nanoseconds.
    moment: u64,
    clients: Clients,
    // The grants that are live at that moment.
    live: LiveGrants,
}

// The moment of the timestamp, or `None` where it has none.
fn moment_of(stamp: Stamp) -> Option<u64>
    ensures { MatchOption result (is_no_moment (moment_of_stamp stamp) ≡ true)
        (λ at. (at ≡ moment_of_stamp stamp) × (at < 2 ^ 62)) }
{
    let at = u128::from(stamp.seconds) * u128::from(NANOS_PER_SECOND) + u128::from(stamp.nanos);
    if u64::from(stamp.nanos) < NANOS_PER_SECOND && at < 1 << 62 {
        Some(at as u64)
    } else {
        None
    }
}

// Whether a grant at the logarithm fits beside the live ones.
fn fits(live: &LiveGrants, capacity: u64, log: Log) -> bool
    ensures sum { result ≡ true → total_of live.now + rate_of log < 2 ^ 64 }
    ensures fits { (grants : List Grant) → AreOf grants live.now →
        result ≡ not (nat_lt capacity (rate_sum grants + rate_of log)) }
{
    let rate = rate(log);
    rate <= capacity && live.total() <= capacity - rate
}

// Lets go of the grants that are shed, of clients of which this is known.
fn drop_shed(live: &mut LiveGrants, clients: &Clients, shed: &[Shedding])
    ensures { (history : List Record) (n at : ℕ) →
        AreKnown history clients.now → AreLive history n live.old →
        AreLive (history ++ map (record_of at) shed.now) n live.new }
{
    for one in shed {
        live.remove(&one.client, one.kind, clients.lease(&one.client, one.kind));
    }
}

impl Trail {
    /// The trail of a grandmaster of this capacity, in sixteenths of a message per second, before
    /// any record.
    pub fn new(alloc: Global, capacity: u64) -> Trail
        ensures { StandsFor capacity result [] }
    {
        Trail {
            capacity,
            moment: 0,
            clients: Clients::new(alloc),
            live: LiveGrants::new(alloc),
        }
    }

    /// A grant of the kind to the client at this logarithm (IEEE 1588-2019 clause 16.1.4.2), made
    /// at `at` until `until`, in nanoseconds: its first fault, of `Shared`, `Stamp`, `Moment` and
    /// `Fit`, or none.
    ///
    /// # Errors
    /// `OutOfMemory`. Nothing is said of the trail then: the audit ends.
    pub fn grant(
        &mut self,
        at: u64,
        client: Client,
        kind: Kind,
        log: Log,
        until: u64,
    ) -> Result<Option<NoCause>, OutOfMemory>
        ensures fault { IfOk result (λ fault. (opening : ℕ) (history : List Record) →
            StandsFor opening self.old history →
            fault ≡ fault_of opening history (Granted at client kind log until) []) }
        ensures stands { IfOk result (λ fault. IfNone fault ((opening : ℕ) (history : List Record) →
            StandsFor opening self.old history →
            StandsFor opening self.new (history ++ Granted at client kind log until ∷ []))) }
    {
        let mut known = match self.clients.judge(at, self.moment, &client) {
            Ok(known) => known,
            Err(cause) => return Ok(Some(cause)),
        };
        self.live.advance(at);
        // What it renews is charged no more.
        self.live.remove(&client, kind, known.lease(kind));
        if !fits(&self.live, self.capacity, log) {
            return Ok(Some(NoCause::Fit));
        }
        known.grant(at, kind, log, until);
        self.clients.put(client, known)?;
        let end = End {
            until,
            client,
            kind,
        };
        self.live.put(at, end, log)?;
        self.moment = at;
        Ok(None)
    }

    /// The end of the client's grant of the kind by a CANCEL at `at`, in nanoseconds, whether or
    /// not one was live (IEEE 1588-2019 clause 16.1.4.3): its first fault, of `Shared`, `Stamp` and
    /// `Moment`, or none.
    ///
    /// # Errors
    /// `OutOfMemory`. Nothing is said of the trail then: the audit ends.
    pub fn end(
        &mut self,
        at: u64,
        client: Client,
        kind: Kind,
    ) -> Result<Option<NoCause>, OutOfMemory>
        ensures fault { IfOk result (λ fault. (opening : ℕ) (history : List Record) →
            StandsFor opening self.old history →
            fault ≡ fault_of opening history (Ended at client kind) []) }
        ensures stands { IfOk result (λ fault. IfNone fault ((opening : ℕ) (history : List Record) →
            StandsFor opening self.old history →
            StandsFor opening self.new (history ++ Ended at client kind ∷ []))) }
    {
        let lease = self.clients.lease(&client, kind);
        let fault = self.clients.end(at, self.moment, client, kind)?;
        if fault.is_none() {
            self.live.advance(at);
            self.live.remove(&client, kind, lease);
            self.moment = at;
        }
        Ok(fault)
    }

    // What is wrong with a change to this capacity that sheds these grants, whose own faults are
    // left. Where nothing is, they are live no more.
    fn judge_change(&mut self, at: u64, capacity: u64, shed: &[Shedding]) -> Option<NoCause>
        ensures fault { (opening : ℕ) (history : List Record) → StandsFor opening self.old history →
            result
            ≡ fault_of opening history (Capacity at capacity) (map (record_of at) shed.now) }
        ensures live { IfNone result ((opening : ℕ) (history : List Record) →
            StandsFor opening self.old history → (book_moment history ≤ at)
            × AreLive (history ++ Capacity at capacity ∷ map (record_of at) shed.now) at
            self.new.live) }
        ensures clients { self.new.clients ≡ self.old.clients }
    {
        if at >= 1 << 62 {
            return Some(NoCause::Stamp);
        }
        if at < self.moment {
            return Some(NoCause::Moment);
        }
        self.live.advance(at);
        drop_shed(&mut self.live, &self.clients, shed);
        if capacity < self.live.total() {
            return Some(NoCause::Over);
        }
        None
    }

    /// A change to this capacity at `at`, in nanoseconds, and the grants that it sheds, in order:
    /// the first fault, with the place of the record that has it, or none. The change stands at
    /// place 0 and has `Stamp`, `Moment` or `Over`, which is judged with all of the sheddings taken
    /// away; a shedding has `Shared` or `Moment`.
    ///
    /// # Errors
    /// `OutOfMemory`. Nothing is said of the trail then: the audit ends.
    pub fn change(
        &mut self,
        at: u64,
        capacity: u64,
        shed: &[Shedding],
    ) -> Result<Option<Fault>, OutOfMemory>
        ensures fault { IfOk result (λ fault. (opening : ℕ) (history : List Record) →
            StandsFor opening self.old history →
            fault ≡ first_fault opening history
            (Capacity at capacity ∷ map (record_of at) shed.now)) }
        ensures stands { IfOk result (λ fault. IfNone fault ((opening : ℕ) (history : List Record) →
            StandsFor opening self.old history →
            StandsFor opening self.new
            (history ++ Capacity at capacity ∷ map (record_of at) shed.now))) }
        ensures place { IfOk result (λ fault. IfSome fault (λ f. f.place ≤ length shed.now)) }
    {
        if let Some(cause) = self.judge_change(at, capacity, shed) {
            return Ok(Some(Fault { place: 0, cause }));
        }
        self.capacity = capacity;
        self.moment = at;
        self.clients.shed(at, shed)
    }

    /// A timing message of the kind to the address, with this timestamp: its first fault, of
    /// `Stamp`, `Moment`, `Grant` and `Early`, or none. It is for the client with the address; at
    /// an address without a decision it has the fault `Grant`, where it has not `Stamp`.
    pub fn message(&mut self, stamp: Stamp, ip: u32, kind: Kind) -> Option<NoCause>
        ensures fault { (opening : ℕ) (history : List Record) → StandsFor opening self.old history →
            result ≡ fault_of opening history (message_to history stamp ip kind) [] }
        ensures stands { IfNone result ((opening : ℕ) (history : List Record) →
            StandsFor opening self.old history →
            StandsFor opening self.new (history ++ message_to history stamp ip kind ∷ [])) }
    {
        match moment_of(stamp) {
            None => Some(NoCause::Stamp),
            Some(at) => self.clients.message(at, ip, kind),
        }
    }
}
