//! The grants that are live: their rates by when they end, and the sum of these.

ghost use Rattle.std.specs.Prelude.{◌≡◌, ◌<◌, ◌≤◌, ◌+◌, ◌^◌, ◌∷◌, [], ◌++◌, ℕ, List, IfOk, IfSome, IfNone, OnErr, OnOk, true};
ghost use Rattle.std.specs.List.{filter, list_all, sum_by};
ghost use Rattle.ptu_units.specs.Log.{rate_of};
ghost use Rattle.ptu_history.specs.{History.{Record, Granted}, Live.{Grant, live_grants, without}};
ghost use Rattle.ptu_history.specs.Verdict.{rate_sum};
ghost use Rattle.ptu_trail.specs.Live.{AreLive, AreOf, IsLatestLeaseOf, is_live_entry, is_other_entry, total_of};

use crate::known::Lease;
use ptu_units::{Client, Kind, Log, OutOfMemory, rate};
use std::alloc::Global;
use std::collections::BTreeMap;
use std::marker::Model;

/// When a grant ends, in nanoseconds, and whose it is. Ends are ordered by moment, then client,
/// then kind.
#[derive(Clone, Copy, PartialEq, Eq, PartialOrd, Ord)]
pub(crate) struct End {
    pub(crate) until: u64,
    pub(crate) client: Client,
    pub(crate) kind: Kind,
}

/// The grants that are live: the rate of each by its end, in sixteenths of a message per second.
/// They sum below 2^64.
#[derive(Drop)]
pub(crate) struct LiveGrants {
    rates: BTreeMap<End, u64>,
    total: u64,
}

impl Model for LiveGrants {
    ghost use Rattle.std.specs.Prelude.{ℕ, ◌≡◌, List};
    ghost use Rattle.ptu_trail.specs.{declared.live.End.{End}, Live.{total_of}};

    ghost Value = { List (End × ℕ) };

    ghost view = { λ l. l.rates.entries };

    ghost invariant = { λ l. l.total ≡ total_of l.rates.entries };
}

// Takes out the rate that ends first, where that end is reached at the moment.
fn pop_ended(rates: &mut BTreeMap<End, u64>, n: u64) -> Option<u64>
    ensures taken { IfSome result (λ rate. (end : End) × (end.until ≤ n)
        × (rates.old.entries ≡ (end, rate) ∷ rates.new.entries)) }
    ensures none { IfNone result
        (rates.new.entries ≡ filter (is_live_entry n) rates.old.entries) }
    ensures same { IfNone result (rates.new.entries ≡ rates.old.entries) }
{
    let (end, _) = rates.first_key_value()?;
    if n < end.until {
        return None;
    }
    let (_, rate) = rates.pop_first()?;
    Some(rate)
}

// Lets go of the rates whose ends are reached at the moment, and gives the sum of those that are
// left, of this one.
fn drop_ended(rates: &mut BTreeMap<End, u64>, n: u64, mut total: u64) -> u64
    requires { total ≡ total_of rates.old.entries }
    ensures total { result ≡ total_of rates.new.entries }
    ensures entries { rates.new.entries ≡ filter (is_live_entry n) rates.old.entries }
{
    while let Some(rate) = pop_ended(rates, n) {
        total -= rate;
    }
    total
}

// Takes out the rate that has this end, or 0 where none has.
fn take(rates: &mut BTreeMap<End, u64>, end: &End) -> u64
    ensures total { total_of rates.new.entries + result ≡ total_of rates.old.entries }
    ensures entries { rates.new.entries ≡ filter (is_other_entry end.now) rates.old.entries }
{
    let rate = rates.remove(end);
    rate.unwrap_or(0)
}

// Puts in a rate with this end, and gives the one that it replaces, or 0.
fn put(rates: &mut BTreeMap<End, u64>, end: End, rate: u64) -> Result<u64, OutOfMemory>
    ensures total { IfOk result (λ former.
        total_of rates.new.entries + former ≡ total_of rates.old.entries + rate) }
    ensures more { OnOk result (list_all (is_other_entry end) rates.old.entries ≡ true →
        (weight : End × ℕ → ℕ) → sum_by weight rates.new.entries
        ≡ weight (end, rate) + sum_by weight rates.old.entries) }
    ensures err { OnErr result (rates.new.entries ≡ rates.old.entries) }
{
    let former = rates.insert(end, rate)?;
    Ok(former.unwrap_or(0))
}

impl LiveGrants {
    /// No live grants. It allocates nothing.
    pub(crate) fn new(alloc: Global) -> LiveGrants
        ensures { result ≡ [] }
    {
        LiveGrants {
            rates: BTreeMap::new(alloc),
            total: 0,
        }
    }

    /// Lets go of the grants that are over at this moment.
    pub(crate) fn advance(&mut self, n: u64)
        ensures { (history : List Record) (m : ℕ) →
            m ≤ n → AreLive history m self.old → AreLive history n self.new }
    {
        self.total = drop_ended(&mut self.rates, n, self.total);
    }

    /// The sum of the rates.
    pub(crate) fn total(&self) -> u64
        ensures value { result ≡ total_of self.now }
        ensures sum { (grants : List Grant) → AreOf grants self.now → result ≡ rate_sum grants }
    {
        self.total
    }

    /// Lets go of the grant of the client and kind, whose lease this is.
    pub(crate) fn remove(&mut self, client: &Client, kind: Kind, lease: Option<Lease>)
        ensures { (grants : List Grant) → AreOf grants self.old →
            IsLatestLeaseOf client.now kind lease grants →
            AreOf (without client.now kind grants) self.new }
    {
        if let Some(lease) = lease {
            let end = End {
                until: lease.until,
                client: *client,
                kind,
            };
            self.total -= take(&mut self.rates, &end);
        }
    }

    /// Keeps a grant that was made at this moment, unless it is over at once. The one that it
    /// replaces is no longer there.
    ///
    /// # Errors
    /// `OutOfMemory`.
    pub(crate) fn put(&mut self, at: u64, end: End, log: Log) -> Result<(), OutOfMemory>
        requires { total_of self.old + rate_of log < 2 ^ 64 }
        ensures { OnOk result ((history : List Record) →
            AreOf (without end.client end.kind (live_grants history at)) self.old →
            AreLive (history ++ Granted at end.client end.kind log end.until ∷ []) at self.new) }
    {
        if at < end.until {
            let rate = rate(log);
            let former = put(&mut self.rates, end, rate)?;
            self.total = self.total + rate - former;
        }
        Ok(())
    }
}
