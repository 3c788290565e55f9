//! How many grants of a table are live, and their rates.

ghost use Rattle.std.specs.Prelude.{◌≡◌, ◌≤◌, ◌<◌, ◌+◌, ◌^◌, [], ◌∷◌, cond};
ghost use Rattle.ptu_units.specs.declared.kind.Kind.TheVariants.{Announce, Sync, DelayResp};
ghost use Rattle.ptu_units.specs.Client.{same_kind};
ghost use Rattle.ptu_shard.specs.Row.{IsDistinctByLease, share_of};
ghost use Rattle.ptu_admit.specs.{LiveRows.{AreFew, HasMore, no_grants}, Rows.{live_rows}};

use ptu_outside::Port;
use ptu_shard::{Row, Shard};
use ptu_units::{Kind, Moment, rate};

/// The rates of some live grants, and how many there are of each kind.
#[derive(Clone, Copy, Debug, Default, PartialEq, Eq)]
pub struct Live {
    /// Their rates, in sixteenths of a message per second.
    pub rates: u64,
    /// How many live grants are of Announces.
    pub announces: u64,
    /// How many live grants are of Syncs.
    pub syncs: u64,
    /// How many live grants are of Delay_Resps.
    pub delay_resps: u64,
}

impl Live {
    // With one more of this kind and rate.
    fn with(self, kind: Kind, rate: u64) -> Live
        requires few { AreFew self }
        requires room { self.rates + rate < 2 ^ 64 }
        requires some { 1 ≤ rate }
        ensures rates { result.rates ≡ self.rates + rate }
        ensures announces { result.announces ≡ self.announces + cond (same_kind kind Announce) 1 0 }
        ensures syncs { result.syncs ≡ self.syncs + cond (same_kind kind Sync) 1 0 }
        ensures delay_resps { result.delay_resps
            ≡ self.delay_resps + cond (same_kind kind DelayResp) 1 0 }
        ensures few { AreFew result }
    {
        let rates = self.rates + rate;
        match kind {
            Kind::Announce => Live {
                rates,
                announces: self.announces + 1,
                ..self
            },
            Kind::Sync => Live {
                rates,
                syncs: self.syncs + 1,
                ..self
            },
            Kind::DelayResp => Live {
                rates,
                delay_resps: self.delay_resps + 1,
                ..self
            },
        }
    }

    // With the row, where its grant is live at the moment.
    fn with_row(self, row: &Row, at: Moment) -> Live
        requires few { AreFew self }
        requires room { self.rates + share_of (live_rows at (row.now ∷ [])) < 2 ^ 64 }
        ensures more { HasMore (live_rows at (row.now ∷ [])) self result }
        ensures few { AreFew result }
    {
        if at.nanos() < row.lease.until {
            self.with(row.kind, rate(row.lease.log))
        } else {
            self
        }
    }

    /// With those of another table.
    pub fn and(self, others: Live) -> Live
        requires few { AreFew self × AreFew others }
        requires room { self.rates + others.rates < 2 ^ 64 }
        ensures rates { result.rates ≡ self.rates + others.rates }
        ensures announces { result.announces ≡ self.announces + others.announces }
        ensures syncs { result.syncs ≡ self.syncs + others.syncs }
        ensures delay_resps { result.delay_resps ≡ self.delay_resps + others.delay_resps }
        ensures few { AreFew result }
    {
        Live {
            rates: self.rates + others.rates,
            announces: self.announces + others.announces,
            syncs: self.syncs + others.syncs,
            delay_resps: self.delay_resps + others.delay_resps,
        }
    }
}

/// The grants of a table that are live at the moment.
pub fn live_in<P: Port>(table: &Shard<P>, at: Moment) -> Live
    ensures all { HasMore (live_rows at table.now.rows) (no_grants) result }
    ensures few { AreFew result }
    ensures within { result.rates ≤ share_of table.now.rows }
    ensures distinct { IsDistinctByLease table.now.rows }
{
    let _share = table.held();
    let mut live = Live::default();
    for index in 0..table.count() {
        if let Some(row) = table.row(index) {
            live = live.with_row(&row, at);
        }
    }
    live
}
