//! Grants that a change of capacity sheds go from four tables that are lent beside the book.

ghost use Rattle.std.specs.Prelude.{◌≡◌, ℕ, ◌+◌, ◌-◌, ◌<◌, ◌≤◌, false, List, [], ◌∷◌, ◌++◌, map, length, vec_capacity, IfNone, IfSome};
ghost use Rattle.std.specs.List.{Contains};
ghost use Rattle.ptu_units.specs.{Client.{same_lease}, Log.{rate_of}};
ghost use Rattle.ptu_history.specs.History.{Record, Shed as ShedRecord};
ghost use Rattle.ptu_history.specs.Shedding.{shed_order, shed_prefix};
ghost use Rattle.ptu_shard.specs.declared.lease.Row.{Row as KeptRow};
ghost use Rattle.ptu_shard.specs.{Row.{IsDistinctByLease, share_of}, Table.{StandsBeside}};
ghost use Rattle.ptu_admit.specs.Lent.{EachStandsAt, four, rows_of_lent, shares};
ghost use Rattle.ptu_admit.specs.Newest.{AreDistinct, AreListed, IsThinned, candidate_of, found_in, rows_in, shed_at};
ghost use Rattle.ptu_admit.specs.{declared.newest.Found.{Found as FoundRow}, Shed.{shed_of}};

use crate::book::Book;
use crate::gathering::newest_of;
use crate::newest::{Candidate, Found, Newest};
use crate::shed_list::Shed;
use ptu_outside::Port;
use ptu_shard::{Row, Shard};
use ptu_units::Moment;

// Drops a row of one table.
fn drop_in<P: Port>(shard: &mut Shard<P>, book: &mut Book, row: &Row)
    requires contained { Contains shard.old.rows row.now }
    requires share { share_of shard.old.rows ≤ book.old.total }
    ensures thinned { IsThinned shard.old shard.new }
    ensures fewer { length shard.new.rows + 1 ≤ length shard.old.rows }
    ensures gone { (r : KeptRow) → Contains shard.new.rows r →
        same_lease row.now.client row.now.kind r.client r.kind ≡ false }
    ensures share { share_of shard.new.rows + rate_of row.now.lease.log ≡ share_of shard.old.rows }
    ensures book { book.new ≡ record book.old {
      total = book.old.total - rate_of row.now.lease.log;
    } }
    ensures stands { (b j n : ℕ) (history : List Record) → StandsBeside b j shard.old history →
        n ≤ shard.old.moment →
        StandsBeside b j shard.new (history ++ ShedRecord n row.now.client row.now.kind ∷ []) }
{
    let before = shard.held();
    shard.remove(&row.client, row.kind);
    book.settle(before, shard.held());
}

// Drops a row of the table that it was found in.
#[tactic(auto, using(crate::proofs::ShedLoop::thinned_none))]
fn drop_found<P: Port>(
    s0: &mut Shard<P>,
    s1: &mut Shard<P>,
    s2: &mut Shard<P>,
    s3: &mut Shard<P>,
    book: &mut Book,
    found: &Found,
)
    requires place { found.now.table < 4 }
    requires contained { Contains
        (rows_of_lent found.now.table (four s0.old s1.old s2.old s3.old)) found.now.row }
    requires sum { book.old.total ≡ shares (four s0.old s1.old s2.old s3.old) }
    ensures t0 { IsThinned s0.old s0.new }
    ensures t1 { IsThinned s1.old s1.new }
    ensures t2 { IsThinned s2.old s2.new }
    ensures t3 { IsThinned s3.old s3.new }
    ensures fewer { rows_in (four s0.new s1.new s2.new s3.new) + 1
        ≤ rows_in (four s0.old s1.old s2.old s3.old) }
    ensures gone { (r : KeptRow) →
        Contains (rows_of_lent found.now.table (four s0.new s1.new s2.new s3.new)) r →
        same_lease found.now.row.client found.now.row.kind r.client r.kind ≡ false }
    ensures less { book.new.total + rate_of found.now.row.lease.log ≡ book.old.total }
    ensures book { book.new ≡ record book.old {
      total = shares (four s0.new s1.new s2.new s3.new);
    } }
    ensures stands { (b n : ℕ) (history : List Record) →
        EachStandsAt b (four s0.old s1.old s2.old s3.old) history →
        n ≤ s0.old.moment → n ≤ s1.old.moment → n ≤ s2.old.moment → n ≤ s3.old.moment →
        EachStandsAt b (four s0.new s1.new s2.new s3.new)
        (history ++ ShedRecord n found.now.row.client found.now.row.kind ∷ []) }
{
    match found.table {
        0 => drop_in(s0, book, &found.row),
        1 => drop_in(s1, book, &found.row),
        2 => drop_in(s2, book, &found.row),
        _ => drop_in(s3, book, &found.row),
    }
}

/// A shedding: its moment, the capacity that the rest has to fit, and room for the order of all
/// rows and for the list of what is shed.
#[derive(Drop)]
pub(crate) struct Shedding {
    pub(crate) at: Moment,
    pub(crate) capacity: u64,
    pub(crate) order: Vec<Candidate>,
    pub(crate) list: Vec<Shed>,
}

// A shedding that is under way: the candidates that are left, and what was shed so far.
#[derive(Drop)]
struct UnderWay {
    at: Moment,
    capacity: u64,
    newest: Newest,
    list: Vec<Shed>,
}

// The row of a candidate in its table, where it is kept.
fn find_in<P: Port>(shard: &Shard<P>, candidate: &Candidate) -> Option<Found>
    requires { IsDistinctByLease shard.now.rows }
    ensures kept { IfSome result (λ f. Contains shard.now.rows f.row
        × (candidate_of f ≡ candidate.now)) }
    ensures none { IfNone result ((row : KeptRow) → Contains shard.now.rows row →
        candidate_of (found_in candidate.now.table row) ≡ candidate.now → ⊥) }
{
    let lease = shard.lease(&candidate.client, candidate.kind)?;
    if lease.start.nanos() != candidate.start {
        return None;
    }
    Some(Found {
        table: candidate.table,
        row: Row {
            client: candidate.client,
            kind: candidate.kind,
            lease,
        },
    })
}

// The row of a candidate in one of the four tables, where it is kept.
fn find_row<P: Port>(
    s0: &Shard<P>,
    s1: &Shard<P>,
    s2: &Shard<P>,
    s3: &Shard<P>,
    candidate: &Candidate,
) -> Option<Found>
    requires distinct { AreDistinct s0.now s1.now s2.now s3.now }
    ensures kept { IfSome result (λ f. (f.table < 4)
        × Contains (rows_of_lent f.table (four s0.now s1.now s2.now s3.now)) f.row
        × (candidate_of f ≡ candidate.now)) }
    ensures none { IfNone result ((f : FoundRow) → f.table < 4 →
        Contains (rows_of_lent f.table (four s0.now s1.now s2.now s3.now)) f.row →
        candidate_of f ≡ candidate.now → ⊥) }
{
    match candidate.table {
        0 => find_in(s0, candidate),
        1 => find_in(s1, candidate),
        2 => find_in(s2, candidate),
        3 => find_in(s3, candidate),
        _ => None,
    }
}

// Sheds the greatest candidates of four tables one by one, until the rates of the rest sum to at
// most the capacity, and lists them in this order. No look at all rows is taken again.
#[tactic(auto, using(crate::proofs::ShedLoop::thinned_none))]
fn shed_newest<P: Port>(
    s0: &mut Shard<P>,
    s1: &mut Shard<P>,
    s2: &mut Shard<P>,
    s3: &mut Shard<P>,
    book: &mut Book,
    shedding: &mut UnderWay,
)
    requires sum { book.old.total ≡ shares (four s0.old s1.old s2.old s3.old) }
    requires reached { (s0.old.moment ≡ shedding.old.at) × (s1.old.moment ≡ shedding.old.at)
        × (s2.old.moment ≡ shedding.old.at) × (s3.old.moment ≡ shedding.old.at) }
    requires live { (j : ℕ) (row : KeptRow) → j < 4 →
        Contains (rows_of_lent j (four s0.old s1.old s2.old s3.old)) row →
        shedding.old.at < row.lease.until }
    requires distinct { AreDistinct s0.old s1.old s2.old s3.old }
    requires listed { AreListed (four s0.old s1.old s2.old s3.old) shedding.old.newest }
    requires empty { shedding.old.list.items ≡ [] }
    requires room { rows_in (four s0.old s1.old s2.old s3.old) ≤ vec_capacity shedding.old.list }
    ensures t0 { IsThinned s0.old s0.new }
    ensures t1 { IsThinned s1.old s1.new }
    ensures t2 { IsThinned s2.old s2.new }
    ensures t3 { IsThinned s3.old s3.new }
    ensures within { book.new.total ≤ shedding.old.capacity }
    ensures book { book.new ≡ record book.old {
      total = shares (four s0.new s1.new s2.new s3.new);
    } }
    ensures stands { (history : List Record) →
        EachStandsAt shedding.old.at (four s0.old s1.old s2.old s3.old) history →
        EachStandsAt shedding.old.at (four s0.new s1.new s2.new s3.new)
        (history ++ map (shed_at shedding.old.at) shedding.new.list.items) }
    ensures shed { (history : List Record) →
        EachStandsAt shedding.old.at (four s0.old s1.old s2.old s3.old) history →
        shedding.new.list.items ≡ map shed_of
        (shed_prefix shedding.old.capacity (shed_order history shedding.old.at)) }
{
    'above: while book.total() > shedding.capacity {
        let Some(candidate) = shedding.newest.pop() else {
            break;
        };
        if let Some(found) = find_row(s0, s1, s2, s3, &candidate) {
            drop_found(s0, s1, s2, s3, book, &found);
            // A push fails only at a full vector, and this one has room for all rows.
            let _ = shedding.list.push(Shed {
                client: found.row.client,
                kind: found.row.kind,
                log: found.row.lease.log,
            });
        }
    }
}

/// Sheds the newest grants of four tables that were swept at the moment, one by one, until the
/// rates of the rest sum to at most the capacity, and gives them in this order. The order of all
/// rows is made once, and only where there is more than the capacity.
#[tactic(auto, using(crate::proofs::ShedLoop::thinned_none))]
pub(crate) fn shed_above<P: Port>(
    s0: &mut Shard<P>,
    s1: &mut Shard<P>,
    s2: &mut Shard<P>,
    s3: &mut Shard<P>,
    book: &mut Book,
    shedding: Shedding,
) -> Vec<Shed>
    requires sum { book.old.total ≡ shares (four s0.old s1.old s2.old s3.old) }
    requires reached { (s0.old.moment ≡ shedding.at) × (s1.old.moment ≡ shedding.at)
        × (s2.old.moment ≡ shedding.at) × (s3.old.moment ≡ shedding.at) }
    requires live { (j : ℕ) (row : KeptRow) → j < 4 →
        Contains (rows_of_lent j (four s0.old s1.old s2.old s3.old)) row →
        shedding.at < row.lease.until }
    requires empty { (shedding.order.items ≡ []) × (shedding.list.items ≡ []) }
    requires room { shedding.capacity < book.old.total →
        (rows_in (four s0.old s1.old s2.old s3.old) ≤ vec_capacity shedding.order)
        × (rows_in (four s0.old s1.old s2.old s3.old) ≤ vec_capacity shedding.list) }
    ensures t0 { IsThinned s0.old s0.new }
    ensures t1 { IsThinned s1.old s1.new }
    ensures t2 { IsThinned s2.old s2.new }
    ensures t3 { IsThinned s3.old s3.new }
    ensures within { book.new.total ≤ shedding.capacity }
    ensures book { book.new ≡ record book.old {
      total = shares (four s0.new s1.new s2.new s3.new);
    } }
    ensures stands { (history : List Record) →
        EachStandsAt shedding.at (four s0.old s1.old s2.old s3.old) history →
        EachStandsAt shedding.at (four s0.new s1.new s2.new s3.new)
        (history ++ map (shed_at shedding.at) result.items) }
    ensures shed { (history : List Record) →
        EachStandsAt shedding.at (four s0.old s1.old s2.old s3.old) history →
        result.items ≡ map shed_of
        (shed_prefix shedding.capacity (shed_order history shedding.at)) }
{
    if book.total() <= shedding.capacity {
        return shedding.list;
    }
    let newest = newest_of(s0, s1, s2, s3, shedding.order);
    let mut under_way = UnderWay {
        at: shedding.at,
        capacity: shedding.capacity,
        newest,
        list: shedding.list,
    };
    shed_newest(s0, s1, s2, s3, book, &mut under_way);
    under_way.list
}
