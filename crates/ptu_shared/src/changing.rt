//! Cancels, changes of capacity and the last sweep, on the values that the locks lend.

ghost use Rattle.std.specs.Prelude.{◌≡◌, ℕ, ◌+◌, ◌≤◌, max, false, List, ◌∷◌, ◌++◌, map, IfOk, OnErr};
ghost use Rattle.ptu_units.specs.Client.{table_of as table_of_client};
ghost use Rattle.ptu_history.specs.History.{Record};
ghost use Rattle.ptu_history.specs.{Live.{live}, Verdict.{Config}, Events.{Cancel, Resize}};
ghost use Rattle.ptu_history.specs.{Shedding.{shed_grants}, Step.{step}};
ghost use Rattle.ptu_admit.specs.Alone.{GoesOnAlone};
ghost use Rattle.ptu_admit.specs.Lent.{Lent, StandFor, four, is_lent, moment_for_all, shares, table_for};
ghost use Rattle.ptu_admit.specs.{Rows.{has_live_row}, Shed.{shed_of}, Tables.{IsSwept}};

use crate::desk::{Desk, audit_table, audit_tables};
use crate::place::{First, Fourth, Place, Second, Third};
use crate::rates::{Rates, move_rate};
use crate::table::Table;
use ptu_admit::{Cancelled, InForce, Resized, cancel, finish, resize};
use ptu_outside::Port;
use ptu_units::{Client, Kind, Moment, OutOfMemory};
use std::alloc::Global;
use std::sync::ledger::Ledger;

// Ends the client's grant of the kind by `cancel`, under the client's table and the book.
pub(crate) fn cancel_one<P: Port, L: Rates, G: Ledger, R: Ledger, J: Place>(
    table: &mut Table<P, L, J>,
    desk: &mut Desk<L, G, R>,
    t: Moment,
    client: &Client,
    kind: Kind,
) -> Cancelled
    requires { table_of_client client.now ≡ J.index }
    ensures at { result.at ≡ max t (max desk.old.book.moment table.old.shard.moment) }
    ensures ended { result.ended
        ≡ has_live_row result.at client.now kind table.old.shard.rows }
    ensures desk { (desk.new.granted ≡ desk.old.granted)
        × (desk.new.refused ≡ desk.old.refused) }
    ensures port { table.new.shard.port ≡ table.old.shard.port }
    ensures tally { table.new.tally ≡ table.old.tally }
    ensures live { (opening : ℕ) (rest : List Lent) (history : List Record) →
        StandFor opening (table_for client.now table.old.shard ∷ rest) desk.old.book history →
        result.ended ≡ live history result.at client.now kind }
    ensures stands { (opened : Config) (rest : List Lent) (history : List Record) →
        StandFor opened.capacity (table_for client.now table.old.shard ∷ rest)
        desk.old.book history →
        is_lent (table_of_client client.now) rest ≡ false →
        StandFor opened.capacity (table_for client.now table.new.shard ∷ rest) desk.new.book
        (history ++ (step opened history result.at (Cancel client.now kind)).records) }
    ensures alone { GoesOnAlone J.index table.old.shard table.new.shard }
{
    audit_table(table, desk);
    let before = table.shard.held();
    let cancelled = cancel(&mut table.shard, &mut desk.book, t, client, kind);
    move_rate(&mut desk.rates, &mut table.part, before, table.shard.held());
    cancelled
}

/// A change of the capacity in force, and from when on it may come.
#[derive(Clone, Copy)]
pub(crate) struct Change {
    pub alloc: Global,
    pub at: Moment,
    pub capacity: InForce,
}

// Changes the capacity in force by `resize`, under all four tables, in order of index, and the
// book. After `OutOfMemory` nothing has changed.
pub(crate) fn resize_all<P: Port, L: Rates, G: Ledger, R: Ledger>(
    t0: &mut Table<P, L, First>,
    t1: &mut Table<P, L, Second>,
    t2: &mut Table<P, L, Third>,
    t3: &mut Table<P, L, Fourth>,
    desk: &mut Desk<L, G, R>,
    change: Change,
) -> Result<Resized, OutOfMemory>
    requires ledger { L.parts ≡ 4 }
    requires most { change.capacity ≤ L.most }
    ensures at { IfOk result (λ r. r.at ≡ moment_for_all change.at desk.old.book
        (four t0.old.shard t1.old.shard t2.old.shard t3.old.shard)) }
    ensures unchanged { OnErr result ((t0.new.shard ≡ t0.old.shard)
        × (t1.new.shard ≡ t1.old.shard) × (t2.new.shard ≡ t2.old.shard)
        × (t3.new.shard ≡ t3.old.shard) × (desk.new.book ≡ desk.old.book)) }
    ensures desk { (desk.new.granted ≡ desk.old.granted)
        × (desk.new.refused ≡ desk.old.refused) }
    ensures ports { (t0.new.shard.port ≡ t0.old.shard.port)
        × (t1.new.shard.port ≡ t1.old.shard.port) × (t2.new.shard.port ≡ t2.old.shard.port)
        × (t3.new.shard.port ≡ t3.old.shard.port) }
    ensures tallies { (t0.new.tally ≡ t0.old.tally) × (t1.new.tally ≡ t1.old.tally)
        × (t2.new.tally ≡ t2.old.tally) × (t3.new.tally ≡ t3.old.tally) }
    ensures shed { (opening : ℕ) (history : List Record) →
        StandFor opening (four t0.old.shard t1.old.shard t2.old.shard t3.old.shard)
        desk.old.book history →
        IfOk result (λ r. r.shed ≡ map shed_of (shed_grants history r.at change.capacity)) }
    ensures stands { (opened : Config) (history : List Record) →
        StandFor opened.capacity (four t0.old.shard t1.old.shard t2.old.shard t3.old.shard)
        desk.old.book history →
        IfOk result (λ r. StandFor opened.capacity
        (four t0.new.shard t1.new.shard t2.new.shard t3.new.shard) desk.new.book
        (history ++ (step opened history r.at (Resize change.capacity)).records)) }
    ensures alone { GoesOnAlone 0 t0.old.shard t0.new.shard
        × GoesOnAlone 1 t1.old.shard t1.new.shard × GoesOnAlone 2 t2.old.shard t2.new.shard
        × GoesOnAlone 3 t3.old.shard t3.new.shard }
{
    let before = audit_tables(t0, t1, t2, t3, desk);
    let resized = resize(
        change.alloc,
        &mut t0.shard,
        &mut t1.shard,
        &mut t2.shard,
        &mut t3.shard,
        &mut desk.book,
        change.at,
        change.capacity,
    );
    move_rate(&mut desk.rates, &mut t0.part, before.0, t0.shard.held());
    move_rate(&mut desk.rates, &mut t1.part, before.1, t1.shard.held());
    move_rate(&mut desk.rates, &mut t2.part, before.2, t2.shard.held());
    move_rate(&mut desk.rates, &mut t3.part, before.3, t3.shard.held());
    resized
}

// Drops the rows whose grants are over by `finish`, under all four tables, in order of index, and
// the book.
pub(crate) fn finish_all<P: Port, L: Rates, G: Ledger, R: Ledger>(
    t0: &mut Table<P, L, First>,
    t1: &mut Table<P, L, Second>,
    t2: &mut Table<P, L, Third>,
    t3: &mut Table<P, L, Fourth>,
    desk: &mut Desk<L, G, R>,
)
    requires { L.parts ≡ 4 }
    ensures swept { let n = moment_for_all 0 desk.old.book
        (four t0.old.shard t1.old.shard t2.old.shard t3.old.shard) in
        IsSwept n t0.old.shard t0.new.shard × IsSwept n t1.old.shard t1.new.shard
        × IsSwept n t2.old.shard t2.new.shard × IsSwept n t3.old.shard t3.new.shard }
    ensures tallies { (t0.new.tally ≡ t0.old.tally) × (t1.new.tally ≡ t1.old.tally)
        × (t2.new.tally ≡ t2.old.tally) × (t3.new.tally ≡ t3.old.tally) }
    ensures total { desk.new.book.total
        ≡ shares (four t0.new.shard t1.new.shard t2.new.shard t3.new.shard) }
    ensures desk { (desk.new.granted ≡ desk.old.granted)
        × (desk.new.refused ≡ desk.old.refused) }
{
    let before = audit_tables(t0, t1, t2, t3, desk);
    finish(
        &mut t0.shard,
        &mut t1.shard,
        &mut t2.shard,
        &mut t3.shard,
        &mut desk.book,
    );
    move_rate(&mut desk.rates, &mut t0.part, before.0, t0.shard.held());
    move_rate(&mut desk.rates, &mut t1.part, before.1, t1.shard.held());
    move_rate(&mut desk.rates, &mut t2.part, before.2, t2.shard.held());
    move_rate(&mut desk.rates, &mut t3.part, before.3, t3.shard.held());
}
