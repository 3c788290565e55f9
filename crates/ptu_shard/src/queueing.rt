//! Rows in the two queues of a table. Where a queue is full it is filled anew from the rows, so
//! that no memory is taken, and entries that no row has any more are gone.

ghost use Rattle.std.specs.{Prelude.{◌≡◌, ◌<◌, ◌≤◌, ◌+◌, ◌∷◌, length, true}, List.{Contains}};
ghost use Rattle.std.specs.List.Sorted.{IsPermutation};
ghost use Rattle.indexmap.specs.IndexMap.{spare};
ghost use Rattle.ptu_units.specs.Log.{rate_of};
ghost use Rattle.ptu_history.specs.Turns.{is_turned};
ghost use Rattle.ptu_shard.specs.Fields.{rows_of};
ghost use Rattle.ptu_shard.specs.Queue.{HasEdges, HasEnds, edge_entry, end_entry, is_edge_kept};
ghost use Rattle.ptu_shard.specs.Row.{IsDistinctByLease, rate_of_lease, share_of, without_row};

use crate::lease::{Lease, Row};
use crate::queue::{Entry, Queue};
use crate::rows::{Key, put_row, row_at};
use indexmap::IndexMap;
use ptu_units::{Moment, rate};

/// The entry of a row in the queue of what is due.
pub(crate) fn edge_of(row: &Row) -> Entry
    ensures { result ≡ edge_entry row.now }
{
    Entry {
        moment: row.lease.edge,
        client: row.client,
        kind: row.kind,
    }
}

/// The entry of a row in the queue of what ends.
fn end_of(row: &Row) -> Entry
    ensures { result ≡ end_entry row.now }
{
    Entry {
        moment: row.lease.until,
        client: row.client,
        kind: row.kind,
    }
}

/// Fills the queue of what is due with the entries of these rows.
fn fill_edges(edges: &mut Queue, rows: &IndexMap<Key, Lease>)
    requires { length rows.now.entries ≤ edges.old.capacity }
    ensures all { (row : Row) → Contains (rows_of rows.now.entries) row →
        is_turned row.kind ≡ true → Contains edges.new.entries (edge_entry row) }
    ensures capacity { edges.old.capacity ≤ edges.new.capacity }
{
    edges.clear();
    for index in 0..rows.len() {
        if let Some(row) = row_at(rows, index) {
            if row.is_turned() {
                edges.push(edge_of(&row));
            }
        }
    }
}

/// Fills the queue of what ends with the entries of these rows.
fn fill_ends(ends: &mut Queue, rows: &IndexMap<Key, Lease>)
    requires { length rows.now.entries ≤ ends.old.capacity }
    ensures all { HasEnds (rows_of rows.now.entries) ends.new.entries }
    ensures capacity { ends.old.capacity ≤ ends.new.capacity }
{
    ends.clear();
    for index in 0..rows.len() {
        if let Some(row) = row_at(rows, index) {
            ends.push(end_of(&row));
        }
    }
}

/// Puts the row, which is one of these rows, into the queue of what is due, where turns send its
/// messages.
pub(crate) fn put_edge(edges: &mut Queue, rows: &IndexMap<Key, Lease>, row: &Row)
    requires { length rows.now.entries ≤ edges.old.capacity }
    ensures own { is_turned row.now.kind ≡ true → Contains (rows_of rows.now.entries) row.now →
        Contains edges.new.entries (edge_entry row.now) }
    ensures kept { (r : Row) → Contains (rows_of rows.now.entries) r → is_turned r.kind ≡ true →
        Contains edges.old.entries (edge_entry r) → Contains edges.new.entries (edge_entry r) }
    ensures capacity { edges.old.capacity ≤ edges.new.capacity }
{
    if !row.is_turned() {
        return;
    }
    if edges.is_full() {
        fill_edges(edges, rows);
    } else {
        edges.push(edge_of(row));
    }
}

/// Puts the row, which is one of these rows, into the queue of what ends.
pub(crate) fn put_end(ends: &mut Queue, rows: &IndexMap<Key, Lease>, row: &Row)
    requires { length rows.now.entries ≤ ends.old.capacity }
    ensures own { Contains (rows_of rows.now.entries) row.now →
        Contains ends.new.entries (end_entry row.now) }
    ensures kept { (r : Row) → Contains (rows_of rows.now.entries) r →
        Contains ends.old.entries (end_entry r) → Contains ends.new.entries (end_entry r) }
    ensures capacity { ends.old.capacity ≤ ends.new.capacity }
{
    if ends.is_full() {
        fill_ends(ends, rows);
    } else {
        ends.push(end_of(row));
    }
}

// Whether the lease that the row replaces is live at the moment and has the row's earliest lawful
// moment, so that its entry in the queue of what is due is the row's.
fn is_kept(at: Moment, row: &Row, replaced: &Option<Lease>) -> bool
    ensures { result ≡ is_edge_kept at row.now replaced.now }
{
    match replaced {
        Some(lease) => at.nanos() < lease.until && lease.edge == row.lease.edge,
        None => false,
    }
}

// The rate of a lease, and 0 where there is none.
fn rate_or_none(lease: &Option<Lease>) -> u64
    ensures { result ≡ rate_of_lease lease.now }
{
    match lease {
        Some(lease) => rate(lease.log),
        None => 0,
    }
}

/// Makes this row the one of its client and kind, with its entries in both queues, at the moment
/// that the table has reached. There is room for it, so that no memory is taken. Gives the rate of
/// the lease that it replaces.
pub(crate) fn keep_row(
    rows: &mut IndexMap<Key, Lease>,
    edges: &mut Queue,
    ends: &mut Queue,
    at: Moment,
    row: Row,
) -> u64
    requires spare { 0 < spare rows.old }
    requires edge_room { length rows.old.entries < edges.old.capacity }
    requires end_room { length rows.old.entries < ends.old.capacity }
    ensures rows { IsPermutation
        (row ∷ without_row row.client row.kind (rows_of rows.old.entries))
        (rows_of rows.new.entries) }
    ensures distinct { IsDistinctByLease (rows_of rows.new.entries) }
    ensures share { share_of (rows_of rows.new.entries) + result
        ≡ share_of (rows_of rows.old.entries) + rate_of row.lease.log }
    ensures count { length rows.old.entries ≤ length rows.new.entries }
    ensures bound { length rows.new.entries ≤ length rows.old.entries + 1 }
    ensures spare { spare rows.old ≤ spare rows.new + 1 }
    ensures edges { HasEdges at (rows_of rows.old.entries) edges.old.entries
        → HasEdges at (rows_of rows.new.entries) edges.new.entries }
    ensures ends { HasEnds (rows_of rows.old.entries) ends.old.entries
        → HasEnds (rows_of rows.new.entries) ends.new.entries }
    ensures edge_capacity { edges.old.capacity ≤ edges.new.capacity }
    ensures end_capacity { ends.old.capacity ≤ ends.new.capacity }
{
    let replaced = put_row(rows, row);
    if !is_kept(at, &row, &replaced) {
        put_edge(edges, rows, &row);
    }
    put_end(ends, rows, &row);
    rate_or_none(&replaced)
}
