//! Rows by client and kind.
//!
//! A function asks for a map's `len` where its proof wants what that call says of the map: no key
//! stands in it twice.

ghost use Rattle.std.specs.Prelude.{◌≡◌, ◌<◌, ◌≤◌, ◌+◌, ◌*◌, ◌^◌, [], ◌∷◌, false, if◌then◌else◌, length, map, nat_lt, slice_get, true, IfNone, IfSome};
ghost use Rattle.std.specs.{List.{Contains, filter}, List.Sorted.{IsPermutation}};
ghost use Rattle.ptu_units.specs.{declared.kind.Kind.TheVariants.{DelayResp}, Log.{rate_of}};
ghost use Rattle.indexmap.specs.IndexMap.{spare};
ghost use Rattle.ptu_shard.specs.{Fields.{rows_of}, Queue.{edge_entry, end_entry, row_by}};
ghost use Rattle.ptu_shard.specs.Row.{IsDistinctByLease, is_row_of, lease_of, rate_of_lease, share_of, without_row};
ghost use Rattle.ptu_shard.specs.Turn.{answered_lease, is_answering_row, is_due_row, spent_row, spent_where};

use crate::lease::{Lease, Row};
use crate::queue::Entry;
use indexmap::IndexMap;
use ptu_units::{Client, Kind, Moment, rate};

/// What a lease is found by.
#[derive(Clone, Copy, PartialEq, Eq, Hash)]
pub(crate) struct Key {
    pub(crate) client: Client,
    pub(crate) kind: Kind,
}

/// The lease of the client and kind, if a row has one.
#[inline(always)]
pub(crate) fn find_lease(rows: &IndexMap<Key, Lease>, client: &Client, kind: Kind) -> Option<Lease>
    ensures { result ≡ lease_of client.now kind (rows_of rows.now.entries) }
{
    let key = Key {
        client: *client,
        kind,
    };
    rows.get(&key).copied()
}

/// The row at a place.
pub(crate) fn row_at(rows: &IndexMap<Key, Lease>, index: usize) -> Option<Row>
    ensures { result ≡ slice_get (rows_of rows.now.entries) index }
{
    let (key, lease) = rows.get_index(index)?;
    Some(Row {
        client: key.client,
        kind: key.kind,
        lease: *lease,
    })
}

/// Makes this row the one of its client and kind. There is room for it, so that no memory is taken.
/// Gives the lease that it replaces.
pub(crate) fn put_row(rows: &mut IndexMap<Key, Lease>, row: Row) -> Option<Lease>
    requires { 0 < spare rows.old }
    ensures rows { IsPermutation
        (row ∷ without_row row.client row.kind (rows_of rows.old.entries))
        (rows_of rows.new.entries) }
    ensures replaced { result ≡ lease_of row.client row.kind (rows_of rows.old.entries) }
    ensures distinct { IsDistinctByLease (rows_of rows.new.entries) }
    ensures share { share_of (rows_of rows.new.entries) + rate_of_lease result
        ≡ share_of (rows_of rows.old.entries) + rate_of row.lease.log }
    ensures count { length rows.old.entries ≤ length rows.new.entries }
    ensures bound { length rows.new.entries ≤ length rows.old.entries + 1 }
    ensures spare { spare rows.old ≤ spare rows.new + 1 }
{
    let _count = rows.len();
    let key = Key {
        client: row.client,
        kind: row.kind,
    };
    match rows.insert(key, row.lease) {
        Ok(replaced) => replaced,
        // It fails only where there is no room, and there is.
        Err(_) => None,
    }
}

/// Drops the row of the client and kind. Gives its lease, if there is one.
pub(crate) fn drop_row(
    rows: &mut IndexMap<Key, Lease>,
    client: &Client,
    kind: Kind,
) -> Option<Lease>
    ensures found { result ≡ lease_of client.now kind (rows_of rows.old.entries) }
    ensures rows { IsPermutation (without_row client.now kind (rows_of rows.old.entries))
        (rows_of rows.new.entries) }
    ensures distinct { IsDistinctByLease (rows_of rows.new.entries) }
    ensures none { IfNone result
        (share_of (rows_of rows.new.entries) ≡ share_of (rows_of rows.old.entries)) }
    ensures share { IfSome result (λ lease. share_of (rows_of rows.new.entries) + rate_of lease.log
        ≡ share_of (rows_of rows.old.entries)) }
    ensures count { length rows.new.entries ≤ length rows.old.entries }
    ensures bound { IfNone result (length rows.new.entries ≡ length rows.old.entries) }
    ensures spare { spare rows.old ≤ spare rows.new }
{
    let _count = rows.len();
    let key = Key {
        client: *client,
        kind,
    };
    rows.swap_remove(&key)
}

/// Drops the row of the entry's client and kind, where it is over at the moment. Gives its rate.
pub(crate) fn drop_over(rows: &mut IndexMap<Key, Lease>, at: Moment, entry: Entry) -> u64
    requires { entry.moment ≤ at }
    ensures live { IsPermutation
        (filter (λ row. nat_lt at row.lease.until) (rows_of rows.old.entries))
        (filter (λ row. nat_lt at row.lease.until) (rows_of rows.new.entries)) }
    ensures left { (row : Row) → Contains (rows_of rows.new.entries) row
        → Contains (rows_of rows.old.entries) row × (end_entry row ≡ entry → ⊥) }
    ensures distinct { IsDistinctByLease (rows_of rows.new.entries) }
    ensures share { share_of (rows_of rows.new.entries) + result
        ≡ share_of (rows_of rows.old.entries) }
    ensures count { length rows.new.entries ≤ length rows.old.entries }
    ensures spare { spare rows.old ≤ spare rows.new }
{
    let _count = rows.len();
    let Some(lease) = find_lease(rows, &entry.client, entry.kind) else {
        return 0;
    };
    if at.nanos() < lease.until {
        return 0;
    }
    drop_row(rows, &entry.client, entry.kind);
    rate(lease.log)
}

// Where the lease, which is of the entry's client and kind, is due at the moment, by just this
// entry, it spends a period and a sequence number. Gives the row as it was before.
fn spend_by_entry(lease: &mut Lease, at: Moment, entry: Entry) -> Option<Row>
    ensures due { IfSome result (λ row. (row ≡ row_by entry lease.old)
        × (edge_entry row ≡ entry) × (is_due_row at row ≡ true)) }
    ensures spent { IfSome result (λ row. lease.new ≡ (spent_row at row).lease) }
    ensures later { IfSome result (λ row. is_due_row at (spent_row at row) ≡ false) }
    ensures none { IfNone result (edge_entry (row_by entry lease.old) ≡ entry →
        is_due_row at (row_by entry lease.old) ≡ false) }
    ensures same { IfNone result (lease.new ≡ lease.old) }
{
    let row = Row {
        client: entry.client,
        kind: entry.kind,
        lease: *lease,
    };
    if row.lease.edge != entry.moment {
        return None;
    }
    if !row.is_due(at) {
        return None;
    }
    *lease = row.spent(at).lease;
    Some(row)
}

/// Where the row of the entry's client and kind is due at the moment, by just this entry, it spends
/// a period and a sequence number. Gives the row as it was before. It is looked up once.
pub(crate) fn spend_due(rows: &mut IndexMap<Key, Lease>, at: Moment, entry: Entry) -> Option<Row>
    ensures due { IfSome result (λ row. Contains (rows_of rows.old.entries) row
        × (edge_entry row ≡ entry) × (is_due_row at row ≡ true)) }
    ensures spent { IfSome result (λ row. rows_of rows.new.entries
        ≡ spent_where (is_row_of row.client row.kind) at (rows_of rows.old.entries)) }
    ensures later { IfSome result (λ row. is_due_row at (spent_row at row) ≡ false) }
    ensures none { IfNone result ((row : Row) → Contains (rows_of rows.old.entries) row
        → edge_entry row ≡ entry → is_due_row at row ≡ false) }
    ensures same { IfNone result (rows_of rows.new.entries ≡ rows_of rows.old.entries) }
    ensures distinct { IsDistinctByLease (rows_of rows.old.entries) }
    ensures spare { spare rows.new ≡ spare rows.old }
{
    let _count = rows.len();
    let key = Key {
        client: entry.client,
        kind: entry.kind,
    };
    let Some(lease) = rows.get_mut(&key) else {
        return None;
    };
    spend_by_entry(lease, at, entry)
}

// Where the lease, which is of the client's Delay_Resps, lets one be sent at the moment, it spends
// a period and a sequence number. Gives the lease as it was before.
fn spend_lawful(lease: &mut Lease, at: Moment, client: Client) -> Lease
    ensures lease { result ≡ lease.old }
    ensures spent { lease.new ≡ answered_lease at client lease.old }
{
    let row = Row {
        client,
        kind: Kind::DelayResp,
        lease: *lease,
    };
    if row.is_lawful(at) {
        *lease = row.spent(at).lease;
    }
    row.lease
}

/// The row that answers a Delay_Req of the client, if one does, spends a period and a sequence
/// number. Gives the lease of its Delay_Resps as it was before. It is looked up once.
pub(crate) fn spend_answering(
    rows: &mut IndexMap<Key, Lease>,
    at: Moment,
    client: Client,
) -> Option<Lease>
    ensures lease { result ≡ lease_of client DelayResp (rows_of rows.old.entries) }
    ensures rows { rows_of rows.new.entries
        ≡ spent_where (is_answering_row at client) at (rows_of rows.old.entries) }
    ensures spare { spare rows.new ≡ spare rows.old }
{
    let _count = rows.len();
    let key = Key {
        client,
        kind: Kind::DelayResp,
    };
    let Some(lease) = rows.get_mut(&key) else {
        return None;
    };
    Some(spend_lawful(lease, at, client))
}
