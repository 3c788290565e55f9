//! Dropping the rows that are over.

ghost use Rattle.std.specs.{Prelude.{◌≡◌, ◌<◌, ◌≤◌, ◌+◌, ◌^◌, length, nat_lt}, List.{filter}};
ghost use Rattle.std.specs.List.Sorted.{IsPermutation};
ghost use Rattle.indexmap.specs.IndexMap.{spare};
ghost use Rattle.ptu_shard.specs.{Fields.{rows_of}, Queue.{HasEnds}};
ghost use Rattle.ptu_shard.specs.Row.{IsDistinctByLease, share_of};

use crate::lease::Lease;
use crate::queue::Queue;
use crate::rows::{Key, drop_over};
use indexmap::IndexMap;
use ptu_units::Moment;

/// Drops the rows whose grants are over at the moment, by their entries in the queue of ends. Gives
/// the share that is left of this one.
pub(crate) fn drop_ended(
    rows: &mut IndexMap<Key, Lease>,
    ends: &mut Queue,
    at: Moment,
    mut share: u64,
) -> u64
    requires share { share ≡ share_of (rows_of rows.old.entries) }
    requires over { HasEnds (rows_of rows.old.entries) ends.old.entries }
    requires distinct { IsDistinctByLease (rows_of rows.old.entries) }
    ensures rows { IsPermutation
        (filter (λ row. nat_lt at row.lease.until) (rows_of rows.old.entries))
        (rows_of rows.new.entries) }
    ensures share { result ≡ share_of (rows_of rows.new.entries) }
    ensures over { HasEnds (rows_of rows.new.entries) ends.new.entries }
    ensures distinct { IsDistinctByLease (rows_of rows.new.entries) }
    ensures count { length rows.new.entries ≤ length rows.old.entries }
    ensures spare { spare rows.old ≤ spare rows.new }
    ensures capacity { ends.new.capacity ≡ ends.old.capacity }
{
    while let Some(entry) = ends.pop_until(at) {
        share -= drop_over(rows, at, entry);
    }
    share
}
