//! The rows of four tables gathered for shedding.

ghost use Rattle.std.specs.Prelude.{◌≡◌, ◌+◌, ◌≤◌, [], ◌++◌, length, map, vec_capacity, vec_len};
ghost use Rattle.std.specs.List.Sorted.{IsPermutation};
ghost use Rattle.ptu_shard.specs.Row.{IsDistinctByLease};
ghost use Rattle.ptu_admit.specs.Lent.{four};
ghost use Rattle.ptu_admit.specs.Newest.{AreDistinct, all_found, candidate_of, found_in, rows_in};

use crate::newest::{Candidate, Newest};
use ptu_outside::Port;
use ptu_shard::Shard;

// Lists the rows of a table behind what is listed.
fn list_rows<P: Port>(shard: &Shard<P>, table: usize, list: &mut Vec<Candidate>)
    requires room { vec_len list.old + length shard.now.rows ≤ vec_capacity list.old }
    ensures items { list.new.items
        ≡ list.old.items ++ map candidate_of (map (found_in table) shard.now.rows) }
    ensures len { vec_len list.new ≡ vec_len list.old + length shard.now.rows }
    ensures capacity { vec_capacity list.old ≤ vec_capacity list.new }
    ensures distinct { IsDistinctByLease shard.now.rows }
{
    for index in 0..shard.count() {
        if let Some(row) = shard.row(index) {
            // A push fails only at a full vector, and this one has room for all rows.
            let _ = list.push(Candidate {
                start: row.lease.start.nanos(),
                client: row.client,
                kind: row.kind,
                table,
            });
        }
    }
}

/// The rows of four tables, in order of index. The list is empty, and has room for them.
pub(crate) fn newest_of<P: Port>(
    s0: &Shard<P>,
    s1: &Shard<P>,
    s2: &Shard<P>,
    s3: &Shard<P>,
    list: Vec<Candidate>,
) -> Newest
    requires empty { list.items ≡ [] }
    requires room { rows_in (four s0.now s1.now s2.now s3.now) ≤ vec_capacity list }
    ensures all { IsPermutation
        (map candidate_of (all_found (four s0.now s1.now s2.now s3.now))) result }
    ensures distinct { AreDistinct s0.now s1.now s2.now s3.now }
{
    let mut list = list;
    list_rows(s0, 0, &mut list);
    list_rows(s1, 1, &mut list);
    list_rows(s2, 2, &mut list);
    list_rows(s3, 3, &mut list);
    Newest::of(list)
}
