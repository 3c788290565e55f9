//! The rows of four tables in the order in which a change of capacity sheds them.

ghost use Rattle.std.specs.{Prelude.{◌≡◌, [], ◌∷◌, false, IfNone, IfSome}, List.{All}};
ghost use Rattle.std.specs.{List.Sorted.{IsPermutation}, Ordering.{is_lt}};
ghost use Rattle.ptu_admit.specs.Newest.{candidate_cmp};

use ptu_shard::Row;
use ptu_units::{Client, Kind};
use std::collections::BinaryHeap;
use std::marker::Model;

/// A row, and which of the four tables it stands in.
#[derive(Clone, Copy)]
pub(crate) struct Found {
    pub table: usize,
    pub row: Row,
}

/// What the order of shedding knows of a row, and its table. The greatest is shed first: by the
/// later grant, in nanoseconds, then the greater client, then the later kind.
#[derive(Clone, Copy, PartialEq, Eq, PartialOrd, Ord)]
pub(crate) struct Candidate {
    pub start: u64,
    pub client: Client,
    pub kind: Kind,
    pub table: usize,
}

/// Candidates, of which the greatest is taken first.
#[derive(Drop)]
pub(crate) struct Newest {
    heap: BinaryHeap<Candidate>,
}

impl Model for Newest {
    ghost use Rattle.std.specs.{Prelude.{List}, BinaryHeap.{IsHeap, heap_items}};
    ghost use Rattle.ptu_admit.specs.declared.newest.Candidate.{Candidate};
    ghost use Rattle.ptu_admit.specs.Newest.{candidate_cmp};

    ghost Value = { List Candidate };

    ghost view = { λ n. heap_items n.heap };

    ghost invariant = { λ n. IsHeap candidate_cmp (heap_items n.heap) };
}

impl Newest {
    /// These candidates, in an order that is left open.
    pub(crate) fn of(list: Vec<Candidate>) -> Newest
        ensures { IsPermutation list.items result }
    {
        Newest {
            heap: BinaryHeap::from(list),
        }
    }

    /// Removes the newest candidate, which is shed next, and returns it.
    pub(crate) fn pop(&mut self) -> Option<Candidate>
        ensures taken { IfSome result (λ c. IsPermutation self.old (c ∷ self.new)) }
        ensures newest { IfSome result (λ c.
            All (λ o. is_lt (candidate_cmp c o) ≡ false) self.old) }
        ensures none { IfNone result (self.old ≡ []) }
    {
        let first = self.heap.pop()?;
        Some(first)
    }
}
