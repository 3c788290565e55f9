//! Queues of moments: when a row is next due, and when it is over.

ghost use Rattle.std.specs.Prelude.{◌≡◌, ◌<◌, ◌≤◌, [], ◌∷◌, drop, length, max, nat_le, IfNone, IfSome, OnOk, OnErr};
ghost use Rattle.std.specs.{BinaryHeap.{IsHeap, heap_capacity, heap_items, heap_len}, List.{All}};
ghost use Rattle.std.specs.{List.Sorted.{IsPermutation}, Ordering.{is_lt}};
ghost use Rattle.ptu_shard.specs.Queue.{IsNoneBelow, entry_cmp};
ghost use Rattle.ptu_shard.specs.declared.queue.Entry.{Entry as QueuedEntry};

use ptu_units::{Client, Kind, Moment, OutOfMemory};
use std::alloc::Global;
use std::cmp::Reverse;
use std::collections::BinaryHeap;
use std::marker::Model;

/// A client and kind at a moment, in nanoseconds. Entries are ordered by moment, then client, then
/// kind.
#[derive(Clone, Copy, PartialEq, Eq, PartialOrd, Ord)]
pub(crate) struct Entry {
    pub(crate) moment: u64,
    pub(crate) client: Client,
    pub(crate) kind: Kind,
}

/// Entries, of which the least is taken first.
#[derive(Drop)]
pub(crate) struct Queue {
    heap: BinaryHeap<Reverse<Entry>>,
}

impl Model for Queue {
    ghost use Rattle.std.specs.{Prelude.{map}, BinaryHeap.{IsHeap, heap_capacity, heap_items}};
    ghost use Rattle.ptu_shard.specs.Queue.{Queued, entry_cmp};

    ghost Value = { Queued };

    ghost view = { λ q. record {
      entries = map (λ r. r.0) (heap_items q.heap);
      capacity = heap_capacity q.heap;
    } };

    ghost invariant = { λ q. IsHeap (λ a b. entry_cmp b.0 a.0) (heap_items q.heap) };
}

// Puts this entry in the place of the first of a heap, and moves it to where it belongs.
fn replace_top(heap: &mut BinaryHeap<Reverse<Entry>>, top: Reverse<Entry>)
    requires { 0 < heap_len heap.old }
    ensures items { IsPermutation (top ∷ drop 1 (heap_items heap.old)) (heap_items heap.new) }
    ensures order { IsHeap (λ a b. entry_cmp b.0 a.0) (heap_items heap.old) →
        IsHeap (λ a b. entry_cmp b.0 a.0) (heap_items heap.new) }
    ensures capacity { heap_capacity heap.new ≡ heap_capacity heap.old }
{
    let mut first = heap.peek_mut().unwrap();
    *first = top;
}

impl Queue {
    pub(crate) fn new(alloc: Global) -> Queue
        ensures { result.entries ≡ [] }
    {
        Queue {
            heap: BinaryHeap::new(alloc),
        }
    }

    /// Makes room for so many entries in all.
    pub(crate) fn reserve(&mut self, count: usize) -> Result<(), OutOfMemory>
        ensures room { OnOk result (count ≤ self.new.capacity) }
        ensures capacity { self.old.capacity ≤ self.new.capacity }
        ensures bound { self.new.capacity ≤ max self.old.capacity count }
        ensures entries { self.new.entries ≡ self.old.entries }
    {
        let more = count.saturating_sub(self.heap.len());
        self.heap.reserve_exact(more)?;
        Ok(())
    }

    /// Whether there is no room for an entry more.
    pub(crate) fn is_full(&self) -> bool
        ensures { result ≡ nat_le self.now.capacity (length self.now.entries) }
    {
        self.heap.capacity() <= self.heap.len()
    }

    /// Adds an entry. There is room for it, so that no memory is taken.
    pub(crate) fn push(&mut self, entry: Entry)
        requires { length self.old.entries < self.old.capacity }
        ensures entries { IsPermutation (entry ∷ self.old.entries) self.new.entries }
        ensures capacity { self.old.capacity ≤ self.new.capacity }
    {
        // A push fails only at a full heap, and this one has room.
        let _ = self.heap.push(Reverse(entry));
    }

    /// The least entry, where it is not after the moment.
    pub(crate) fn first_until(&self, at: Moment) -> Option<Entry>
        ensures first { IfSome result (λ e. self.now.entries ≡ e ∷ drop 1 self.now.entries) }
        ensures reached { IfSome result (λ e. e.moment ≤ at) }
        ensures least { IfSome result (λ e. IsNoneBelow e self.now.entries) }
        ensures later { IfNone result (All (λ e. at < e.moment) self.now.entries) }
    {
        let first = self.heap.peek()?;
        if at.nanos() < first.0.moment {
            return None;
        }
        Some(first.0)
    }

    /// Puts this entry in the place of the least, and moves it to where it belongs.
    pub(crate) fn replace_first(&mut self, entry: Entry)
        requires { 0 < length self.old.entries }
        ensures entries { IsPermutation (entry ∷ drop 1 self.old.entries) self.new.entries }
        ensures capacity { self.new.capacity ≡ self.old.capacity }
    {
        replace_top(&mut self.heap, Reverse(entry));
    }

    /// Drops the least entry.
    pub(crate) fn drop_first(&mut self)
        ensures dropped { (e : QueuedEntry) → self.old.entries ≡ e ∷ drop 1 self.old.entries →
            IsPermutation self.old.entries (e ∷ self.new.entries) }
        ensures capacity { self.new.capacity ≡ self.old.capacity }
    {
        let _ = self.heap.pop();
    }

    /// Takes the least entry, where it is not after the moment.
    pub(crate) fn pop_until(&mut self, at: Moment) -> Option<Entry>
        ensures taken { IfSome result (λ e. IsPermutation self.old.entries (e ∷ self.new.entries)) }
        ensures reached { IfSome result (λ e. e.moment ≤ at) }
        ensures later { IfNone result (All (λ e. at < e.moment) self.old.entries) }
        ensures kept { IfNone result (self.new.entries ≡ self.old.entries) }
        ensures capacity { self.new.capacity ≡ self.old.capacity }
    {
        let first = self.first_until(at)?;
        self.drop_first();
        Some(first)
    }

    pub(crate) fn clear(&mut self)
        ensures entries { self.new.entries ≡ [] }
        ensures capacity { self.new.capacity ≡ self.old.capacity }
    {
        self.heap.clear();
    }
}
