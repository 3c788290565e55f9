//! Changes of capacity.

ghost use Rattle.std.specs.Prelude.{◌≡◌, ℕ, ◌+◌, ◌<◌, ◌≤◌, max, List, map, ◌++◌, IfOk, OnErr, OnOk};
ghost use Rattle.ptu_history.specs.{History.{Record}, Verdict.{Config}, Events.{Resize}};
ghost use Rattle.ptu_history.specs.{Shedding.{shed_grants}, Step.{step}};
ghost use Rattle.ptu_admit.specs.{Lent.{StandFor, four, moment_for_all, shares}, Newest.{rows_in}};
ghost use Rattle.ptu_admit.specs.{Alone.{GoesOnAlone}, Shed.{shed_of}, Tables.{KeepsPort}};

use crate::book::Book;
use crate::in_force::InForce;
use crate::shed_list::ShedList;
use crate::shedding::{Shedding, shed_above};
use crate::sweeping::{latest_of, sweep_all};
use ptu_outside::Port;
use ptu_shard::Shard;
use ptu_units::{Moment, OutOfMemory};
use std::alloc::Global;

/// What a change of capacity did.
#[derive(Drop)]
pub struct Resized {
    /// When it was decided.
    pub at: Moment,
    /// The grants that were shed, in order.
    pub shed: ShedList,
}

/// Changes the capacity in force, over four tables in order of index, at the greatest of `t`, the
/// book's moment and the tables'. If the live grants are above it, the newest are shed until the
/// rest fits.
///
/// # Errors
/// `OutOfMemory` if there is no memory for the list of what is shed, so only where what is reserved
/// is above the new capacity. Nothing has changed then.
pub fn resize<P: Port>(
    alloc: Global,
    s0: &mut Shard<P>,
    s1: &mut Shard<P>,
    s2: &mut Shard<P>,
    s3: &mut Shard<P>,
    book: &mut Book,
    t: Moment,
    capacity: InForce,
) -> Result<Resized, OutOfMemory>
    requires sum { book.old.total ≡ shares (four s0.old s1.old s2.old s3.old) }
    ensures at { IfOk result (λ r. r.at
        ≡ moment_for_all t book.old (four s0.old s1.old s2.old s3.old)) }
    ensures unchanged { OnErr result ((s0.new ≡ s0.old) × (s1.new ≡ s1.old)
        × (s2.new ≡ s2.old) × (s3.new ≡ s3.old) × (book.new ≡ book.old)) }
    // Rows are put in order, and listed, only where some may have to be shed.
    ensures memory { OnErr result (capacity < book.old.total) }
    ensures moments { IfOk result (λ r. (book.new.moment ≡ r.at) × (s0.new.moment ≡ r.at)
        × (s1.new.moment ≡ r.at) × (s2.new.moment ≡ r.at) × (s3.new.moment ≡ r.at)) }
    ensures capacity { OnOk result (book.new.capacity ≡ capacity) }
    // The total changes as the sum of the shares does.
    ensures total { book.new.total ≡ shares (four s0.new s1.new s2.new s3.new) }
    ensures keeps { KeepsPort 0 s0.old s0.new × KeepsPort 0 s1.old s1.new
        × KeepsPort 0 s2.old s2.new × KeepsPort 0 s3.old s3.new }
    // What is shed is what is shed after each history that the tables and the book stand for, and
    // they go on with the change.
    ensures shed { (opening : ℕ) (history : List Record) →
        StandFor opening (four s0.old s1.old s2.old s3.old) book.old history →
        IfOk result (λ r. r.shed ≡ map shed_of (shed_grants history r.at capacity)) }
    ensures stands { (opened : Config) (history : List Record) →
        StandFor opened.capacity (four s0.old s1.old s2.old s3.old) book.old history →
        IfOk result (λ r. StandFor opened.capacity (four s0.new s1.new s2.new s3.new) book.new
        (history ++ (step opened history r.at (Resize capacity)).records)) }
    // By its own records alone each table goes on with the change and the sheddings of its grants.
    ensures alone { GoesOnAlone 0 s0.old s0.new × GoesOnAlone 1 s1.old s1.new
        × GoesOnAlone 2 s2.old s2.new × GoesOnAlone 3 s3.old s3.new }
{
    let at = latest_of(s0, s1, s2, s3, book, t);
    let count = count_above(s0, s1, s2, s3, book, capacity.get());
    let order = Vec::with_capacity(alloc, count)?;
    let list = Vec::with_capacity(alloc, count)?;
    let shedding = Shedding {
        at,
        capacity: capacity.get(),
        order,
        list,
    };
    sweep_all(s0, s1, s2, s3, book, at);
    let list = shed_above(s0, s1, s2, s3, book, shedding);
    book.change(capacity, at);
    Ok(Resized {
        at,
        shed: ShedList::new(list),
    })
}

// How many rows have to be put in order before a change to this capacity: all rows of the four
// tables, where they hold more than it, and else none.
fn count_above<P: Port>(
    s0: &Shard<P>,
    s1: &Shard<P>,
    s2: &Shard<P>,
    s3: &Shard<P>,
    book: &Book,
    capacity: u64,
) -> usize
    requires { book.now.total ≡ shares (four s0.now s1.now s2.now s3.now) }
    ensures all { capacity < book.now.total →
        result ≡ rows_in (four s0.now s1.now s2.now s3.now) }
    ensures none { book.now.total ≤ capacity → result ≡ 0 }
{
    // Each row has a rate of at least 1, so that there are no more than the total says.
    let total = book.total();
    if total <= capacity {
        return 0;
    }
    s0.count() + s1.count() + s2.count() + s3.count()
}
