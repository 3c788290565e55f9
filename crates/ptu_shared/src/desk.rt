//! What stands behind the book's lock: the book, the counts of all verdicts, and the ledgers that
//! tie them to tables and seats.

ghost use Rattle.std.specs.Prelude.{◌≡◌, ◌≤◌, ◌<◌, ◌+◌, ◌*◌, ◌^◌, IfOk, replicate};
ghost use Rattle.ptu_shard.specs.Row.{share_of};
ghost use Rattle.ptu_admit.specs.Lent.{four, shares};
ghost use Rattle.ptu_shared.specs.{Blanks.{IsBlankOf}, Seats.{counting, no_verdicts}};

use crate::place::{First, Fourth, Place, Second, Third};
use crate::rates::{Rates, audit_parts};
use crate::seat::{FULL, Seat};
use crate::table::Table;
use ptu_admit::{Book, Verdict};
use ptu_outside::Port;
use ptu_units::{Capacity, OutOfMemory};
use std::alloc::Global;
use std::sync::ledger::{self, Blank, Ledger, Share};

// The book beside the books of the three ledgers and the number of seats. The book's total is that
// of the ledger of rates, whose parts stand beside the tables. What each ledger of verdicts has
// left of 2^56 for each seat is what was counted.
#[derive(Drop)]
pub(crate) struct Desk<L: Rates, G: Ledger, R: Ledger> {
    pub book: Book,
    pub seats: u64,
    pub granted: u64,
    pub refused: u64,
    pub rates: ledger::Book<L>,
    pub grants: ledger::Book<G>,
    pub refusals: ledger::Book<R>,
    ghost same: { rates.total ≡ book.total },
    ghost within: { book.capacity ≤ L.most },
    ghost few: { seats ≤ 64 },
    ghost all_seats: { seats ≡ L.seats },
    ghost granted_is: { granted + grants.total ≡ seats * 2 ^ 56 },
    ghost refused_is: { refused + refusals.total ≡ seats * 2 ^ 56 },
}

impl<L: Rates, G: Ledger, R: Ledger> Desk<L, G, R> {
    // Counts a verdict at the seat and here.
    pub fn count(&mut self, seat: &mut Seat<G, R>, verdict: &Verdict)
        requires { (seat.old.granted < 2 ^ 56) × (seat.old.refused < 2 ^ 56) }
        ensures seat { seat.new ≡ counting verdict.now seat.old }
        ensures desk { counting verdict.now
            (record { granted = self.old.granted; refused = self.old.refused })
            ≡ record { granted = self.new.granted; refused = self.new.refused } }
        ensures book { self.new.book ≡ self.old.book }
    {
        match verdict {
            Verdict::Granted(_) => self.count_granted(seat),
            Verdict::Short(_) => self.count_refused(seat),
            Verdict::Outside(_) => {}
        }
    }

    fn count_granted(&mut self, seat: &mut Seat<G, R>)
        requires { seat.old.granted < 2 ^ 56 }
        ensures seat { seat.new ≡ record seat.old { granted = seat.old.granted + 1 } }
        ensures desk { (self.new.granted ≡ self.old.granted + 1)
            × (self.new.refused ≡ self.old.refused) }
        ensures book { self.new.book ≡ self.old.book }
    {
        self.grants.sub(&mut seat.grants, 1);
        seat.granted += 1;
        self.granted += 1;
    }

    fn count_refused(&mut self, seat: &mut Seat<G, R>)
        requires { seat.old.refused < 2 ^ 56 }
        ensures seat { seat.new ≡ record seat.old { refused = seat.old.refused + 1 } }
        ensures desk { (self.new.granted ≡ self.old.granted)
            × (self.new.refused ≡ self.old.refused + 1) }
        ensures book { self.new.book ≡ self.old.book }
    {
        self.refusals.sub(&mut seat.refusals, 1);
        seat.refused += 1;
        self.refused += 1;
    }
}

// Seats that have counted nothing, one for each part of the two shares.
fn make_seats<G: Ledger, R: Ledger>(
    alloc: Global,
    count: usize,
    mut grants: Share<G>,
    mut refusals: Share<R>,
) -> Result<Vec<Seat<G, R>>, OutOfMemory>
    requires parts { (grants.parts ≡ count) × (refusals.parts ≡ count) }
    requires amounts { (grants.amount ≡ count * 2 ^ 56) × (refusals.amount ≡ count * 2 ^ 56) }
    ensures { IfOk result (λ seats. seats.items ≡ replicate count no_verdicts) }
{
    let mut seats = Vec::with_capacity(alloc, count)?;
    for _ in 0..count {
        let seat = Seat::new(grants.split_off(1, FULL), refusals.split_off(1, FULL));
        seats.push(seat)?;
    }
    Ok(seats)
}

// The book of tables without rows, and all seats. The blanks become the ledgers of verdicts.
pub(crate) fn open_desk<L: Rates, G: Ledger, R: Ledger>(
    alloc: Global,
    rates: ledger::Book<L>,
    granted: Blank,
    refused: Blank,
    capacity: Capacity,
    seats: usize,
) -> Result<(Desk<L, G, R>, Vec<Seat<G, R>>), OutOfMemory>
    requires rates { rates.total ≡ 0 }
    requires granted { IsBlankOf G.name G.parts L.seats granted }
    requires refused { IsBlankOf R.name R.parts L.seats refused }
    requires opening { capacity ≡ L.opening }
    requires most { capacity ≤ L.most }
    requires seats { (1 ≤ seats) × (seats ≤ 64) × (seats ≡ L.seats) }
    ensures book { IfOk result (λ made. made.0.book
        ≡ record { capacity = L.opening; moment = 0; total = 0 }) }
    ensures counts { IfOk result (λ made. (made.0.granted ≡ 0) × (made.0.refused ≡ 0)) }
    ensures seats { IfOk result (λ made. made.1.items ≡ replicate seats no_verdicts) }
{
    let (mut grants, mut all_granted) = granted.open::<G>();
    let (mut refusals, mut all_refused) = refused.open::<R>();
    let amount = seats as u64 * FULL;
    grants.add(&mut all_granted, amount);
    refusals.add(&mut all_refused, amount);
    let given = make_seats(alloc, seats, all_granted, all_refused)?;
    let desk = Desk {
        book: Book::new(capacity),
        seats: seats as u64,
        granted: 0,
        refused: 0,
        rates,
        grants,
        refusals,
    };
    Ok((desk, given))
}

// Nothing changes. The share of a table is at most the total of the book.
pub(crate) fn audit_table<P: Port, L: Rates, G: Ledger, R: Ledger, J: Place>(
    table: &mut Table<P, L, J>,
    desk: &mut Desk<L, G, R>,
)
    ensures bound { share_of table.old.shard.rows ≤ desk.old.book.total }
    ensures table { table.new.shard ≡ table.old.shard }
    ensures tally { table.new.tally ≡ table.old.tally }
    ensures desk { (desk.new.book ≡ desk.old.book) × (desk.new.granted ≡ desk.old.granted)
        × (desk.new.refused ≡ desk.old.refused) }
{
    desk.rates.audit(&mut table.part);
}

// Nothing changes. The shares of the four tables, which sum to the total of the book.
pub(crate) fn audit_tables<P: Port, L: Rates, G: Ledger, R: Ledger>(
    t0: &mut Table<P, L, First>,
    t1: &mut Table<P, L, Second>,
    t2: &mut Table<P, L, Third>,
    t3: &mut Table<P, L, Fourth>,
    desk: &mut Desk<L, G, R>,
) -> (u64, u64, u64, u64)
    requires { L.parts ≡ 4 }
    ensures shares { (result.0 ≡ share_of t0.old.shard.rows)
        × (result.1 ≡ share_of t1.old.shard.rows) × (result.2 ≡ share_of t2.old.shard.rows)
        × (result.3 ≡ share_of t3.old.shard.rows) }
    ensures sum { desk.old.book.total
        ≡ shares (four t0.old.shard t1.old.shard t2.old.shard t3.old.shard) }
    ensures tables { (t0.new.shard ≡ t0.old.shard) × (t1.new.shard ≡ t1.old.shard)
        × (t2.new.shard ≡ t2.old.shard) × (t3.new.shard ≡ t3.old.shard) }
    ensures tallies { (t0.new.tally ≡ t0.old.tally) × (t1.new.tally ≡ t1.old.tally)
        × (t2.new.tally ≡ t2.old.tally) × (t3.new.tally ≡ t3.old.tally) }
    ensures desk { (desk.new.book ≡ desk.old.book) × (desk.new.granted ≡ desk.old.granted)
        × (desk.new.refused ≡ desk.old.refused) }
{
    let held = (
        t0.shard.held(),
        t1.shard.held(),
        t2.shard.held(),
        t3.shard.held(),
    );
    audit_parts(
        &mut desk.rates,
        &mut t0.part,
        &mut t1.part,
        &mut t2.part,
        &mut t3.part,
        (held.1, held.2, held.3),
    );
    held
}
