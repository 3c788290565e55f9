//! The close of shared tables.

ghost use Rattle.std.specs.Prelude.{◌≡◌, ◌≤◌, ◌<◌, ◌+◌, ◌*◌, ◌^◌, ◌↔◌, [], ◌∷◌, IfErr, IfOk, IsOk, IsTrue, length, sum, vec_len};
ghost use Rattle.ptu_shard.specs.Row.{share_of};
ghost use Rattle.ptu_admit.specs.{Lent.{four, moment_for_all}, Rows.{live_rows}};
ghost use Rattle.ptu_shared.specs.{Histories.{SendsCounted, SendsLawfully}, Opening.{AreAsOpened, HaveFailed, seen_of}};
ghost use Rattle.ptu_shared.specs.Seats.{AreUnsettled, granted_in, refused_in};

use crate::changing::finish_all;
use crate::desk::Desk;
use crate::place::{First, Fourth, Second, Third};
use crate::rates::Rates;
use crate::seat::{FULL, Seat};
use crate::shared::Shared;
use crate::table::Table;
use crate::tally::Tallies;
use crate::turning::Turner;
use ptu_admit::Closed;
use ptu_outside::Port;
use std::sync::Mutex;
use std::sync::ledger::{self, Ledger, Share};

/// Why shared tables are not closed: the seats that were handed in have not counted what the book
/// has. Everything is handed back.
#[derive(Drop)]
pub struct CloseFault<P: Port + Send, L: Rates, G: Ledger, R: Ledger> {
    /// How many asks were granted, by the book.
    pub granted: u64,
    /// How many asks within the profile did not fit, by the book.
    pub refused: u64,
    /// How many asks were granted, by the seats.
    pub seats_granted: u64,
    /// How many asks within the profile did not fit, by the seats.
    pub seats_refused: u64,
    /// The tables, as they were.
    pub shared: Shared<P, L, G, R>,
    /// The seats, as they were.
    pub seats: Vec<Seat<G, R>>,
}

// Nothing changes. Adds what the seats have counted to the counts of seats whose parts of the
// ledgers of verdicts are lent. Where these and the seats are all there are, the sums are the
// book's counts.
fn add_counts<L: Rates, G: Ledger, R: Ledger>(
    seats: &mut [Seat<G, R>],
    desk: &mut Desk<L, G, R>,
    grants: &mut Share<G>,
    refusals: &mut Share<R>,
    granted: u64,
    refused: u64,
) -> (u64, u64)
    requires ledgers { (G.parts ≡ L.seats) × (R.parts ≡ L.seats) }
    requires parts { (0 < grants.old.parts) × (refusals.old.parts ≡ grants.old.parts) }
    requires granted { granted + grants.old.amount ≡ grants.old.parts * 2 ^ 56 }
    requires refused { refused + refusals.old.amount ≡ refusals.old.parts * 2 ^ 56 }
    ensures sums { (result.0 ≡ granted + granted_in seats.old)
        × (result.1 ≡ refused + refused_in seats.old) }
    ensures all { grants.old.parts + length seats.old ≡ L.seats →
        (result.0 ≡ desk.old.granted) × (result.1 ≡ desk.old.refused) }
    ensures seats { seats.new ≡ seats.old }
    ensures shares { (grants.new.parts ≡ grants.old.parts)
        × (grants.new.amount ≡ grants.old.amount) × (refusals.new.parts ≡ refusals.old.parts)
        × (refusals.new.amount ≡ refusals.old.amount) }
    ensures desk { (desk.new.book ≡ desk.old.book) × (desk.new.granted ≡ desk.old.granted)
        × (desk.new.refused ≡ desk.old.refused) }
{
    let Some((seat, rest)) = seats.split_first_mut() else {
        desk.grants.audit(grants);
        desk.refusals.audit(refusals);
        return (granted, refused);
    };
    let lent = (FULL - seat.granted, FULL - seat.refused);
    seat.grants.give(grants, 1, lent.0);
    seat.refusals.give(refusals, 1, lent.1);
    let sums = add_counts(
        rest,
        desk,
        grants,
        refusals,
        granted + seat.granted,
        refused + seat.refused,
    );
    grants.give(&mut seat.grants, 1, lent.0);
    refusals.give(&mut seat.refusals, 1, lent.1);
    sums
}

// Nothing changes. What the seats have counted; where they are all there are, it is what the book
// has.
fn count_seats<L: Rates, G: Ledger, R: Ledger>(
    seats: &mut [Seat<G, R>],
    desk: &mut Desk<L, G, R>,
) -> (u64, u64)
    requires { (G.parts ≡ L.seats) × (R.parts ≡ L.seats) }
    ensures sums { (result.0 ≡ granted_in seats.old) × (result.1 ≡ refused_in seats.old) }
    ensures all { length seats.old ≡ L.seats →
        (result.0 ≡ desk.old.granted) × (result.1 ≡ desk.old.refused) }
    ensures seats { seats.new ≡ seats.old }
    ensures desk { (desk.new.book ≡ desk.old.book) × (desk.new.granted ≡ desk.old.granted)
        × (desk.new.refused ≡ desk.old.refused) }
{
    let Some((seat, rest)) = seats.split_first_mut() else {
        return (0, 0);
    };
    add_counts(
        rest,
        desk,
        &mut seat.grants,
        &mut seat.refusals,
        seat.granted,
        seat.refused,
    )
}

// Closes four tables, in order of index, and their book: each count is what the table holds at the
// greatest of the five moments. Tells what their ports were sent and the capacity in force, too.
fn close_tables<P: Port, L: Rates, G: Ledger, R: Ledger>(
    mut t0: Table<P, L, First>,
    mut t1: Table<P, L, Second>,
    mut t2: Table<P, L, Third>,
    mut t3: Table<P, L, Fourth>,
    mut desk: Desk<L, G, R>,
) -> (Closed<P>, Tallies)
    requires { L.parts ≡ 4 }
    ensures counts { let n = moment_for_all 0 desk.book
        (four t0.shard t1.shard t2.shard t3.shard) in
        result.0.counts
        ≡ share_of (live_rows n t0.shard.rows) ∷ share_of (live_rows n t1.shard.rows)
        ∷ share_of (live_rows n t2.shard.rows) ∷ share_of (live_rows n t3.shard.rows) ∷ [] }
    ensures total { result.0.total ≡ sum result.0.counts }
    ensures most { result.0.total ≤ L.most }
    ensures in_force { result.0.total ≤ result.1.capacity }
    ensures verdicts { (result.0.granted ≡ desk.granted) × (result.0.refused ≡ desk.refused) }
    ensures ports { (result.0.p0 ≡ t0.shard.port) × (result.0.p1 ≡ t1.shard.port)
        × (result.0.p2 ≡ t2.shard.port) × (result.0.p3 ≡ t3.shard.port) }
    ensures opened { AreAsOpened P.Port L.opened
        result.0.p0 result.0.p1 result.0.p2 result.0.p3 }
    ensures tallies { (result.1.p0 ≡ t0.tally) × (result.1.p1 ≡ t1.tally)
        × (result.1.p2 ≡ t2.tally) × (result.1.p3 ≡ t3.tally) }
    ensures failures { let once = P.counts_once in
        HaveFailed once result.1.p0.failed (L.opened 0).faults (P.faults result.0.p0)
        × HaveFailed P.counts_once result.1.p1.failed (L.opened 1).faults (P.faults result.0.p1)
        × HaveFailed P.counts_once result.1.p2.failed (L.opened 2).faults (P.faults result.0.p2)
        × HaveFailed P.counts_once result.1.p3.failed (L.opened 3).faults (P.faults result.0.p3) }
{
    finish_all(&mut t0, &mut t1, &mut t2, &mut t3, &mut desk);
    let tallies = Tallies {
        p0: t0.tally,
        p1: t1.tally,
        p2: t2.tally,
        p3: t3.tally,
        capacity: desk.book.capacity(),
    };
    let closed = Closed {
        counts: [
            t0.shard.held(),
            t1.shard.held(),
            t2.shard.held(),
            t3.shard.held(),
        ],
        total: desk.book.total(),
        granted: desk.granted,
        refused: desk.refused,
        p0: t0.into_port(),
        p1: t1.into_port(),
        p2: t2.into_port(),
        p3: t3.into_port(),
    };
    (closed, tallies)
}

// Whether the counts are those of the book.
fn is_settled<L: Rates, G: Ledger, R: Ledger>(desk: &Desk<L, G, R>, sums: (u64, u64)) -> bool
    ensures { IsTrue result ↔ ((sums.0 ≡ desk.now.granted) × (sums.1 ≡ desk.now.refused)) }
{
    sums.0 == desk.granted && sums.1 == desk.refused
}

impl<P: Port + Send, L: Rates, G: Ledger, R: Ledger> Shared<P, L, G, R> {
    /// Closes the tables, where these seats have counted what the book has: what each table holds
    /// at the greatest of the five moments, how many asks were granted and how many refused, and
    /// the ports as they are. It waits for nobody and takes no memory.
    ///
    /// # Errors
    /// A `CloseFault` exactly where the seats' sums differ from the book's two counts. All seats
    /// together never differ.
    pub fn close(self, seats: Vec<Seat<G, R>>) -> Result<Closed<P>, CloseFault<P, L, G, R>>
        requires { (L.parts ≡ 4) × (G.parts ≡ L.seats) × (R.parts ≡ L.seats) }
        ensures verdicts { IfOk result (λ closed.
            (closed.granted ≡ granted_in seats.items)
            × (closed.refused ≡ refused_in seats.items)) }
        ensures total { IfOk result (λ closed. closed.total ≡ sum closed.counts) }
        ensures most { IfOk result (λ closed. closed.total ≤ L.most) }
        // Each port is that of its table: what waits there is what the ledger names.
        ensures opened { IfOk result (λ closed.
            AreAsOpened P.Port L.opened closed.p0 closed.p1 closed.p2 closed.p3) }
        // What the port of each table was sent are, in order, messages of a history of the table.
        ensures lawful { IfOk result (λ closed.
            SendsLawfully P.Port L.told L.config 0 (L.opened 0) (seen_of P.Port closed.p0)
            × SendsLawfully P.Port L.told L.config 1 (L.opened 1) (seen_of P.Port closed.p1)
            × SendsLawfully P.Port L.told L.config 2 (L.opened 2) (seen_of P.Port closed.p2)
            × SendsLawfully P.Port L.told L.config 3 (L.opened 3) (seen_of P.Port closed.p3)) }
        ensures fault { IfErr result (λ fault. (fault.seats.items ≡ seats.items)
            × AreUnsettled (record { granted = fault.granted; refused = fault.refused })
            (record { granted = fault.seats_granted; refused = fault.seats_refused }) seats.items) }
        ensures all { vec_len seats ≡ L.seats → IsOk result }
    {
        match self.close_with_tallies(seats, Turner::none()) {
            Ok((closed, _)) => Ok(closed),
            Err(fault) => Err(fault),
        }
    }

    /// Closes the tables as `close` does, and tells what their ports were sent, how many of their
    /// sends failed, and the capacity in force. The tables were turned as often as the turner knows
    /// of those that it may turn.
    ///
    /// # Errors
    /// A `CloseFault` exactly where the seats' sums differ from the book's two counts. All seats
    /// together never differ.
    pub fn close_with_tallies(
        self,
        mut seats: Vec<Seat<G, R>>,
        turner: Turner<L>,
    ) -> Result<(Closed<P>, Tallies), CloseFault<P, L, G, R>>
        requires { (L.parts ≡ 4) × (G.parts ≡ L.seats) × (R.parts ≡ L.seats) }
        ensures verdicts { IfOk result (λ r. (r.0.granted ≡ granted_in seats.items)
            × (r.0.refused ≡ refused_in seats.items)) }
        ensures total { IfOk result (λ r. r.0.total ≡ sum r.0.counts) }
        ensures most { IfOk result (λ r. r.0.total ≤ L.most) }
        ensures opened { IfOk result (λ r.
            AreAsOpened P.Port L.opened r.0.p0 r.0.p1 r.0.p2 r.0.p3) }
        // No more is held than is in force.
        ensures in_force { IfOk result (λ r. r.0.total ≤ r.1.capacity) }
        // Each failed send is a fault of that port, and there are no other faults.
        ensures failures { IfOk result (λ r.
            HaveFailed P.counts_once r.1.p0.failed (L.opened 0).faults (P.faults r.0.p0)
            × HaveFailed P.counts_once r.1.p1.failed (L.opened 1).faults (P.faults r.0.p1)
            × HaveFailed P.counts_once r.1.p2.failed (L.opened 2).faults (P.faults r.0.p2)
            × HaveFailed P.counts_once r.1.p3.failed (L.opened 3).faults (P.faults r.0.p3)) }
        // What the port of each table was sent are, in order, messages of a history of the table,
        // and so many; and so often it was turned.
        ensures lawful { IfOk result (λ r.
            SendsCounted P.Port L.told L.config 0 (L.opened 0) r.0.p0 r.1.p0.sent turner.t0
            × SendsCounted P.Port L.told L.config 1 (L.opened 1) r.0.p1 r.1.p1.sent turner.t1
            × SendsCounted P.Port L.told L.config 2 (L.opened 2) r.0.p2 r.1.p2.sent turner.t2
            × SendsCounted P.Port L.told L.config 3 (L.opened 3) r.0.p3 r.1.p3.sent turner.t3) }
        ensures fault { IfErr result (λ fault. (fault.seats.items ≡ seats.items)
            × AreUnsettled (record { granted = fault.granted; refused = fault.refused })
            (record { granted = fault.seats_granted; refused = fault.seats_refused }) seats.items) }
        ensures all { vec_len seats ≡ L.seats → IsOk result }
    {
        let Shared {
            alloc,
            t0,
            t1,
            t2,
            t3,
            desk,
        } = self;
        let mut desk = desk.into_inner();
        let sums = count_seats(seats.as_mut_slice(), &mut desk);
        if is_settled(&desk, sums) {
            let Turner {
                t0: mut book0,
                t1: mut book1,
                t2: mut book2,
                t3: mut book3,
            } = turner;
            return Ok(close_tables(
                t0.into_inner().into_table(&mut book0),
                t1.into_inner().into_table(&mut book1),
                t2.into_inner().into_table(&mut book2),
                t3.into_inner().into_table(&mut book3),
                desk,
            ));
        }
        Err(CloseFault {
            granted: desk.granted,
            refused: desk.refused,
            seats_granted: sums.0,
            seats_refused: sums.1,
            shared: Shared {
                alloc,
                t0,
                t1,
                t2,
                t3,
                desk: Mutex::new(desk),
            },
            seats,
        })
    }
}
