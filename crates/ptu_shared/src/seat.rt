//! Seats: each thread that asks has one, which counts what was granted and refused.

ghost use Rattle.std.specs.Prelude.{◌≡◌, ◌≤◌, ◌^◌};
ghost use Rattle.ptu_shared.specs.Seats.{no_verdicts};

use std::marker::Model;
use std::sync::ledger::{Ledger, Share};

/// From where a seat's amounts in the ledgers of verdicts count down.
pub(crate) const FULL: u64 = 1 << 56;

/// A place from which a thread asks. It counts the asks that were granted and those within the
/// profile that did not fit, and it has one part of each ledger of verdicts, whose amount is 2^56
/// less the count.
#[derive(Drop)]
pub struct Seat<G: Ledger, R: Ledger> {
    pub(crate) granted: u64,
    pub(crate) refused: u64,
    pub(crate) grants: Share<G>,
    pub(crate) refusals: Share<R>,
}

impl<G: Ledger, R: Ledger> Model for Seat<G, R> {
    ghost use Rattle.std.specs.Prelude.{◌≡◌, ◌+◌, ◌^◌};
    ghost use Rattle.ptu_shared.specs.Seats.{SeatCounts};

    ghost Value = { SeatCounts };

    ghost view = { λ s. record { granted = s.granted; refused = s.refused } };

    ghost invariant = { λ s. (s.grants.parts ≡ 1) × (s.refusals.parts ≡ 1)
        × (s.granted + s.grants.amount ≡ 2 ^ 56) × (s.refused + s.refusals.amount ≡ 2 ^ 56) };
}

impl<G: Ledger, R: Ledger> Seat<G, R> {
    // A seat that has counted nothing.
    pub(crate) fn new(grants: Share<G>, refusals: Share<R>) -> Seat<G, R>
        requires parts { (grants.parts ≡ 1) × (refusals.parts ≡ 1) }
        requires amounts { (grants.amount ≡ 2 ^ 56) × (refusals.amount ≡ 2 ^ 56) }
        ensures { result ≡ no_verdicts }
    {
        Seat {
            granted: 0,
            refused: 0,
            grants,
            refusals,
        }
    }

    /// How many of its asks were granted.
    pub fn granted(&self) -> u64
        ensures value { result ≡ self.now.granted }
        ensures below { result ≤ 2 ^ 56 }
    {
        self.granted
    }

    /// How many of its asks within the profile did not fit.
    pub fn refused(&self) -> u64
        ensures value { result ≡ self.now.refused }
        ensures below { result ≤ 2 ^ 56 }
    {
        self.refused
    }
}
