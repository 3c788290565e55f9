//! Who may turn which table. Each table has a ledger of one part: its book is with the one who may
//! turn the table, and its share stands behind the table's lock. So who has the book knows how
//! often the table was turned, and nobody else can turn it.

ghost use Rattle.std.specs.Prelude.{◌≡◌, ◌<◌, ◌≤◌, ◌==◌, IfSome, None, false, if◌then◌else◌, is_some, option_map};
ghost use Rattle.ptu_shared.specs.Turning.{both_turns, no_turns, own_turns, turns_of};

use crate::place::{First, Fourth, Place, Second, Third};
use crate::rates::Rates;
use std::marker::{Model, PhantomData};
use std::sync::ledger::{Book, Ledger, Share};

// The ledger of the turns of the table at the place J.
#[derive(Drop)]
pub(crate) struct TurnsOf<L: Rates, J: Place> {
    place: PhantomData<(L, J)>,
}

impl<L: Rates, J: Place> Ledger for TurnsOf<L, J> {
    ghost name = { L.turns J.index };

    ghost parts = { 1 };
}

// The book of the ledger of turns of the table at the place J, for who may turn it.
pub(crate) type TurnBook<L, J> = Option<Book<TurnsOf<L, J>>>;

// What the share's amount is, where the book is known.
pub(crate) fn audit_turns<L: Rates, J: Place>(
    book: &mut TurnBook<L, J>,
    turned: &mut Share<TurnsOf<L, J>>,
)
    requires { turned.old.parts ≡ 1 }
    ensures { IfSome (option_map (λ b. b.total) book.old) (λ n. turned.old.amount ≡ n) }
{
    if let Some(book) = book {
        book.audit(turned);
    }
}

/// The right to turn some of the four tables. Nobody else may turn these.
#[derive(Drop)]
pub struct Turner<L: Rates> {
    pub(crate) t0: TurnBook<L, First>,
    pub(crate) t1: TurnBook<L, Second>,
    pub(crate) t2: TurnBook<L, Third>,
    pub(crate) t3: TurnBook<L, Fourth>,
}

impl<L: Rates> Model for Turner<L> {
    ghost use Rattle.std.specs.Prelude.{option_map};
    ghost use Rattle.ptu_shared.specs.Turning.{Turns};

    ghost Value = { Turns };

    ghost view = { λ t. record {
      t0 = option_map (λ b. b.total) t.t0;
      t1 = option_map (λ b. b.total) t.t1;
      t2 = option_map (λ b. b.total) t.t2;
      t3 = option_map (λ b. b.total) t.t3;
    } };
}

/// The rights of four lanes.
#[derive(Drop)]
pub struct Turners<L: Rates> {
    /// The rights of lane 0.
    pub first: Turner<L>,
    /// The rights of lane 1.
    pub second: Turner<L>,
    /// The rights of lane 2.
    pub third: Turner<L>,
    /// The rights of lane 3.
    pub fourth: Turner<L>,
}

// What four lanes have, one of which has it.
#[derive(Drop)]
struct Dealt<T: Drop> {
    first: Option<T>,
    second: Option<T>,
    third: Option<T>,
    fourth: Option<T>,
}

// Gives it to the lane of this number.
fn deal<T: Drop>(one: Option<T>, lane: usize) -> Dealt<T>
    ensures first { result.first ≡ (if lane == 0 then one else None) }
    ensures second { result.second ≡ (if lane == 1 then one else None) }
    ensures third { result.third ≡ (if lane == 2 then one else None) }
    ensures fourth { result.fourth ≡ (if lane == 3 then one else None) }
{
    let mut dealt = Dealt {
        first: None,
        second: None,
        third: None,
        fourth: None,
    };
    match lane {
        0 => dealt.first = one,
        1 => dealt.second = one,
        2 => dealt.third = one,
        3 => dealt.fourth = one,
        _ => {}
    }
    dealt
}

impl<L: Rates> Turner<L> {
    /// The right to turn no table.
    pub fn none() -> Turner<L>
        ensures { result ≡ no_turns }
    {
        Turner {
            t0: None,
            t1: None,
            t2: None,
            t3: None,
        }
    }

    /// Whether it has the right to turn the table of this index.
    pub fn may_turn(&self, table: usize) -> bool
        requires { table < 4 }
        ensures { result ≡ is_some (turns_of table self.now) }
    {
        match table {
            0 => self.t0.is_some(),
            1 => self.t1.is_some(),
            2 => self.t2.is_some(),
            _ => self.t3.is_some(),
        }
    }

    /// Whether it has the right to turn some table.
    pub fn may_turn_any(&self) -> bool
        ensures { result ≡ false → self.now ≡ no_turns }
    {
        self.t0.is_some() || self.t1.is_some() || self.t2.is_some() || self.t3.is_some()
    }

    /// Gives the right to turn the table `j` to the lane `j` mod `lanes`, of so many lanes.
    pub fn share_out(self, lanes: usize) -> Turners<L>
        requires { (1 ≤ lanes) × (lanes ≤ 4) }
        ensures first { result.first ≡ own_turns lanes 0 self }
        ensures second { result.second ≡ own_turns lanes 1 self }
        ensures third { result.third ≡ own_turns lanes 2 self }
        ensures fourth { result.fourth ≡ own_turns lanes 3 self }
    {
        let Turner { t0, t1, t2, t3 } = self;
        let t0 = deal(t0, 0);
        let t1 = deal(t1, 1 % lanes);
        let t2 = deal(t2, 2 % lanes);
        let t3 = deal(t3, 3 % lanes);
        Turners {
            first: Turner {
                t0: t0.first,
                t1: t1.first,
                t2: t2.first,
                t3: t3.first,
            },
            second: Turner {
                t0: t0.second,
                t1: t1.second,
                t2: t2.second,
                t3: t3.second,
            },
            third: Turner {
                t0: t0.third,
                t1: t1.third,
                t2: t2.third,
                t3: t3.third,
            },
            fourth: Turner {
                t0: t0.fourth,
                t1: t1.fourth,
                t2: t2.fourth,
                t3: t3.fourth,
            },
        }
    }

    /// The right to turn the tables of both.
    pub fn and(self, other: Turner<L>) -> Turner<L>
        ensures { result ≡ both_turns self other }
    {
        let Turner { t0, t1, t2, t3 } = self;
        Turner {
            t0: t0.or(other.t0),
            t1: t1.or(other.t1),
            t2: t2.or(other.t2),
            t3: t3.or(other.t3),
        }
    }
}
