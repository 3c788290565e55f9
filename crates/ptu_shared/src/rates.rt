//! The ledger of rates: under the locks the shares of the four tables sum to the total of the book.

ghost use Rattle.std.specs.Prelude.{◌≡◌, ◌<◌, ◌+◌, ℕ, Bool, false};
ghost use Rattle.ptu_profile.specs.declared.grandmaster.GmConfig.{GmConfig};
ghost use Rattle.ptu_shared.specs.Opening.{Seen, sample_config, untold_port};

use std::marker::Brand;
use std::sync::ledger::{self, Ledger, Share};

/// The ledger of rates, which has four parts, one for each table. It names three numbers more,
/// whose messages the tables send, what their ports were like, and the ledgers of their turns.
/// Contracts alone see these.
pub trait Rates: Ledger {
    /// The capacity that is in force at first, in sixteenths of a message per second.
    ghost opening: { ℕ };

    /// The greatest capacity that may come into force, in sixteenths of a message per second.
    ghost most: { ℕ };

    /// How many seats there are. So many parts have the ledgers of verdicts.
    ghost seats: { ℕ };

    /// The configuration of the grandmaster whose messages the tables send.
    ghost config: { GmConfig };

    /// Whether another class of its Announces may be told.
    ghost told: { Bool };

    /// What is seen of the port of the table of each index when it is opened.
    ghost opened: { ℕ → Seen };

    /// The name of the ledger of turns of the table of each index.
    ghost turns: { ℕ → ℕ };
}

impl Rates for Brand {
    ghost opening = { 0 };

    ghost most = { 0 };

    ghost seats = { 0 };

    ghost config = { sample_config };

    ghost told = { false };

    ghost opened = { λ _. untold_port };

    ghost turns = { λ _. 0 };
}

// The share of a table went from the one to the other, and its part and the ledger's total go with
// it. Nothing else moves the ledger of rates.
pub(crate) fn move_rate<L: Ledger>(
    rates: &mut ledger::Book<L>,
    part: &mut Share<L>,
    before: u64,
    after: u64,
)
    requires parts { 0 < part.old.parts }
    requires amount { part.old.amount ≡ before }
    ensures parts { part.new.parts ≡ part.old.parts }
    ensures amount { part.new.amount ≡ after }
    ensures total { rates.new.total + before ≡ rates.old.total + after }
{
    rates.sub(part, before);
    rates.add(part, after);
}

// The amounts of four parts, which are all there are, sum to the ledger's total. The parts are as
// before; those after the first have the amounts that are handed in.
pub(crate) fn audit_parts<L: Ledger>(
    rates: &mut ledger::Book<L>,
    p0: &mut Share<L>,
    p1: &mut Share<L>,
    p2: &mut Share<L>,
    p3: &mut Share<L>,
    amounts: (u64, u64, u64),
)
    requires ledger { L.parts ≡ 4 }
    requires parts { (p0.old.parts ≡ 1) × (p1.old.parts ≡ 1) × (p2.old.parts ≡ 1)
        × (p3.old.parts ≡ 1) }
    requires amounts { (p1.old.amount ≡ amounts.0) × (p2.old.amount ≡ amounts.1)
        × (p3.old.amount ≡ amounts.2) }
    ensures total { rates.new.total ≡ rates.old.total }
    ensures sum { rates.old.total
        ≡ p0.old.amount + p1.old.amount + p2.old.amount + p3.old.amount }
    ensures parts { (p0.new.parts ≡ 1) × (p1.new.parts ≡ 1) × (p2.new.parts ≡ 1)
        × (p3.new.parts ≡ 1) }
    ensures amounts { (p0.new.amount ≡ p0.old.amount) × (p1.new.amount ≡ p1.old.amount)
        × (p2.new.amount ≡ p2.old.amount) × (p3.new.amount ≡ p3.old.amount) }
{
    p1.give(p0, 1, amounts.0);
    p2.give(p0, 1, amounts.1);
    p3.give(p0, 1, amounts.2);
    rates.audit(p0);
    p0.give(p1, 1, amounts.0);
    p0.give(p2, 1, amounts.1);
    p0.give(p3, 1, amounts.2);
}
