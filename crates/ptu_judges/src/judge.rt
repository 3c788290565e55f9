//! The trait of a judge, and the relations by which a contract says which calls a judge got.

ghost use Rattle.std.specs.Prelude.{◌≡◌, ℕ, Bool};
ghost use Rattle.ptu_record.specs.Record.{Sync, Told, Judged};
ghost use Rattle.ptu_judges.specs.Held.{Enters, Finds, Held};

use ptu_record::Rule;
use ptu_units::Moment;

/// What the calls of a judge make of it, as relations of the judge before a call and after it.
pub trait Conduct {
    /// What a Sync makes of it: the moment and the sequenceId.
    ghost hears: { Self → ℕ → ℕ → Self → Type 0 };

    /// What the operator's word makes of it.
    ghost is_told: { Self → ℕ → Bool → Self → Type 0 };

    /// What it may find at a moment, and what the question makes of it.
    ghost finds: { Self → ℕ → Bool → Self → Type 0 };
}

/// Who finds whether a master is unusable. A judge that has a rule finds what its rule says; of one
/// that has none, only its answers are known. No call changes the rule.
pub trait Judge: Conduct + Drop {
    /// What it keeps of the record of its master.
    ghost held: { Self → Held };

    /// Its rule, where it has one.
    fn rule(&self) -> Option<Rule>
        ensures { result ≡ (held self.now).rule };

    /// A Sync with this sequenceId was accepted from its master.
    fn heard(&mut self, t: Moment, seq: u16)
        ensures hears { Self.hears self.old t seq self.new }
        ensures stands { Enters (λ m. Sync t m seq) (held self.old) (held self.new) }
        ensures rule { (held self.new).rule ≡ (held self.old).rule };

    /// The operator said that its master is unusable, or that it is not.
    fn told(&mut self, t: Moment, unusable: bool)
        ensures told { Self.is_told self.old t unusable self.new }
        ensures stands { Enters (λ m. Told t m unusable) (held self.old) (held self.new) }
        ensures rule { (held self.new).rule ≡ (held self.old).rule };

    /// Whether its master is unusable.
    fn assess(&mut self, t: Moment) -> bool
        ensures finds { Self.finds self.old t result self.new }
        ensures assessed { Finds result (held self.old) }
        ensures stands { Enters (λ m. Judged t m result) (held self.old) (held self.new) }
        ensures rule { (held self.new).rule ≡ (held self.old).rule };
}
