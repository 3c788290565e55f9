//! What holds of every judge that stands for a record. Each clause is a law of the definitions; the
//! body is empty.
ghost use Rattle.std.specs.Prelude.{◌≡◌, ℕ, Bool, false, List, [], ◌∷◌, ◌++◌, Option, None};
ghost use Rattle.std.specs.List.{AllByRecursion};
ghost use Rattle.ptu_record.specs.{declared.rule.Rule.{Rule}, Lists.{since_last}};
ghost use Rattle.ptu_record.specs.Record.{Entry, Record, Judge};
ghost use Rattle.ptu_record.specs.Judges.{is_judge, rule_given, told_flag, sync_number, rule_in_force};
ghost use Rattle.ptu_judges.specs.Held.{Held, StandsFor, IsFresh, IsStock};

/// Fresh judges, and entries that no judge is told of.
pub fn judges()
    // A fresh judge stands for each record in which a judge of its rule took over last: for the
    // empty one, and where it takes over now.
    ensures fresh { (opening : Option Rule) (L : Record) (held : Held) → IsFresh held →
        held.rule ≡ rule_in_force opening L → since_last is_judge L ≡ [] →
        StandsFor opening L held }
    ensures at_the_opening { (held : Held) → IsFresh held → StandsFor held.rule [] held }
    ensures takes_over { (opening : Option Rule) (L : Record) (t m : ℕ) (held : Held) →
        IsFresh held → StandsFor opening (L ++ Judge t m held.rule ∷ []) held }
    ensures others { (opening : Option Rule) (L : Record) (e : Entry) (held : Held) →
        is_judge e ≡ false → rule_given e ≡ None → told_flag e ≡ None → sync_number e ≡ None →
        StandsFor opening L held → StandsFor opening (L ++ e ∷ []) held }
    // A judge without a rule stands for a record by having none.
    ensures without_rule { (opening : Option Rule) (L : Record) (e : Entry) (old new : Held) →
        rule_given e ≡ None → old.rule ≡ None → new.rule ≡ None →
        StandsFor opening L old → StandsFor opening (L ++ e ∷ []) new }
    ensures stock { (flags gaps : List Held) → IsStock flags gaps →
        AllByRecursion IsFresh flags × AllByRecursion IsFresh gaps }
{}
