//! What holds of pairs, and of what is observable at a two-step port. Each function does nothing:
//! its contract is the law.

ghost use Rattle.std.specs.Prelude.{◌≡◌, ◌++◌, ◌∷◌, [], Bool, false, List, Option, Some, option_map};
ghost use Rattle.std.specs.List.{AllByRecursion};
ghost use Rattle.ptu_outside.specs.{Departure.{Departure}, Telling.{IfTold, append_told}};
ghost use Rattle.ptu_daemon.specs.Pairs.{all_spelled, pair, pairs, step_at, unpair};
ghost use Rattle.ptu_daemon.specs.Telling.{is_half, told_by};

/// What is told of a list spells that list, so no two lists are told alike; pairs of datagrams of
/// which none is a half are told as these.
pub fn is_whole_where_read()
    ensures spelled { (sent told : List Departure) → unpair sent ≡ Some told →
        sent ≡ all_spelled told }
    ensures one_more { (sent : List Departure) (d : Departure) → is_half (step_at d) ≡ false
        → unpair (sent ++ pair d) ≡ option_map (λ told. told ++ d ∷ []) (unpair sent) }
{}

/// If it is observable that a two-step port was sent these more, of which none is a half, the port
/// below was sent their pairs.
pub fn sent_in_pairs()
    ensures { (old new : Option (List Departure)) (flag flag' : Bool) (more told : List Departure) →
        AllByRecursion (λ d. is_half (step_at d) ≡ false) more
        → told_by flag' new ≡ Some told
        → IfTold (told_by flag' new) (append_told (told_by flag old) more)
        → new ≡ append_told old (pairs more) }
{}
