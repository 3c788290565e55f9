//! Histories of a table that were made out by hand. The function does nothing: its contract is the
//! examples.

ghost use Rattle.std.specs.Prelude.{◌≡◌, [], ◌∷◌, false, pos};
ghost use Rattle.ptu_units.specs.declared.kind.Kind.TheVariants.{Sync};
ghost use Rattle.ptu_history.specs.History.{Granted, Ended, Looked, Sent};
ghost use Rattle.ptu_history.specs.Examples.{first_client, second_client, seconds};
ghost use Rattle.ptu_shard.specs.Messages.{departure_of};
ghost use Rattle.ptu_shared.specs.Histories.{AllMayFollow, AreMessages};
ghost use Rattle.ptu_shared.specs.Opening.{sample_config};

/// What may stand in the history of table 2, which has the first client, and what may not.
pub fn sample_histories()
    ensures message_each_second { AllMayFollow 2 []
        (Granted 0 first_client Sync (pos 0) (seconds 300)
        ∷ Looked (seconds 1) 2 ∷ Sent (seconds 1) first_client Sync
        ∷ Sent (seconds 2) first_client Sync ∷ []) }
    ensures message_too_soon { ¬ AllMayFollow 2 []
        (Granted 0 first_client Sync (pos 0) (seconds 300) ∷ Sent (seconds 1) first_client Sync
        ∷ Sent 1999999999 first_client Sync ∷ []) }
    ensures message_of_no_grant { ¬ AllMayFollow 2 [] (Sent (seconds 1) first_client Sync ∷ []) }
    ensures message_behind_a_cancel { ¬ AllMayFollow 2 []
        (Granted 0 first_client Sync (pos 0) (seconds 300) ∷ Ended (seconds 1) first_client Sync
        ∷ Sent (seconds 2) first_client Sync ∷ []) }
    ensures message_at_its_end { ¬ AllMayFollow 2 []
        (Granted 0 first_client Sync (pos 0) (seconds 60) ∷ Sent (seconds 60) first_client Sync
        ∷ []) }
    ensures grant_of_another_table { ¬ AllMayFollow 2 []
        (Granted 0 second_client Sync (pos 0) (seconds 300) ∷ []) }
    ensures look_at_another_table { ¬ AllMayFollow 2 [] (Looked 0 3 ∷ []) }
    ensures cancel_before_its_message { ¬ AllMayFollow 2 []
        (Granted 0 first_client Sync (pos 0) (seconds 300) ∷ Sent (seconds 2) first_client Sync
        ∷ Ended (seconds 1) first_client Sync ∷ []) }
    ensures numbers_from_0 { AreMessages false sample_config []
        (Granted 0 first_client Sync (pos 0) (seconds 300) ∷ Sent (seconds 1) first_client Sync
        ∷ Sent (seconds 2) first_client Sync ∷ [])
        (departure_of sample_config (seconds 1)
        (record { client = first_client; kind = Sync; sequence = 0 })
        ∷ departure_of sample_config (seconds 2)
        (record { client = first_client; kind = Sync; sequence = 1 }) ∷ []) }
    ensures no_message_is_left_out { ¬ AreMessages false sample_config []
        (Sent (seconds 1) first_client Sync ∷ []) [] }
{}
