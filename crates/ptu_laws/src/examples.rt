//! Short histories, on which the laws show. The function does nothing: its contract is the
//! examples.

ghost use Rattle.std.specs.Prelude.{◌≡◌, ℕ, ◌*◌, List, [], ◌∷◌, pos};
ghost use Rattle.ptu_units.specs.{declared.kind.Kind.TheVariants.{Announce, Sync}, Time.{second}};
ghost use Rattle.ptu_history.specs.History.{Granted, Ended, Capacity, Shed, Sent};
ghost use Rattle.ptu_history.specs.{Events.{Request, Resize}, Core.{core_history}};
ghost use Rattle.ptu_history.specs.Held.{budget, count, force, held};
ghost use Rattle.ptu_history.specs.Examples.{ask_of, config_of, first_client, lower_capacity, second_client, seconds, slower_renewal, sync_and_turns, third_client, turn_of_four, turns_of_two_tables};
ghost use Rattle.ptu_laws.specs.Served.{held_time, held_time_at, periods_sent, sent_at};
ghost use Rattle.ptu_laws.specs.Turned.{IsInEach, sent_moments, turn_moments};
ghost use Rattle.ptu_laws.specs.{Sound.{IsSound}, Examples.{just_missed, two_grants}};

/// What the laws say of short lists of events.
pub fn examples()
    // a Sync a second at capacity 16, with a turn at each whole second
    ensures budget_is_used_wholly { let after = core_history (config_of 16 300)
        (sync_and_turns (1 ∷ 2 ∷ 3 ∷ 4 ∷ 5 ∷ 6 ∷ 7 ∷ 8 ∷ 9 ∷ 10 ∷ [])) in
        count after (seconds 10) * (16 * second) ≡ budget 16 after (seconds 10) }
    ensures turns_backwards_send_one { let after = core_history (config_of 16 300)
        (sync_and_turns (10 ∷ 9 ∷ 8 ∷ 7 ∷ 6 ∷ 5 ∷ 4 ∷ 3 ∷ 2 ∷ 1 ∷ [])) in
        count after (seconds 10) ≡ 1 }
    ensures lower_capacity_sheds_the_newest { core_history (config_of 16 300)
        ((0, Request first_client (ask_of Announce (pos 1)))
        ∷ (seconds 1, Request second_client (ask_of Announce (pos 1))) ∷ (seconds 2, Resize 8) ∷ [])
        ≡ Granted 0 first_client Announce (pos 1) (seconds 300)
        ∷ Granted (seconds 1) second_client Announce (pos 1) (seconds 301)
        ∷ Capacity (seconds 2) 8 ∷ Shed (seconds 2) second_client Announce ∷ [] }
    ensures lower_capacity_is_held_wholly { let after = core_history
        (config_of 16 300) lower_capacity in
        held after (seconds 2) ≡ force 16 after (seconds 2) }
    // a second each, and then every two seconds
    ensures periods_of_each_grant { let after = core_history (config_of 16 300) slower_renewal in
        periods_sent after first_client Sync 3500000000 ≡ seconds 3 }
    ensures periods_before_the_message { let after = core_history (config_of 16 300)
        slower_renewal in
        periods_sent after first_client Sync 3499999999 ≡ seconds 1 }
    ensures messages_of_the_first_grant { let after = core_history (config_of 16 300)
        slower_renewal in
        sent_at after first_client Sync (pos 0) 3500000000 ≡ 1 }
    ensures messages_of_no_grant { let after = core_history (config_of 16 300) slower_renewal in
        sent_at after first_client Sync (pos 2) 3500000000 ≡ 0 }
    ensures messages_to_others_are_not_counted { let after = core_history
        (config_of 64 300) turn_of_four in
        periods_sent after first_client Sync (seconds 1) ≡ seconds 1 }
    ensures held_inside_grants { held_time two_grants first_client Sync 12 ≡ 6 }
    ensures held_up_to_the_moment { held_time two_grants first_client Sync 8 ≡ 5 }
    ensures held_at_the_first_rate { held_time_at two_grants first_client Sync (pos 0) 12 ≡ 3 }
    // a Sync a second, with a turn at each whole second
    ensures held_time_is_used_wholly { let after = core_history (config_of 16 300)
        (sync_and_turns (1 ∷ 2 ∷ 3 ∷ 4 ∷ 5 ∷ 6 ∷ 7 ∷ 8 ∷ 9 ∷ 10 ∷ [])) in
        periods_sent after first_client Sync (seconds 10)
        ≡ held_time after first_client Sync (seconds 10) }
    ensures turns_of_the_table { turn_moments (config_of 16 300) turns_of_two_tables 3
        ≡ seconds 5 ∷ [] }
    // the second turn is handed an earlier moment than that of the table
    ensures turns_as_they_are_taken { turn_moments (config_of 16 300)
        (sync_and_turns (10 ∷ 9 ∷ [])) 2 ≡ seconds 10 ∷ seconds 10 ∷ [] }
    ensures moments_of_its_messages { let after = core_history (config_of 64 300) turn_of_four in
        sent_moments after first_client Sync ≡ seconds 1 ∷ [] }
    ensures in_each_three { IsInEach 3 (2 ∷ 5 ∷ []) 0 6 }
    ensures not_in_each_three { ¬ IsInEach 3 (2 ∷ 6 ∷ []) 0 7 }
    ensures not_at_the_start { ¬ IsInEach 2 (2 ∷ 3 ∷ []) 0 4 }
    ensures in_each_from_the_start { IsInEach 2 (5 ∷ []) 4 6 }
    ensures in_each_up_to_the_end { IsInEach 2 (1 ∷ []) 0 3 }
    // no shorter stretch than a period and the time between turns is sure of a message
    ensures turns_each_second { IsInEach (seconds 1)
        (turn_moments (config_of 16 300) just_missed 2) 0 (seconds 2) }
    ensures message_just_before_two_seconds { let after = core_history (config_of 16 300)
        just_missed in
        ¬ IsInEach 1999999999 (sent_moments after first_client Sync) 0 (seconds 2) }
    // a decision behind a later message of another client of its table
    ensures sound_beside_another_client { IsSound 32
        (Granted 0 first_client Sync (pos 0) (seconds 300)
        ∷ Granted 0 third_client Sync (pos 0) (seconds 300) ∷ Sent (seconds 2) third_client Sync
        ∷ Ended (seconds 1) first_client Sync ∷ []) }
    ensures decision_behind_its_own_message { ¬ IsSound 32
        (Granted 0 first_client Sync (pos 0) (seconds 300) ∷ Sent (seconds 2) first_client Sync
        ∷ Ended (seconds 1) first_client Sync ∷ []) }
    ensures message_without_a_grant { ¬ IsSound 32 (Sent 0 first_client Sync ∷ []) }
    ensures change_that_leaves_too_much { ¬ IsSound 16
        (Granted 0 first_client Sync (pos 0) (seconds 300) ∷ Capacity (seconds 1) 8 ∷ []) }
{}
