//! Small cases that the definitions compute. Each clause is one case; the bodies are empty.
ghost use Rattle.std.specs.Prelude.{◌≡◌, ◌*◌, ◌++◌, map, true, false, [], ◌∷◌, Some, None, pos, negsuc};
ghost use Rattle.ptu_units.specs.{declared.kind.Kind.{Kind}, Time.{second}};
ghost use Rattle.ptu_record.specs.declared.rule.Rule.TheVariants.{Flag, Gap};
ghost use Rattle.ptu_record.specs.Record.{record_of, moment_of, event_moment, Announce, Judged, Sync, Told, Judge, Asked, Granted, Denied, Cancelled, Probed, Signalled, Stopped, Event};
ghost use Rattle.ptu_record.specs.Judges.{AreAssessments, assessment, clear_places, positions, rule_in_force};
ghost use Rattle.ptu_record.specs.SignalFails.{is_waiting, loss_announce, loss_delay, loss_sync, outage_ends};
ghost use Rattle.ptu_record.specs.Tick.{Requests, Cancels, Acknowledgements, DelayReq, delay_req_number, is_probe_due, signaling_number};
ghost use Rattle.ptu_record.specs.Step.{GrantTlv, CancelTlv, AckTlv, TakeFollowUp, TakeSignaling, TakeSync, Tick, Stop, slave_step};
ghost use Rattle.ptu_record.specs.{Asks.{gate, is_due}, Grants.{is_live, live_kinds, run_start}};
ghost use Rattle.ptu_record.specs.Wants.{timeouts_of, wanted_kinds};
ghost use Rattle.ptu_record.specs.Examples.{announces_missing, syncs_missing, one_of_each, record_until, message_pair, slow_wants, restored_master, tied_masters, choice, gaps, replaced_judge, prompt_choice, plain_wants, ticked_record, answered_ask, denied_ask, measuring_wants, renewed_grant, second_grant, measured_choice, record_after, plain_setup, measuring_setup, measuring_at, tick_requests, six_asks, prompt_timeouts, two_judges};

/// Whose entries there are, and when.
pub fn records()
    ensures of_one_master { record_of 1
        (one_of_each 0 ++ one_of_each 1 ++ Stopped 13 ∷ Event 14 ∷ []) ≡
        one_of_each 1 ++ Stopped 13 ∷ [] }
    ensures moments { map moment_of (one_of_each 1 ++ Stopped 13 ∷ Event 14 ∷ []) ≡
        1 ∷ 2 ∷ 3 ∷ 4 ∷ 5 ∷ 6 ∷ 7 ∷ 8 ∷ 9 ∷ 10 ∷ 11 ∷ 12 ∷ 13 ∷ 14 ∷ [] }
    ensures moment { event_moment (answered_ask ++ Event (5 * second) ∷ []) (3 * second) ≡
        5 * second }
    ensures later_moment { event_moment answered_ask (3 * second) ≡ 3 * second }
{}

/// Loss of a master, the wait to restore after it, ties and QL-DNU, with timeouts of 48 s, 60 s of
/// waiting and two masters.
pub fn loss_and_restoration()
    ensures exactly_at_the_timeout { choice (1 ∷ 1 ∷ []) restored_master (48 * second) ≡ Some 0 }
    ensures again_at_the_timeout { choice (1 ∷ 1 ∷ []) restored_master (96 * second) ≡ Some 0 }
    ensures lost_a_nanosecond_later { choice (1 ∷ 1 ∷ []) restored_master 96000000001 ≡ Some 1 }
    ensures back_and_waiting { choice (1 ∷ 1 ∷ []) restored_master (100 * second) ≡ Some 1 }
    ensures waiting_to_the_last_nanosecond { choice (1 ∷ 1 ∷ []) restored_master 159999999999 ≡
        Some 1 }
    ensures restored_after_waiting { choice (1 ∷ 1 ∷ []) restored_master (160 * second) ≡ Some 0 }
    ensures outage_ended { outage_ends (timeouts_of measuring_wants 3 3 3 60)
        (record_of 0 restored_master) ≡
        100 * second ∷ 100 * second ∷ [] }
    ensures first_messages_end_no_outage { outage_ends (timeouts_of measuring_wants 3 3 3 60)
        (message_pair (500 * second) 0 84) ≡ [] }
    ensures syncs_missing_at_the_timeout { choice (1 ∷ []) syncs_missing (48 * second) ≡ Some 0 }
    ensures syncs_missing_too_long { choice (1 ∷ []) syncs_missing 48000000001 ≡ None }
    ensures announces_missing_at_the_timeout { choice (1 ∷ []) announces_missing (48 * second) ≡
        Some 0 }
    ensures announces_missing_too_long { choice (1 ∷ []) announces_missing 48000000001 ≡ None }
    ensures announces_are_lost_where_none_came { loss_announce
        (timeouts_of slow_wants 3 3 3 60) [] 0 ≡ true }
    ensures syncs_are_lost_apart { loss_sync (timeouts_of slow_wants 3 3 3 60)
        (Announce 0 0 84 ∷ []) 0 ≡ true }
    ensures quality_before_priority { choice (2 ∷ 1 ∷ []) restored_master (48 * second) ≡ Some 0 }
    ensures tie_by_place { choice (1 ∷ 1 ∷ []) tied_masters 0 ≡ Some 0 }
    ensures tie_by_priority { choice (2 ∷ 1 ∷ []) tied_masters 0 ≡ Some 1 }
    ensures unmapped_class { choice (1 ∷ []) (message_pair 0 0 6) 0 ≡ None }
    ensures do_not_use { choice (1 ∷ 1 ∷ []) tied_masters second ≡ None }
{}

/// A judge of gaps hears the Syncs 0, 5 and 3, bears three clear places and no more, and is
/// replaced; positions of other Syncs.
pub fn judges_of_gaps()
    ensures first_sync { prompt_choice gaps 0 ≡ Some 0 }
    ensures four_are_missing { clear_places (positions (0 ∷ 5 ∷ [])) ≡ 1 ∷ 2 ∷ 3 ∷ 4 ∷ [] }
    ensures unusable { prompt_choice gaps second ≡ None }
    ensures usable_again { prompt_choice gaps (2 * second) ≡ Some 0 }
    ensures one_came_late { clear_places (positions (0 ∷ 5 ∷ 3 ∷ [])) ≡ 1 ∷ 3 ∷ 4 ∷ [] }
    ensures late_before_the_first { clear_places (positions (0 ∷ 65535 ∷ 2 ∷ [])) ≡ 1 ∷ [] }
    ensures over_the_end { clear_places (positions (65534 ∷ 1 ∷ [])) ≡ 1 ∷ 2 ∷ [] }
    ensures too_far_back { clear_places (positions (20 ∷ 25 ∷ 9 ∷ [])) ≡ [] }
    ensures judge_replaced { prompt_choice replaced_judge second ≡ Some 0 }
    ensures new_rule { rule_in_force (Some (Gap 4)) replaced_judge ≡ Some Flag }
    ensures found_by_the_rule { AreAssessments (Some (Gap 4) ∷ [])
        (record_until second gaps) (0 ∷ []) (true ∷ []) }
    ensures operator_decides { assessment (Gap 16) (Told 0 0 true ∷ Sync 0 0 7 ∷ []) ≡ true }
    ensures a_new_judge_is_not_told { assessment Flag
        (Told 0 0 true ∷ Judge 0 0 (Some Flag) ∷ []) ≡ false }
{}

/// Timeouts, in nanoseconds, and what is requested, made out by hand.
pub fn configuration()
    ensures timeouts { timeouts_of
        (record { announce = pos 1; sync = negsuc 0; delay = Some (pos 0); seconds = 300 })
        2 5 10 60 ≡ record {
          announce = 4 * second;
          sync = 2500000000;
          delay = Some (10 * second);
          wait = 60 * second;
        } }
    ensures no_delay_timeout { (timeouts_of plain_wants 2 5 10 60).delay ≡ None }
    ensures two_kinds { wanted_kinds plain_wants ≡ Kind.Announce ∷ Kind.Sync ∷ [] }
    ensures three_kinds { wanted_kinds measuring_wants ≡
        Kind.Announce ∷ Kind.Sync ∷ Kind.DelayResp ∷ [] }
{}

/// Asks without an answer, after an answer and after a denial.
pub fn asks()
    ensures first_three { ticked_record (0 ∷ second ∷ 2 * second ∷ []) ≡
        Signalled 0 0 ∷ Asked 0 0 Kind.Announce ∷ Asked 0 0 Kind.Sync
        ∷ Signalled second 0 ∷ Asked second 0 Kind.Announce ∷ Asked second 0 Kind.Sync
        ∷ Signalled (2 * second) 0 ∷ Asked (2 * second) 0 Kind.Announce
        ∷ Asked (2 * second) 0 Kind.Sync ∷ [] }
    ensures a_minute_after_the_third { ticked_record
        (0 ∷ second ∷ 2 * second ∷ 3 * second ∷ 61999999999 ∷ []) ≡
        ticked_record (0 ∷ second ∷ 2 * second ∷ []) }
    ensures fourth { ticked_record (0 ∷ second ∷ 2 * second ∷ 62 * second ∷ []) ≡
        ticked_record (0 ∷ second ∷ 2 * second ∷ []) ++ Signalled (62 * second) 0
        ∷ Asked (62 * second) 0 Kind.Announce ∷ Asked (62 * second) 0 Kind.Sync ∷ [] }
    ensures fourth_number { signaling_number (ticked_record (0 ∷ second ∷ 2 * second ∷ [])) ≡ 3 }
    ensures asks_four_to_six { signaling_number (ticked_record six_asks) ≡ 6 }
    ensures a_minute_after_the_sixth { ticked_record (six_asks ++ 65 * second ∷ 123999999999 ∷ []) ≡
        ticked_record six_asks }
    ensures seventh { signaling_number (ticked_record (six_asks ++ 124 * second ∷ [])) ≡ 7 }
    ensures whole_tick { slave_step (plain_setup 1) [] 0 Tick ≡ record {
      entries = Judged 0 0 false ∷ Signalled 0 0 ∷ Asked 0 0 Kind.Announce ∷ Asked 0 0 Kind.Sync
          ∷ [];
      sendings = Requests 0 0 (Kind.Announce ∷ Kind.Sync ∷ []) ∷ [];
    } }
    ensures numbered { (slave_step (plain_setup 1) (ticked_record (0 ∷ second ∷ []))
        (2 * second) Tick).sendings ≡
        Requests 0 2 (Kind.Announce ∷ Kind.Sync ∷ []) ∷ [] }
    ensures before_half { is_due Kind.Announce answered_ask 150999999999 ≡ false }
    ensures half_of_the_duration { is_due Kind.Announce answered_ask (151 * second) ≡ true }
    ensures before_half_of_an_odd_duration { is_due Kind.Sync
        (Granted 0 0 Kind.Sync 61 ∷ []) 30499999999 ≡ false }
    ensures half_of_an_odd_duration { is_due Kind.Sync
        (Granted 0 0 Kind.Sync 61 ∷ []) 30500000000 ≡ true }
    ensures within_a_minute_of_a_denial { is_due Kind.Announce denied_ask 60999999999 ≡ false }
    ensures a_minute_after_a_denial { is_due Kind.Announce denied_ask (61 * second) ≡ true }
    ensures at_once { gate Kind.Sync answered_ask 0 ≡ 0 }
    ensures two_masters { tick_requests (plain_setup 2) answered_ask second ≡
        Signalled second 0 ∷ Asked second 0 Kind.Sync
        ∷ Signalled second 1 ∷ Asked second 1 Kind.Announce ∷ Asked second 1 Kind.Sync ∷ [] }
    ensures sent_to_two { (slave_step (plain_setup 2) answered_ask second Tick).sendings ≡
        Requests 0 0 (Kind.Sync ∷ []) ∷ Requests 1 0 (Kind.Announce ∷ Kind.Sync ∷ []) ∷ [] }
{}

/// The stop, and what comes after it.
pub fn stops()
    ensures stop_of_two { slave_step (plain_setup 2)
        (answered_ask ++ Granted second 1 Kind.Sync 60 ∷ []) (62 * second) Stop ≡
        record {
          entries = Signalled (62 * second) 0 ∷ Stopped (62 * second) ∷ [];
          sendings = Cancels 0 0 (Kind.Announce ∷ []) ∷ [];
        } }
    ensures delay_resp_of_the_second { slave_step (measuring_setup 2)
        (Signalled 0 1 ∷ Granted second 1 Kind.DelayResp 60 ∷ []) (2 * second) Stop ≡
        record {
          entries = Signalled (2 * second) 1 ∷ Stopped (2 * second) ∷ [];
          sendings = Cancels 1 1 (Kind.DelayResp ∷ []) ∷ [];
        } }
    ensures live_at_the_stop { live_kinds
        (answered_ask ++ Granted second 0 Kind.Sync 60 ∷ []) (60 * second) ≡
        Kind.Announce ∷ Kind.Sync ∷ [] }
    ensures nothing_after_the_stop { record_after (plain_setup 1) answered_ask
        ((2 * second, Stop) ∷ (400 * second, Tick) ∷ []) ≡ answered_ask ++ Signalled (2 * second) 0
        ∷ Stopped (2 * second) ∷ Judged (400 * second) 0 false ∷ [] }
{}

/// When a Delay_Req is sent: a period after the last one, and after the grant that found none live.
pub fn delay_requests()
    ensures not_at_once { is_probe_due measuring_wants renewed_grant 999999999 ≡ false }
    ensures after_a_period { is_probe_due measuring_wants renewed_grant second ≡ true }
    ensures a_renewal_goes_on { run_start Kind.DelayResp renewed_grant ≡ Some 0 }
    ensures after_a_cancel { is_live Kind.DelayResp
        (renewed_grant ++ Cancelled (40 * second) 0 Kind.DelayResp ∷ []) (40 * second) ≡ false }
    ensures a_new_run { run_start Kind.DelayResp second_grant ≡ Some (50 * second) }
    ensures not_at_once_in_a_new_run { is_probe_due measuring_wants second_grant 50999999999 ≡
        false }
    ensures a_period_into_a_new_run { is_probe_due measuring_wants second_grant (51 * second) ≡
        true }
    ensures not_without_a_grant { is_probe_due measuring_wants
        (renewed_grant ++ Cancelled (40 * second) 0 Kind.DelayResp ∷ []) (45 * second) ≡ false }
    ensures after_the_last_one { is_probe_due measuring_wants
        (second_grant ++ Probed (51 * second) 0 ∷ []) 51999999999 ≡ false }
    ensures one_a_period { is_probe_due measuring_wants
        (second_grant ++ Probed (51 * second) 0 ∷ []) (52 * second) ≡ true }
    ensures number { delay_req_number (second_grant ++ Probed (51 * second) 0 ∷ []) ≡ 1 }
    ensures after_the_asks { slave_step (measuring_setup 1) second_grant (51 * second) Tick ≡
        record {
          entries = Judged (51 * second) 0 false ∷ Signalled (51 * second) 0
              ∷ Asked (51 * second) 0 Kind.Announce
              ∷ Asked (51 * second) 0 Kind.Sync ∷ Probed (51 * second) 0 ∷ [];
          sendings = Requests 0 0 (Kind.Announce ∷ Kind.Sync ∷ []) ∷ DelayReq 0 0 ∷ [];
        } }
    ensures within_four_seconds { is_probe_due (measuring_at (pos 2)) renewed_grant 3999999999 ≡
        false }
    ensures after_four_seconds { is_probe_due (measuring_at (pos 2)) renewed_grant (4 * second) ≡
        true }
    ensures not_requested { is_probe_due plain_wants renewed_grant second ≡ false }
{}

/// A Delay_Resp that is lost once, with a timeout of 3 s for it and 60 s of waiting.
pub fn lost_delay_resp()
    ensures none_yet { measured_choice 0 ≡ None }
    ensures first_delay_resp { measured_choice second ≡ Some 0 }
    ensures exactly_at_the_timeout { measured_choice (4 * second) ≡ Some 0 }
    ensures lost_a_nanosecond_later { measured_choice 4000000001 ≡ None }
    ensures back_and_waiting { measured_choice (5 * second) ≡ None }
    ensures waiting_to_the_last_nanosecond { measured_choice 64999999999 ≡ None }
    ensures restored_after_waiting { measured_choice (65 * second) ≡ Some 0 }
    ensures no_loss_where_not_requested { loss_delay (timeouts_of plain_wants 3 3 3 60) [] 0 ≡
        false }
{}

/// Two timeouts that differ, and a judge after whom a master waits.
pub fn timeouts_and_judges()
    ensures announce_at_six_seconds { loss_announce prompt_timeouts (message_pair 0 0 84)
        (6 * second) ≡ false }
    ensures announce_after_six_seconds { loss_announce prompt_timeouts (message_pair 0 0 84)
        6000000001 ≡ true }
    ensures sync_at_three_seconds { loss_sync prompt_timeouts (message_pair 0 0 84) (3 * second) ≡
        false }
    ensures sync_after_three_seconds { loss_sync prompt_timeouts (message_pair 0 0 84) 3000000001 ≡
        true }
    ensures late_sync_alone { outage_ends prompt_timeouts
        (message_pair 0 0 84 ++ message_pair (5 * second) 0 84) ≡ 5 * second ∷ [] }
    ensures late_announce_too { outage_ends prompt_timeouts
        (message_pair 0 0 84 ++ message_pair (7 * second) 0 84) ≡ 7 * second ∷ 7 * second ∷ [] }
    ensures still_unusable { outage_ends prompt_timeouts
        (Judged 0 0 true ∷ Judged second 0 true ∷ []) ≡ [] }
    ensures usable_from_the_start { outage_ends prompt_timeouts (Judged second 0 false ∷ []) ≡ [] }
    ensures usable_again { outage_ends prompt_timeouts
        (Judged 0 0 true ∷ Judged second 0 true ∷ Judged (2 * second) 0 false ∷ []) ≡
        2 * second ∷ [] }
    ensures waiting_after_the_judge { is_waiting prompt_timeouts
        (Judged 0 0 true ∷ Judged (2 * second) 0 false ∷ []) 61999999999 ≡ true }
    ensures waited_after_the_judge { is_waiting prompt_timeouts
        (Judged 0 0 true ∷ Judged (2 * second) 0 false ∷ []) (62 * second) ≡ false }
{}

/// Events of which nothing else is entered, whose moments count; replies; and judges of two
/// masters.
pub fn events()
    ensures tick_without_masters { record_after (plain_setup 0) []
        ((5 * second, Tick) ∷ (3 * second, Tick) ∷ []) ≡
        Event (5 * second) ∷ Event (5 * second) ∷ [] }
    ensures follow_up { record_after (plain_setup 1) [] ((second, TakeFollowUp 0) ∷ []) ≡
        Event second ∷ [] }
    ensures nothing_counts { slave_step (plain_setup 1) [] second
        (TakeSignaling 0 7 (AckTlv 11 ∷ GrantTlv 9 60 ∷ [])) ≡
        record { entries = Event second ∷ []; sendings = [] } }
    ensures cancel_of_no_kind { slave_step (plain_setup 1) [] second
        (TakeSignaling 0 7 (CancelTlv 3 ∷ [])) ≡
        record { entries = Event second ∷ []; sendings = Acknowledgements 0 7 (3 ∷ []) ∷ [] } }
    ensures in_order { slave_step (plain_setup 2) [] second
        (TakeSignaling 1 7 (GrantTlv 11 60 ∷ CancelTlv 11 ∷ GrantTlv 0 0 ∷ CancelTlv 9 ∷ [])) ≡
        record {
          entries = Granted second 1 Kind.Announce 60 ∷ Cancelled second 1 Kind.Announce
              ∷ Denied second 1 Kind.Sync ∷ [];
          sendings = Acknowledgements 1 7 (11 ∷ 9 ∷ []) ∷ [];
        } }
    ensures each_judge_its_master { (slave_step (plain_setup 2)
        (Told 0 1 true ∷ Stopped 0 ∷ []) second Tick).entries ≡
        Judged second 0 false ∷ Judged second 1 true ∷ [] }
    ensures each_master_its_judge { record_after two_judges []
        ((0, TakeSync 0 0) ∷ (0, TakeSync 1 0) ∷ (second, TakeSync 0 5) ∷ (second, TakeSync 1 5)
        ∷ []) ≡
        Sync 0 0 0 ∷ Judged 0 0 false ∷ Sync 0 1 0 ∷ Judged 0 1 false
        ∷ Sync second 0 5 ∷ Judged second 0 false ∷ Sync second 1 5 ∷ Judged second 1 true ∷ [] }
{}
