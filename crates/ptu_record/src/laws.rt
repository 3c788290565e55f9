//! What holds of every record. Each clause is a law of the definitions; the bodies are empty.
//!
//! The laws on one entry more say what a few kept moments, counts and marks become, so that code
//! may keep these in place of the record.
ghost use Rattle.std.specs.Prelude.{◌≡◌, ◌≢◌, ◌↔◌, ℕ, ◌+◌, ◌-◌, ◌*◌, ◌%◌, ◌<◌, ◌≤◌, max, Bool, true, false, cond, not, List, [], ◌∷◌, ◌++◌, length, map, flat_map, Option, Some, None, is_some, IsSome, IsTrue, unwrap_or, option_map, option_to_list, filter_map, fold, ◌&&◌, ◌||◌, ◌==◌, nat_lt, nat_le, ℤ};
ghost use Rattle.std.specs.List.{list_all, list_any, AllByRecursion};
ghost use Rattle.ptu_units.specs.{Log.{period_of}, declared.kind.Kind.{Kind}, Time.{second}};
ghost use Rattle.ptu_record.specs.declared.rule.Rule.TheVariants.{Gap};
ghost use Rattle.ptu_record.specs.Marks.{clear_count, fresh_marks, marks_after, marks_of};
ghost use Rattle.ptu_record.specs.{declared.quality.Quality.{Quality}, declared.rule.Rule.{Rule}};
ghost use Rattle.ptu_record.specs.declared.wants.Wants.{Wants};
ghost use Rattle.ptu_record.specs.Lists.{last, maximum, latest_of, later_of, newest_of};
ghost use Rattle.ptu_record.specs.Quality.{class_of, is_usable, level_of};
ghost use Rattle.ptu_record.specs.Record.{Entry, Record, record_of, concerns, moment_of, event_moment, Asked, Granted, Denied, Cancelled, Stopped};
ghost use Rattle.ptu_record.specs.Judges.{IsAssessment, assessment, clear_places, distance, flag, is_clear, is_judge, numbers, positions, rule_given, rule_in_force, sync_number, told_flag};
ghost use Rattle.ptu_record.specs.SignalFails.{Timeouts, announce_moment, announced_class, announces, is_lost, is_unusable, is_waiting, judgement, judgements, outage_ends, resp_moment, resps, sync_moment, syncs};
ghost use Rattle.ptu_record.specs.OutageEnds.{end_at, is_within};
ghost use Rattle.ptu_record.specs.Selection.{IsBest, IsSelected, is_better, is_candidate, level, selected_master};
ghost use Rattle.ptu_record.specs.Asks.{ask_moment, gate, gates, is_answer, is_due, open_asks, refusal_moment, refusals};
ghost use Rattle.ptu_record.specs.Kept.{gate_at, kind_state, kind_state_after};
ghost use Rattle.ptu_record.specs.Tick.{cancels_to, delay_req_number, is_probe_due, is_probed, is_signalled, is_stop, probe_gate, probe_moment, probes, requests_to, sending_entries, signaling_number, tick_sendings};
ghost use Rattle.ptu_record.specs.Wants.{is_kind};
ghost use Rattle.ptu_record.specs.Grants.{grant, grant_change, is_live, live_kinds, run_start};

/// The moment of an event, and the record of one master.
#[tactic(auto, using(crate::proofs::Others::others))]
pub fn records()
    ensures not_before { (L : Record) (t : ℕ) → t ≤ event_moment L t }
    ensures not_before_an_entry { (L M : Record) (e : Entry) (t : ℕ) →
        moment_of e ≤ event_moment (L ++ e ∷ M) t }
    ensures moment_more { (L : Record) (e : Entry) (t : ℕ) →
        event_moment (L ++ e ∷ []) t ≡ max (moment_of e) (event_moment L t) }
    // But for the stop, an entry concerns one master at most.
    ensures one_master { (m n : ℕ) (e : Entry) →
        concerns m e ≡ true → concerns n e ≡ true → is_stop e ≡ false → m ≡ n }
    ensures stop_of_all { (m at : ℕ) → concerns m (Stopped at) ≡ true }
    ensures stopped_everywhere { (k : Kind) (m : ℕ) (L : Record) (at t : ℕ) →
        is_live k (record_of m (L ++ Stopped at ∷ [])) t ≡ false }
    ensures own_more { (m : ℕ) (L : Record) (e : Entry) →
        record_of m (L ++ e ∷ []) ≡ cond (concerns m e) (record_of m L ++ e ∷ []) (record_of m L) }
    // Entries of other masters change nothing of a master, wherever they stand.
    ensures others { (m : ℕ) (L M : Record) (e : Entry) →
        concerns m e ≡ false → record_of m (L ++ e ∷ M) ≡ record_of m (L ++ M) }
    ensures other_list { (m : ℕ) (L M : Record) →
        AllByRecursion (λ e. concerns m e ≡ false) M → record_of m (L ++ M) ≡ record_of m L }
    // What a tick or the stop sends to one master concerns no other.
    ensures requests_concern_one { (wants : Wants) (m n : ℕ) (L : Record) (t : ℕ) → m ≢ n →
        AllByRecursion (λ e. concerns m e ≡ false)
        (flat_map (sending_entries t) (requests_to wants L t n)) }
    ensures cancels_concern_one { (m n : ℕ) (L : Record) (t : ℕ) → m ≢ n →
        AllByRecursion (λ e. concerns m e ≡ false)
        (flat_map (sending_entries t) (cancels_to L t n)) }
    ensures others_candidate { (timeouts : Timeouts) (m : ℕ) (L M : Record) (e : Entry) (t : ℕ) →
        concerns m e ≡ false → is_candidate timeouts (L ++ e ∷ M) t m ≡
        is_candidate timeouts (L ++ M) t m }
    ensures others_sent { (wants : Wants) (m : ℕ) (L M : Record) (e : Entry) (t : ℕ) →
        concerns m e ≡ false → requests_to wants (L ++ e ∷ M) t m ≡ requests_to wants (L ++ M) t m }
{}

/// The choice of a master.
pub fn selection()
    // What is computed is the choice, and there is one choice alone.
    ensures selected { (timeouts : Timeouts) (priorities : List ℕ) (L : Record) (t : ℕ) →
        IsSelected timeouts priorities L t (selected_master timeouts priorities L t) }
    ensures one_choice { (timeouts : Timeouts) (priorities : List ℕ) (L : Record) (t : ℕ)
        (a b : Option ℕ) →
        IsSelected timeouts priorities L t a → IsSelected timeouts priorities L t b → a ≡ b }
    ensures one_master { (timeouts : Timeouts) (priorities : List ℕ) (L : Record) (t m n : ℕ) →
        IsBest timeouts priorities L t m → IsBest timeouts priorities L t n → m ≡ n }
    // A selected master is eligible, and no eligible one is better.
    ensures eligible { (timeouts : Timeouts) (priorities : List ℕ) (L : Record) (t m : ℕ) →
        selected_master timeouts priorities L t ≡ Some m → IsTrue (is_candidate timeouts L t m) }
    ensures none_better { (timeouts : Timeouts) (priorities : List ℕ) (L : Record) (t m n : ℕ) →
        selected_master timeouts priorities L t ≡ Some m → n < length priorities →
        IsTrue (is_candidate timeouts L t n) → is_better priorities L n m ≡ false }
    // None is selected exactly where none is eligible.
    ensures none { (timeouts : Timeouts) (priorities : List ℕ) (L : Record) (t : ℕ) →
        (selected_master timeouts priorities L t ≡ None) ↔ ((m : ℕ) → m < length priorities →
        is_candidate timeouts L t m ≡ false) }
    // The choice changes only where a candidate or a level does, whatever else the records and
    // moments are.
    ensures same_choice { (timeouts : Timeouts) (priorities : List ℕ) (L M : Record) (t u : ℕ) →
        ((m : ℕ) → m < length priorities → is_candidate timeouts L t m ≡
        is_candidate timeouts M u m) →
        ((m : ℕ) → m < length priorities → level L m ≡ level M m) →
        selected_master timeouts priorities L t ≡ selected_master timeouts priorities M u }
    // Better is a strict order in which any two masters compare.
    ensures not_better_than_itself { (priorities : List ℕ) (L : Record) (m : ℕ) →
        is_better priorities L m m ≡ false }
    ensures better_than_better { (priorities : List ℕ) (L : Record) (m n o : ℕ) →
        is_better priorities L m n ≡ true → is_better priorities L n o ≡ true →
        is_better priorities L m o ≡ true }
    ensures one_is_better { (priorities : List ℕ) (L : Record) (m n : ℕ) →
        is_better priorities L m n ≡ false → is_better priorities L n m ≡ false → m ≡ n }
    ensures levels { (level : Quality) → level_of (class_of level) ≡ Some level }
    // Of all classes these four alone may be selected.
    ensures usable_classes { (class : ℕ) → is_usable (level_of class) ≡
        ((class == 84) || (class == 90) || (class == 96) || (class == 104)) }
{}

/// The record of one master with one entry more: the last messages, and the last outage end.
pub fn signal_fails()
    ensures announce_more { (L : Record) (e : Entry) →
        last (announces (L ++ e ∷ [])) ≡ newest_of (announce_moment e) (last (announces L)) }
    ensures class_more { (L : Record) (e : Entry) →
        last (filter_map announced_class (L ++ e ∷ [])) ≡
        newest_of (announced_class e) (last (filter_map announced_class L)) }
    ensures sync_more { (L : Record) (e : Entry) →
        last (syncs (L ++ e ∷ [])) ≡ newest_of (sync_moment e) (last (syncs L)) }
    ensures resp_more { (L : Record) (e : Entry) →
        last (resps (L ++ e ∷ [])) ≡ newest_of (resp_moment e) (last (resps L)) }
    ensures judged_more { (L : Record) (e : Entry) →
        last (judgements (L ++ e ∷ [])) ≡ newest_of (judgement e) (last (judgements L)) }
    ensures unusable_more { (L : Record) (e : Entry) →
        is_unusable (L ++ e ∷ []) ≡
        unwrap_or (option_map (λ j. j.1) (judgement e)) (is_unusable L) }
    ensures end_more { (timeouts : Timeouts) (L : Record) (e : Entry) →
        latest_of (outage_ends timeouts (L ++ e ∷ [])) ≡
        later_of (latest_of (outage_ends timeouts L)) (end_at timeouts L e) }
    // The newest end is kept as the greatest, which it is where moments do not fall.
    ensures end_is_there { (ends : List ℕ) (end : ℕ) → latest_of ends ≡ Some end →
        IsTrue (list_any (λ g. g == end) ends) }
    ensures end_is_greatest { (ends : List ℕ) (end : ℕ) → latest_of ends ≡ Some end →
        IsTrue (list_all (λ g. nat_le g end) ends) }
    ensures end_in_order { (timeouts : Timeouts) (L : Record) (e : Entry) →
        maximum (map moment_of L) ≤ moment_of e → latest_of (outage_ends timeouts (L ++ e ∷ [])) ≡
        newest_of (end_at timeouts L e) (latest_of (outage_ends timeouts L)) }
    // A master is waiting exactly where its last outage end is less than the wait to restore ago.
    ensures waiting { (timeouts : Timeouts) (L : Record) (t : ℕ) →
        is_waiting timeouts L t ≡ is_within timeouts.wait t (latest_of (outage_ends timeouts L)) }
    // A loss stays until a message comes, and a waiting that is over stays over until an outage
    // ends.
    ensures loss_stays { (timeout t u : ℕ) (at : Option ℕ) → t ≤ u → is_lost timeout t at ≡ true →
        is_lost timeout u at ≡ true }
    ensures over_stays { (timeouts : Timeouts) (L : Record) (t u : ℕ) →
        t ≤ u → is_waiting timeouts L t ≡ false → is_waiting timeouts L u ≡ false }
{}

/// A judge with one entry of its master more.
pub fn judges()
    ensures numbers_more { (L : Record) (e : Entry) →
        numbers (L ++ e ∷ []) ≡ cond (is_judge e) [] (numbers L ++ option_to_list (sync_number e)) }
    ensures flag_more { (L : Record) (e : Entry) →
        flag (L ++ e ∷ []) ≡ cond (is_judge e) false (unwrap_or (told_flag e) (flag L)) }
    ensures rule_more { (opening : Option Rule) (L : Record) (e : Entry) →
        rule_in_force opening (L ++ e ∷ []) ≡ unwrap_or (rule_given e) (rule_in_force opening L) }
    // A judge of a rule finds what the rule says and nothing else, and another judge may find
    // anything.
    ensures ruled { (opening : Option Rule) (rule : Rule) (L : Record) →
        rule_in_force opening L ≡ Some rule → IsAssessment opening L (assessment rule L) }
    ensures one_assessment { (opening : Option Rule) (rule : Rule) (L : Record) (unusable : Bool) →
        rule_in_force opening L ≡ Some rule → IsAssessment opening L unusable → unusable ≡
        assessment rule L }
    ensures any_assessment { (opening : Option Rule) (L : Record) (unusable : Bool) →
        rule_in_force opening L ≡ None → IsAssessment opening L unusable }
{}

/// The clear places, as sixteen marks show them that move up with the greatest position.
pub fn marks()
    // Sixteen marks, moved by each number in turn, show the clear places of the positions of all.
    ensures moved { (ns : List ℕ) → AllByRecursion (λ n. n < 65536) ns →
        fold marks_after fresh_marks ns ≡ marks_of (positions ns) }
    ensures one_more { (ns : List ℕ) (number : ℕ) → number < 65536 →
        marks_of (positions (ns ++ number ∷ [])) ≡ marks_after (marks_of (positions ns)) number }
    ensures clear_count { (ns : List ℕ) →
        clear_count (marks_of (positions ns)) ≡ length (clear_places (positions ns)) }
    ensures assessment { (n : ℕ) (L : Record) →
        assessment (Gap n) L ≡
        (flag L || nat_le n (clear_count (marks_of (positions (numbers L))))) }
{}

/// The clear places and the number at the greatest position after one Sync more, place by place.
pub fn one_sync_more()
    ensures none { (i : ℕ) → is_clear (positions []) i ≡ false }
    ensures first { (number i : ℕ) → is_clear (positions (number ∷ [])) i ≡ false }
    // The place of the greatest position is never clear.
    ensures top { (ns : List ℕ) → is_clear (positions ns) 0 ≡ false }
    // A number that the greatest position has changes nothing.
    ensures again { (ns : List ℕ) (number i : ℕ) → ns ≢ [] →
        distance (maximum (positions ns)) number ≡ 0 →
        is_clear (positions (ns ++ number ∷ [])) i ≡ is_clear (positions ns) i }
    // Up to 32767 ahead: the places move up by so much, and those that open are clear.
    ensures ahead { (ns : List ℕ) (number i d : ℕ) → ns ≢ [] →
        distance (maximum (positions ns)) number ≡ d →
        d ≤ 32767 →
        is_clear (positions (ns ++ number ∷ [])) i ≡
        cond (i == 0) false (cond (nat_lt i d) true (is_clear (positions ns) (i - d))) }
    // Up to 15 behind: the place of the number is no longer clear.
    ensures behind { (ns : List ℕ) (number i b : ℕ) → ns ≢ [] →
        distance (maximum (positions ns)) number + b ≡ 65536 → b ≤ 15 →
        is_clear (positions (ns ++ number ∷ [])) i ≡
        cond (i == b) false (is_clear (positions ns) i) }
    // Else all is forgotten, and nothing is clear.
    ensures forgotten { (ns : List ℕ) (number i : ℕ) → ns ≢ [] →
        32767 < distance (maximum (positions ns)) number →
        distance (maximum (positions ns)) number < 65521 →
        is_clear (positions (ns ++ number ∷ [])) i ≡ false }
    // The number at the greatest position, which is all that the next distance needs.
    ensures ahead_of_number { (top number : ℕ) → distance top number ≡
        distance (top % 65536) number }
    ensures top_first { (number : ℕ) → number < 65536 →
        maximum (positions (number ∷ [])) % 65536 ≡ number }
    ensures top_ahead { (ns : List ℕ) (number : ℕ) → ns ≢ [] → number < 65536 →
        distance (maximum (positions ns)) number ≤ 32767 →
        maximum (positions (ns ++ number ∷ [])) % 65536 ≡ number }
    ensures top_behind { (ns : List ℕ) (number : ℕ) → ns ≢ [] →
        65521 ≤ distance (maximum (positions ns)) number →
        maximum (positions (ns ++ number ∷ [])) ≡ maximum (positions ns) }
    ensures top_forgotten { (ns : List ℕ) (number : ℕ) → ns ≢ [] → number < 65536 →
        32767 < distance (maximum (positions ns)) number →
        distance (maximum (positions ns)) number < 65521 →
        maximum (positions (ns ++ number ∷ [])) % 65536 ≡ number }
{}

/// The grant of a kind, with one entry of the master more.
pub fn grants()
    ensures grant_more { (k : Kind) (L : Record) (e : Entry) →
        grant k (L ++ e ∷ []) ≡ unwrap_or (grant_change k e) (grant k L) }
    // A grant is live for its seconds, and no longer after a CANCEL or the stop.
    ensures granted { (k : Kind) (L : Record) (at m seconds t : ℕ) →
        is_live k (L ++ Granted at m k seconds ∷ []) t ≡ nat_lt t (at + seconds * second) }
    ensures cancelled { (k : Kind) (L : Record) (at m t : ℕ) →
        is_live k (L ++ Cancelled at m k ∷ []) t ≡ false }
    ensures stopped { (k : Kind) (L : Record) (at t : ℕ) →
        is_live k (L ++ Stopped at ∷ []) t ≡ false }
    // Which grants are live is from then on the same whether the stop or a CANCEL of each live kind
    // was entered.
    ensures stop_as_cancels { (k : Kind) (L M : Record) (x m t : ℕ) → x ≤ t →
        is_live k (L ++ map (Cancelled x m) (live_kinds L x) ++ M) t ≡
        is_live k (L ++ Stopped x ∷ M) t }
    ensures all_cancelled { (k : Kind) (L : Record) (x m t : ℕ) → x ≤ t →
        is_live k (L ++ map (Cancelled x m) (live_kinds L x)) t ≡ false }
    // A grant that finds one live goes on with its run; another begins one; nothing else does.
    ensures run_granted { (k : Kind) (L : Record) (at m seconds : ℕ) →
        run_start k (L ++ Granted at m k seconds ∷ []) ≡
        cond (is_live k L at) (run_start k L) (Some at) }
    ensures run_begun { (k : Kind) (L : Record) → IsSome (grant k L) → IsSome (run_start k L) }
    ensures run_kept { (k : Kind) (L : Record) (e : Entry) →
        unwrap_or (grant_change k e) None ≡ None → run_start k (L ++ e ∷ []) ≡ run_start k L }
    ensures same_kind { (k : Kind) → is_kind k k ≡ true }
    ensures one_kind { (j k : Kind) → is_kind j k ≡ true → j ≡ k }
{}

/// The asks for a kind, with one entry of the master more: how many have no answer, the last of
/// them, and the gate.
pub fn asks()
    ensures count_more { (k : Kind) (L : Record) (e : Entry) → length (open_asks k (L ++ e ∷ [])) ≡
        cond (is_answer k e) 0 (length (open_asks k L) + cond (is_some (ask_moment k e)) 1 0) }
    ensures last_more { (k : Kind) (L : Record) (e : Entry) → last (open_asks k (L ++ e ∷ [])) ≡
        cond (is_answer k e) None (newest_of (ask_moment k e) (last (open_asks k L))) }
    ensures asks_more { (k : Kind) (L : Record) (e : Entry) →
        open_asks k (L ++ e ∷ []) ≡
        cond (is_answer k e) [] (open_asks k L ++ option_to_list (ask_moment k e)) }
    ensures asked { (k : Kind) (L : Record) (at m : ℕ) →
        open_asks k (L ++ Asked at m k ∷ []) ≡ open_asks k L ++ at ∷ [] }
    // A grant, a denial and a CANCEL answer all asks before them.
    ensures answered_by_grant { (k : Kind) (L : Record) (at m seconds : ℕ) →
        open_asks k (L ++ Granted at m k seconds ∷ []) ≡ [] }
    ensures answered_by_denial { (k : Kind) (L : Record) (at m : ℕ) →
        open_asks k (L ++ Denied at m k ∷ []) ≡ [] }
    ensures answered_by_cancel { (k : Kind) (L : Record) (at m : ℕ) →
        open_asks k (L ++ Cancelled at m k ∷ []) ≡ [] }
    ensures refusal_more { (k : Kind) (L : Record) (e : Entry) →
        last (refusals k (L ++ e ∷ [])) ≡ newest_of (refusal_moment k e) (last (refusals k L)) }
    // Four values tell the gate, and one entry more changes them by what they are alone.
    ensures kept_more { (k : Kind) (L : Record) (e : Entry) →
        kind_state k (L ++ e ∷ []) ≡ kind_state_after k (kind_state k L) e }
    ensures kept_gate { (k : Kind) (L : Record) (t : ℕ) → gate k L t ≡ gate_at (kind_state k L) t }
    // The gate is the greatest of the moments that an ask waits for.
    ensures gate_is_there { (k : Kind) (L : Record) (t : ℕ) → gates k L t ≢ [] →
        IsTrue (list_any (λ g. g == gate k L t) (gates k L t)) }
    ensures gate_is_greatest { (k : Kind) (L : Record) (t : ℕ) →
        IsTrue (list_all (λ g. nat_le g (gate k L t)) (gates k L t)) }
    ensures no_gate { (k : Kind) (L : Record) (t : ℕ) → gates k L t ≡ [] → gate k L t ≡ 0 }
    // An ask is due exactly where all that it waits for has come, and at once where there is
    // nothing.
    ensures due { (k : Kind) (L : Record) (t : ℕ) → is_due k L t ≡
        list_all (λ g. nat_le g t) (gates k L t) }
    // Just after an ask the gate is at least a second later, and a minute after each third without
    // an answer. Just after a denial or a CANCEL it is at least a minute later, and never before
    // half of a live grant's duration.
    ensures a_second_after_an_ask { (k : Kind) (L : Record) (at m t : ℕ) →
        at + second ≤ gate k (L ++ Asked at m k ∷ []) t }
    ensures a_minute_after_each_third { (k : Kind) (L : Record) (at m t : ℕ) →
        length (open_asks k L) % 3 ≡ 2 → at + 60 * second ≤ gate k (L ++ Asked at m k ∷ []) t }
    ensures a_minute_after_a_denial { (k : Kind) (L : Record) (at m t : ℕ) →
        at + 60 * second ≤ gate k (L ++ Denied at m k ∷ []) t }
    ensures a_minute_after_a_cancel { (k : Kind) (L : Record) (at m t : ℕ) →
        at + 60 * second ≤ gate k (L ++ Cancelled at m k ∷ []) t }
    ensures half_of_the_duration { (k : Kind) (L : Record) (t at seconds : ℕ) →
        grant k L ≡ Some (at, seconds) → is_live k L t ≡ true →
        at + seconds * 500000000 ≤ gate k L t }
    // An entry that says nothing of the kind leaves what its asks wait for.
    ensures other_kinds { (k : Kind) (L : Record) (e : Entry) (t : ℕ) →
        grant_change k e ≡ None → is_answer k e ≡ false → ask_moment k e ≡ None →
        refusal_moment k e ≡ None →
        gates k (L ++ e ∷ []) t ≡ gates k L t }
{}

/// Delay_Reqs and sequence numbers with one entry of the master more, and ticks after the stop.
pub fn ticks()
    ensures probe_more { (L : Record) (e : Entry) →
        last (probes (L ++ e ∷ [])) ≡ newest_of (probe_moment e) (last (probes L)) }
    ensures signaling_number_more { (L : Record) (e : Entry) →
        signaling_number (L ++ e ∷ []) ≡
        cond (is_signalled e) ((signaling_number L + 1) % 65536) (signaling_number L) }
    ensures delay_req_number_more { (L : Record) (e : Entry) →
        delay_req_number (L ++ e ∷ []) ≡
        cond (is_probed e) ((delay_req_number L + 1) % 65536) (delay_req_number L) }
    // After the stop a tick sends nothing.
    ensures silent { (wants : Wants) (masters : ℕ) (L M : Record) (at t : ℕ) →
        tick_sendings wants masters (L ++ Stopped at ∷ M) t ≡ [] }
    // A Delay_Req is due exactly where Delay_Resp is requested and live, and a period has passed
    // since the live run began and since the last Delay_Req.
    ensures not_requested { (wants : Wants) (L : Record) (t : ℕ) →
        wants.delay ≡ None → is_probe_due wants L t ≡ false }
    ensures probe_due { (wants : Wants) (log : ℤ) (L : Record) (t : ℕ) → wants.delay ≡ Some log →
        is_probe_due wants L t ≡ (is_live Kind.DelayResp L t && nat_le (probe_gate log L) t) }
    ensures first_probe { (log : ℤ) (L : Record) (start : ℕ) →
        run_start Kind.DelayResp L ≡ Some start →
        last (probes L) ≡ None → probe_gate log L ≡ start + period_of log }
    ensures next_probe { (log : ℤ) (L : Record) (start before : ℕ) →
        run_start Kind.DelayResp L ≡ Some start →
        last (probes L) ≡ Some before → probe_gate log L ≡ max before start + period_of log }
{}
