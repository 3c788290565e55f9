//! What holds of every step of a slave. Each clause is a law of the definitions; the bodies are
//! empty.
ghost use Rattle.std.specs.Prelude.{◌≡◌, ◌≢◌, ◌↔◌, ℕ, ◌+◌, ◌%◌, ◌<◌, max, Bool, false, cond, List, [], ◌∷◌, ◌++◌, length, flat_map, count_by, slice_index_or, Some, IsSome};
ghost use Rattle.std.specs.List.{list_any, AllByRecursion};
ghost use Rattle.ptu_record.specs.Record.{Record, record_of, event_moment, Judged, Stopped};
ghost use Rattle.ptu_record.specs.Judges.{opening_of, rule_in_force};
ghost use Rattle.ptu_record.specs.Tick.{cancels_to, delay_req_number, is_delay_req_to, is_signaling_to, is_stop, requests_to, sending_entries, signaling_number};
ghost use Rattle.ptu_record.specs.Step.{IsStep, SlaveEvent, SlaveSetup, SlaveStep, Tick, Stop, event_master, judged_masters, judged_record, master_count, slave_step, step_by};

/// The moment of a step, and which steps there may be.
pub fn steps()
    // A step enters something, and all of it at the event's moment. So no moment is lost.
    ensures moment_more { (setup : SlaveSetup) (assessments : List Bool) (L : Record) (t u : ℕ)
        (e : SlaveEvent) → event_moment (L ++ (step_by setup assessments L t e).entries) u ≡
        max u (event_moment L t) }
    // Where each judge that is asked has a rule there is one step, and it may be.
    ensures one_step { (setup : SlaveSetup) (L : Record) (t : ℕ) (e : SlaveEvent)
        (step : SlaveStep) →
        AllByRecursion (λ m. IsSome (rule_in_force (opening_of setup.openings m)
        (record_of m (judged_record setup L (event_moment L t) e))))
        (judged_masters (master_count setup) e) →
        IsStep setup L t e step ↔ (step ≡ slave_step setup L t e) }
{}

/// What a step enters for one master.
pub fn own_parts()
    // What is entered for another master leaves its record.
    ensures others { (setup : SlaveSetup) (assessments : List Bool) (L : Record) (t m n : ℕ)
        (e : SlaveEvent) → event_master e ≡ Some n → m ≢ n →
        record_of m (L ++ (step_by setup assessments L t e).entries) ≡ record_of m L }
    // A tick: what its judge finds, and then what it is sent.
    ensures tick { (setup : SlaveSetup) (assessments : List Bool) (L : Record) (t m : ℕ) →
        m < master_count setup → length assessments ≡ master_count setup →
        record_of m (L ++ (step_by setup assessments L t Tick).entries) ≡ record_of m L
        ++ Judged (event_moment L t) m (slice_index_or assessments m false)
        ∷ cond (list_any is_stop L) []
        (flat_map (sending_entries (event_moment L t))
        (requests_to setup.wants L (event_moment L t) m)) }
    // The stop: the Signaling with its live grants, if there are some, and the end of all grants.
    ensures stop { (setup : SlaveSetup) (assessments : List Bool) (L : Record) (t m : ℕ) →
        m < master_count setup →
        record_of m (L ++ (step_by setup assessments L t Stop).entries) ≡ record_of m L
        ++ flat_map (sending_entries (event_moment L t)) (cancels_to L (event_moment L t) m)
        ++ Stopped (event_moment L t) ∷ [] }
{}

/// Each Signaling that is no reply, and each Delay_Req, takes one number of its master.
pub fn numbers()
    ensures signalings { (setup : SlaveSetup) (assessments : List Bool) (L : Record) (t m : ℕ)
        (e : SlaveEvent) →
        signaling_number (record_of m (L ++ (step_by setup assessments L t e).entries)) ≡
        (signaling_number (record_of m L)
        + count_by (is_signaling_to m) (step_by setup assessments L t e).sendings) % 65536 }
    ensures delay_reqs { (setup : SlaveSetup) (assessments : List Bool) (L : Record) (t m : ℕ)
        (e : SlaveEvent) →
        delay_req_number (record_of m (L ++ (step_by setup assessments L t e).entries)) ≡
        (delay_req_number (record_of m L)
        + count_by (is_delay_req_to m) (step_by setup assessments L t e).sendings) % 65536 }
{}
