//! What holds of every slave. Each clause is a law of the definitions; the bodies are empty.
ghost use Rattle.std.specs.Prelude.{◌≡◌, ◌≢◌, ◌<◌, ℕ, List, ◌++◌, length, map, Option, None, IsSome};
ghost use Rattle.std.specs.List.{AllByRecursion};
ghost use Rattle.ptu_record.specs.{declared.rule.Rule.{Rule}, Record.{Record, event_moment}};
ghost use Rattle.ptu_record.specs.Step.{ReplaceJudge, SlaveEvent, Tick, judged_masters, sendings, slave_step};
ghost use Rattle.ptu_judges.specs.Held.{Held};
ghost use Rattle.ptu_slave.specs.{Kept.{Kept}, Standing.{StandsFor, Steps, setup_of}};
ghost use Rattle.ptu_slave_messages.specs.{Heard.{replies_in}, Reception.{reception}};
ghost use Rattle.ptu_slave_messages.specs.Sending.{sending_departure};
ghost use Rattle.ptu_profile.specs.Target.{all_ones};
ghost use Rattle.ptu_slave_messages.specs.Node.{Node, datagram_deed, deed};

/// Where each judge has a rule, a step is the one step of the event.
pub fn ruled_judges()
    ensures { (openings : List (Option Rule)) (old new : Kept) (judges : List Held) (L : Record)
        (t : ℕ) (e : SlaveEvent) → AllByRecursion (λ held. IsSome held.rule) judges →
        AllByRecursion (λ m. m < length judges) (judged_masters (length openings) e) →
        Steps openings old new judges L t e → StandsFor openings new judges
        (L ++ (slave_step (setup_of old.config openings) L t e).entries) }
{}

/// Where each judge has a rule it is so after an event, unless a judge without one takes over.
pub fn rules_stay()
    ensures { (openings : List (Option Rule)) (old new : Kept) (judges news : List Held)
        (L : Record) (t : ℕ) (e : SlaveEvent) → ((m : ℕ) → e ≢ ReplaceJudge m None) →
        AllByRecursion (λ held. IsSome held.rule) judges → StandsFor openings old judges L →
        Steps openings old new news L t e → AllByRecursion (λ held. IsSome held.rule) news }
{}

/// What a slave replies to a datagram is what its node's step says, and the node's entries are
/// those of the one step.
pub fn nodes()
    ensures replies { (node : Node) (L : Record) (t ip : ℕ) (octets : List ℕ) →
        replies_in node.config node.masters (reception node.config node.masters ip octets)
        ≡ (datagram_deed node L t ip octets).datagrams }
    ensures ticks { (node : Node) (L : Record) (t : ℕ) → (deed node L t Tick).datagrams ≡
        map (sending_departure node.config node.masters all_ones)
        (sendings (setup_of node.config node.openings) L (event_moment L t) Tick) }
    ensures entries { (node : Node) (L : Record) (t : ℕ) (e : SlaveEvent) →
        (deed node L t e).entries
        ≡ (slave_step (setup_of node.config node.openings) L t e).entries }
{}
