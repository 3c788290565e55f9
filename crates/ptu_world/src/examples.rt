//! Small scripts and their reports. Each clause is one script; the bodies are empty.
ghost use Rattle.std.specs.Prelude.{◌≡◌, ◌∷◌, [], codes};
ghost use Rattle.ptu_world.specs.Report.{report};
ghost use Rattle.ptu_world.specs.Samples.{acknowledgements, announced_class_report, both_ends, cancels_script, change_over_and_back, delay_answers, delay_reqs, empty_datagram, falling_capacity, gaps_script, gm_line, ignored_datagram, lines_of, loss_and_restoration, messages_of_turns, new_class, nobody, one_ask, one_denial, one_grant, plenty, script_of, selected_master_report, selections, shed_grant, shed_slave, slave_line, stopped_slave, to_nobody, too_many_masters, turns_script};
ghost use Rattle.ptu_world.specs.World.{no_judges};

/// Scripts without events, and such that are refused.
pub fn short_scripts()
    ensures empty { report no_judges [] ≡ lines_of (codes "end 0 0" ∷ []) }
    ensures comment { report no_judges (codes "# nothing\n\n") ≡ lines_of (codes "end 2 0" ∷ []) }
    ensures no_node { report no_judges (codes "turn 0 10.0.0.9 0")
        ≡ lines_of (codes "1 bad node" ∷ []) }
    ensures no_datagram { report no_judges (script_of (gm_line (codes "8 300") ∷ codes "deliver 0 1"
        ∷ []))
        ≡ lines_of (codes "2 bad number" ∷ []) }
    ensures datagram_zero { report no_judges (script_of (gm_line (codes "8 300")
        ∷ codes "deliver 0 0" ∷ []))
        ≡ lines_of (codes "2 bad number" ∷ []) }
    ensures set_up_late { report no_judges (script_of (gm_line (codes "8 300")
        ∷ codes "class 10.0.0.1 90" ∷ gm_line (codes "8 300") ∷ []))
        ≡ lines_of (codes "3 bad order" ∷ []) }
    ensures set_up_again { report no_judges (script_of (gm_line (codes "8 300")
        ∷ gm_line (codes "8 300") ∷ [])) ≡ lines_of (codes "2 bad node" ∷ []) }
    ensures other_kind { report no_judges (script_of (gm_line (codes "8 300")
        ∷ codes "tick 0 10.0.0.1" ∷ [])) ≡ lines_of (codes "2 bad node" ∷ []) }
    ensures no_judge { report no_judges (script_of (slave_line
        ∷ codes "master 10.0.1.17 10.0.0.1 1 flag" ∷ []))
        ≡ lines_of (codes "2 bad stock" ∷ []) }
    ensures judge_taken { report (record { flags = 1; gaps = 0 }) (script_of (slave_line
        ∷ codes "master 10.0.1.17 10.0.0.1 1 flag" ∷ codes "judge 0 10.0.1.17 10.0.0.1 flag" ∷ []))
        ≡ lines_of (codes "3 bad stock" ∷ []) }
    ensures master_before_judge { report no_judges (script_of (slave_line
        ∷ codes "judge 0 10.0.1.17 10.0.0.1 flag" ∷ [])) ≡ lines_of (codes "2 bad node" ∷ []) }
    ensures unknown_master { report plenty (script_of (slave_line
        ∷ codes "flag 0 10.0.1.17 10.0.0.1 1" ∷ [])) ≡ lines_of (codes "2 bad node" ∷ []) }
    ensures master_again { report plenty (script_of (slave_line
        ∷ codes "master 10.0.1.17 10.0.0.1 1 flag" ∷ codes "master 10.0.1.17 10.0.0.1 1 gap" ∷ []))
        ≡ lines_of (codes "3 bad node" ∷ []) }
{}

/// One ask, granted and denied.
pub fn one_ask_answered()
    ensures granted { report no_judges (one_ask (codes "8")) ≡ one_grant }
    ensures denied { report no_judges (one_ask (codes "7")) ≡ one_denial }
{}

/// A grandmaster: what it ignores, turns at the edge of pacing, another clockClass, a CANCEL twice,
/// Delay_Reqs with a credit of two, and a capacity that falls and rises.
pub fn grandmasters()
    ensures ignored { report no_judges empty_datagram ≡ ignored_datagram }
    ensures turns { report no_judges turns_script ≡ messages_of_turns }
    ensures class { report no_judges new_class ≡ announced_class_report }
    ensures cancels { report no_judges cancels_script ≡ acknowledgements }
    ensures delay_reqs { report no_judges delay_reqs ≡ delay_answers }
    ensures capacity { report no_judges falling_capacity ≡ shed_grant }
{}

/// A slave's masters, of which there are at most 16.
pub fn many_masters()
    ensures { report plenty too_many_masters ≡ lines_of (codes "18 bad full" ∷ []) }
{}

/// A slave: both ends of a negotiation, a grant that is shed and a stop, two
/// masters with loss and restoration, its judges, and a datagram to nobody.
pub fn slaves()
    ensures both_ends { report plenty both_ends ≡ selected_master_report }
    ensures shed { report plenty shed_slave ≡ stopped_slave }
    ensures loss { report plenty loss_and_restoration ≡ change_over_and_back }
    ensures gaps { report plenty gaps_script ≡ selections }
    ensures nobody { report plenty to_nobody ≡ nobody }
{}
