//! What holds of all that a grandmaster sends. Each function does nothing: its contract is the law.

ghost use Rattle.std.specs.{Prelude.{◌≡◌, ℕ, List, false}, List.{AllByRecursion}};
ghost use Rattle.ptu_units.specs.declared.{client.Client.{Client}, kind.Kind.{Kind}};
ghost use Rattle.ptu_profile.specs.declared.grandmaster.GmConfig.{GmConfig};
ghost use Rattle.ptu_gm_messages.specs.Replies.{cancels_to};
ghost use Rattle.ptu_grandmaster.specs.declared.driving.GmEvent.{GmEvent};
ghost use Rattle.ptu_config.specs.{declared.settings.GmSettings.{GmSettings}, Limits.{IsGmInRange}};
ghost use Rattle.ptu_lanes.specs.Rounds.{Exchange, replies};
ghost use Rattle.ptu_daemon.specs.Lawful.{IsLawful};
ghost use Rattle.ptu_daemon.specs.Sends.{Standing, sends_by};
ghost use Rattle.ptu_daemon.specs.{Pairs.{step_at}, Telling.{is_half}};

/// What a grandmaster of settings in their ranges is made to send is lawful, whatever events come:
/// held never above what is in force; each REQUEST within the profile granted exactly where it fits
/// beside the other live grants, and else answered with the duration zero, in the one reply to its
/// datagram; each timing message pays a period of its own inside a live grant; up to each moment no
/// more than the capacity summed up to it; and what goes by the port of a table are just the
/// messages of the history to its clients, by moment, client, kind and number.
pub fn sends_are_lawful()
    ensures { (settings : GmSettings) (events : List GmEvent) → IsGmInRange settings
        → IsLawful settings events }
{}

/// Nothing that a grandmaster sends is a Sync in two steps or a Follow_Up: what events make it send
/// by any of its ports, and the replies and CANCELs of lanes.
pub fn sends_no_half()
    ensures events { (gm : Standing) (i : ℕ) (events : List GmEvent)
        → AllByRecursion (λ d. is_half (step_at d) ≡ false) (sends_by gm i events) }
    ensures replies { (config : GmConfig) (exchanges : List Exchange)
        → AllByRecursion (λ d. is_half (step_at d) ≡ false) (replies config exchanges) }
    ensures cancels { (config : GmConfig) (before : ℕ) (leases : List (Client × Kind))
        → AllByRecursion (λ d. is_half (step_at d) ≡ false) (cancels_to config before leases) }
{}
