//! What holds of all commands of a control port. Each function does nothing: its contract is the
//! law.

ghost use Rattle.std.specs.Prelude.{◌≡◌, ◌∷◌, ◌++◌, [], ℕ, List, true, false, Some, Ok};
ghost use Rattle.ptu_outside.specs.declared.arrival.Arrival.{Arrival};
ghost use Rattle.ptu_config.specs.Commands.{is_known, request_line};
ghost use Rattle.ptu_config.specs.declared.settings.GmSettings.{GmSettings};
ghost use Rattle.ptu_config.specs.declared.command.Command.{Command};
ghost use Rattle.ptu_daemon.specs.Asked.{AsksNothing, CommandNothing};
ghost use Rattle.ptu_lanes.specs.Orders.{order_in, order_with};
ghost use Rattle.ptu_daemon.specs.Commands.{DoneRound, HaveHappened, done_events};
ghost use Rattle.ptu_daemon.specs.{Lawful.{history_by}, Served.{held_by}, Serving.{AreUnspoken}};

/// A datagram of the control port that is no line of plain text, or does not begin with the key,
/// asks for nothing: nothing happens by it, it ends no rounds, and it is answered by nothing.
pub fn other_keys_ask_nothing()
    ensures { (key : ℕ) (arrival : Arrival) → is_known key (request_line arrival.bytes) ≡ false
        → AsksNothing (order_with key (Some arrival)) }
{}

/// No datagram of another port is a command: in rounds that took nothing of the control port the
/// class stays, and nothing is answered.
pub fn other_ports_command_nothing()
    ensures { (settings : GmSettings) (done : List DoneRound)
        → HaveHappened settings 0 done → AreUnspoken done → CommandNothing settings done }
{}

/// Behind rounds of which the last was told to stop and to cancel all grants, nothing is held.
pub fn nothing_is_held_after_a_cancelling_stop()
    ensures { (settings : GmSettings) (done : List DoneRound) (d : DoneRound)
        → HaveHappened settings 0 (done ++ d ∷ [])
        → order_in settings d.spoken ≡ Some (Ok (Command.Stop true))
        → held_by (history_by settings (done_events (done ++ d ∷ []))) ≡ 0 }
{}
