//! The commands that a running grandmaster obeys.

ghost use Rattle.std.specs.Prelude.{◌≡◌, ◌+◌, ◌<◌, ◌^◌, ◌∷◌, [], ℕ, List, false, Some, Ok, IfOk};
ghost use Rattle.ptu_history.specs.History.{Record};
ghost use Rattle.ptu_grandmaster.specs.{declared.driving.GmEvent.{GmEvent}, Gm.{StandsFor}};
ghost use Rattle.ptu_config.specs.Commands.{is_stop_order};
ghost use Rattle.ptu_daemon.specs.Commands.{ended_by, standing_status};
ghost use Rattle.ptu_daemon.specs.Obeying.{Executed, Follows, Obeys, situation_at};
ghost use Rattle.ptu_daemon.specs.Ran.{IsSmall, Ran, standing_as};

use crate::daemon::Daemon;
use ptu_admit::InForce;
use ptu_config::{Cause, Command, Reply, Status};
use ptu_grandmaster::GmStatus;
use ptu_lanes::{answer, next_order};
use ptu_outside::{Clock, Port, Tally};
use ptu_units::OutOfMemory;
use std::alloc::Global;

/// What came of the control port in a round.
#[derive(Clone, Copy)]
pub(crate) struct Obeyed {
    /// What was sent by the other ports, and what failed there.
    pub tally: Tally,
    /// Whether this round is the last one.
    pub stops: bool,
}

impl Obeyed {
    // There was nothing to obey.
    fn nothing() -> Obeyed
        ensures tally { (result.tally.sent ≡ 0) × (result.tally.failed ≡ 0) }
        ensures stops { result.stops ≡ false }
    {
        Obeyed {
            tally: Tally::default(),
            stops: false,
        }
    }
}

// How a grandmaster stands that is asked in a round before which there were so many, when so much
// was counted.
fn asked_of(status: &GmStatus, before: u64, tally: &Tally) -> Status
    requires { before + 1 < 2 ^ 64 }
    ensures { result ≡ record {
      class = status.now.class;
      capacity = status.now.capacity;
      held = status.now.held;
      live_announce = status.now.announces;
      live_sync = status.now.syncs;
      live_delay_resp = status.now.delay_resps;
      granted = status.now.granted;
      refused = status.now.refused;
      sent = tally.now.sent;
      failed = tally.now.failed;
      round = before + 1;
      moment = status.now.moment;
    } }
{
    Status {
        class: status.class,
        capacity: status.capacity,
        held: status.held,
        live_announce: status.announces,
        live_sync: status.syncs,
        live_delay_resp: status.delay_resps,
        granted: status.granted,
        refused: status.refused,
        sent: tally.sent,
        failed: tally.failed,
        round: before + 1,
        moment: status.moment.nanos(),
    }
}

// The command ends the daemon.
fn ends(command: &Command) -> bool
    ensures { result ≡ is_stop_order (Some (Ok command.now)) }
{
    matches!(command, Command::Stop { .. })
}

impl<P: Port, C: Clock> Daemon<P, C> {
    // Its Announces have this class from a new moment on.
    fn set_class(&mut self, class: u8)
        ensures { Ran P.Port C.Clock self.old self.new ((λ t. GmEvent.Class class) ∷ []) [] []
            0 0 0 }
    {
        let at = self.clock.now();
        let _ = at;
        self.gm.set_class(class);
    }

    // How it stands in a round before which there were so many, when so much was counted.
    fn status(&self, before: u64, tally: &Tally) -> Status
        requires { before + 1 < 2 ^ 64 }
        ensures { (opening : ℕ) (past : List Record) → StandsFor opening self.now.gm past →
            result ≡ standing_status
            (situation_at (standing_as self.now.gm opening past) before tally.now) }
    {
        asked_of(&self.gm.status(), before, tally)
    }

    // Ends each grant at a new moment, where the stop cancels them: no capacity is in force then.
    fn end_grants(&mut self, cancels: bool) -> Result<Tally, OutOfMemory>
        ensures ran { IfOk result (λ tally. Ran P.Port C.Clock self.old self.new
            (ended_by cancels) [] [] tally.sent tally.failed 0) }
        ensures small { IfOk result (λ tally. IsSmall 1 tally) }
    {
        if cancels {
            self.change(InForce::NONE)
        } else {
            Ok(Tally::default())
        }
    }

    // Obeys a command in a round before which there were so many, when so much was counted. Gives
    // what it answers, and what was sent and what failed.
    fn execute(
        &mut self,
        command: Command,
        before: u64,
        tally: &Tally,
    ) -> Result<(Reply, Tally), OutOfMemory>
        requires { before + 1 < 2 ^ 64 }
        ensures { IfOk result (λ r.
            Executed P.Port C.Clock command before tally.now self.old self.new r.0 r.1) }
    {
        match command {
            Command::Class(class) => {
                self.set_class(class);
                Ok((Reply::Done, Tally::default()))
            }
            Command::Capacity(capacity) => {
                let changed = self.change(InForce::of(capacity))?;
                Ok((Reply::Shed(changed.sent + changed.failed), changed))
            }
            Command::Status => Ok((Reply::Stands(self.status(before, tally)), Tally::default())),
            Command::Stop { cancels } => {
                let ended = self.end_grants(cancels)?;
                Ok((Reply::Done, ended))
            }
        }
    }

    // Does what a datagram of the control port asks for, and answers it.
    fn follow(
        &mut self,
        alloc: Global,
        port: &mut P,
        order: Result<Command, Cause>,
        before: u64,
        tally: &Tally,
    ) -> Result<Obeyed, OutOfMemory>
        requires { before + 1 < 2 ^ 64 }
        ensures { IfOk result (Follows P.Port C.Clock (Some order) before tally.now
            self.old self.new (Some port.old) (Some port.new)) }
    {
        match order {
            Ok(command) => {
                let (reply, more) = self.execute(command, before, tally)?;
                answer(alloc, port, &reply)?;
                Ok(Obeyed {
                    tally: more,
                    stops: ends(&command),
                })
            }
            Err(cause) => {
                answer(alloc, port, &Reply::Bad(cause))?;
                Ok(Obeyed::nothing())
            }
        }
    }

    // Takes the next datagram of the control port.
    fn obey_next(
        &mut self,
        alloc: Global,
        port: &mut P,
        key: u64,
        before: u64,
        tally: &Tally,
    ) -> Result<Obeyed, OutOfMemory>
        requires { before + 1 < 2 ^ 64 }
        ensures { IfOk result (Obeys P.Port C.Clock key before tally.now
            self.old self.new (Some port.old) (Some port.new)) }
    {
        match next_order(port, key) {
            Some(order) => self.follow(alloc, port, order, before, tally),
            None => Ok(Obeyed::nothing()),
        }
    }

    /// Takes the next datagram of the control port, where there is one, in a round before which
    /// there were so many, when so much was counted, and does what it asks for where it begins with
    /// the key.
    ///
    /// # Errors
    /// `OutOfMemory`.
    pub(crate) fn obey(
        &mut self,
        alloc: Global,
        key: u64,
        control: &mut Option<P>,
        before: u64,
        tally: &Tally,
    ) -> Result<Obeyed, OutOfMemory>
        requires { before + 1 < 2 ^ 64 }
        ensures { IfOk result (Obeys P.Port C.Clock key before tally.now
            self.old self.new control.old control.new) }
    {
        match control {
            Some(port) => self.obey_next(alloc, port, key, before, tally),
            None => Ok(Obeyed::nothing()),
        }
    }
}
