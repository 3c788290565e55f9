//! A port that sends each Sync as a two-step Sync and its Follow_Up, over another port (IEEE
//! 1588-2019 clauses 9.5.9 and 9.5.10).

ghost use Rattle.std.specs.Prelude.{◌≡◌, ◌≤◌, ◌∷◌, [], ◌||◌, ℕ, true, false, List, Option, None, take, is_err, IfOk, OnOk, OnErr, IfSome, IfNone};
ghost use Rattle.ptu_outside.specs.Faults.{HasRisen, HasNotFallen, one_more};
ghost use Rattle.ptu_outside.specs.HandsOver.{HandsOver};
ghost use Rattle.ptu_outside.specs.Telling.{IfTold, IsFirstTold, IsEmptyTold, TellsOn, append_told, rest_told};
ghost use Rattle.ptu_outside.specs.Departure.{Departure};
ghost use Rattle.ptu_daemon.specs.{Pairs.{pair, pair_by}, Steps.{step_of}};
ghost use Rattle.ptu_daemon.specs.Telling.{HandsPair, ceases_in_two, is_half, told_by};

use crate::step::{Step, find_step};
use ptu_outside::{Channel, Failed, Port, hand};
use ptu_units::sizes::LONGEST_DATAGRAM;
use ptu_units::{Moment, high_nibble};
use std::marker::Model;

/// A port that sends each Sync in two steps, over another port: what it is handed as a Sync in one
/// step goes out as a Sync with twoStepFlag set and the Follow_Up with its time (IEEE 1588-2019
/// clauses 9.5.9 and 9.5.10). It keeps a flag, which is set at a send that fails and at one of a
/// datagram that is itself a Sync in two steps or a Follow_Up: from then on what was sent is
/// opaque.
#[derive(Drop)]
pub struct TwoStep<P: Port> {
    port: P,
    is_flagged: bool,
}

impl<P: Port> Model for TwoStep<P> {
    ghost use Rattle.ptu_daemon.specs.Telling.{InTwoSteps};

    ghost Value = { InTwoSteps P };

    ghost view = { λ p. record { port = p.port; is_flagged = p.is_flagged } };
}

impl<P: Port> TwoStep<P> {
    /// A port over this one, with its flag clear.
    pub fn new(inner: P) -> TwoStep<P>
        ensures { result ≡ record { port = inner; is_flagged = false } }
    {
        TwoStep {
            port: inner,
            is_flagged: false,
        }
    }

    /// Whether a send has failed, or a half was sent through this port.
    pub fn is_flagged(&self) -> bool
        ensures { result ≡ self.now.is_flagged }
    {
        self.is_flagged
    }

    /// The port below, as it is.
    pub fn into_inner(self) -> P
        ensures { result ≡ self.port }
    {
        self.port
    }
}

// Hands a Sync in one step to the port as a Sync in two and its Follow_Up, which is handed over
// where the Sync fails, too.
fn hand_pair<P: Port>(port: &mut P, ip: u32, channel: Channel, bytes: &[u8]) -> Result<(), Failed>
    requires { step_of channel bytes.now ≡ Step.OneStepSync }
    ensures { HandsPair P.Port port.old port.new
        (pair_by Step.OneStepSync
        (record { ip = ip; channel = channel; bytes = bytes.now })) result }
{
    let mut octets = [0; 44];
    octets.copy_from_slice(bytes);
    octets[6] += 2;
    let sync = hand(port, ip, channel, &octets);
    octets.copy_from_slice(bytes);
    octets[0] = 16 * high_nibble(bytes, 0) + 8;
    octets[32] = 2;
    let follow_up = hand(port, ip, Channel::General, &octets);
    sync.and(follow_up)
}

// Hands a datagram of this step to the port: a Sync in one step as two, and every other as it is.
fn hand_by<P: Port>(
    port: &mut P,
    step: Step,
    ip: u32,
    channel: Channel,
    bytes: &[u8],
) -> Result<(), Failed>
    requires { step ≡ step_of channel bytes.now }
    ensures { HandsPair P.Port port.old port.new
        (pair_by step (record { ip = ip; channel = channel; bytes = bytes.now })) result }
{
    match step {
        Step::OneStepSync => hand_pair(port, ip, channel, bytes),
        Step::TwoStepSync | Step::FollowUp | Step::Other => hand(port, ip, channel, bytes),
    }
}

impl<P: Port> Port for TwoStep<P> {
    ghost sent = { λ p. told_by p.is_flagged (P.sent p.port) };

    ghost waiting = { λ p. P.waiting p.port };

    ghost faults = { λ p. P.faults p.port };

    ghost counts_once = { false };

    ghost ceases_at = { ceases_in_two P.ceases_at };

    fn send(&mut self, ip: u32, channel: Channel, bytes: &[u8]) -> Result<(), Failed>
        ensures handed { OnOk result (IfTold (told_by self.new.is_flagged (P.sent self.new.port))
            (append_told (told_by self.old.is_flagged (P.sent self.old.port))
            (record { ip = ip; channel = channel; bytes = bytes.now } ∷ []))) }
        ensures kept { OnErr result (IfTold (told_by self.new.is_flagged (P.sent self.new.port))
            (told_by self.old.is_flagged (P.sent self.old.port))) }
        ensures waiting { P.waiting self.new.port ≡ P.waiting self.old.port }
        ensures risen { OnErr result (HasRisen (P.faults self.old.port) (P.faults self.new.port)) }
        ensures once { OnErr result (false ≡ true
            → P.faults self.new.port ≡ one_more (P.faults self.old.port)) }
        ensures quiet { OnOk result (P.faults self.new.port ≡ P.faults self.old.port) }
        ensures no_fall { HasNotFallen (P.faults self.old.port) (P.faults self.new.port) }
        ensures goes_on { OnOk result (ceases_in_two P.ceases_at
            (record { ip = ip; channel = channel; bytes = bytes.now }) ≡ false
            → TellsOn (told_by self.old.is_flagged (P.sent self.old.port))
            (told_by self.new.is_flagged (P.sent self.new.port))) }
        // The port below was handed the pair of it, whole.
        ensures below { HandsPair P.Port self.old.port self.new.port
            (pair (record { ip = ip; channel = channel; bytes = bytes.now })) result }
        ensures flag { self.new.is_flagged
            ≡ (self.old.is_flagged || (is_err result || is_half (step_of channel bytes.now))) }
    {
        let step = find_step(channel, bytes);
        let sent = hand_by(&mut self.port, step, ip, channel, bytes);
        self.is_flagged |= sent.is_err() | step.is_half();
        sent
    }

    fn receive(
        &mut self,
        buf: &mut [u8; LONGEST_DATAGRAM],
    ) -> Result<Option<(u32, usize)>, Failed> {
        self.port.receive(buf)
    }

    fn wait(&mut self, until: Moment)
        ensures sent { told_by self.new.is_flagged (P.sent self.new.port)
            ≡ told_by self.old.is_flagged (P.sent self.old.port) }
        ensures waiting { P.waiting self.new.port ≡ P.waiting self.old.port }
        ensures quiet { P.faults self.new.port ≡ P.faults self.old.port }
        ensures sure { (datagrams : List Departure) → ⊥ → ⊥ }
        // It keeps its flag.
        ensures flag { self.new.is_flagged ≡ self.old.is_flagged }
    {
        self.port.wait(until);
    }
}
