//! A grandmaster with the port of its event channel and its clock, and the rounds that it does.

ghost use Rattle.std.specs.Prelude.{◌≡◌, ◌<◌, ◌+◌, ◌*◌, ◌^◌, ◌∷◌, [], true, IfOk};
ghost use Rattle.ptu_outside.specs.Rounds.{most};
ghost use Rattle.ptu_grandmaster.specs.declared.driving.GmEvent.{GmEvent};
ghost use Rattle.ptu_config.specs.Limits.{IsGmInRange};
ghost use Rattle.ptu_daemon.specs.Events.{change_in, change_to, taking, turns};
ghost use Rattle.ptu_daemon.specs.Obeying.{DidAll, DidWhole};
ghost use Rattle.ptu_daemon.specs.Ran.{CameTo, DidRound, IsSmall, Ran, Received, Receives};
ghost use Rattle.ptu_daemon.specs.Ran.{TookChannel, arrived};

use crate::events;
use crate::next::Next;
use crate::obeying::Obeyed;
use ptu_admit::InForce;
use ptu_config::{GmSettings, MOST_DATAGRAMS};
use ptu_grandmaster::{Gm, SIGNALING_PORT};
use ptu_outside::{Channel, Clock, Failed, Port, Tally};
use ptu_units::sizes::LONGEST_DATAGRAM;
use ptu_units::{Capacity, Moment, OutOfMemory};
use std::alloc::Global;

/// A grandmaster as a daemon.
#[derive(Drop)]
pub(crate) struct Daemon<P: Port, C: Clock> {
    pub gm: Gm<P>,
    /// The port of the event channel.
    pub event: P,
    /// The clock whose moments the events take.
    pub clock: C,
}

// The capacity to which a round changes, before which there were so many, if it changes it.
fn change_before(settings: &GmSettings, before: u64) -> Option<Capacity>
    requires before { before + 1 < 2 ^ 64 }
    ensures change { change_in settings.now before ≡ change_to true result }
{
    if settings.change_round as u64 == before + 1 {
        settings.new_capacity
    } else {
        None
    }
}

/// Receives the next datagram of a port.
pub(crate) fn receive_from<P: Port>(
    port: &mut P,
    buf: &mut [u8; LONGEST_DATAGRAM],
) -> Result<Option<(u32, usize)>, Failed>
    ensures { Receives P.Port port.old port.new buf.new result }
{
    port.receive(buf)
}

impl<P: Port, C: Clock> Daemon<P, C> {
    // A table, from 0 to 3, takes a turn at a new moment.
    fn turn(&mut self, table: usize) -> Tally
        requires { table < 4 }
        ensures ran { Ran P.Port C.Clock self.old self.new ((λ t. GmEvent.Turn t table) ∷ []) [] []
            result.sent result.failed 0 }
        ensures small { IsSmall 1 result }
    {
        let at = self.clock.now();
        events::turn(&mut self.gm, at, table)
    }

    // All tables take a turn.
    fn turn_tables(&mut self) -> Tally
        ensures ran { Ran P.Port C.Clock self.old self.new turns [] [] result.sent result.failed 0 }
        ensures small { IsSmall 4 result }
    {
        let first = self.turn(0);
        let second = first.plus(self.turn(1));
        let third = second.plus(self.turn(2));
        third.plus(self.turn(3))
    }

    // Waits until a datagram is there to receive or a message may be due, as long as the port of
    // the event channel does. It takes no moment of the clock.
    fn wait(&mut self)
        ensures { Ran P.Port C.Clock self.old self.new [] [] [] 0 0 0 }
    {
        let due = self.gm.next_due(Moment::last());
        self.event.wait(due);
    }

    // Waits, unless no other round is to follow.
    fn wait_unless(&mut self, stops: bool)
        ensures { Ran P.Port C.Clock self.old self.new [] [] [] 0 0 0 }
    {
        if stops {
            return;
        }
        self.wait();
    }

    /// Changes the capacity at a new moment.
    pub(crate) fn change(&mut self, capacity: InForce) -> Result<Tally, OutOfMemory>
        ensures ran { IfOk result (λ tally. Ran P.Port C.Clock self.old self.new
            ((λ t. GmEvent.Capacity t capacity) ∷ []) [] [] tally.sent tally.failed 0) }
        ensures small { IfOk result (λ tally. IsSmall 1 tally) }
    {
        let at = self.clock.now();
        events::change(&mut self.gm, at, capacity)
    }

    // Begins a round, before which there were so many, with the change of the capacity where it is
    // the one for it.
    fn begin(&mut self, settings: &GmSettings, before: u64) -> Result<Tally, OutOfMemory>
        requires before { before + 1 < 2 ^ 64 }
        ensures ran { IfOk result (λ tally. Ran P.Port C.Clock self.old self.new
            (change_in settings.now before) [] [] tally.sent tally.failed 0) }
        ensures small { IfOk result (λ tally. IsSmall 1 tally) }
    {
        match change_before(settings, before) {
            Some(capacity) => self.change(InForce::of(capacity)),
            None => Ok(Tally::default()),
        }
    }

    // Takes a datagram at a new moment, which came from this IPv4 address.
    fn take(&mut self, from: u32, bytes: &[u8]) -> Result<Tally, OutOfMemory>
        ensures ran { IfOk result (λ tally. Ran P.Port C.Clock self.old self.new
            (taking (arrived from bytes.now) ∷ []) [] [] tally.sent tally.failed 0) }
        ensures small { IfOk result (λ tally. IsSmall 1 tally) }
    {
        let at = self.clock.now();
        events::take(&mut self.gm, at, from, bytes)
    }

    // Receives the next datagram of the channel.
    fn receive(
        &mut self,
        channel: Channel,
        buf: &mut [u8; LONGEST_DATAGRAM],
    ) -> Result<Option<(u32, usize)>, Failed>
        ensures { Received P.Port C.Clock channel self.old self.new buf.new result }
    {
        match channel {
            Channel::General => receive_from(self.gm.ports(SIGNALING_PORT), buf),
            Channel::Event => receive_from(&mut self.event, buf),
        }
    }

    // Takes the next datagram of the channel.
    fn take_next(
        &mut self,
        channel: Channel,
        buf: &mut [u8; LONGEST_DATAGRAM],
    ) -> Result<Next, OutOfMemory>
        ensures { IfOk result (λ next.
            CameTo P.Port C.Clock channel self.old self.new next) }
    {
        match self.receive(channel, buf) {
            Ok(Some((from, length))) => Ok(Next::Taken(self.take(from, &buf[..length])?)),
            Ok(None) => Ok(Next::Nothing),
            Err(Failed) => Ok(Next::Failed),
        }
    }

    // Takes what waits on the channel, up to as many as a round takes.
    fn take_channel(&mut self, channel: Channel) -> Result<Tally, OutOfMemory>
        ensures took { IfOk result (λ tally.
            TookChannel P.Port C.Clock channel self.old self.new tally) }
        ensures small { IfOk result (λ tally. IsSmall most tally) }
    {
        let mut buf = [0; LONGEST_DATAGRAM];
        let mut tally = Tally::default();
        for _ in 0..MOST_DATAGRAMS {
            match self.take_next(channel, &mut buf)? {
                Next::Taken(more) => tally = tally.plus(more),
                Next::Nothing => return Ok(tally),
                Next::Failed => return Ok(tally.plus(Tally { sent: 0, failed: 1 })),
            }
        }
        Ok(tally)
    }

    // Does a round, before which there were so many, but for what comes of the control port.
    fn round(&mut self, settings: &GmSettings, before: u64) -> Result<Tally, OutOfMemory>
        requires before { before + 1 < 2 ^ 64 }
        ensures did { IfOk result (λ tally.
            DidRound P.Port C.Clock settings.now before self.old self.new tally) }
        ensures small { IfOk result (λ tally. IsSmall 256 tally) }
    {
        let begun = self.begin(settings, before)?;
        let general = self.take_channel(Channel::General)?;
        let event = self.take_channel(Channel::Event)?;
        let turned = self.turn_tables();
        Ok(begun.plus(general).plus(event).plus(turned))
    }

    // Does a whole round, before which there were so many and so much was counted, and waits where
    // another one is to follow.
    fn round_obeying(
        &mut self,
        alloc: Global,
        settings: &GmSettings,
        key: u64,
        control: &mut Option<P>,
        before: u64,
        tally: &Tally,
    ) -> Result<Obeyed, OutOfMemory>
        requires range { IsGmInRange settings.now }
        requires before { before < 2 ^ 48 }
        requires small { IsSmall (before * 257) tally.now }
        ensures did { IfOk result (DidWhole P.Port C.Clock settings.now key before tally.now
            self.old self.new control.old control.new) }
        ensures small { IfOk result (λ obeyed. IsSmall ((before + 1) * 257) obeyed.tally) }
    {
        let round = self.round(settings, before)?;
        let so_far = tally.plus(round);
        let obeyed = self.obey(alloc, key, control, before, &so_far)?;
        self.wait_unless(obeyed.stops);
        Ok(Obeyed {
            tally: so_far.plus(obeyed.tally),
            stops: obeyed.stops,
        })
    }

    /// Does the rounds of the settings, or less where a command stops it, and counts them, and what
    /// was sent and what failed.
    pub(crate) fn rounds(
        &mut self,
        alloc: Global,
        settings: &GmSettings,
        control: &mut Option<P>,
    ) -> Result<(u64, Tally), OutOfMemory>
        requires range { IsGmInRange settings.now }
        ensures { IfOk result (λ r. DidAll P.Port C.Clock settings.now r.0
            self.old self.new control.old control.new r.1) }
    {
        let key = settings.control_key.unwrap_or(0);
        let all = settings.all_rounds();
        let mut tally = Tally::default();
        for before in 0..all {
            let done = self.round_obeying(alloc, settings, key, control, before, &tally)?;
            tally = done.tally;
            if done.stops {
                return Ok((before + 1, tally));
            }
        }
        Ok((all, tally))
    }
}
