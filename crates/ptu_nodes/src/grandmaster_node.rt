//! The grandmaster of a script. Its ports are in memory and have room for all that an event may
//! send, so no send fails.

ghost use Rattle.std.specs.Prelude.{◌≡◌, ◌<◌, [], IfOk, IfSome, OnOk};
ghost use Rattle.ptu_script.specs.Limits.{IsActWithin};
ghost use Rattle.ptu_world.specs.Deeds.{Grandmaster, IsGrandmaster};
ghost use Rattle.ptu_world.specs.Grandmasters.{capacity_deed, class_deed, datagram_deed, turn_deed};
ghost use Rattle.ptu_world.specs.World.{act_deed, new_grandmaster};
ghost use Rattle.ptu_nodes.specs.{Doing.{HasActed, HasDone}, GrandmasterPorts.{rows_kept}};
ghost use Rattle.ptu_nodes.specs.Standing as standing;
ghost use Rattle.ptu_nodes.specs.Standing.{IsGrandmasterNode, StandsAsGrandmaster};

use crate::grandmaster_ports::{hand_over_all, reserve, reserve_answer};
use crate::grandmaster_statements::{say_shed, say_taken};
use crate::journal::Journal;
use ptu_grandmaster::{Gm, SIGNALING_PORT};
use ptu_messages::PortIdentity;
use ptu_outside::MemPort;
use ptu_profile::GmConfig;
use ptu_report_lines::Statement;
use ptu_script::{Act, Cause, GrandmasterSetup};
use ptu_units::sizes::{ANNOUNCE_LENGTH, LONGEST_SIGNALING};
use ptu_units::{Capacity, Epoch, Moment, OutOfMemory};
use std::alloc::Global;

/// The settings of a grandmaster that a line sets up. Its timescale begins at 0.
pub fn config_of(setup: &GrandmasterSetup) -> GmConfig
    ensures value { result ≡ standing.setup_config setup.now }
{
    GmConfig {
        identity: PortIdentity {
            clock: setup.clock,
            port: setup.port.get(),
        },
        domain: setup.domain,
        class: setup.class,
        max_duration: setup.max_duration,
        epoch: Epoch::DEFAULT,
    }
}

/// A grandmaster of a script: it has ports in memory, in which nothing stands between events.
#[derive(Drop)]
pub struct GrandmasterNode {
    /// Its IPv4 address, its first octet the highest.
    pub ip: u32,
    /// The grandmaster.
    pub gm: Gm<MemPort>,
}

impl GrandmasterNode {
    /// The grandmaster that a line sets up. Its timescale begins at 0.
    pub fn new(alloc: Global, setup: &GrandmasterSetup) -> GrandmasterNode
        ensures ip { result.ip ≡ setup.now.ip }
        ensures stands { StandsAsGrandmaster result (new_grandmaster setup.now) }
    {
        let gm = Gm::new(
            alloc,
            config_of(setup),
            setup.capacity,
            idle_port(alloc),
            idle_port(alloc),
            idle_port(alloc),
            idle_port(alloc),
            idle_port(alloc),
        );
        GrandmasterNode { ip: setup.ip, gm }
    }

    // How many rows its tables keep, as far as a number goes.
    fn count(&self) -> Option<usize>
        ensures { IfSome result (λ count. count ≡ rows_kept self.now.gm) }
    {
        let first = self.gm.count(0).checked_add(self.gm.count(1))?;
        let last = self.gm.count(2).checked_add(self.gm.count(3))?;
        first.checked_add(last)
    }

    /// Does what it is told, and notes what comes of it; or answers why not: it is told what slaves
    /// are told.
    ///
    /// # Errors
    /// `OutOfMemory`. The address stays, and nothing else is said of the node and the journal: the
    /// run ends.
    pub fn act(
        &mut self,
        at: Moment,
        act: Act<'_>,
        journal: &mut Journal,
    ) -> Result<Option<Cause>, OutOfMemory>
        requires means { (g : Grandmaster) × IsGrandmasterNode self.old g }
        requires within { IsActWithin act }
        ensures ip { self.new.ip ≡ self.old.ip }
        ensures acted { IfOk result (λ refused. (g : Grandmaster) → IsGrandmasterNode self.old g →
            HasActed (StandsAsGrandmaster self.new) self.old.ip journal.old journal.new
            (act_deed at act.entry (IsGrandmaster g)) refused) }
    {
        match act {
            Act::Receive { from, octets } => {
                self.receive(at, from, octets.as_slice(), journal)?;
                Ok(None)
            }
            Act::Turn { table } => {
                self.turn(at, table, journal)?;
                Ok(None)
            }
            Act::Class { class } => {
                self.set_class(class);
                Ok(None)
            }
            Act::Capacity { capacity } => {
                self.set_capacity(at, capacity, journal)?;
                Ok(None)
            }
            Act::Tick | Act::Flag { .. } | Act::Judge { .. } | Act::Stop => Ok(Some(Cause::Node)),
        }
    }

    /// Takes a datagram that came from this IPv4 address, and notes what it comes to and what is
    /// sent.
    ///
    /// # Errors
    /// `OutOfMemory`. The address stays, and nothing else is said of the node and the journal: the
    /// run ends.
    pub fn receive(
        &mut self,
        at: Moment,
        from: u32,
        octets: &[u8],
        journal: &mut Journal,
    ) -> Result<(), OutOfMemory>
        requires means { (g : Grandmaster) × IsGrandmasterNode self.old g }
        ensures ip { self.new.ip ≡ self.old.ip }
        ensures done { OnOk result ((g : Grandmaster) → IsGrandmasterNode self.old g →
            HasDone (StandsAsGrandmaster self.new) self.old.ip (datagram_deed g at from octets.now)
            journal.old journal.new) }
    {
        reserve_answer(&mut self.gm, octets)?;
        let taken = self.gm.take(at, from, octets)?;
        say_taken(&taken, journal)?;
        self.gm.give_back(taken);
        hand_over_all(&mut self.gm, self.ip, journal)
    }

    /// A table, from 0 to 3, takes a turn, and what is sent is noted.
    ///
    /// # Errors
    /// `OutOfMemory`. The address stays, and nothing else is said of the node and the journal: the
    /// run ends.
    pub fn turn(
        &mut self,
        at: Moment,
        table: usize,
        journal: &mut Journal,
    ) -> Result<(), OutOfMemory>
        requires means { (g : Grandmaster) × IsGrandmasterNode self.old g }
        requires table { table < 4 }
        ensures ip { self.new.ip ≡ self.old.ip }
        ensures done { OnOk result ((g : Grandmaster) → IsGrandmasterNode self.old g →
            HasDone (StandsAsGrandmaster self.new) self.old.ip (turn_deed g at table) journal.old
            journal.new) }
    {
        let datagrams = self.gm.count(table);
        let octets = datagrams.checked_mul(ANNOUNCE_LENGTH).ok_or(OutOfMemory)?;
        reserve(&mut self.gm, table, datagrams, octets)?;
        self.gm.turn(table, at);
        hand_over_all(&mut self.gm, self.ip, journal)
    }

    /// Its capacity changes; this, what is shed and what is sent is noted.
    ///
    /// # Errors
    /// `OutOfMemory`. The address stays, and nothing else is said of the node and the journal: the
    /// run ends.
    pub fn set_capacity(
        &mut self,
        at: Moment,
        capacity: Capacity,
        journal: &mut Journal,
    ) -> Result<(), OutOfMemory>
        requires means { (g : Grandmaster) × IsGrandmasterNode self.old g }
        ensures ip { self.new.ip ≡ self.old.ip }
        ensures done { OnOk result ((g : Grandmaster) → IsGrandmasterNode self.old g →
            HasDone (StandsAsGrandmaster self.new) self.old.ip (capacity_deed g at capacity)
            journal.old journal.new) }
    {
        let cancels = self.count().ok_or(OutOfMemory)?;
        let octets = cancels.checked_mul(LONGEST_SIGNALING).ok_or(OutOfMemory)?;
        reserve(&mut self.gm, SIGNALING_PORT, cancels, octets)?;
        let changed = self.gm.set_capacity(at, capacity)?;
        journal.say(Statement::Capacity {
            grandmaster: self.ip,
            capacity: capacity.get(),
            at: changed.at,
        })?;
        say_shed(changed.shed.list(), journal)?;
        hand_over_all(&mut self.gm, self.ip, journal)
    }

    /// Its clockClass changes. Nothing is said of it.
    pub fn set_class(&mut self, class: u8)
        ensures ip { self.new.ip ≡ self.old.ip }
        ensures done { (g : Grandmaster) → IsGrandmasterNode self.old g →
            StandsAsGrandmaster self.new (class_deed g class).node }
    {
        self.gm.set_class(class);
    }
}

// A port in memory, at which nothing waits and no call is to fail.
fn idle_port(alloc: Global) -> MemPort
    ensures idle { result.sent ≡ [] }
    ensures sure { result.failing_sends ≡ [] }
{
    MemPort::new(alloc, Vec::new(alloc), Vec::new(alloc), Vec::new(alloc))
}
