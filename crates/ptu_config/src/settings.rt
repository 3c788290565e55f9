//! The settings of both daemons as values, each within its range.

ghost use Rattle.std.specs.Prelude.{◌≡◌, ◌≤◌, ◌*◌};
ghost use Rattle.ptu_config.specs.Limits.{IsGmInRange, IsSlaveInRange};
ghost use Rattle.ptu_config.specs.Rounds.{IsRepeat, IsRoundCount, all_rounds, all_slave_rounds};

use crate::master::MasterList;
use ptu_units::{
    AnnounceLog, Capacity, Domain, Epoch, GrantSeconds, Log, PortNumber, ReceiptTimeout, Senders,
    UdpPortNumber, WaitToRestore,
};

/// How many datagrams of a channel a daemon takes in a round at most (the project's own choice).
pub const MOST_DATAGRAMS: u32 = 64;

/// The settings of a grandmaster's daemon.
#[derive(Clone, Copy, Debug, PartialEq, Eq)]
pub struct GmSettings {
    /// The IPv4 address of the node, its first number the highest octet.
    pub ip: u32,
    /// The UDP port of event messages, 319 by default.
    pub event_port: UdpPortNumber,
    /// The UDP port of general messages, 320 by default.
    pub general_port: UdpPortNumber,
    /// The clock identity.
    pub clock: u64,
    /// The port number, 1 by default.
    pub port: PortNumber,
    /// The domain, 4 by default.
    pub domain: Domain,
    /// How many rounds the daemon does, from 1 on, `repeat` times over.
    pub rounds: u32,
    /// How many times over it does them before it ends, from 1 to 1000; 1 by default.
    pub repeat: u32,
    /// The clockClass that is announced, 84 by default.
    pub class: u8,
    /// The capacity.
    pub capacity: Capacity,
    /// The longest duration that is granted, 1000 seconds by default.
    pub max_duration: GrantSeconds,
    /// The seconds at which the timescale stands at moment 0; 0 by default.
    pub epoch: Epoch,
    /// How many lanes send, or 0 for one thread that does all; 0 by default.
    pub senders: Senders,
    /// The round of all that begins with a change of the capacity, or 0 for none, which is the
    /// default.
    pub change_round: u32,
    /// The capacity from that round on, where its key is there.
    pub new_capacity: Option<Capacity>,
    /// Whether each Sync is followed by a Follow_Up; false by default.
    pub two_step: bool,
    /// The UDP port number at which the running daemon takes commands, from 1 to 65534 and other
    /// than those of the channels, where its key is there.
    pub control_port: Option<UdpPortNumber>,
    /// The key that each command begins with, where its own key is there.
    pub control_key: Option<u64>,
}

/// The settings of a slave's daemon.
#[derive(Drop)]
pub struct SlaveSettings {
    /// The IPv4 address of the node, its first number the highest octet.
    pub ip: u32,
    /// The UDP port of event messages, 319 by default.
    pub event_port: UdpPortNumber,
    /// The UDP port of general messages, 320 by default.
    pub general_port: UdpPortNumber,
    /// The clock identity.
    pub clock: u64,
    /// The port number, 1 by default.
    pub port: PortNumber,
    /// The domain, 4 by default.
    pub domain: Domain,
    /// How many rounds the daemon does, from 1 on, `repeat` times over.
    pub rounds: u32,
    /// How many times over it does them before it ends, from 1 to 1000; 1 by default.
    pub repeat: u32,
    /// The wait to restore, 300 seconds by default.
    pub wait_to_restore: WaitToRestore,
    /// The receipt timeout of Announce, 3 intervals by default.
    pub announce_timeout: ReceiptTimeout,
    /// The receipt timeout of Sync, 3 intervals by default.
    pub sync_timeout: ReceiptTimeout,
    /// The receipt timeout of Delay_Resp, 3 intervals by default.
    pub delay_timeout: ReceiptTimeout,
    /// The logarithm of the Announce interval that is requested, 1 by default.
    pub log_announce: AnnounceLog,
    /// The logarithm of the Sync interval that is requested, from -7 to 4; -4 by default.
    pub log_sync: Log,
    /// The logarithm of the Delay_Resp interval that is requested, from -7 to 4; by default none
    /// is.
    pub log_delay: Option<Log>,
    /// The duration that is requested, 300 seconds by default.
    pub duration: GrantSeconds,
    /// The masters, 1 to 16 with distinct addresses.
    pub masters: MasterList,
}

// So many rounds, so many times over.
fn times_over(rounds: u32, repeat: u32) -> u64
    ensures value { result ≡ rounds * repeat }
    ensures range { 1 ≤ rounds → IsRepeat repeat → IsRoundCount result }
{
    u64::from(rounds) * u64::from(repeat)
}

impl GmSettings {
    /// How many rounds the daemon does in all: `rounds` of them, `repeat` times over. In their
    /// ranges they make 1 to 4294967295000.
    pub fn all_rounds(&self) -> u64
        ensures value { result ≡ all_rounds self.now }
        ensures range { IsGmInRange self.now → IsRoundCount result }
    {
        times_over(self.rounds, self.repeat)
    }
}

impl SlaveSettings {
    /// How many rounds the daemon does in all: `rounds` of them, `repeat` times over. In their
    /// ranges they make 1 to 4294967295000.
    pub fn all_rounds(&self) -> u64
        ensures value { result ≡ all_slave_rounds self.now }
        ensures range { IsSlaveInRange self.now → IsRoundCount result }
    {
        times_over(self.rounds, self.repeat)
    }
}
