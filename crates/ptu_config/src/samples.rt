//! Values for tests and examples: the settings of a grandmaster.

use crate::GmSettings;
use ptu_units::{Capacity, Domain, Epoch, GrantSeconds, PortNumber, Senders, UdpPortNumber};

/// A grandmaster at 127.0.0.1 on the ports of the standard, which serves one round on one thread:
/// domain 4, clockClass 84, capacity 8, and grants of at most 1000 s.
pub const GM_SETTINGS: GmSettings = GmSettings {
    ip: 0x7f00_0001,
    event_port: UdpPortNumber::EVENT,
    general_port: UdpPortNumber::GENERAL,
    clock: 0x0a00_0000_0000_0001,
    port: PortNumber::DEFAULT,
    domain: Domain::DEFAULT,
    rounds: 1,
    repeat: 1,
    class: 84,
    capacity: Capacity::SAMPLE,
    max_duration: GrantSeconds::LONGEST,
    epoch: Epoch::DEFAULT,
    senders: Senders::DEFAULT,
    change_round: 0,
    new_capacity: None,
    two_step: false,
    control_port: None,
    control_key: None,
};
