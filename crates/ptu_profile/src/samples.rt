//! Values for tests and examples.

use crate::GmConfig;
use ptu_messages::PortIdentity;
use ptu_units::{Domain, Epoch, GrantSeconds};

/// A grandmaster's fields: domain 4, clockClass 84, and grants of at most 300 s.
pub const CONFIG: GmConfig = GmConfig {
    identity: PortIdentity {
        clock: 0x0a00_0000_0000_0001,
        port: 1,
    },
    domain: Domain::DEFAULT,
    class: 84,
    max_duration: GrantSeconds::REQUESTED,
    epoch: Epoch::DEFAULT,
};
