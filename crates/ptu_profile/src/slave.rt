//! The configuration of a slave and its masters, and the headers of its messages.

ghost use Rattle.std.specs.Prelude.{◌≡◌};

use crate::headers::header_from;
use ptu_messages::{Header, PortIdentity};
use ptu_record::Wants;
use ptu_units::{Domain, ReceiptTimeout, WaitToRestore};

/// A master of a slave.
#[derive(Clone, Copy)]
pub struct Master {
    /// Its IPv4 address, the first octet the highest.
    pub ip: u32,
    /// Its priority number; a lower one is better.
    pub priority: u8,
}

/// What a slave is set up with. The types of its fields keep them within their limits.
#[derive(Clone, Copy)]
pub struct SlaveConfig {
    /// Its own port identity, which its messages have as sourcePortIdentity.
    pub identity: PortIdentity,
    /// Its domainNumber.
    pub domain: Domain,
    /// What it requests of each master.
    pub wants: Wants,
    /// The announce receipt timeout.
    pub announce_timeout: ReceiptTimeout,
    /// The receipt timeout of Sync messages.
    pub sync_timeout: ReceiptTimeout,
    /// The receipt timeout of Delay_Resps.
    pub delay_timeout: ReceiptTimeout,
    /// The wait to restore.
    pub wait: WaitToRestore,
}

impl SlaveConfig {
    ghost use Rattle.ptu_profile.specs.Slave.{slave_header};

    /// The header of a message of this type and with this sequenceId; its correctionField is 0.
    pub fn header(&self, message_type: u8, sequence: u16) -> Header
        ensures { result ≡ slave_header self.now message_type sequence }
    {
        header_from(self.identity, self.domain, message_type, 0, sequence)
    }
}
