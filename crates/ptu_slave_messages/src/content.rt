//! What a slave keeps of a message that it accepts.

use crate::signal::SignalList;
use ptu_messages::{PortIdentity, TlvList};

/// What a slave needs of a message that it takes.
#[derive(Drop)]
pub struct Accepted {
    /// The place of the master that sent it.
    pub master: usize,
    /// The sourcePortIdentity.
    pub source: PortIdentity,
    /// The sequenceId.
    pub sequence: u16,
    pub content: Content,
}

/// What a slave needs of the body of a message.
#[derive(Drop)]
pub enum Content {
    /// With its clockClass.
    Announce(u8),
    Sync,
    FollowUp,
    DelayResp,
    /// What a Signaling says, and the ACKNOWLEDGE_CANCELs that answer it.
    Signals(SignalList, TlvList),
}
