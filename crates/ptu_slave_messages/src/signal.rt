//! What the TLVs of a Signaling say to a slave.

use ptu_units::{Kind, Listed};

/// What a master said of unicast transmission by a TLV (IEEE 1588-2019 clause 16.1.4).
#[derive(Clone, Copy)]
pub enum Signal {
    /// A kind that was requested is granted for so many seconds, more than 0.
    Grant(Kind, u32),
    /// A kind that was requested is denied.
    Denial(Kind),
    /// What has this messageType is cancelled.
    Cancel(u8),
    /// A CANCEL of what has this messageType is acknowledged.
    Ack(u8),
}

/// What a Signaling says, TLV by TLV. A clause sees it as their list.
pub type SignalList = Listed<Signal>;
