//! A whole message as a value: what is kept of its header, and its body by messageType (IEEE
//! 1588-2019 clause 13).

use crate::tlv_list::TlvList;
use crate::{Header, PortIdentity};
use ptu_units::Stamp;

/// A message: what is kept of its header, and its body (IEEE 1588-2019 clause 13).
#[derive(Debug, Drop)]
pub struct Message {
    /// The common header.
    pub header: Header,
    /// What stands behind it.
    pub body: Body,
}

/// What stands behind the header of a message, by its messageType (IEEE 1588-2019 table 36).
#[derive(Debug, Drop)]
pub enum Body {
    /// Type 0, with its originTimestamp (IEEE 1588-2019 clause 13.6).
    Sync(Stamp),
    /// Type 1, with its originTimestamp (IEEE 1588-2019 clause 13.6).
    DelayReq(Stamp),
    /// Type 8, with its preciseOriginTimestamp (IEEE 1588-2019 clause 13.7).
    FollowUp(Stamp),
    /// Type 9, with its receiveTimestamp and requestingPortIdentity (IEEE 1588-2019 clause 13.8).
    DelayResp(Stamp, PortIdentity),
    /// Type 11 (IEEE 1588-2019 clause 13.5).
    Announce(AnnounceBody),
    /// Type 12, with its targetPortIdentity and TLVs (IEEE 1588-2019 clause 13.12).
    Signaling(PortIdentity, TlvList),
    /// Any other type, whose body is not read.
    Ignored,
}

/// The body of an Announce (IEEE 1588-2019 clause 13.5).
#[derive(Clone, Copy, Debug)]
pub struct AnnounceBody {
    /// The originTimestamp.
    pub origin: Stamp,
    /// The currentUtcOffset, in seconds.
    pub utc_offset: i16,
    /// The grandmasterPriority1.
    pub priority1: u8,
    /// The clockClass of the grandmaster's clock quality.
    pub class: u8,
    /// The clockAccuracy of the grandmaster's clock quality.
    pub accuracy: u8,
    /// The offsetScaledLogVariance of the grandmaster's clock quality.
    pub variance: u16,
    /// The grandmasterPriority2.
    pub priority2: u8,
    /// The grandmasterIdentity, its first octet the highest.
    pub grandmaster: u64,
    /// The stepsRemoved.
    pub steps: u16,
    /// The timeSource.
    pub time_source: u8,
}
