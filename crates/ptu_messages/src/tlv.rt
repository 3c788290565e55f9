//! The TLVs of unicast negotiation as values (IEEE 1588-2019 clauses 14.1 and 16.1.4).

use ptu_units::sizes::SYNC_LENGTH;

/// The tlvType of REQUEST_UNICAST_TRANSMISSION (IEEE 1588-2019 clause 14.1, table 52).
pub(crate) const REQUEST: u16 = 0x0004;

/// The tlvType of GRANT_UNICAST_TRANSMISSION.
pub(crate) const GRANT: u16 = 0x0005;

/// The tlvType of CANCEL_UNICAST_TRANSMISSION.
pub(crate) const CANCEL: u16 = 0x0006;

/// The tlvType of ACKNOWLEDGE_CANCEL_UNICAST_TRANSMISSION.
pub(crate) const ACKNOWLEDGE: u16 = 0x0007;

/// Where the TLVs of a Signaling begin, behind its header and its targetPortIdentity (IEEE
/// 1588-2019 clause 13.12).
pub(crate) const TLVS_AT: usize = SYNC_LENGTH;

/// The lengthField of a REQUEST_UNICAST_TRANSMISSION, in octets (IEEE 1588-2019 clause 16.1.4.1).
pub(crate) const REQUEST_LENGTH: u16 = 6;

/// The lengthField of a GRANT_UNICAST_TRANSMISSION.
pub(crate) const GRANT_LENGTH: u16 = 8;

/// The lengthField of a CANCEL_UNICAST_TRANSMISSION and of its acknowledgement.
pub(crate) const KIND_LENGTH: u16 = 2;

/// What is asked for, or granted: messages of a kind, how often and for how long
/// (IEEE 1588-2019 clause 16.1.4.1).
#[derive(Clone, Copy, Debug, PartialEq, Eq)]
pub struct Ask {
    /// The messageType of the kind, of 4 bits.
    pub code: u8,
    /// The logInterMessagePeriod: the logarithm to base 2 of the mean interval in seconds.
    pub log: i8,
    /// The durationField, in seconds.
    pub seconds: u32,
}

/// A TLV as a Signaling message carries it (IEEE 1588-2019 clauses 14.1 and 16.1.4).
#[derive(Clone, Copy, Debug, PartialEq, Eq)]
pub enum Tlv {
    /// REQUEST_UNICAST_TRANSMISSION.
    Request(Ask),
    /// GRANT_UNICAST_TRANSMISSION, with R, which invites a renewal. A denial has the duration 0.
    Grant(Ask, bool),
    /// CANCEL_UNICAST_TRANSMISSION of the kind with this messageType.
    Cancel(u8),
    /// ACKNOWLEDGE_CANCEL_UNICAST_TRANSMISSION of the kind with this messageType.
    Ack(u8),
    /// A TLV of another type, whose value is not read.
    Other {
        /// The tlvType.
        tlv_type: u16,
        /// The lengthField, in octets.
        length: u16,
    },
}
