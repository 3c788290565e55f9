//! The sizes of what is received and sent, in octets.

/// The longest datagram that is received (the project's own choice).
pub const LONGEST_DATAGRAM: usize = 2048;

/// How many TLVs a Signaling is read and sent with at most (the project's own choice).
pub const MOST_TLVS: usize = 32;

/// The longest TLV that is sent, a GRANT_UNICAST_TRANSMISSION with its type and length (IEEE
/// 1588-2019 clause 16.1.4.2).
pub const LONGEST_TLV: usize = 12;

/// The longest Signaling that is sent: a header of 34 octets, a targetPortIdentity of 10 and 32
/// TLVs of 12 each (IEEE 1588-2019 clauses 13.12 and 16.1.4).
pub const LONGEST_SIGNALING: usize = 428;

/// A header (IEEE 1588-2019 clause 13.3).
pub const HEADER_LENGTH: usize = 34;

/// A Sync, Delay_Req or Follow_Up, and the least of a Signaling: a header, and a timestamp or a
/// targetPortIdentity of 10 (clauses 13.6, 13.7 and 13.12).
pub const SYNC_LENGTH: usize = 44;

/// A Delay_Resp: a header, a timestamp and a requestingPortIdentity (clause 13.8).
pub const DELAY_RESP_LENGTH: usize = 54;

/// An Announce (clause 13.5).
pub const ANNOUNCE_LENGTH: usize = 64;
