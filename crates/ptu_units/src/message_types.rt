//! The messageTypes of the messages that are read and sent (IEEE 1588-2019 table 36).

/// Sync.
pub const SYNC: u8 = 0;

/// Delay_Req.
pub const DELAY_REQ: u8 = 1;

/// Follow_Up.
pub const FOLLOW_UP: u8 = 8;

/// Delay_Resp.
pub const DELAY_RESP: u8 = 9;

/// Announce.
pub const ANNOUNCE: u8 = 11;

/// Signaling.
pub const SIGNALING: u8 = 12;
