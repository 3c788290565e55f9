//! What a grandmaster takes out of a datagram: a Delay_Req, or the items of a Signaling.

use crate::item::Items;
use ptu_messages::Header;

/// What a grandmaster hears in a datagram.
#[derive(Drop)]
pub enum Heard {
    /// A Delay_Req with this header (IEEE 1588-2019 clause 13.6).
    DelayReq(Header),
    /// A Signaling with this header, and its items (IEEE 1588-2019 clause 13.12).
    Asks(Header, Items),
}
