//! The TLVs of a Signaling that a grandmaster decides: REQUEST and CANCEL.

use ptu_messages::Ask;
use ptu_units::Listed;

/// What a Signaling asks of a grandmaster by one of its TLVs (IEEE 1588-2019 clause 16.1.4).
#[derive(Clone, Copy, Debug, PartialEq, Eq)]
pub enum Item {
    /// A REQUEST_UNICAST_TRANSMISSION.
    Request(Ask),
    /// A CANCEL_UNICAST_TRANSMISSION of this messageType, of 4 bits.
    Cancel(u8),
}

/// The items of a Signaling, in their order. A clause sees it as their list.
pub type Items = Listed<Item>;
