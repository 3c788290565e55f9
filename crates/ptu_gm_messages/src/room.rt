//! Memory that is used again for each Signaling, so that a datagram needs no new lists.

use crate::item::{Item, Items};
use ptu_messages::{Body, Message, Tlv};
use ptu_units::sizes::LONGEST_SIGNALING;
use std::alloc::Global;

/// Room for the lists of one Signaling, and for its answer, which is kept for those of the next. A
/// clause says nothing of it.
#[derive(Drop)]
pub struct HearingRoom {
    pub(crate) tlvs: Vec<Tlv>,
    pub(crate) items: Vec<Item>,
    /// For the octets of the Signaling that answers.
    pub reply: [u8; LONGEST_SIGNALING],
}

impl HearingRoom {
    /// Room for no item yet. It allocates nothing.
    pub fn new(alloc: Global) -> HearingRoom {
        HearingRoom {
            tlvs: Vec::new(alloc),
            items: Vec::new(alloc),
            reply: [0; LONGEST_SIGNALING],
        }
    }

    /// Takes back the room of items that are done with.
    pub fn keep(&mut self, items: Items) {
        self.items = items.into_list();
    }

    // Takes back the room of the TLVs of a message that is done with.
    pub(crate) fn keep_tlvs(&mut self, message: Message) {
        if let Body::Signaling(_, tlvs) = message.body {
            self.tlvs = tlvs.into_list();
        }
    }
}
