//! What a datagram is to a slave: ignored, or a message of one of its masters.

use crate::reason::SlaveReason;
use crate::signal::SignalList;
use ptu_outside::Reply;
use ptu_units::Moment;

/// What a slave makes of a datagram: it ignores it, or hears a message of one of its masters, which
/// is named by its place, at the moment of the event.
#[derive(Drop)]
pub enum Heard {
    Ignored(SlaveReason),
    Announce {
        at: Moment,
        master: usize,
        /// The clockClass.
        class: u8,
    },
    Sync {
        at: Moment,
        master: usize,
        /// The sequenceId.
        seq: u16,
    },
    FollowUp {
        at: Moment,
        master: usize,
    },
    DelayResp {
        at: Moment,
        master: usize,
        /// The sequenceId.
        seq: u16,
    },
    /// A Signaling, with what became of the reply to its CANCELs.
    Signals {
        at: Moment,
        master: usize,
        list: SignalList,
        reply: HeardReply,
    },
}

/// What became of the reply to the CANCELs of a Signaling: `Nothing` where there is no CANCEL.
pub type HeardReply = Reply;
