//! What became of a datagram: of each of its items, and of the reply.

use ptu_admit::{Cancelled, Verdict};
use ptu_gm_messages::GmReason;
use ptu_messages::Ask;
use ptu_outside::Reply;
use ptu_shard::Answered;
use ptu_units::Listed;

/// What an item of a Signaling came to.
#[derive(Clone, Copy)]
pub enum Outcome {
    /// The verdict on what was asked for.
    Verdict(Ask, Verdict),
    /// The answer to a CANCEL of this messageType, or `None` where it is no kind.
    Cancel(u8, Option<Cancelled>),
}

/// The outcomes of a Signaling's items, in their order. A clause sees it as their list.
pub type Outcomes = Listed<Outcome>;

/// What a grandmaster did with a datagram.
#[derive(Drop)]
pub enum Taken {
    /// It was ignored, and nothing has changed.
    Ignored(GmReason),
    /// It is a Delay_Req, which met this.
    Delay(Answered),
    /// It is a Signaling, whose items came to this, and were answered by one reply.
    Asked(Outcomes, Reply),
}
