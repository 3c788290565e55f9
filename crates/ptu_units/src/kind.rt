//! The kinds of message that can be granted: Announce, Sync and Delay_Resp.

ghost use Rattle.std.specs.Prelude.{◌≡◌, ◌<◌};
ghost use Rattle.ptu_units.specs.Kind.{code_of, kind_of};

use crate::message_types::{ANNOUNCE, DELAY_RESP, SYNC};

/// A kind of message that a grandmaster grants by unicast negotiation, in the order in which kinds
/// are listed (IEEE 1588-2019 clause 16.1.1).
#[derive(Clone, Copy, Debug, PartialEq, Eq, PartialOrd, Ord, Hash)]
pub enum Kind {
    Announce,
    Sync,
    DelayResp,
}

impl Kind {
    /// The kind with this messageType, or `None` where no kind has it (IEEE 1588-2019 table 36).
    pub fn of(code: u8) -> Option<Kind>
        ensures { result ≡ kind_of code }
    {
        match code {
            ANNOUNCE => Some(Kind::Announce),
            SYNC => Some(Kind::Sync),
            DELAY_RESP => Some(Kind::DelayResp),
            _ => None,
        }
    }

    /// The messageType of the kind (IEEE 1588-2019 table 36).
    pub fn code(self) -> u8
        ensures code { result ≡ code_of self }
        ensures four_bits { result < 16 }
    {
        match self {
            Kind::Announce => ANNOUNCE,
            Kind::Sync => SYNC,
            Kind::DelayResp => DELAY_RESP,
        }
    }
}
