//! The halves of a Sync in two steps.

ghost use Rattle.std.specs.Prelude.{◌≡◌, ◌<◌, ◌^◌, true, IfSome};
ghost use Rattle.ptu_messages.specs.Sent.{IsFixed};
ghost use Rattle.ptu_show.specs.Halves.{has_two_steps, half_by, is_other, joined, key_of, joined_sync};
ghost use Rattle.ptu_show.specs.Waiting.{IsHalf, IsHeaderOf};

use ptu_messages::{Body, Header, Message, PortIdentity, flags};
use ptu_units::Stamp;

/// What the halves of one Sync have in common.
#[derive(Clone, Copy, PartialEq, Eq, Hash)]
pub struct HalfKey {
    /// The domainNumber.
    pub domain: u8,
    /// The sourcePortIdentity.
    pub source: PortIdentity,
    /// The sequenceId.
    pub sequence: u16,
}

/// Which half of a Sync in two steps a message is.
#[derive(Clone, Copy)]
pub enum Part {
    /// The Sync, with twoStepFlag.
    Sync,
    /// The Follow_Up.
    FollowUp,
}

impl Part {
    /// One is the Sync and one the Follow_Up.
    #[inline(always)]
    pub fn is_other(self, part: Part) -> bool
        ensures { result ≡ is_other self part }
    {
        matches!(
            (self, part),
            (Part::Sync, Part::FollowUp) | (Part::FollowUp, Part::Sync)
        )
    }
}

/// A half of a Sync in two steps (IEEE 1588-2019 clauses 13.6 and 13.7).
#[derive(Clone, Copy)]
pub struct Half {
    /// Which one it is.
    pub part: Part,
    /// Its header.
    pub header: Header,
    /// The originTimestamp of the Sync, or the preciseOriginTimestamp of the Follow_Up.
    pub stamp: Stamp,
}

// twoStepFlag is set.
#[inline(always)]
fn has_two_steps(header: &Header) -> bool
    ensures { result ≡ has_two_steps header.now }
{
    header.flags / flags::TWO_STEP % 2 == 1
}

// The Sync in one step, of a Sync in two and its Follow_Up.
#[inline(always)]
fn sync_of(sync: &Half, follow_up: &Half) -> Option<Message>
    requires header { IsHeaderOf Part.Sync sync.now.header }
    requires seconds { follow_up.now.stamp.seconds < 2 ^ 48 }
    ensures sync { result ≡ joined_sync sync.now follow_up.now }
    ensures fixed { IfSome result IsFixed }
{
    let correction = sync
        .header
        .correction
        .checked_add(follow_up.header.correction)?;
    let header = Header {
        flags: sync.header.flags - flags::TWO_STEP,
        correction,
        ..sync.header
    };
    Some(Message {
        header,
        body: Body::Sync(follow_up.stamp),
    })
}

impl Half {
    /// The half that a message is, if it is one.
    #[inline(always)]
    pub fn of(message: &Message) -> Option<Half>
        ensures { result ≡ half_by message.now.header message.now.body }
    {
        let header = message.header;
        match message.body {
            Body::Sync(stamp) if has_two_steps(&header) => Some(Half {
                part: Part::Sync,
                header,
                stamp,
            }),
            Body::FollowUp(stamp) => Some(Half {
                part: Part::FollowUp,
                header,
                stamp,
            }),
            _ => None,
        }
    }

    /// What it has in common with the other half.
    #[inline(always)]
    pub fn key(&self) -> HalfKey
        ensures { result ≡ key_of self.now }
    {
        HalfKey {
            domain: self.header.domain,
            source: self.header.source,
            sequence: self.header.sequence,
        }
    }

    /// The Sync that it and the half before it come to, one of which is the Sync in two steps and
    /// one its Follow_Up: it has the header of the first without twoStepFlag, the sum of both
    /// correctionFields, and the timestamp of the second. There is none where that sum does not
    /// fit the correctionField.
    #[inline(always)]
    pub fn joined(&self, before: &Half) -> Option<Message>
        requires before { IsHalf before.now }
        requires half { IsHalf self.now }
        requires other { is_other before.now.part self.now.part ≡ true }
        ensures sync { result ≡ joined before.now self.now }
        ensures fixed { IfSome result IsFixed }
    {
        match self.part {
            Part::Sync => sync_of(self, before),
            Part::FollowUp => sync_of(before, self),
        }
    }
}
