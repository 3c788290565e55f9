//! Tells a one-step Sync, a two-step Sync and a Follow_Up from all other datagrams.

ghost use Rattle.std.specs.Prelude.{◌≡◌, ◌<◌, length};
ghost use Rattle.ptu_daemon.specs.Steps.{step_by, step_of};

use ptu_messages::{Header, read_header};
use ptu_outside::Channel;
use ptu_units::message_types::{FOLLOW_UP, SYNC};

/// What a datagram is among the messages of one step and of two: one of exactly 44 octets whose
/// header reads with messageLength 44.
#[derive(Clone, Copy)]
pub enum Step {
    /// A Sync on the event channel with twoStepFlag clear.
    OneStepSync,
    /// A Sync on the event channel with twoStepFlag set.
    TwoStepSync,
    /// A Follow_Up on the general channel.
    FollowUp,
    /// Any other datagram.
    Other,
}

impl Step {
    ghost use Rattle.ptu_daemon.specs.Telling.{is_half};

    /// It is one of the two datagrams of a Sync in two steps.
    pub(crate) fn is_half(self) -> bool
        ensures { result ≡ is_half self }
    {
        matches!(self, Step::TwoStepSync | Step::FollowUp)
    }
}

// What a message with this header is, on this channel.
fn step_with(channel: Channel, bytes: &[u8], header: &Header) -> Step
    requires { 6 < length bytes.now }
    ensures { result ≡ step_by channel bytes.now header.now }
{
    match channel {
        Channel::Event if header.message_type == SYNC => {
            if bytes[6] / 2 % 2 == 1 {
                Step::TwoStepSync
            } else {
                Step::OneStepSync
            }
        }
        Channel::General if header.message_type == FOLLOW_UP => Step::FollowUp,
        _ => Step::Other,
    }
}

// What the datagram of these octets is, on this channel.
#[tactic(auto, unfolding(crate::specs::Steps::step_of))]
pub(crate) fn find_step(channel: Channel, bytes: &[u8]) -> Step
    ensures { result ≡ step_of channel bytes.now }
{
    if bytes.len() != 44 {
        return Step::Other;
    }
    match read_header(bytes) {
        Ok((header, length)) if length == 44 => step_with(channel, bytes, &header),
        _ => Step::Other,
    }
}
