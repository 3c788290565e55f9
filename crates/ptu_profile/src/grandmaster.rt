//! The configuration of a grandmaster, and the headers of its messages.

ghost use Rattle.std.specs.Prelude.{◌≡◌};

use crate::headers::header_from;
use ptu_messages::{Header, PortIdentity};
use ptu_units::{Domain, Epoch, GrantSeconds};

/// What a grandmaster is set up with. The types of its fields keep them within their limits.
#[derive(Clone, Copy)]
pub struct GmConfig {
    /// Its own port identity, which its messages have as sourcePortIdentity.
    pub identity: PortIdentity,
    /// Its domainNumber.
    pub domain: Domain,
    /// The clockClass of its Announces as it stands.
    pub class: u8,
    /// The longest duration that it grants.
    pub max_duration: GrantSeconds,
    /// The seconds of its timescale at moment zero.
    pub epoch: Epoch,
}

impl GmConfig {
    ghost use Rattle.ptu_profile.specs.Grandmaster.{IsWithinLimits, header_of};

    /// Does nothing. What it ensures are the limits that the types of the fields keep, for a caller
    /// whose own clauses speak of them.
    pub fn keep_limits(&self)
        ensures { IsWithinLimits self.now }
    {
        let _domain = self.domain.get();
        let _max_duration = self.max_duration.get();
        let _epoch = self.epoch.get();
    }

    /// The header of a message of this type, with this correctionField, in nanoseconds multiplied
    /// by 2^16, and this sequenceId.
    pub fn header(&self, message_type: u8, correction: i64, sequence: u16) -> Header
        ensures { result ≡ header_of self.now message_type correction sequence }
    {
        header_from(
            self.identity,
            self.domain,
            message_type,
            correction,
            sequence,
        )
    }
}
