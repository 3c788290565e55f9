//! Whom a Signaling is for, by its targetPortIdentity (IEEE 1588-2019 clause 13.12).

ghost use Rattle.std.specs.Prelude.{◌≡◌};
ghost use Rattle.ptu_profile.specs.Target.{is_target};

use ptu_messages::PortIdentity;

/// The targetPortIdentity that every port of every clock matches.
pub const ALL_ONES: PortIdentity = PortIdentity {
    clock: 0xffff_ffff_ffff_ffff,
    port: 0xffff,
};

/// Whether a targetPortIdentity matches the own port: each of its parts is the own or all ones.
pub fn is_target(own: PortIdentity, target: PortIdentity) -> bool
    ensures { result ≡ is_target own target }
{
    (target.clock == own.clock || target.clock == ALL_ONES.clock)
        && (target.port == own.port || target.port == ALL_ONES.port)
}
