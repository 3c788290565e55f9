//! Sends one datagram, and says in one fact of the contract what became of it and of the port.

ghost use Rattle.std.specs.Prelude.{[], ◌∷◌};
ghost use Rattle.ptu_outside.specs.HandsOver.{HandsOver, failed_in, sent_in};

use crate::channel::Channel;
use crate::failed::Failed;
use crate::port::Port;

/// Hands one datagram to the port, to this IPv4 address (its first octet the highest) on this
/// channel, and says in one fact what became of it and of the port.
///
/// # Errors
/// `Failed`, only where the port's count of faults rose.
#[inline(always)]
pub fn hand<P: Port>(port: &mut P, ip: u32, channel: Channel, bytes: &[u8]) -> Result<(), Failed>
    ensures { HandsOver P.Port port.old port.new
        (record { ip = ip; channel = channel; bytes = bytes.now } ∷ [])
        (sent_in result) (failed_in result) }
{
    port.send(ip, channel, bytes)
}
