//! The half that a datagram spells.

ghost use Rattle.std.specs.Prelude.{◌≡◌, IfOk, IfSome};
ghost use Rattle.ptu_show.specs.{Halves.{half_in}, Waiting.{IsHalf}};

use crate::half::Half;
use ptu_messages::{MessageFault, read_message};
use ptu_units::OutOfMemory;
use std::alloc::Global;

/// The half of a Sync in two steps that a datagram spells, if it spells one.
///
/// # Errors
/// `OutOfMemory`, for the TLVs of a Signaling alone.
#[inline(always)]
#[tactic(auto, unfolding(crate::specs::Halves::half_in))]
pub fn read_half(alloc: Global, bytes: &[u8]) -> Result<Option<Half>, OutOfMemory>
    ensures half { IfOk result (λ half. half ≡ half_in bytes.now) }
    ensures read { IfOk result (λ half. IfSome half IsHalf) }
{
    match read_message(alloc, bytes) {
        Ok(message) => Ok(Half::of(&message)),
        Err(MessageFault::OutOfMemory) => Err(OutOfMemory),
        Err(_) => Ok(None),
    }
}
