//! The TLVs of a Signaling as a list.

use crate::Tlv;
use ptu_units::Listed;

/// The TLVs of a Signaling, in their order. A clause sees it as their list.
pub type TlvList = Listed<Tlv>;
