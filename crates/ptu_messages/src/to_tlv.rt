//! Values that are sent as a TLV. With this trait a Signaling is written from decisions, without a
//! list of TLVs in between.

ghost use Rattle.std.specs.Prelude.{◌≡◌};
ghost use Rattle.ptu_messages.specs.declared.tlv.Tlv as declared;

use crate::Tlv;

/// A value that is sent as a TLV.
pub trait ToTlv {
    /// The TLV.
    ghost tlv: { Self → declared.Tlv };

    /// The TLV that it is sent as.
    fn to_tlv(&self) -> Tlv
        ensures { result ≡ tlv self.now };
}

impl ToTlv for Tlv {
    ghost tlv = { λ tlv. tlv };

    fn to_tlv(&self) -> Tlv {
        *self
    }
}
