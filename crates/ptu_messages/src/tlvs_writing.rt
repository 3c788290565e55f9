//! Writes a TLV of unicast negotiation to octets (IEEE 1588-2019 clauses 14.1 and 16.1.4).

ghost use Rattle.std.specs.Prelude.{◌≡◌, ◌<◌, ◌≤◌, ◌*◌, ◌++◌, ◌∷◌, [], length, take, drop};
ghost use Rattle.ptu_units.specs.Number.{octets_of};
ghost use Rattle.ptu_messages.specs.Tlv.{HasAskWidths, AlwaysBeginsWithTlv};
ghost use Rattle.ptu_messages.specs.TlvsSent.{HasShortCode, IsSendable, sent_ask, sent_tlv};

use crate::tlv::{
    ACKNOWLEDGE, Ask, CANCEL, GRANT, GRANT_LENGTH, KIND_LENGTH, REQUEST, REQUEST_LENGTH, Tlv,
};
use ptu_units::sizes::LONGEST_TLV;

// The six octets of what is asked for or granted.
fn ask(ask: Ask) -> [u8; 6]
    requires { ask.code < 16 }
    ensures octets { result ≡ sent_ask ask }
    ensures widths { HasAskWidths ask }
{
    let [s0, s1, s2, s3] = ask.seconds.to_be_bytes();
    [ask.code << 4, ask.log.cast_unsigned(), s0, s1, s2, s3]
}

// Puts the octets at the front, and says how many they are.
fn put(out: &mut [u8; LONGEST_TLV], octets: &[u8]) -> usize
    requires { length octets.now ≤ 12 }
    ensures count { result ≡ length octets.now }
    ensures front { take result out.new ≡ octets.now }
    ensures rest { drop result out.new ≡ drop result out.old }
{
    out[..octets.len()].copy_from_slice(octets);
    octets.len()
}

// The tlvType and the lengthField.
fn head(tlv_type: u16, length: u16) -> [u8; 4]
    ensures { result ≡ octets_of 2 tlv_type ++ octets_of 2 length }
{
    let [t0, t1] = tlv_type.to_be_bytes();
    let [l0, l1] = length.to_be_bytes();
    [t0, t1, l0, l1]
}

// The octets of a TLV of this tlvType that names a kind alone, by its messageType.
fn kind_tlv(tlv_type: u16, code: u8) -> [u8; 6]
    requires { code < 16 }
    ensures { result ≡ octets_of 2 tlv_type ++ 0 ∷ 2 ∷ 16 * code ∷ 0 ∷ [] }
{
    let [t0, t1, l0, l1] = head(tlv_type, KIND_LENGTH);
    [t0, t1, l0, l1, code << 4, 0]
}

// Puts the TLV at the front, and says how many octets it is sent in: none where its type is another
// one.
fn put_tlv(tlv: &Tlv, out: &mut [u8; LONGEST_TLV]) -> usize
    requires { HasShortCode tlv.now }
    ensures size { result ≡ length (sent_tlv tlv.now) }
    ensures octets { take result out.new ≡ sent_tlv tlv.now }
    ensures rest { drop result out.new ≡ drop result out.old }
    ensures again { IsSendable tlv.now → AlwaysBeginsWithTlv (take result out.new) tlv.now }
{
    match *tlv {
        Tlv::Request(asked) => {
            let [t0, t1, l0, l1] = head(REQUEST, REQUEST_LENGTH);
            let [code, log, s0, s1, s2, s3] = ask(asked);
            put(out, &[t0, t1, l0, l1, code, log, s0, s1, s2, s3])
        }
        Tlv::Grant(granted, invited) => {
            let [t0, t1, l0, l1] = head(GRANT, GRANT_LENGTH);
            let [code, log, s0, s1, s2, s3] = ask(granted);
            let invited = u8::from(invited);
            put(
                out,
                &[t0, t1, l0, l1, code, log, s0, s1, s2, s3, 0, invited],
            )
        }
        Tlv::Cancel(code) => put(out, &kind_tlv(CANCEL, code)),
        Tlv::Ack(code) => put(out, &kind_tlv(ACKNOWLEDGE, code)),
        Tlv::Other { .. } => put(out, &[]),
    }
}

/// Writes the TLV to the front of `out` with 0 in what is reserved, and answers its size in octets.
/// It leaves the rest of `out` (IEEE 1588-2019 clauses 14.1 and 16.1.4).
pub fn write_tlv(tlv: &Tlv, out: &mut [u8; LONGEST_TLV]) -> usize
    requires { IsSendable tlv.now }

    ensures size { result ≡ length (sent_tlv tlv.now) }
    ensures octets { take result out.new ≡ sent_tlv tlv.now }
    ensures rest { drop result out.new ≡ drop result out.old }
    // Whatever follows, it is read as this TLV.
    ensures again { AlwaysBeginsWithTlv (take result out.new) tlv.now }
{
    put_tlv(tlv, out)
}
