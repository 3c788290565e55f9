//! Writes the messages of a fixed length: Sync, Delay_Req, Follow_Up, Delay_Resp and Announce (IEEE
//! 1588-2019 clauses 13.5 to 13.8).

ghost use Rattle.std.specs.Prelude.{◌≡◌, ◌+◌, ◌<◌, ◌≤◌, ◌++◌, ◌^◌, length, take, drop};
ghost use Rattle.ptu_messages.specs.Header.{AlwaysSpellsHeader, HasIdentityWidths};
ghost use Rattle.ptu_messages.specs.HeaderSent.{sent_header, sent_identity};
ghost use Rattle.ptu_messages.specs.Message.{HasBodyWidths, HasStampWidths};
ghost use Rattle.ptu_messages.specs.Sent.{sent_front, sent_message, sent_stamp, IsFixed, IsFixedBody, HasShortStamp, AlwaysSpells};

use crate::announcing::announce_octets;
use crate::message::{Body, Message};
use crate::putting::put;
use crate::stamps::stamp_octets;
use crate::{Header, PortIdentity, write_header};
use ptu_units::Stamp;
use ptu_units::sizes::{ANNOUNCE_LENGTH, HEADER_LENGTH};

// Puts the header and the body at the front, and says how many octets they are.
fn put_message(out: &mut [u8; ANNOUNCE_LENGTH], header: &Header, body: &[u8]) -> usize
    requires message_type { header.now.message_type < 16 }
    requires room { length body.now ≤ 30 }
    ensures size { result ≡ 34 + length body.now }
    ensures octets { take result out.new ≡ sent_header header.now result ++ body.now }
    ensures rest { drop result out.new ≡ drop result out.old }
    ensures again { AlwaysSpellsHeader (sent_header header.now result) header.now result }
{
    let size = HEADER_LENGTH + body.len();
    let mut front = [0; HEADER_LENGTH];
    write_header(header, size as u16, &mut front);
    put(out, 0, &front);
    put(out, HEADER_LENGTH, body);
    size
}

// The twenty octets of the body of a Delay_Resp.
fn response_octets(stamp: Stamp, requester: PortIdentity) -> [u8; 20]
    requires { stamp.seconds < 2 ^ 48 }
    ensures octets { result ≡ sent_stamp stamp ++ sent_identity requester }
    ensures widths { HasStampWidths stamp × HasIdentityWidths requester }
{
    let [a, b, c, d, e, f, g, h, i, j] = stamp_octets(stamp);
    let [k, l, m, n, o, p, q, r, s, t] = requester.octets();
    [a, b, c, d, e, f, g, h, i, j, k, l, m, n, o, p, q, r, s, t]
}

// Puts the header and the part of the body that has a fixed length: of a Signaling that is its
// targetPortIdentity, and of a body that is not read nothing. Says how many octets they are.
#[inline(always)]
fn put_front(message: &Message, out: &mut [u8; ANNOUNCE_LENGTH]) -> usize
    requires message_type { message.now.header.message_type < 16 }
    requires stamp { HasShortStamp message.now.body }
    ensures size { result ≡ 34 + length (sent_front message.now.body) }
    ensures octets { take result out.new
        ≡ sent_header message.now.header result ++ sent_front message.now.body }
    ensures rest { drop result out.new ≡ drop result out.old }
    ensures again { AlwaysSpellsHeader (sent_header message.now.header result) message.now.header
        result }
    ensures widths { IsFixedBody message.now.body → HasBodyWidths message.now.body }
{
    let header = &message.header;
    match message.body {
        Body::Sync(stamp) => put_message(out, header, &stamp_octets(stamp)),
        Body::DelayReq(stamp) => put_message(out, header, &stamp_octets(stamp)),
        Body::FollowUp(stamp) => put_message(out, header, &stamp_octets(stamp)),
        Body::DelayResp(stamp, requester) => {
            put_message(out, header, &response_octets(stamp, requester))
        }
        Body::Announce(body) => put_message(out, header, &announce_octets(body)),
        Body::Signaling(target, _) => put_message(out, header, &target.octets()),
        Body::Ignored => put_message(out, header, &[]),
    }
}

/// Writes a message of a fixed length to the front of `out`, and answers its size in octets: 44 for
/// a Sync, a Delay_Req and a Follow_Up, 54 for a Delay_Resp, 64 for an Announce. It leaves the rest
/// of `out` (IEEE 1588-2019 clause 13).
#[inline(always)]
pub fn write_fixed(message: &Message, out: &mut [u8; ANNOUNCE_LENGTH]) -> usize
    requires { IsFixed message.now }

    ensures size { result ≡ length (sent_message message.now) }
    ensures octets { take result out.new ≡ sent_message message.now }
    ensures rest { drop result out.new ≡ drop result out.old }
    // Whatever follows, it is read as this message.
    ensures again { AlwaysSpells (take result out.new) message.now }
{
    put_front(message, out)
}
