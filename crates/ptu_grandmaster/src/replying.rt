//! Replies to the items of a Signaling.

ghost use Rattle.std.specs.Prelude.{◌≡◌, ◌↔◌, ◌≤◌, [], map, take, drop};
ghost use Rattle.ptu_messages.specs.Sent.{AlwaysSpells, octets_sent};
ghost use Rattle.ptu_gm_messages.specs.{Deciding.{answer_to}, Items.{AreAnswerable}};
ghost use Rattle.ptu_gm_messages.specs.Replies.{reply_to, signaling_of};
ghost use Rattle.ptu_grandmaster.specs.Outcomes.{answers_seen, decision_seen, item_seen};
ghost use Rattle.ptu_grandmaster.specs.Taking.{Replies};

use crate::outcome::{Outcome, Outcomes};
use ptu_admit::Verdict;
use ptu_gm_messages::write_reply;
use ptu_messages::{Ask, Header, PortIdentity, Tlv, ToTlv};
use ptu_outside::{Channel, Port, Reply, hand};
use ptu_profile::GmConfig;
use ptu_units::sizes::LONGEST_SIGNALING;

impl ToTlv for Outcome {
    ghost tlv = { λ outcome. answer_to (decision_seen outcome) };

    // The TLV that answers an item: a grant has R set and the granted duration, a denial R clear
    // and the duration 0.
    fn to_tlv(&self) -> Tlv {
        match *self {
            Outcome::Verdict(ask, Verdict::Granted(grant)) => Tlv::Grant(
                Ask {
                    seconds: grant.seconds(),
                    ..ask
                },
                true,
            ),
            Outcome::Verdict(ask, Verdict::Short(_) | Verdict::Outside(_)) => {
                Tlv::Grant(Ask { seconds: 0, ..ask }, false)
            }
            Outcome::Cancel(code, _) => Tlv::Ack(code),
        }
    }
}

/// Writes the reply with the answers to these outcomes, to this port and with this sequenceId, to
/// the front of `out`. It answers the size in octets and leaves the rest of `out` (IEEE 1588-2019
/// clause 16.1.4).
pub fn reply_of(
    config: &GmConfig,
    to: &PortIdentity,
    sequence: u16,
    outcomes: &Outcomes,
    out: &mut [u8; LONGEST_SIGNALING],
) -> usize
    requires { AreAnswerable (map item_seen outcomes.now) }
    ensures octets { take result out.new
        ≡ octets_sent (signaling_of config.now to.now sequence (answers_seen outcomes.now)) }
    ensures within { result ≤ 428 }
    ensures rest { drop result out.new ≡ drop result out.old }
    // Whatever follows, it is read as this message.
    ensures again { AlwaysSpells (take result out.new)
        (signaling_of config.now to.now sequence (answers_seen outcomes.now)) }
{
    write_reply(config, to, sequence, outcomes.list(), out)
}

/// Sends the reply to a Signaling with this header, which came from this IPv4 address. Its octets
/// take the room.
pub(crate) fn send_reply<P: Port>(
    port: &mut P,
    config: &GmConfig,
    from: u32,
    header: &Header,
    outcomes: &Outcomes,
    room: &mut [u8; LONGEST_SIGNALING],
) -> Reply
    requires { AreAnswerable (map item_seen outcomes.now) }
    ensures replies { Replies P.Port result port.old port.new
        (reply_to config.now from header.now (answers_seen outcomes.now)) }
    ensures nothing { (result ≡ Reply.Nothing) ↔ (outcomes.now ≡ []) }
    ensures waiting { P.waiting port.new ≡ P.waiting port.old }
{
    if outcomes.list().is_empty() {
        return Reply::Nothing;
    }
    let size = reply_of(config, &header.source, header.sequence, outcomes, room);
    match hand(port, from, Channel::General, &room[..size]) {
        Ok(()) => Reply::Sent,
        Err(_) => Reply::Failed,
    }
}
