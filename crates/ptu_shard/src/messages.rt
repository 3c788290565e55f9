//! The timing messages of a grandmaster (IEEE 1588-2019 clause 13).

ghost use Rattle.std.specs.Prelude.{◌≡◌, ◌<◌, ◌^◌, [], ◌∷◌, List, true};
ghost use Rattle.ptu_history.specs.Turns.{is_turned};
ghost use Rattle.ptu_messages.specs.Sent.{IsFixed, octets_sent};
ghost use Rattle.ptu_outside.specs.HandsOver.{HandsOver, failed_in, sent_in};
ghost use Rattle.ptu_shard.specs.Messages.{announce_of, message_of_response, message_of_turn};

use ptu_messages::{AnnounceBody, Body, Header, Message, write_fixed};
use ptu_outside::{Channel, Failed, Port, hand};
use ptu_profile::GmConfig;
use ptu_units::message_types::DELAY_RESP;
use ptu_units::sizes::ANNOUNCE_LENGTH;
use ptu_units::timescale::stamp;
use ptu_units::{Kind, Moment};

/// The priority1 and priority2 of an Announce: the default (IEEE 1588-2019 clause 7.6.2.3).
const PRIORITY: u8 = 128;

/// The clockAccuracy of a grandmaster that does not know it (clause 7.6.2.6, table 5).
const ACCURACY_UNKNOWN: u8 = 0xfe;

/// The offsetScaledLogVariance of a grandmaster that has not computed it (clause 7.6.3.3).
const VARIANCE_UNKNOWN: u16 = 0xffff;

/// The timeSource INTERNAL_OSCILLATOR (clause 7.6.2.8, table 6).
const INTERNAL_OSCILLATOR: u8 = 0xa0;

// The body of an Announce, whose timescale is the grandmaster's own.
fn announce(config: &GmConfig, at: Moment) -> AnnounceBody
    ensures body { result ≡ announce_of config.now at }
    ensures fits { result.origin.seconds < 2 ^ 48 }
{
    AnnounceBody {
        origin: stamp(config.epoch, at),
        utc_offset: 0,
        priority1: PRIORITY,
        class: config.class,
        accuracy: ACCURACY_UNKNOWN,
        variance: VARIANCE_UNKNOWN,
        priority2: PRIORITY,
        grandmaster: config.identity.clock,
        steps: 0,
        time_source: INTERNAL_OSCILLATOR,
    }
}

/// The message of a kind that a turn sends.
pub(crate) fn turn_message(config: &GmConfig, at: Moment, kind: Kind, sequence: u16) -> Message
    ensures message { result ≡ message_of_turn config.now at kind sequence }
    ensures fixed { is_turned kind ≡ true → IsFixed result }
{
    Message {
        header: config.header(kind.code(), 0, sequence),
        body: match kind {
            Kind::Announce => Body::Announce(announce(config, at)),
            Kind::Sync => Body::Sync(stamp(config.epoch, at)),
            Kind::DelayResp => Body::Ignored,
        },
    }
}

/// The Delay_Resp that answers a Delay_Req with this header.
pub(crate) fn response_message(config: &GmConfig, at: Moment, request: &Header) -> Message
    ensures message { result ≡ message_of_response config.now at request.now }
    ensures fixed { IsFixed result }
{
    Message {
        header: config.header(DELAY_RESP, request.correction, request.sequence),
        body: Body::DelayResp(stamp(config.epoch, at), request.source),
    }
}

/// Hands a message to the port, to this IPv4 address on this channel.
pub(crate) fn send_fixed<P: Port>(
    port: &mut P,
    ip: u32,
    channel: Channel,
    message: &Message,
) -> Result<(), Failed>
    requires { IsFixed message.now }
    ensures { HandsOver P.Port port.old port.new
        (record { ip = ip; channel = channel; bytes = octets_sent message.now } ∷ [])
        (sent_in result) (failed_in result) }
{
    let mut octets = [0; ANNOUNCE_LENGTH];
    let size = write_fixed(message, &mut octets);
    hand(port, ip, channel, &octets[..size])
}
