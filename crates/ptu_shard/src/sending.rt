//! Timing messages as they are handed to a port.

ghost use Rattle.std.specs.Prelude.{◌≡◌, ◌∷◌, [], List, true};
ghost use Rattle.ptu_outside.specs.HandsOver.{HandsOver, failed_in, sent_in};
ghost use Rattle.ptu_history.specs.Turns.{is_turned};
ghost use Rattle.ptu_shard.specs.Messages.{channel_of, departure_of, response_of};
ghost use Rattle.ptu_shard.specs.Turn.{message_of_row};

use crate::lease::Row;
use crate::messages::{response_message, send_fixed, turn_message};
use ptu_messages::Header;
use ptu_outside::{Channel, Failed, Port};
use ptu_profile::GmConfig;
use ptu_units::{Client, Kind, Moment};

// The channel of a kind (IEEE 1588-2019 annex C).
fn channel(kind: Kind) -> Channel
    ensures { result ≡ channel_of kind }
{
    match kind {
        Kind::Sync => Channel::Event,
        Kind::Announce | Kind::DelayResp => Channel::General,
    }
}

/// Hands the next message of the row to the port.
pub(crate) fn send_message<P: Port>(
    port: &mut P,
    config: &GmConfig,
    at: Moment,
    row: &Row,
) -> Result<(), Failed>
    requires turned { is_turned row.now.kind ≡ true }
    ensures { HandsOver P.Port port.old port.new
        (departure_of config.now at (message_of_row row.now) ∷ [])
        (sent_in result) (failed_in result) }
{
    let message = turn_message(config, at, row.kind, row.lease.seq);
    send_fixed(port, row.client.ip, channel(row.kind), &message)
}

/// Hands the answer to a Delay_Req of the client to the port.
pub(crate) fn send_response<P: Port>(
    port: &mut P,
    config: &GmConfig,
    at: Moment,
    client: &Client,
    request: &Header,
) -> Result<(), Failed>
    ensures { HandsOver P.Port port.old port.new
        (response_of config.now at client.now request.now ∷ [])
        (sent_in result) (failed_in result) }
{
    let message = response_message(config, at, request);
    send_fixed(port, client.ip, Channel::General, &message)
}
