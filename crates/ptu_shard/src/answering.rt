//! The answer to a Delay_Req.

ghost use Rattle.std.specs.Prelude.{◌≡◌};
ghost use Rattle.ptu_shard.specs.Answered.{answer_by, failed_by, met_by, moment_of_answer, responses, sent_by};
ghost use Rattle.ptu_shard.specs.Messages.{response_of};
ghost use Rattle.ptu_outside.specs.HandsOver.{HandsOver};

use crate::answered::Answered;
use crate::lease::Lease;
use crate::sending::send_response;
use ptu_messages::Header;
use ptu_outside::Port;
use ptu_profile::GmConfig;
use ptu_units::{Client, Moment};

/// Answers a Delay_Req of the client, whose lease of Delay_Resps this is, if there is one.
pub(crate) fn answer_request<P: Port>(
    port: &mut P,
    config: &GmConfig,
    at: Moment,
    client: &Client,
    request: &Header,
    lease: Option<Lease>,
) -> Answered
    ensures at { moment_of_answer result ≡ at }
    ensures answer { met_by result ≡ answer_by at lease }
    ensures sends { HandsOver P.Port port.old port.new
        (responses (met_by result) (response_of config.now at client.now request.now))
        (sent_by result) (failed_by result) }
{
    let Some(lease) = lease else {
        return Answered::NoGrant { at };
    };
    if lease.until <= at.nanos() {
        return Answered::NoGrant { at };
    }
    if at.nanos() < lease.edge {
        return Answered::TooSoon {
            at,
            earliest: lease.edge,
        };
    }
    match send_response(port, config, at, client, request) {
        Ok(()) => Answered::Sent { at },
        Err(_) => Answered::Failed { at },
    }
}
