//! Which messages a slave takes, and why it ignores the others.

ghost use Rattle.std.specs.Prelude.{◌≡◌, false, IfOk};
ghost use Rattle.ptu_profile.specs.Slave.{place_of};
ghost use Rattle.ptu_slave_messages.specs.Reception.{is_delay_req, is_for, is_unknown, sender_of};

use crate::reason::SlaveReason;
use ptu_messages::{Body, Message, PortIdentity};
use ptu_profile::{Master, SlaveConfig, is_target};

// The place of the master that has the address.
fn place(masters: &[Master], ip: u32) -> Option<usize>
    ensures { result ≡ place_of masters.now ip }
{
    masters.iter().position(|master| master.ip == ip)
}

// Whether a message with this body is for the slave with this port.
fn suits(own: PortIdentity, body: &Body) -> bool
    ensures { result ≡ is_for own body.now }
{
    match body {
        Body::Signaling(target, _) => is_target(own, *target),
        Body::DelayResp(_, requester) => requester.clock == own.clock && requester.port == own.port,
        _ => true,
    }
}

// Whether the body is of a type that this project does not know.
fn is_of_unknown_type(body: &Body) -> bool
    ensures { result ≡ is_unknown body.now }
{
    matches!(body, Body::Ignored)
}

// Whether it is that of a Delay_Req.
fn is_of_delay_req(body: &Body) -> bool
    ensures { result ≡ is_delay_req body.now }
{
    matches!(body, Body::DelayReq(_))
}

/// The place of the master that sent the message, or the first reason to ignore it.
pub(crate) fn sender(
    config: &SlaveConfig,
    masters: &[Master],
    from: u32,
    message: &Message,
) -> Result<usize, SlaveReason>
    ensures sender { result ≡ sender_of config.now masters.now from message.now }
    ensures known { IfOk result (λ _. is_unknown message.now.body ≡ false) }
    ensures taken { IfOk result (λ _. is_delay_req message.now.body ≡ false) }
{
    if is_of_unknown_type(&message.body) {
        return Err(SlaveReason::UnknownType(message.header.message_type));
    }
    if is_of_delay_req(&message.body) {
        return Err(SlaveReason::Other(message.header.message_type));
    }
    let Some(master) = place(masters, from) else {
        return Err(SlaveReason::Stranger);
    };
    if message.header.domain != config.domain.get() {
        return Err(SlaveReason::Domain(message.header.domain));
    }
    if !suits(config.identity, &message.body) {
        return Err(SlaveReason::Target);
    }
    Ok(master)
}
