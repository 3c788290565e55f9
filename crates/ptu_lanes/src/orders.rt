//! Orders of an operator at a running grandmaster: what is taken of its control port, and what is
//! answered there.

ghost use Rattle.std.specs.Prelude.{◌≡◌, OnOk, Some};
ghost use Rattle.ptu_lanes.specs.{Heard.{TookOrder, WasAnswered}, Orders.{stops_by}};

use ptu_config::{Cause, Command, Reply, read_command, reply_text};
use ptu_outside::{Ahead, Channel, Failed, LOOPBACK, Port, hand};
use ptu_units::sizes::LONGEST_DATAGRAM;
use ptu_units::{Capacity, OutOfMemory};
use std::alloc::Global;

/// What the next datagram of a control port asks for, where one waits and begins with the key.
/// `None` where there is nothing to answer. A receive that fails is as if none waited.
pub fn next_order<P: Port>(port: &mut P, key: u64) -> Option<Result<Command, Cause>>
    ensures { TookOrder P.Port key port.old port.new result }
{
    let mut buffer = [0; LONGEST_DATAGRAM];
    match port.receive(&mut buffer) {
        Ok(Some((from, size))) => {
            let _ = from;
            read_command(key, &buffer[..size])
        }
        Ok(None) => None,
        Err(Failed) => None,
    }
}

/// Sends the answer by a control port. Where that fails the operator gets none.
///
/// # Errors
/// `OutOfMemory`, and then nothing was sent.
pub fn answer<P: Port>(alloc: Global, port: &mut P, reply: &Reply) -> Result<(), OutOfMemory>
    ensures { OnOk result (WasAnswered P.Port port.old port.new reply.now) }
{
    let text = reply_text(alloc, reply)?;
    let _ = hand(port, LOOPBACK, Channel::General, text.as_bytes());
    Ok(())
}

/// An order that is obeyed between two rounds, while all lanes wait.
#[derive(Clone, Copy)]
pub(crate) enum Order {
    /// The Announces have this clockClass from now on.
    Class(u8),
    /// The capacity is this from now on.
    Capacity(Capacity),
    /// The round was the last one.
    Stop {
        /// Whether each live grant is ended by a CANCEL first.
        cancels: bool,
    },
}

impl Order {
    /// No round comes behind it.
    pub(crate) fn is_end(&self) -> bool
        ensures { result ≡ stops_by (Some self.now) }
    {
        matches!(self, Order::Stop { .. })
    }

    /// What comes behind the meeting, when this has come.
    pub(crate) fn ahead(&self) -> Ahead {
        match self {
            Order::Class(_) | Order::Capacity(_) => Ahead::Order,
            Order::Stop { .. } => Ahead::End,
        }
    }
}
