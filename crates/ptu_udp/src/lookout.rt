//! What a port that waits for two sockets wants of the system, and the system's way to do it.

use mio::unix::SourceFd;
use mio::{Events, Interest, Poll, Token};
use std::alloc::Global;
use std::io;
use std::net::Net;
use std::os::fd::RawFd;
use std::time::Duration;

/// The tokens of the two sockets.
const GENERAL: usize = 0;

const EVENT: usize = 1;

/// To which of two sockets a datagram came.
#[derive(Clone, Copy, Debug, Default, PartialEq, Eq)]
pub struct Came {
    /// To the socket of the general channel.
    pub general: bool,
    /// To that of the event channel.
    pub event: bool,
}

/// Looks at the sockets of the two channels: the system does, or one in memory.
pub trait Lookout: Drop {
    /// Waits until a datagram has come to one of them since the look before, for so many whole
    /// milliseconds at most; with 0 it does not wait.
    ///
    /// # Errors
    /// Where the system fails.
    fn look(&mut self, millis: u64) -> io::Result<Came>;
}

/// The system's look at two sockets, `epoll`.
#[derive(Drop)]
pub struct Polled {
    poll: Poll,
    events: Events<Global>,
}

impl Polled {
    // A look at the sockets of these descriptors.
    pub(crate) fn over<R: Net>(
        runtime: &R,
        alloc: Global,
        general: RawFd,
        event: RawFd,
    ) -> io::Result<Polled> {
        let poll = Poll::new(runtime)?;
        let registry = poll.registry();
        registry.register(&mut SourceFd(&general), Token(GENERAL), Interest::READABLE)?;
        registry.register(&mut SourceFd(&event), Token(EVENT), Interest::READABLE)?;
        Ok(Polled {
            events: Events::with_capacity(alloc, 2)?,
            poll,
        })
    }
}

impl Lookout for Polled {
    fn look(&mut self, millis: u64) -> io::Result<Came> {
        let timeout = Some(Duration::from_millis(millis));
        self.poll.poll(&mut self.events, timeout)?;
        let mut came = Came::default();
        for event in self.events.iter() {
            match event.token() {
                Token(GENERAL) => came.general = true,
                _ => came.event = true,
            }
        }
        Ok(came)
    }
}
