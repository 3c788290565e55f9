//! A UDP socket as a port. It says nothing to contracts about what was sent or received.

ghost use Rattle.std.specs.Prelude.{◌≡◌, ◌≤◌, ◌∷◌, [], None, take, IfOk, OnOk, OnErr, IfSome, IfNone};
ghost use Rattle.ptu_outside.specs.Faults.{HasNotFallen, HasRisen, one_more};
ghost use Rattle.ptu_outside.specs.Telling.{IfTold, IsEmptyTold, IsFirstTold, append_told, rest_told};

use crate::calls::{send_patiently, take_whole};
use crate::lookout::Lookout;
use crate::readiness::Readiness;
use crate::socket::Socket;
use crate::watch::{Watch, wait_until};
use ptu_outside::{Channel, Failed, Port};
use ptu_units::Moment;
use ptu_units::sizes::LONGEST_DATAGRAM;
use std::io;
use std::marker::Model;
use std::net::{Ipv4Addr, Net, SocketAddr, SocketAddrV4, UdpSocket};
use std::time::{Clock, Instant};

/// The UDP port numbers of the two channels.
#[derive(Clone, Copy)]
pub struct Numbers {
    /// The UDP port number of the event channel.
    pub event: u16,
    /// The UDP port number of the general channel.
    pub general: u16,
}

/// A UDP socket as a port. No call of it waits but `wait`, and a send for 50 ms at most where the
/// system has no room for the datagram.
#[derive(Drop)]
pub struct UdpPort<R, S, L> {
    runtime: R,
    start: Instant,
    socket: S,
    numbers: Numbers,
    readiness: Readiness,
    watch: Option<Watch<L>>,
    faults: u64,
}

impl<R, S, L> Model for UdpPort<R, S, L> {
    ghost use Rattle.std.specs.Prelude.{ℕ};

    ghost Value = { ℕ };

    ghost view = { λ p. p.faults };
}

/// A socket at this address and UDP port number, 0 being one that is free, whose calls do not wait.
pub(crate) fn bind<R: Net>(runtime: &R, address: SocketAddrV4) -> io::Result<UdpSocket> {
    let socket = UdpSocket::bind(runtime, SocketAddr::V4(address))?;
    socket.set_nonblocking(true)?;
    Ok(socket)
}

impl<R: Clock + Drop, S: Socket, L: Lookout> UdpPort<R, S, L> {
    /// A port over this socket, which sends to these numbers. It waits for moments that count from
    /// the start, and by the watch, if there is one, for datagrams. The readiness is that of the
    /// socket.
    pub fn over(
        runtime: R,
        start: Instant,
        socket: S,
        numbers: Numbers,
        readiness: Readiness,
        watch: Option<Watch<L>>,
    ) -> UdpPort<R, S, L> {
        UdpPort {
            runtime,
            start,
            socket,
            numbers,
            readiness,
            watch,
            faults: 0,
        }
    }
}

impl<R, S, L> UdpPort<R, S, L> {
    // Counts a fault.
    fn fail(&mut self) -> Failed
        ensures risen { HasRisen self.old self.new }
        ensures once { self.new ≡ one_more self.old }
        ensures no_fall { HasNotFallen self.old self.new }
    {
        self.faults = self.faults.saturating_add(1);
        Failed
    }
}

impl<R: Clock + Drop, S: Socket, L: Lookout> Port for UdpPort<R, S, L> {
    ghost sent = { λ _. None };

    ghost waiting = { λ _. None };

    ghost faults = { λ p. p };

    /// A send that was interrupted is tried again. Where the system has no room for the datagram,
    /// the send waits for it, for 50 ms at most.
    fn send(&mut self, ip: u32, channel: Channel, bytes: &[u8]) -> Result<(), Failed> {
        let number = match channel {
            Channel::Event => self.numbers.event,
            Channel::General => self.numbers.general,
        };
        let to = SocketAddr::V4(SocketAddrV4::new(Ipv4Addr::from(ip), number));
        match send_patiently(&self.runtime, &mut self.socket, bytes, to) {
            Ok(taken) if taken == bytes.len() => Ok(()),
            Ok(_) | Err(_) => Err(self.fail()),
        }
    }

    /// A receive that was interrupted is tried again. A datagram of more than 2048 octets is left
    /// out, and the next one is taken. After 64 that are left out the call fails.
    fn receive(
        &mut self,
        buf: &mut [u8; LONGEST_DATAGRAM],
    ) -> Result<Option<(u32, usize)>, Failed> {
        if self.readiness.take_quiet() {
            return Ok(None);
        }
        match take_whole(&mut self.socket, buf) {
            Ok(taken) => {
                self.readiness.note_receive(taken.is_none());
                Ok(taken)
            }
            Err(Failed) => Err(self.fail()),
        }
    }

    /// Where the port has no watch over the sockets of the two channels it waits for the moment
    /// alone.
    fn wait(&mut self, until: Moment)
        ensures quiet { self.new ≡ self.old }
    {
        wait_until(&self.runtime, self.start, until, &mut self.watch);
    }
}
