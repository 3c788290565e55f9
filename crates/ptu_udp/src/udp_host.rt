//! The host of the shipped program: six UDP sockets and the clock of the system.

ghost use Rattle.std.specs.Prelude.{◌≡◌, None, Some, IfOk, IfSome, OnOk, OnErr};
ghost use Rattle.ptu_outside.specs.{Faults.{HasNotFallen, HasRisen}, Telling.{IfTold}};

use crate::lookout::Polled;
use crate::readiness::Readiness;
use crate::sys_clock::SysClock;
use crate::udp_port::{Numbers, UdpPort, bind};
use crate::watch::Watch;
use ptu_outside::{Failed, Host, LOOPBACK, Opened};
use std::alloc::Global;
use std::io;
use std::io::ErrorKind;
use std::marker::Model;
use std::net::{Ipv4Addr, Net, SocketAddrV4, UdpSocket};
use std::os::fd::AsRawFd;
use std::time::{Clock, Instant};

/// A port over the system.
type SystemPort<R> = UdpPort<R, UdpSocket, Polled>;

// A socket that receives, before it is a port.
#[derive(Drop)]
struct Receiver {
    socket: UdpSocket,
    readiness: Readiness,
}

impl Receiver {
    fn open<R: Net>(host: &UdpHost<R>, address: SocketAddrV4) -> io::Result<Receiver> {
        Ok(Receiver {
            socket: bind(&host.runtime, address)?,
            readiness: Readiness::new(host.alloc)?,
        })
    }

    // A watch over this socket, of the general channel, and that of the event channel.
    fn watch_beside<R: Net>(
        &self,
        host: &UdpHost<R>,
        event: &Receiver,
    ) -> io::Result<Watch<Polled>> {
        let (one, other) = (self.socket.as_raw_fd(), event.socket.as_raw_fd());
        let lookout = Polled::over(&host.runtime, host.alloc, one, other)?;
        let general = self.readiness.share()?;
        Ok(Watch::new(lookout, general, event.readiness.share()?))
    }

    fn port<R: Clock + Drop>(
        self,
        runtime: R,
        start: Instant,
        numbers: Numbers,
        watch: Watch<Polled>,
    ) -> SystemPort<R> {
        UdpPort::over(
            runtime,
            start,
            self.socket,
            numbers,
            self.readiness,
            Some(watch),
        )
    }
}

/// Opens UDP sockets at one address: ports 0 to 3 at UDP port numbers that are free, port 4 at
/// that of the general channel and port 5 at that of the event channel. All six clocks count from
/// the moment of the opening. A wait of one of the two ports that receive ends where a datagram
/// comes to either of them.
#[derive(Drop)]
pub struct UdpHost<R> {
    alloc: Global,
    runtime: R,
    faults: u64,
}

impl<R> Model for UdpHost<R> {
    ghost use Rattle.std.specs.Prelude.{ℕ};

    ghost Value = { ℕ };

    ghost view = { λ h. h.faults };
}

impl<R: Net + Clock + Copy> UdpHost<R> {
    /// A host over this runtime.
    pub fn new(alloc: Global, runtime: R) -> UdpHost<R> {
        UdpHost {
            alloc,
            runtime,
            faults: 0,
        }
    }

    // A port at this address, at a number that is free, which waits for moments alone.
    fn sender(&self, start: Instant, ip: u32, numbers: Numbers) -> io::Result<SystemPort<R>> {
        let socket = bind(&self.runtime, SocketAddrV4::new(Ipv4Addr::from(ip), 0))?;
        let readiness = Readiness::new(self.alloc)?;
        Ok(UdpPort::over(self.runtime, start, socket, numbers, readiness, None))
    }

    // A port at this number of the machine's own address, which sends to the next number.
    fn control(&self, number: u16) -> io::Result<SystemPort<R>> {
        let Some(next) = number.checked_add(1) else {
            return Err(ErrorKind::InvalidInput.into());
        };
        let numbers = Numbers {
            event: next,
            general: next,
        };
        let address = SocketAddrV4::new(Ipv4Addr::from(LOOPBACK), number);
        let socket = bind(&self.runtime, address)?;
        let start = Instant::now(&self.runtime)?;
        let readiness = Readiness::new(self.alloc)?;
        Ok(UdpPort::over(self.runtime, start, socket, numbers, readiness, None))
    }

    // The ports that receive the general and the event channel at these numbers. A wait of each
    // watches both.
    fn receivers(
        &self,
        start: Instant,
        ip: u32,
        numbers: Numbers,
    ) -> io::Result<(SystemPort<R>, SystemPort<R>)> {
        let address = Ipv4Addr::from(ip);
        let general = Receiver::open(self, SocketAddrV4::new(address, numbers.general))?;
        let event = Receiver::open(self, SocketAddrV4::new(address, numbers.event))?;
        let p4_watch = general.watch_beside(self, &event)?;
        let p5_watch = general.watch_beside(self, &event)?;
        Ok((
            general.port(self.runtime, start, numbers, p4_watch),
            event.port(self.runtime, start, numbers, p5_watch),
        ))
    }

    // Two ports at this address, each at a number that is free.
    fn two_senders(
        &self,
        start: Instant,
        ip: u32,
        numbers: Numbers,
    ) -> io::Result<(SystemPort<R>, SystemPort<R>)> {
        let one = self.sender(start, ip, numbers)?;
        Ok((one, self.sender(start, ip, numbers)?))
    }

    fn open_all(
        &self,
        ip: u32,
        numbers: Numbers,
    ) -> io::Result<Opened<SystemPort<R>, SysClock<R>>> {
        let start = Instant::now(&self.runtime)?;
        let (p4, p5) = self.receivers(start, ip, numbers)?;
        let (p0, p1) = self.two_senders(start, ip, numbers)?;
        let (p2, p3) = self.two_senders(start, ip, numbers)?;
        Ok(Opened {
            p0,
            p1,
            p2,
            p3,
            p4,
            p5,
            c0: SysClock::since(self.runtime, start),
            c1: SysClock::since(self.runtime, start),
            c2: SysClock::since(self.runtime, start),
            c3: SysClock::since(self.runtime, start),
            c4: SysClock::since(self.runtime, start),
            c5: SysClock::since(self.runtime, start),
        })
    }
}

impl<R: Net + Clock + Copy + Send> Host for UdpHost<R> {
    type P = UdpPort<R, UdpSocket, Polled>;

    type C = SysClock<R>;

    ghost opening = { λ _. None };

    ghost back = { λ _. None };

    ghost opened_at = { λ _. None };

    ghost control = { λ _. None };

    ghost control_back = { λ _. None };

    ghost control_at = { λ _. None };

    ghost faults = { λ h. h };

    /// Fails where the system refuses a socket, as at a port number that another program has, or
    /// its clock.
    fn open(
        &mut self,
        ip: u32,
        event_port: u16,
        general_port: u16,
    ) -> Result<Opened<SystemPort<R>, SysClock<R>>, Failed>
        ensures opened { IfOk result (λ ports. IfSome None (λ told. ports ≡ told)) }
        ensures risen { OnErr result (HasRisen self.old self.new) }
        ensures quiet { OnOk result (self.new ≡ self.old) }
        ensures no_fall { HasNotFallen self.old self.new }
    {
        let numbers = Numbers {
            event: event_port,
            general: general_port,
        };
        match self.open_all(ip, numbers) {
            Ok(opened) => Ok(opened),
            Err(_) => {
                self.faults = self.faults.saturating_add(1);
                Err(Failed)
            }
        }
    }

    /// Closes the six sockets, since dropping them does.
    fn close(&mut self, opened: Opened<SystemPort<R>, SysClock<R>>)
        ensures back { IfTold None (Some opened) }
        ensures quiet { self.new ≡ self.old }
    {
        drop(opened);
    }

    /// Fails where the system refuses a socket at that number of 127.0.0.1, or where no number
    /// comes behind it.
    fn open_control(&mut self, number: u16) -> Result<SystemPort<R>, Failed>
        ensures opened { IfOk result (λ port. IfSome None (λ told. port ≡ told)) }
        ensures risen { OnErr result (HasRisen self.old self.new) }
        ensures quiet { OnOk result (self.new ≡ self.old) }
        ensures no_fall { HasNotFallen self.old self.new }
    {
        match self.control(number) {
            Ok(port) => Ok(port),
            Err(_) => {
                self.faults = self.faults.saturating_add(1);
                Err(Failed)
            }
        }
    }

    /// Closes the socket.
    fn close_control(&mut self, port: SystemPort<R>)
        ensures control_back { IfTold None (Some port) }
        ensures quiet { self.new ≡ self.old }
    {
        drop(port);
    }
}
