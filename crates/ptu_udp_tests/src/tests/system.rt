//! The sockets of the system, for tests of ports and of a host.

use ptu_outside::{Host, Opened, Port};
use ptu_udp::{Polled, SysClock, UdpHost, UdpPort};
use std::net::{Net, UdpSocket};
use std::process::Abort;
use std::time::Clock;

/// A port over a socket of the system.
pub(crate) type SystemPort<R> = UdpPort<R, UdpSocket, Polled>;

/// What a host opens.
pub(crate) type SystemPorts<R> = Opened<SystemPort<R>, SysClock<R>>;

/// The ports and clocks of this host at the first two UDP port numbers from this one on that are
/// free at the address.
pub(crate) fn open<R: Net + Clock + Copy + Send>(
    rt: &impl Abort,
    host: &mut UdpHost<R>,
    ip: u32,
    first: u16,
) -> SystemPorts<R> {
    for pair in 0..100 {
        let number = first.saturating_add(2 * pair);
        if let Ok(opened) = host.open(ip, number, number.saturating_add(1)) {
            return opened;
        }
    }
    panic!(rt; "no port number is free");
}

/// The next receive of the port gives this.
pub(crate) fn assert_receives<P: Port>(
    rt: &impl Abort,
    port: &mut P,
    expected: Option<(u32, usize)>,
) {
    assert_eq!(rt; port.receive(&mut [0; 2048]), Ok(expected));
}
