//! A host whose runtime notes where sockets are bound, and how often somebody slept.

use super::system::{SystemPorts, assert_receives, open};
use ptu_outside::{Channel, Host, Port};
use ptu_udp::UdpHost;
use ptu_units::Moment;
use std::io;
use std::net::{Net, SocketAddr, UdpSocket};
use std::process::Abort;
use std::sync::atomic::{AtomicU64, Ordering};
use std::time::{Clock, Duration};

// The second address of the loopback network: no socket is bound to it that is told no address.
const ADDRESS: u32 = 0x7f00_0002;

// The system, of which is noted how often a socket was bound to another address, and how often
// somebody slept.
#[derive(Drop)]
struct Watched<R> {
    system: R,
    elsewhere: AtomicU64,
    rests: AtomicU64,
}

impl<R: Net> Net for Watched<R> {
    type Stream = R::Stream;

    type Listener = R::Listener;

    fn bind(&self, addr: SocketAddr) -> io::Result<R::Listener> {
        self.system.bind(addr)
    }

    fn connect(&self, addr: SocketAddr) -> io::Result<R::Stream> {
        self.system.connect(addr)
    }

    fn bind_udp(&self, addr: SocketAddr) -> io::Result<UdpSocket> {
        let is_elsewhere = match addr {
            SocketAddr::V4(addr) => addr.ip().to_bits() != ADDRESS,
            SocketAddr::V6(_) => true,
        };
        let _ = self
            .elsewhere
            .fetch_add(u64::from(is_elsewhere), Ordering::Relaxed);
        self.system.bind_udp(addr)
    }
}

impl<R: Clock> Clock for Watched<R> {
    fn monotonic(&self) -> io::Result<Duration> {
        self.system.monotonic()
    }

    fn since_1970(&self) -> io::Result<Duration> {
        self.system.since_1970()
    }

    fn sleep(&self, _duration: Duration) {
        let _ = self.rests.fetch_add(1, Ordering::Relaxed);
    }
}

// A host of which is noted where it binds sockets, and how often somebody slept.
fn note_of<R>(system: R) -> Watched<R> {
    Watched {
        system,
        elsewhere: AtomicU64::new(0),
        rests: AtomicU64::new(0),
    }
}

// How often a socket was bound elsewhere, and how often somebody slept.
fn noted<R>(watched: &Watched<R>) -> (u64, u64) {
    let elsewhere = watched.elsewhere.load(Ordering::Relaxed);
    (elsewhere, watched.rests.load(Ordering::Relaxed))
}

// Receives at both ports find nothing, so often.
fn assert_idle<R: Clock + Copy>(rt: &impl Abort, opened: &mut SystemPorts<R>, times: u64) {
    for _i in 0..times {
        assert_receives(rt, &mut opened.p4, None);
        assert_receives(rt, &mut opened.p5, None);
    }
}

// Nothing waits, and what is sent to the address comes from it.
fn assert_comes<R: Clock + Copy>(rt: &impl Abort, opened: &mut SystemPorts<R>) {
    assert_idle(rt, opened, 10);
    let bytes = b"from the second address";
    assert!(rt; opened.p0.send(ADDRESS, Channel::General, bytes).is_ok());
    assert_receives(rt, &mut opened.p4, Some((ADDRESS, bytes.len())));
}

fn open_and_send<R: Net + Clock + Copy + Send>(rt: &impl Abort, host: &mut UdpHost<R>) {
    let mut opened = open(rt, host, ADDRESS, 22119);
    assert_comes(rt, &mut opened);
    host.close(opened);
}

// It refuses a host that binds a port that sends to no address, so that clients with several paths
// to it see another sender than they asked; and a port of which a receive rests, since a daemon
// waits at the end of its round.
#[test]
fn ports_are_at_the_address_and_no_receive_rests(rt: HostRuntime) {
    let watched = note_of(rt);
    let mut host = UdpHost::new(rt.alloc(), &watched);
    open_and_send(&rt, &mut host);
    assert_eq!(rt; noted(&watched), (0, 0));
}

// What the ports of the general and of the event channel receive next, where neither has anything,
// one datagram is then sent by this channel, and the port of the event channel waits.
fn after_wait<R: Clock + Copy>(
    rt: &impl Abort,
    opened: &mut SystemPorts<R>,
    channel: Channel,
) -> (bool, bool) {
    assert_idle(rt, opened, 1);
    assert!(rt; opened.p0.send(ADDRESS, channel, b"waits").is_ok());
    opened.p5.wait(Moment::of(1 << 61).unwrap_or_default());
    let general = opened.p4.receive(&mut [0; 2048]) == Ok(Some((ADDRESS, 5)));
    let event = opened.p5.receive(&mut [0; 2048]) == Ok(Some((ADDRESS, 5)));
    (general, event)
}

fn open_and_wait<R: Net + Clock + Copy + Send>(
    rt: &impl Abort,
    host: &mut UdpHost<R>,
    channel: Channel,
) -> (bool, bool) {
    let mut opened = open(rt, host, ADDRESS, 22119);
    let came = after_wait(rt, &mut opened, channel);
    host.close(opened);
    came
}

// It refuses a port of the event channel that watches its own socket alone, the two exchanged, or
// none: the next receive of a socket at which a look has seen nothing does not ask the system.
#[test]
fn a_wait_of_the_event_port_watches_both_channels(rt: HostRuntime) {
    let watched = note_of(rt);
    let mut host = UdpHost::new(rt.alloc(), &watched);
    let general = open_and_wait(&rt, &mut host, Channel::General);
    let event = open_and_wait(&rt, &mut host, Channel::Event);
    assert_eq!(rt; (general, event), ((true, false), (false, true)));
    assert_eq!(rt; noted(&watched), (0, 0));
}
