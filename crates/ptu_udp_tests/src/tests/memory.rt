//! A socket, a look at two of them and a clock in memory, for tests of ports.

ghost use Rattle.std.specs.Prelude.{◌≤◌, length, IfOk};

use ptu_udp::{Came, Lookout, Numbers, Socket, UdpPort};
use std::io;
use std::io::ErrorKind;
use std::net::{Ipv4Addr, SocketAddr, SocketAddrV4};
use std::sync::atomic::{AtomicU64, Ordering};
use std::time::{Clock, Duration};

/// The UDP port numbers to which ports in memory send.
pub(crate) const NUMBERS: Numbers = Numbers {
    event: 1319,
    general: 1320,
};

/// 192.0.2.7, from which all datagrams in memory come.
pub(crate) const CLIENT: u32 = 0xc000_0207;

/// A port over a socket in memory.
pub(crate) type StagePort<'a> = UdpPort<&'a SleepClock, MemSocket<'a>, MemLookout<'a>>;

/// A clock that stands still but while somebody sleeps. Each sleep takes a little longer than was
/// asked, and each second one may take longer still.
#[derive(Drop)]
pub(crate) struct SleepClock {
    nanos: AtomicU64,
    sleeps: AtomicU64,
    late: u64,
    later: u64,
}

impl SleepClock {
    /// A clock at 0, by which each sleep takes so many microseconds longer.
    pub(crate) fn new(late: u64) -> SleepClock {
        SleepClock::uneven(late, late)
    }

    /// A clock at 0, by which each first sleep of two takes so many microseconds longer, and each
    /// second one so many.
    pub(crate) fn uneven(late: u64, later: u64) -> SleepClock {
        SleepClock {
            nanos: AtomicU64::new(0),
            sleeps: AtomicU64::new(0),
            late: late.saturating_mul(1000),
            later: later.saturating_mul(1000),
        }
    }

    /// For how many microseconds somebody has slept.
    pub(crate) fn slept(&self) -> u64 {
        self.nanos.load(Ordering::Relaxed) / 1000
    }

    // So many microseconds pass.
    fn pass(&self, micros: u64) {
        let nanos = micros.saturating_mul(1000);
        let _ = self.nanos.fetch_add(nanos, Ordering::Relaxed);
    }
}

impl Clock for SleepClock {
    fn monotonic(&self) -> io::Result<Duration> {
        Ok(Duration::from_nanos(self.nanos.load(Ordering::Relaxed)))
    }

    fn since_1970(&self) -> io::Result<Duration> {
        self.monotonic()
    }

    fn sleep(&self, duration: Duration) {
        let nanos = u64::try_from(duration.as_nanos()).unwrap_or(u64::MAX);
        let is_second = self.sleeps.fetch_add(1, Ordering::Relaxed) % 2 == 1;
        let late = if is_second { self.later } else { self.late };
        let _ = self
            .nanos
            .fetch_add(nanos.saturating_add(late), Ordering::Relaxed);
    }
}

/// A look at two sockets to which datagrams come at these microseconds of a clock, if at all. It
/// tells of each once, and time passes while it waits.
#[derive(Drop)]
pub(crate) struct MemLookout<'a> {
    clock: &'a SleepClock,
    general: Option<u64>,
    event: Option<u64>,
}

impl<'a> MemLookout<'a> {
    /// A look by this clock.
    pub(crate) fn new(
        clock: &'a SleepClock,
        general: Option<u64>,
        event: Option<u64>,
    ) -> MemLookout<'a> {
        MemLookout {
            clock,
            general,
            event,
        }
    }
}

// Whether a datagram that comes then has come now; it is told once.
fn take_come(at: &mut Option<u64>, now: u64) -> bool {
    match *at {
        Some(moment) if moment <= now => {
            *at = None;
            true
        }
        _ => false,
    }
}

impl Lookout for MemLookout<'_> {
    fn look(&mut self, millis: u64) -> io::Result<Came> {
        let now = self.clock.slept();
        let first = self
            .general
            .unwrap_or(u64::MAX)
            .min(self.event.unwrap_or(u64::MAX));
        let wait = first.saturating_sub(now).min(millis.saturating_mul(1000));
        self.clock.pass(wait);
        let now = self.clock.slept();
        Ok(Came {
            general: take_come(&mut self.general, now),
            event: take_come(&mut self.event, now),
        })
    }
}

/// What a socket in memory sees, for the test that hands it over.
#[derive(Drop)]
pub(crate) struct Seen {
    tries: AtomicU64,
    target: AtomicU64,
    receives: AtomicU64,
    waiting: AtomicU64,
}

impl Seen {
    /// Of a socket by which nothing was sent, and at which one datagram waits.
    pub(crate) fn new() -> Seen {
        Seen {
            tries: AtomicU64::new(0),
            target: AtomicU64::new(0),
            receives: AtomicU64::new(0),
            waiting: AtomicU64::new(1),
        }
    }

    /// How often a send was tried.
    pub(crate) fn tries(&self) -> u64 {
        self.tries.load(Ordering::Relaxed)
    }

    /// The address and the UDP port number of the last one that went, as one number.
    pub(crate) fn target(&self) -> u64 {
        self.target.load(Ordering::Relaxed)
    }

    /// How often a receive was tried.
    pub(crate) fn receives(&self) -> u64 {
        self.receives.load(Ordering::Relaxed)
    }

    /// So many datagrams wait now.
    pub(crate) fn set_waiting(&self, count: u64) {
        self.waiting.store(count, Ordering::Relaxed);
    }
}

/// A socket by which so many sends find no room and so many calls are interrupted, and then all
/// goes. The datagrams that wait at it are of three octets.
#[derive(Drop)]
pub(crate) struct MemSocket<'a> {
    full: u64,
    interrupted: u64,
    seen: &'a Seen,
}

impl<'a> MemSocket<'a> {
    /// A socket that notes here what it sees.
    pub(crate) fn new(full: u64, interrupted: u64, seen: &'a Seen) -> MemSocket<'a> {
        MemSocket {
            full,
            interrupted,
            seen,
        }
    }

    // Whether the call is interrupted.
    fn interrupts(&mut self) -> bool {
        let is_interrupted = 0 < self.interrupted;
        self.interrupted = self.interrupted.saturating_sub(1);
        is_interrupted
    }
}

impl Socket for MemSocket<'_> {
    fn send_to(&mut self, bytes: &[u8], to: SocketAddr) -> io::Result<usize> {
        let _ = self.seen.tries.fetch_add(1, Ordering::Relaxed);
        if self.interrupts() {
            return Err(ErrorKind::Interrupted.into());
        }
        if 0 < self.full {
            self.full -= 1;
            return Err(ErrorKind::WouldBlock.into());
        }
        if let SocketAddr::V4(to) = to {
            let target = u64::from(to.ip().to_bits()) * 65536 + u64::from(to.port());
            self.seen.target.store(target, Ordering::Relaxed);
        }
        Ok(bytes.len())
    }

    fn recv_from(&mut self, buf: &mut [u8]) -> io::Result<(usize, SocketAddr)>
        ensures within { IfOk result (λ got. got.0 ≤ length buf.new) }
    {
        let _ = self.seen.receives.fetch_add(1, Ordering::Relaxed);
        if self.interrupts() {
            return Err(ErrorKind::Interrupted.into());
        }
        let waiting = self.seen.waiting.load(Ordering::Relaxed);
        if waiting == 0 || buf.len() < 3 {
            return Err(ErrorKind::WouldBlock.into());
        }
        self.seen.waiting.store(waiting - 1, Ordering::Relaxed);
        let from = SocketAddrV4::new(Ipv4Addr::from(CLIENT), 319);
        Ok((3, SocketAddr::V4(from)))
    }
}
