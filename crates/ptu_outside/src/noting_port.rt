//! A port that notes how it waits, over another port, for tests of daemons.

ghost use Rattle.std.specs.{Prelude.{◌≡◌, ◌==◌, List, if◌then◌else◌}, Option.{SomeIff}};
ghost use Rattle.ptu_outside.specs.{Departure.{Departure}, Faults.{one_more}};

use crate::channel::Channel;
use crate::failed::Failed;
use crate::opened::Opened;
use crate::port::Port;
use ptu_units::Moment;
use ptu_units::sizes::LONGEST_DATAGRAM;
use std::sync::atomic::{AtomicU64, Ordering};
use std::thread::yield_now;

// How often a receive of a slow port looks whether another one waits.
const LOOKS: u32 = 100_000;

/// A port that notes how often it waited, and until when it did first and last. All else is what
/// the port does that it stands over. Where it is slow, a receive of it takes a while, but ends
/// where another port of the same count waits.
#[derive(Drop)]
pub struct NotingPort<'a, P: Port> {
    /// The port that does the rest.
    pub port: P,
    /// How often the ports that share this count have waited.
    pub waited: &'a AtomicU64,
    /// Whether a receive takes a while.
    pub is_slow: bool,
    /// How often it waited.
    pub waits: u64,
    /// Until when it waited first, or 0.
    pub first: Moment,
    /// Until when it waited last, or 0.
    pub last: Moment,
}

impl<'a, P: Port> NotingPort<'a, P> {
    /// A port over this one, which has not waited.
    pub fn over(port: P, waited: &'a AtomicU64, is_slow: bool) -> NotingPort<'a, P>
        ensures port { result.port ≡ port }
        ensures waits { result.waits ≡ 0 }
    {
        NotingPort {
            port,
            waited,
            is_slow,
            waits: 0,
            first: Moment::default(),
            last: Moment::default(),
        }
    }

    /// How often it waited, and until when first and last, in nanoseconds.
    pub fn noted(&self) -> (u64, u64, u64)
        ensures { result ≡ (self.now.waits, self.now.first, self.now.last) }
    {
        (self.waits, self.first.nanos(), self.last.nanos())
    }

    // Gives other threads time, until a port waits.
    fn dawdle(&self) {
        for _ in 0..LOOKS {
            if self.waited.load(Ordering::SeqCst) > 0 {
                return;
            }
            yield_now();
        }
    }
}

impl<P: Port> Port for NotingPort<'_, P> {
    ghost sent = { λ p. P.sent p.port };

    ghost waiting = { λ p. P.waiting p.port };

    ghost faults = { λ p. P.faults p.port };

    ghost counts_once = { P.counts_once };

    ghost ceases_at = { P.ceases_at };

    ghost is_sure = { λ p. P.is_sure p.port };

    fn send(&mut self, ip: u32, channel: Channel, bytes: &[u8]) -> Result<(), Failed> {
        self.port.send(ip, channel, bytes)
    }

    fn receive(
        &mut self,
        buf: &mut [u8; LONGEST_DATAGRAM],
    ) -> Result<Option<(u32, usize)>, Failed> {
        if self.is_slow {
            self.dawdle();
        }
        self.port.receive(buf)
    }

    fn wait(&mut self, until: Moment)
        ensures sent { P.sent self.new.port ≡ P.sent self.old.port }
        ensures waiting { P.waiting self.new.port ≡ P.waiting self.old.port }
        ensures quiet { P.faults self.new.port ≡ P.faults self.old.port }
        ensures sure { (datagrams : List Departure) → P.is_sure self.old.port datagrams
            → P.is_sure self.new.port datagrams }
        // It notes this wait.
        ensures waits { self.new.waits ≡ one_more self.old.waits }
        ensures first { self.new.first ≡ (if self.old.waits == 0 then until else self.old.first) }
        ensures last { self.new.last ≡ until }
    {
        self.waited.fetch_add(1, Ordering::SeqCst);
        if self.waits == 0 {
            self.first = until;
        }
        self.waits = self.waits.saturating_add(1);
        self.last = until;
        self.port.wait(until);
    }
}

/// These ports, which note how they wait, with one count for all. Where it is asked for, the port
/// that receives the general channel is slow.
pub fn noting<'a, P: Port, C>(
    opened: Opened<P, C>,
    waited: &'a AtomicU64,
    is_slow: bool,
) -> Opened<NotingPort<'a, P>, C>
    ensures senders { (result.p0.port ≡ opened.p0) × (result.p1.port ≡ opened.p1)
        × (result.p2.port ≡ opened.p2) × (result.p3.port ≡ opened.p3) }
    ensures receivers { (result.p4.port ≡ opened.p4) × (result.p5.port ≡ opened.p5) }
{
    let over = |port| NotingPort::over(port, waited, false);
    Opened {
        p0: over(opened.p0),
        p1: over(opened.p1),
        p2: over(opened.p2),
        p3: over(opened.p3),
        p4: NotingPort::over(opened.p4, waited, is_slow),
        p5: over(opened.p5),
        c0: opened.c0,
        c1: opened.c1,
        c2: opened.c2,
        c3: opened.c3,
        c4: opened.c4,
        c5: opened.c5,
    }
}

/// What the port of the event channel noted, or `None` where another of these ports waited.
pub fn event_noted<P: Port, C>(opened: &Opened<NotingPort<'_, P>, C>) -> Option<(u64, u64, u64)>
    ensures { SomeIff result
        ((opened.now.p0.waits ≡ 0) × (opened.now.p1.waits ≡ 0) × (opened.now.p2.waits ≡ 0)
        × (opened.now.p3.waits ≡ 0) × (opened.now.p4.waits ≡ 0))
        (opened.now.p5.waits, opened.now.p5.first, opened.now.p5.last) }
{
    let senders = opened.p0.waits == 0 && opened.p1.waits == 0 && opened.p2.waits == 0;
    if senders && opened.p3.waits == 0 && opened.p4.waits == 0 {
        Some(opened.p5.noted())
    } else {
        None
    }
}
