//! Values for tests and examples: a port in memory at which nothing waits, a clock at 0, and what a
//! host with such ports and clocks opens; a port that notes how it waits, and a host of any ports.

ghost use Rattle.std.specs.Prelude.{◌≡◌, []};
ghost use Rattle.ptu_outside.specs.{MemoryPort.{IsIdle}, MemoryClock.{clock_of}};

use crate::mem_clock::MemClock;
use crate::mem_port::MemPort;
pub use crate::noting_port::{NotingPort, event_noted, noting};
pub use crate::once_host::OnceHost;
use crate::opened::Opened;
use std::alloc::Global;

/// A port at which nothing waits, by which nothing was sent, and no call of which is to fail.
pub fn idle_port(alloc: Global) -> MemPort
    ensures { IsIdle result }
{
    MemPort::new(alloc, Vec::new(alloc), Vec::new(alloc), Vec::new(alloc))
}

/// A clock that stands at 0.
pub fn still_clock(alloc: Global) -> MemClock
    ensures { result ≡ clock_of [] }
{
    MemClock::new(Vec::new(alloc))
}

/// This port 4, five idle ports, and six clocks that stand at 0.
pub fn opened_with(alloc: Global, p4: MemPort) -> Opened<MemPort, MemClock>
    ensures port { result.p4 ≡ p4 }
    ensures idle { IsIdle result.p0 × IsIdle result.p1 × IsIdle result.p2 × IsIdle result.p3
        × IsIdle result.p5 }
    ensures still { (result.c0 ≡ clock_of []) × (result.c1 ≡ clock_of [])
        × (result.c2 ≡ clock_of []) × (result.c3 ≡ clock_of [])
        × (result.c4 ≡ clock_of []) × (result.c5 ≡ clock_of []) }
{
    Opened {
        p0: idle_port(alloc),
        p1: idle_port(alloc),
        p2: idle_port(alloc),
        p3: idle_port(alloc),
        p4,
        p5: idle_port(alloc),
        c0: still_clock(alloc),
        c1: still_clock(alloc),
        c2: still_clock(alloc),
        c3: still_clock(alloc),
        c4: still_clock(alloc),
        c5: still_clock(alloc),
    }
}
