//! How a port waits.

use crate::lookout::Lookout;
use crate::readiness::Readiness;
use ptu_units::Moment;
use std::time::{Clock, Duration, Instant};
use std::{io, thread};

/// A millisecond in nanoseconds: the system waits for a datagram by whole ones.
const MILLI: u64 = 1_000_000;

/// For how many nanoseconds a wait takes at most.
const LONGEST: u64 = 100 * MILLI;

/// For how many nanoseconds a port that waits for less than a millisecond sleeps before it looks
/// whether a datagram came.
const NAP: u64 = 100_000;

/// For how many nanoseconds it sleeps at least: what is due in that time is sent together.
const SHORTEST: u64 = 40_000;

/// For how many nanoseconds at most it reads the clock until they have passed: a sleep takes as
/// much of the processor's time.
const SPIN: u64 = 6_000;

/// How often it reads the clock at most: more often than it can in that time.
const MOST_READS: u32 = 1000;

/// How often a wait looks at most: more often than it can nap in a millisecond.
const MOST_LOOKS: u32 = 16;

/// Waits for the sockets of the two channels.
#[derive(Drop)]
pub struct Watch<L> {
    lookout: L,
    general: Readiness,
    event: Readiness,
    // By how many nanoseconds the system ends a sleep too late at least, as far as it was seen.
    late: u64,
}

impl<L: Lookout> Watch<L> {
    /// A watch over the sockets of which this is known.
    pub fn new(lookout: L, general: Readiness, event: Readiness) -> Watch<L> {
        Watch {
            lookout,
            general,
            event,
            late: 0,
        }
    }

    // Whether it is known without a look that a datagram may wait at one of the sockets.
    fn is_known(&self) -> bool {
        !self.general.is_empty() || !self.event.is_empty()
    }

    // Whether a datagram may wait at one of the sockets. Where none does it waits for one, for so
    // many milliseconds at most.
    fn look(&mut self, millis: u64) -> io::Result<bool> {
        let known = self.is_known();
        let came = self.lookout.look(if known { 0 } else { millis })?;
        self.general.note_look(came.general);
        self.event.note_look(came.event);
        Ok(known || came.general || came.event)
    }

    // Sleeps for so many nanoseconds, but for what the system makes more of it. That is seen anew
    // each time. What is less than before counts whole, since a sleep that ends too early is
    // followed by another one. Of what is more a little counts.
    fn nap<R: Clock>(&mut self, runtime: &R, nanos: u64) -> io::Result<()> {
        let asked = nanos.saturating_sub(self.late).max(1);
        let before = Instant::now(runtime)?;
        sleep(runtime, asked);
        let slept = nanos_since(runtime, before)?;
        let late = slept.saturating_sub(asked).min(NAP);
        self.late = late.min((31 * self.late.min(NAP) + late) / 32);
        Ok(())
    }

    // Waits for so many nanoseconds, of less than a millisecond, or for a part of them.
    fn pause<R: Clock>(&mut self, runtime: &R, nanos: u64) -> io::Result<()> {
        if nanos <= SPIN {
            spin(runtime, nanos)
        } else {
            self.nap(runtime, nanos.max(SHORTEST).min(NAP))
        }
    }

    // Waits for so many nanoseconds at most, and says whether the wait is over.
    fn wait_for<R: Clock>(&mut self, runtime: &R, nanos: u64) -> io::Result<bool> {
        let millis = nanos.saturating_sub(self.late) / MILLI;
        if 0 < nanos && millis == 0 && !self.is_known() {
            self.pause(runtime, nanos)?;
        }
        Ok(self.look(millis)? || 0 < millis || nanos <= NAP)
    }
}

fn sleep<R: Clock>(runtime: &R, nanos: u64) {
    thread::sleep(runtime, Duration::from_nanos(nanos));
}

// Reads the clock until so many nanoseconds have passed.
fn spin<R: Clock>(runtime: &R, nanos: u64) -> io::Result<()> {
    let before = Instant::now(runtime)?;
    for _ in 0..MOST_READS {
        if nanos <= nanos_since(runtime, before)? {
            break;
        }
    }
    Ok(())
}

fn nanos_since<R: Clock>(runtime: &R, start: Instant) -> io::Result<u64> {
    let elapsed = start.elapsed(runtime)?.as_nanos();
    Ok(u64::try_from(elapsed).unwrap_or(u64::MAX))
}

// For how many nanoseconds to wait until the moment of a clock that counts from this instant: as
// long as a wait takes at most, also where the clock cannot be read.
fn left<R: Clock>(runtime: &R, start: Instant, until: Moment) -> u64 {
    match nanos_since(runtime, start) {
        Ok(now) => until.nanos().saturating_sub(now).min(LONGEST),
        Err(_) => LONGEST,
    }
}

/// Waits until a datagram may wait at one of the sockets of the watch, or until the moment of a
/// clock that counts from this instant, for a hundred milliseconds at most. Without a watch, or
/// where the system fails to look, it sleeps so long.
pub(crate) fn wait_until<R: Clock, L: Lookout>(
    runtime: &R,
    start: Instant,
    until: Moment,
    watch: &mut Option<Watch<L>>,
) {
    let Some(watch) = watch else {
        return sleep(runtime, left(runtime, start, until));
    };
    for _ in 0..MOST_LOOKS {
        let nanos = left(runtime, start, until);
        match watch.wait_for(runtime, nanos) {
            Ok(true) => return,
            Ok(false) => {}
            Err(_) => return sleep(runtime, nanos),
        }
    }
}
