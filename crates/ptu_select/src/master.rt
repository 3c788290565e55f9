//! A master under its watch, with its priority.

ghost use Rattle.std.specs.Prelude.{◌≡◌};
ghost use Rattle.ptu_select.specs.Candidate.{candidate_in};
ghost use Rattle.ptu_select.specs.WatchState.{state_of};

use crate::Watch;
use crate::candidate::Candidate;
use ptu_units::Moment;

/// A master under its watch, with its priority number.
#[derive(Clone, Copy)]
pub struct WatchedMaster {
    pub watch: Watch,
    pub priority: u8,
}

impl WatchedMaster {
    /// The master of this place as a candidate, where it may be selected at the moment.
    pub fn candidate(&self, place: usize, t: Moment) -> Option<Candidate>
        ensures { result ≡
            candidate_in (state_of self.now.watch t) self.now.priority place }
    {
        let state = self.watch.state(t);
        match state.quality {
            Some(quality) if state.is_eligible() => Some(Candidate {
                quality,
                priority: self.priority,
                place,
            }),
            _ => None,
        }
    }
}
