//! Eligible masters, compared by quality level, priority and place (ITU-T G.8265.1).

ghost use Rattle.std.specs.Prelude.{◌≡◌};
ghost use Rattle.ptu_select.specs.Candidate.{better_of as better_candidate_of, is_better_candidate};

use ptu_record::Quality;

/// An eligible master, as it is compared with others.
#[derive(Clone, Copy)]
pub struct Candidate {
    /// The quality level of its last Announce.
    pub quality: Quality,
    /// Its priority number; the lower one is preferred.
    pub priority: u8,
    /// Its place in the slave's list.
    pub place: usize,
}

impl Candidate {
    /// Whether this master is better: its level is better; or levels are equal and its priority
    /// number is lower; or both are equal and its place is earlier.
    pub fn is_better_than(self, other: Candidate) -> bool
        ensures { result ≡ is_better_candidate self other }
    {
        self.quality.is_better_than(other.quality)
            || !other.quality.is_better_than(self.quality)
                && (self.priority < other.priority
                    || self.priority == other.priority && self.place < other.place)
    }
}

/// The better of two candidates, as far as they are there.
pub fn better_of(best: Option<Candidate>, next: Option<Candidate>) -> Option<Candidate>
    ensures { result ≡ better_candidate_of best next }
{
    match (best, next) {
        (Some(best), Some(next)) => {
            if next.is_better_than(best) {
                Some(next)
            } else {
                Some(best)
            }
        }
        (None, next) => next,
        (best, None) => best,
    }
}
