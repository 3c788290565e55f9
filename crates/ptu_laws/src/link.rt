//! How many timing messages a link has to carry for a grandmaster of a given capacity.

ghost use Rattle.std.specs.{Prelude.{◌≡◌, ℕ, ◌*◌, ◌/◌, ◌≤◌, List}, List.{All}};
ghost use Rattle.ptu_units.specs.Time.{second};
ghost use Rattle.ptu_history.specs.{Verdict.{Config}, Events.{Event}, Core.{core_history}};
ghost use Rattle.ptu_history.specs.Held.{count};
ghost use Rattle.ptu_laws.specs.Changes.{IsUpTo};

use ptu_units::{Capacity, Moment};

/// The most timing messages that a grandmaster sends up to a moment whose capacity is never above
/// this one: what a link has to carry.
#[tactic(auto, using(crate::proofs::Bounds::count_quotient))]
pub fn most_messages(capacity: Capacity, moment: Moment) -> u64
    ensures value { result ≡ capacity * moment / (16 * second) }
    ensures most { (config : Config) (events : List (ℕ × Event)) →
        config.capacity ≤ capacity → All (λ e. IsUpTo capacity e.1) events →
        count (core_history config events) moment ≤ result }
{
    (u128::from(capacity.get()) * u128::from(moment.nanos()) / 16_000_000_000) as u64
}
