//! Why pools are refused: a pool is no network, two overlap, or too much capacity is sold.

ghost use Rattle.std.specs.Prelude.{◌≡◌};
ghost use Rattle.ptu_pool_run.specs.declared.pools_fault.PoolsFault.TheVariants.{OutOfMemory as NoMemory};

use ptu_units::OutOfMemory;
use thiserror::Error;

/// Why pools were refused: the first that applies. Places count from 0.
#[derive(Clone, Copy, Debug, PartialEq, Eq, Error)]
pub enum PoolsFault {
    /// The pool at this place has more than 32 bits, or its `net` has a bit set after them.
    #[error("pool {at} is no network")]
    Net { at: usize },
    /// Some address is in the pools at these two places: those with the least `second`, then the
    /// least `first`.
    #[error("an address is in the pools {first} and {second}")]
    Overlap { first: usize, second: usize },
    /// The capacities sum to this, which is above the whole.
    #[error("the capacities sum to {sum}")]
    Over { sum: u64 },
    /// Memory is wanting.
    #[error("out of memory")]
    OutOfMemory,
}

impl From<OutOfMemory> for PoolsFault {
    ghost from_gives = { λ _ fault. fault ≡ NoMemory };

    fn from(_: OutOfMemory) -> PoolsFault {
        PoolsFault::OutOfMemory
    }
}
