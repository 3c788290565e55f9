//! The definitions that the contracts of this crate cite, at values made out by hand.

ghost use Rattle.ptu_lanes.specs.Samples.{ChangesAre, OrdersAre};

/// Which settings change the capacity, with which round, and what the greatest capacity is.
pub fn sample_changes()
    ensures { ChangesAre }
{}

/// What an order changes, and which rounds are all.
pub fn sample_orders()
    ensures { OrdersAre }
{}
