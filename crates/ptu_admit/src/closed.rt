//! What the close of a grandmaster gives back: its ports and its counts.

/// What four tables and a book are when they are closed.
#[derive(Drop)]
pub struct Closed<P> {
    /// The share of each table, in sixteenths of a message per second.
    pub counts: [u64; 4],
    /// The sum of the shares.
    pub total: u64,
    /// How many asks were granted.
    pub granted: u64,
    /// How many asks within the profile did not fit.
    pub refused: u64,
    /// The port of each table.
    pub p0: P,
    pub p1: P,
    pub p2: P,
    pub p3: P,
}
