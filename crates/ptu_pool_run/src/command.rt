//! What a line of a script of pools commands.

use crate::Pool;
use ptu_lines::LentOctets;
use ptu_script::GrandmasterSetup;
use ptu_units::Moment;

/// What a line of a script of pools commands. The last two are events. The octets of a datagram
/// stand in room that the reader's caller lent.
#[derive(Drop)]
pub enum PoolCommand<'a> {
    /// The grandmaster is set up, whose capacity the pools share.
    Grandmaster(GrandmasterSetup),
    /// A pool is sold. It has at most 32 bits.
    Sell(Pool),
    /// A datagram of at most 2048 octets comes from an address.
    Receive {
        at: Moment,
        from: u32,
        octets: LentOctets<'a>,
    },
    /// A table, from 0 to 3, of the pool with this number, from 1 to 16, takes a turn.
    Turn {
        at: Moment,
        pool: usize,
        table: usize,
    },
}
