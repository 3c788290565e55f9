//! What an event of a script tells one node, whichever kind of node it is.

use ptu_lines::LentOctets;
use ptu_record::Rule;
use ptu_units::Capacity;

/// What an event of a script tells the node at an address. A node that is of another kind, or has
/// no such master, refuses it. The octets of a datagram stand in room that the reader's caller
/// lent.
#[derive(Drop)]
pub enum Act<'a> {
    /// A node takes a datagram of at most 2048 octets, as from an address.
    Receive { from: u32, octets: LentOctets<'a> },
    /// A table of a grandmaster, from 0 to 3, takes a turn.
    Turn { table: usize },
    /// The clockClass of a grandmaster changes. Nothing is said of it.
    Class { class: u8 },
    /// The capacity of a grandmaster changes.
    Capacity { capacity: Capacity },
    /// A slave takes a tick.
    Tick,
    /// The operator says to a slave whether a master is unusable.
    Flag { master: u32, unusable: bool },
    /// The judge of a master of a slave is replaced by one of the rule.
    Judge { master: u32, rule: Rule },
    /// A slave stops.
    Stop,
}
