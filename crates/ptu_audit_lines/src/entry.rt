//! What a line of a finished report says, as types of their own. They share no code with the types
//! by which `replay` writes a report.

use ptu_lines::LentOctets;
use ptu_units::{Client, Kind, Log};

/// What a grandmaster decided on a REQUEST or a CANCEL of a Signaling (IEEE 1588-2019 clause
/// 16.1.4), as a line says it. Moments are in nanoseconds, rates and capacities in sixteenths of a
/// message per second, and each number is any that the line may write.
#[derive(Clone, Copy, Debug)]
pub enum Decision {
    /// The request was granted at a moment until another.
    Granted {
        kind: Kind,
        log: Log,
        at: u64,
        until: u64,
    },
    /// The request did not fit beside the rates of the other live grants.
    Short {
        kind: Kind,
        log: Log,
        at: u64,
        others: u64,
        rate: u64,
        capacity: u64,
    },
    /// The messageType of the request is no kind.
    OutsideType {
        code: u64,
    },
    /// The logarithm of the request is out of the range of its kind.
    OutsideLog {
        kind: Kind,
        log: i8,
    },
    /// The duration of the request, in seconds, is too short.
    OutsideDuration {
        kind: Kind,
        log: Log,
        seconds: u64,
    },
    /// A CANCEL ended a grant.
    Cancelled {
        kind: Kind,
        at: u64,
    },
    /// A CANCEL found no live grant.
    Nothing {
        kind: Kind,
        at: u64,
    },
    /// The messageType of a CANCEL is no kind.
    NothingCode {
        code: u64,
    },
}

/// What stands behind the number of a line.
#[derive(Debug, Drop)]
pub enum Entry<'a> {
    /// A grandmaster decided.
    Decided(Decision),
    /// The capacity of the grandmaster with this address became another, in sixteenths of a
    /// message per second, at a moment in nanoseconds.
    Capacity {
        grandmaster: u32,
        capacity: u64,
        at: u64,
    },
    /// A grant was shed.
    Shed {
        kind: Kind,
        log: Log,
        client: Client,
    },
    /// A datagram was sent from an address to another, and got this number.
    Send {
        number: u64,
        from: u32,
        to: u32,
        octets: LentOctets<'a>,
    },
    /// The line says nothing of what a grandmaster promised, or of what was sent.
    Other,
}

/// A line of a report.
#[derive(Debug, Drop)]
pub enum ReportLine<'a> {
    /// What happened at the line with this number of the script.
    At { number: u64, entry: Entry<'a> },
    /// The report's end: the script's lines, and the datagrams that were sent.
    End { lines: u64, datagrams: u64 },
}
