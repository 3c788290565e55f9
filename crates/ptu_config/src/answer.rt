//! What a grandmaster answers by its control port.

ghost use Rattle.std.specs.{Prelude.{◌≡◌, Some, IfOk}, String.{string_bytes}};
ghost use Rattle.ptu_config.specs.Answers.{cause_word, count_lines, grant_lines, live_lines, place_lines, reply_text};

use crate::command::Cause;
use ptu_units::OutOfMemory;
use std::alloc::Global;
use std::fmt;

/// How a grandmaster stands.
#[derive(Clone, Copy, Debug, PartialEq, Eq)]
pub struct Status {
    /// The clockClass of its Announces.
    pub class: u8,
    /// The capacity in force, in sixteenths of a message per second.
    pub capacity: u64,
    /// The rates of the grants that are live, in sixteenths of a message per second.
    pub held: u64,
    /// How many grants of Announces are live.
    pub live_announce: u64,
    /// How many grants of Syncs are live.
    pub live_sync: u64,
    /// How many grants of Delay_Resps are live.
    pub live_delay_resp: u64,
    /// How many asks were granted.
    pub granted: u64,
    /// How many asks within the profile did not fit.
    pub refused: u64,
    /// How many datagrams were sent.
    pub sent: u128,
    /// How many sends and receives failed.
    pub failed: u128,
    /// The round in which it is asked, from 1.
    pub round: u64,
    /// The moment at which this is so, in nanoseconds of its clock.
    pub moment: u64,
}

/// What a grandmaster answers. Its text is that of one datagram, each line with its 0A.
#[derive(Clone, Copy, Debug, PartialEq, Eq)]
pub enum Reply {
    /// It is done.
    Done,
    /// The capacity is changed, and so many grants were shed.
    Shed(u128),
    /// How it stands.
    Stands(Status),
    /// The line was no command.
    Bad(Cause),
}

impl fmt::Display for Cause {
    ghost output = { λ cause. Some (cause_word cause) };

    fn fmt<W: fmt::Write>(&self, f: &mut fmt::Formatter<W>) -> fmt::Result {
        match self {
            Cause::Words => f.write_str("words"),
            Cause::Class => f.write_str("class"),
            Cause::Capacity => f.write_str("capacity"),
        }
    }
}

// The lines of what is granted.
#[derive(Clone, Copy)]
struct GrantLines {
    status: Status,
}

impl fmt::Display for GrantLines {
    ghost output = { λ lines. Some (grant_lines lines.status) };

    fn fmt<W: fmt::Write>(&self, f: &mut fmt::Formatter<W>) -> fmt::Result {
        let s = &self.status;
        write!(
            f,
            "class {}\ncapacity {}\nheld {}\n",
            s.class, s.capacity, s.held
        )
    }
}

// The lines of the live grants, by kind.
#[derive(Clone, Copy)]
struct LiveLines {
    status: Status,
}

impl fmt::Display for LiveLines {
    ghost output = { λ lines. Some (live_lines lines.status) };

    fn fmt<W: fmt::Write>(&self, f: &mut fmt::Formatter<W>) -> fmt::Result {
        let s = &self.status;
        write!(
            f,
            "live_announce {}\nlive_sync {}\nlive_delay_resp {}\n",
            s.live_announce, s.live_sync, s.live_delay_resp
        )
    }
}

// The lines of what was decided and sent so far.
#[derive(Clone, Copy)]
struct CountLines {
    status: Status,
}

impl fmt::Display for CountLines {
    ghost output = { λ lines. Some (count_lines lines.status) };

    fn fmt<W: fmt::Write>(&self, f: &mut fmt::Formatter<W>) -> fmt::Result {
        let s = &self.status;
        write!(
            f,
            "granted {}\nrefused {}\nsent {}\nfailed {}\n",
            s.granted, s.refused, s.sent, s.failed
        )
    }
}

// The lines of where it is.
#[derive(Clone, Copy)]
struct PlaceLines {
    status: Status,
}

impl fmt::Display for PlaceLines {
    ghost output = { λ lines. Some (place_lines lines.status) };

    fn fmt<W: fmt::Write>(&self, f: &mut fmt::Formatter<W>) -> fmt::Result {
        let s = &self.status;
        write!(f, "round {}\nmoment {}\n", s.round, s.moment)
    }
}

impl fmt::Display for Reply {
    ghost output = { λ reply. Some (reply_text reply) };

    #[tactic(auto, unfolding(crate::specs::Answers::reply_text))]
    fn fmt<W: fmt::Write>(&self, f: &mut fmt::Formatter<W>) -> fmt::Result {
        match self {
            Reply::Done => f.write_str("ok\n"),
            Reply::Shed(count) => write!(f, "ok\nshed {}\n", *count),
            Reply::Stands(status) => {
                f.write_str("ok\n")?;
                let status = *status;
                let grants = GrantLines { status };
                let live = LiveLines { status };
                let counts = CountLines { status };
                let place = PlaceLines { status };
                write!(f, "{grants}{live}{counts}{place}")
            }
            Reply::Bad(cause) => write!(f, "bad {}\n", *cause),
        }
    }
}

/// The octets of an answer, as text.
///
/// # Errors
/// `OutOfMemory`.
pub fn reply_text(alloc: Global, reply: &Reply) -> Result<String, OutOfMemory>
    ensures { IfOk result (λ text. string_bytes text ≡ reply_text reply.now) }
{
    Ok(format!(in alloc; "{reply}")?)
}
