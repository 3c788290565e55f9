//! The last line of the daemon.

ghost use Rattle.std.specs.{Prelude.{Some, IfOk, ◌≡◌}, String.{string_bytes}};
ghost use Rattle.ptu_daemon.specs.Served.{closing_line, said_by};

use ptu_units::OutOfMemory;
use std::alloc::Global;
use std::fmt;

/// The numbers of the last line.
#[derive(Clone, Copy)]
pub(crate) struct Closing {
    /// How many rounds there were.
    pub rounds: u64,
    /// How many datagrams were sent.
    pub sent: u128,
    /// How many sends and receives failed.
    pub failed: u128,
    /// How many asks were granted.
    pub granted: u64,
    /// How many asks within the profile did not fit.
    pub refused: u64,
    /// The rates of the grants that are live, in sixteenths of a message per second.
    pub held: u64,
}

impl fmt::Display for Closing {
    ghost output = { λ c. Some (closing_line (said_by c)) };

    #[tactic(auto, unfolding(crate::specs::Served::closing_line))]
    fn fmt<W: fmt::Write>(&self, f: &mut fmt::Formatter<W>) -> fmt::Result {
        writeln!(
            f,
            "rounds {} sent {} failed {} granted {} refused {} held {}",
            self.rounds, self.sent, self.failed, self.granted, self.refused, self.held
        )
    }
}

/// The closing line of the daemon, as text.
pub(crate) fn closing_text(alloc: Global, closing: &Closing) -> Result<String, OutOfMemory>
    ensures { IfOk result (λ text.
        string_bytes text ≡ closing_line (said_by closing.now)) }
{
    Ok(format!(in alloc; "{closing}")?)
}
