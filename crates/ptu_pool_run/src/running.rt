//! The program: each line of a script is read, and what it does is told.

ghost use Rattle.std.specs.Prelude.{◌≡◌, ℕ, List, Some};
ghost use Rattle.ptu_report.specs.Runs.{HasRunThrough, IfWritten};
ghost use Rattle.ptu_pool_run.specs.{Answers.{HasPoured}, Poured.{poured_texts}};
ghost use Rattle.ptu_pool_run.specs.{Promises.{KeepsPools}, Reading.{none_told, pool_rules}};
ghost use Rattle.ptu_pool_run.specs.Standing.{StandsFor};

use crate::cause::PoolCause;
use crate::fault::{PoolRunFault, Stepped};
use crate::output::PoolLine;
use crate::pouring::Pouring;
use crate::reading::read_pool_command;
use ptu_lines::LineCause;
use ptu_outside::{Sink, Source};
use ptu_report::{Reporter, Texts, run};
use ptu_units::OutOfMemory;
use ptu_units::sizes::LONGEST_DATAGRAM;
use std::alloc::Global;
use std::marker::Model;

/// What the lines of a script so far say. No program ever has one.
pub struct ToldSoFar;

impl Model for ToldSoFar {
    ghost use Rattle.ptu_pool_run.specs.Reading.{Told, none_told};

    ghost Value = { Told };

    ghost view = { λ _. none_told };
}

/// What the lines so far have made, and the room for the octets of the line that is taken.
#[derive(Drop)]
pub struct Pourer {
    pub pouring: Pouring,
    pub room: [u8; LONGEST_DATAGRAM],
}

impl Reporter for Pourer {
    type Meaning = ToldSoFar;

    type Cause = PoolCause;

    ghost rules = { pool_rules };

    ghost stands_for = { λ pourer told. StandsFor pourer.pouring told };

    #[inline(always)]
    #[tactic(auto, unfolding(crate::specs::Reading::pool_rules))]
    fn take(&mut self, alloc: Global, number: u64, line: &[u8], texts: &mut Texts) -> Stepped {
        match read_pool_command(line, &mut self.room) {
            Ok(None) => Ok(None),
            Ok(Some(command)) => self.pouring.step(alloc, command, number, texts),
            Err(cause) => Ok(Some(PoolCause::from(cause))),
        }
    }

    #[tactic(auto, unfolding(crate::specs::Reading::pool_rules))]
    fn close(&mut self, _: Global, lines: u64, texts: &mut Texts) -> Stepped {
        texts.add_text(&PoolLine::End { lines })?;
        Ok(None)
    }

    #[tactic(auto, unfolding(crate::specs::Reading::pool_rules))]
    fn refuse(number: u64, cause: &PoolCause, texts: &mut Texts) -> Result<(), OutOfMemory> {
        texts.add_text(&PoolLine::Bad {
            line: number,
            cause: *cause,
        })
    }

    #[tactic(auto, unfolding(crate::specs::Reading::pool_rules))]
    fn cause_of(cause: LineCause) -> PoolCause {
        PoolCause::from(cause)
    }
}

/// Runs the script of pools that the source has left, and answers how many lines it has: `gm` sets
/// up a grandmaster, each `pool` sells a part of its capacity to the addresses of a network, and
/// then datagrams come and tables take turns. Each line of output is handed to the sink in one
/// piece, and its rest again until all is taken, before the next line of the script is read. At
/// most 67108865 octets are read, and nothing behind the end.
///
/// # Errors
/// `Line` exactly where a line is refused, after the line of output that names it was written.
/// `Read` exactly where the source failed, `Write` exactly where the sink failed, and else
/// `OutOfMemory`.
pub fn pools<S: Source, K: Sink>(
    alloc: Global,
    source: &mut S,
    sink: &mut K,
) -> Result<u64, PoolRunFault>
    // The whole output was written, and the answer says how it ends.
    ensures whole { (script : List ℕ) → S.left source.old ≡ Some script → IfWritten result
        (λ ending. HasPoured K.written K.handed sink.old sink.new script ending) }
    // What every script keeps to: each pool stands apart and is sent its own messages alone, its
    // requests are decided by the room in it, and all are within the whole.
    ensures headline { (script : List ℕ) → S.left source.old ≡ Some script → KeepsPools script }
    // What was read and written, whatever is answered.
    ensures ran { HasRunThrough S.Source K.Sink source.old source.new sink.old sink.new
        pool_rules none_told poured_texts result }
{
    let pouring = Pouring::new();
    let mut pourer = Pourer {
        pouring,
        room: [0; LONGEST_DATAGRAM],
    };
    run(alloc, &mut pourer, source, sink)
}
