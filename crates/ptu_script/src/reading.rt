//! Reads a line of a script as a command, or the first cause of its refusal.

ghost use Rattle.std.specs.Prelude.{◌≡◌, IfOk, IfSome};
ghost use Rattle.ptu_script.specs.{Command.{command_in, command_of, fields_in}, Limits.{IsCommandInRange}};

use crate::cause::Cause;
use crate::command::Command;
use crate::events::{capacity, class, deliver, flag, judge, rx, stop, tick, turn};
use crate::setups::{gm, master, new_slave};
use crate::verb::{Verb, verb_of};
use ptu_lines::{KEPT_WORDS, LineCause, WordList};
use ptu_units::sizes::LONGEST_DATAGRAM;

// What stands behind the first word.
#[inline(always)]
fn fields<'a>(
    verb: Verb,
    line: &WordList,
    room: &'a mut [u8; LONGEST_DATAGRAM],
) -> Result<Command<'a>, LineCause>
    ensures value { result ≡ fields_in verb line.now }
    ensures within { IfOk result IsCommandInRange }
{
    match verb {
        Verb::Gm => gm(line),
        Verb::Slave => new_slave(line),
        Verb::Master => master(line),
        Verb::Rx => rx(line, room),
        Verb::Deliver => deliver(line),
        Verb::Turn => turn(line),
        Verb::Tick => tick(line),
        Verb::Flag => flag(line),
        Verb::Judge => judge(line),
        Verb::Stop => stop(line),
        Verb::Class => class(line),
        Verb::Capacity => capacity(line),
    }
}

// The command of a line that is no comment.
#[inline(always)]
fn command<'a>(line: &[u8], room: &'a mut [u8; LONGEST_DATAGRAM]) -> Result<Command<'a>, LineCause>
    ensures value { result ≡ command_in line.now }
    ensures within { IfOk result IsCommandInRange }
{
    let mut ends = [0; KEPT_WORDS];
    let words = WordList::new(line, &mut ends);
    fields(verb_of(&words)?, &words, room)
}

/// What a line of a script commands, or `None` for a line that is empty or begins with `#`. The
/// line is one without its 0A; it may be of any length and of any octets. A datagram's octets are
/// put into the room; after any other line its content is not said. No memory is taken.
///
/// # Errors
/// Why the line is refused: its first word is that of no command (`Word`), it has another number of
/// words than its command (`Count`), or the word with the least such number is outside its form or
/// range (`Field`), in this order. No other cause is given.
#[tactic(auto, unfolding(crate::specs::Command::command_of))]
pub fn read_command<'a>(
    line: &[u8],
    room: &'a mut [u8; LONGEST_DATAGRAM],
) -> Result<Option<Command<'a>>, Cause>
    ensures value { result ≡ command_of line.now }
    ensures within { IfOk result (λ command. IfSome command IsCommandInRange) }
{
    if matches!(line, [] | [b'#', ..]) {
        return Ok(None);
    }
    Ok(Some(command(line, room)?))
}
