//! The lines that are events.
ghost use Rattle.std.specs.Prelude.{◌≡◌, IfOk};
ghost use Rattle.ptu_script.specs.{Command.{fields_in, handed_in}, Limits.{IsCommandInRange}};
ghost use Rattle.ptu_script.specs.declared.verb.Verb.TheVariants as verbs;

use crate::act::Act;
use crate::command::Command;
use crate::fields::{
    capacity_field, ip_field, moment_field, number_field, octet_field, octets_field, rule_field,
    truth_field,
};
use ptu_lines::{LineCause, WordList};
use ptu_units::Moment;
use ptu_units::sizes::LONGEST_DATAGRAM;

/// The line `deliver T I`: sent datagram I is delivered to the node at its address.
///
/// # Errors
/// `Field(k)` for the first word k of another form or out of its range.
#[tactic(auto, unfolding(crate::specs::Command::fields_in))]
pub fn deliver<'a>(line: &WordList) -> Result<Command<'a>, LineCause>
    ensures value { result ≡ fields_in verbs.Deliver line.now }
    ensures within { IfOk result IsCommandInRange }
{
    let at = moment_field(line, 2)?;
    let number = number_field(line, 3, 0, u64::MAX)?;
    Ok(Command::Deliver { at, number })
}

/// The line `turn T GM J`: table J of a grandmaster takes its turn.
///
/// # Errors
/// `Field(k)` for the first word k of another form or out of its range.
#[tactic(auto, unfolding(crate::specs::Command::fields_in))]
pub fn turn<'a>(line: &WordList) -> Result<Command<'a>, LineCause>
    ensures value { result ≡ fields_in verbs.Turn line.now }
    ensures within { IfOk result IsCommandInRange }
{
    let at = moment_field(line, 2)?;
    let node = ip_field(line, 3)?;
    let table = number_field(line, 4, 0, 3)?;
    let act = Act::Turn {
        table: table as usize,
    };
    Ok(Command::Event { at, node, act })
}

/// The line `tick T SLAVE`: a slave takes a tick.
///
/// # Errors
/// `Field(k)` for the first word k of another form or out of its range.
#[tactic(auto, unfolding(crate::specs::Command::fields_in))]
pub fn tick<'a>(line: &WordList) -> Result<Command<'a>, LineCause>
    ensures value { result ≡ fields_in verbs.Tick line.now }
    ensures within { IfOk result IsCommandInRange }
{
    let at = moment_field(line, 2)?;
    let node = ip_field(line, 3)?;
    let act = Act::Tick;
    Ok(Command::Event { at, node, act })
}

/// The line `flag T SLAVE IP B`: an operator says whether a master is unusable.
///
/// # Errors
/// `Field(k)` for the first word k of another form or out of its range.
#[tactic(auto, unfolding(crate::specs::Command::fields_in))]
pub fn flag<'a>(line: &WordList) -> Result<Command<'a>, LineCause>
    ensures value { result ≡ fields_in verbs.Flag line.now }
    ensures within { IfOk result IsCommandInRange }
{
    let at = moment_field(line, 2)?;
    let node = ip_field(line, 3)?;
    let master = ip_field(line, 4)?;
    let unusable = truth_field(line, 5)?;
    let act = Act::Flag { master, unusable };
    Ok(Command::Event { at, node, act })
}

/// The line `judge T SLAVE IP RULE`: another judge takes over a master.
///
/// # Errors
/// `Field(k)` for the first word k of another form or out of its range.
#[tactic(auto, unfolding(crate::specs::Command::fields_in))]
pub fn judge<'a>(line: &WordList) -> Result<Command<'a>, LineCause>
    ensures value { result ≡ fields_in verbs.Judge line.now }
    ensures within { IfOk result IsCommandInRange }
{
    let at = moment_field(line, 2)?;
    let node = ip_field(line, 3)?;
    let master = ip_field(line, 4)?;
    let rule = rule_field(line, 5)?;
    let act = Act::Judge { master, rule };
    Ok(Command::Event { at, node, act })
}

/// The line `stop T SLAVE`: a slave stops and cancels its grants.
///
/// # Errors
/// `Field(k)` for the first word k of another form or out of its range.
#[tactic(auto, unfolding(crate::specs::Command::fields_in))]
pub fn stop<'a>(line: &WordList) -> Result<Command<'a>, LineCause>
    ensures value { result ≡ fields_in verbs.Stop line.now }
    ensures within { IfOk result IsCommandInRange }
{
    let at = moment_field(line, 2)?;
    let node = ip_field(line, 3)?;
    let act = Act::Stop;
    Ok(Command::Event { at, node, act })
}

/// The line `class GM CLASS`: the clockClass that a grandmaster announces changes.
///
/// # Errors
/// `Field(k)` for the first word k of another form or out of its range.
#[tactic(auto, unfolding(crate::specs::Command::fields_in))]
pub fn class<'a>(line: &WordList) -> Result<Command<'a>, LineCause>
    ensures value { result ≡ fields_in verbs.Class line.now }
    ensures within { IfOk result IsCommandInRange }
{
    let node = ip_field(line, 2)?;
    let class = octet_field(line, 3)?;
    Ok(Command::Event {
        at: Moment::default(),
        node,
        act: Act::Class { class },
    })
}

/// The line `capacity T GM N`: the capacity of a grandmaster changes to N sixteenths of a message
/// per second.
///
/// # Errors
/// `Field(k)` for the first word k of another form or out of its range.
#[tactic(auto, unfolding(crate::specs::Command::fields_in))]
pub fn capacity<'a>(line: &WordList) -> Result<Command<'a>, LineCause>
    ensures value { result ≡ fields_in verbs.Capacity line.now }
    ensures within { IfOk result IsCommandInRange }
{
    let at = moment_field(line, 2)?;
    let node = ip_field(line, 3)?;
    let capacity = capacity_field(line, 4)?;
    let act = Act::Capacity { capacity };
    Ok(Command::Event { at, node, act })
}

// The words T, NODE and FROM.
fn handed(line: &WordList) -> Result<(Moment, u32, u32), LineCause>
    ensures { result ≡ handed_in line.now }
{
    let at = moment_field(line, 2)?;
    let node = ip_field(line, 3)?;
    let from = ip_field(line, 4)?;
    Ok((at, node, from))
}

/// The line `rx T NODE FROM HEX`: a node receives a datagram. Its octets are put into the room.
///
/// # Errors
/// `Field(k)` for the first word k of another form or out of its range. The content of the room is
/// not said then.
#[inline(always)]
#[tactic(auto, unfolding(crate::specs::Command::fields_in))]
pub fn rx<'a>(
    line: &WordList,
    room: &'a mut [u8; LONGEST_DATAGRAM],
) -> Result<Command<'a>, LineCause>
    ensures value { result ≡ fields_in verbs.Rx line.now }
    ensures within { IfOk result IsCommandInRange }
{
    let (at, node, from) = handed(line)?;
    let octets = octets_field(line, 5, room)?;
    let act = Act::Receive { from, octets };
    Ok(Command::Event { at, node, act })
}
