//! The commands of the program, and the name of each.

ghost use Rattle.std.specs.Prelude.{◌≡◌, ◌≤◌, IfSome, option_map};
ghost use Rattle.ptu_run.specs.CommandLine.{IsCommandLineInRange, audit_of, command_named, load_of};

use ptu_lines::number;
use ptu_units::Capacity;

/// What the words ask the program for.
#[derive(Clone, Copy, Debug, PartialEq, Eq)]
pub enum Command {
    /// Replay a script.
    Replay,
    /// Decode datagrams.
    Show,
    /// Make and replay a load of so many clients, from 1 to 2000.
    Load(u64),
    /// Serve as a grandmaster.
    Serve,
    /// Run a slave.
    Slave,
    /// Join the halves of Syncs that were sent in two steps.
    Join,
    /// Audit a report whose grandmasters begin with this capacity.
    Audit(Capacity),
    /// Run a script of one grandmaster whose capacity is sold to several customers.
    Pools,
}

// A load of the number that the value writes.
fn load(value: Option<&str>) -> Option<Command>
    ensures load { result ≡ load_of (option_map (λ v. v.now) value.entry) }
    ensures range { IfSome result IsCommandLineInRange }
{
    let number = number(value?.as_bytes(), 1, 2000)?;
    Some(Command::Load(number))
}

// An audit with the capacity that the value writes.
fn audit(value: Option<&str>) -> Option<Command>
    ensures audit { result ≡ audit_of (option_map (λ v. v.now) value.entry) }
    ensures range { IfSome result IsCommandLineInRange }
{
    let capacity = number(value?.as_bytes(), Capacity::LEAST, Capacity::GREATEST)?;
    Some(Command::Audit(Capacity::of(capacity)?))
}

impl Command {
    /// The command of this name, with this value where it has one.
    pub fn named(name: &str, value: Option<&str>) -> Option<Command>
        ensures command { result ≡ command_named name.now (option_map (λ v. v.now) value.entry) }
        ensures range { IfSome result IsCommandLineInRange }
    {
        if name == "replay" {
            Some(Command::Replay)
        } else if name == "show" {
            Some(Command::Show)
        } else if name == "load" {
            load(value)
        } else if name == "serve" {
            Some(Command::Serve)
        } else if name == "slave" {
            Some(Command::Slave)
        } else if name == "join" {
            Some(Command::Join)
        } else if name == "audit" {
            audit(value)
        } else if name == "pools" {
            Some(Command::Pools)
        } else {
            None
        }
    }
}
