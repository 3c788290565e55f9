//! What a slave's daemon writes, line by line.

ghost use Rattle.std.specs.Prelude.{◌≡◌, [], ◌∷◌, cond, map, IfOk, OnOk, OnErr};
ghost use Rattle.std.specs.String.{string_bytes};
ghost use Rattle.ptu_outside.specs.Handing.{HasPut, HasPutPart};
ghost use Rattle.ptu_slave_daemon.specs.Answers.{Halts};
ghost use Rattle.ptu_slave_daemon.specs.Lines.{is_said, is_same_selection, slave_line_text, said_next, selected_line, slave_texts};

use crate::halt::Halt;
use crate::line::SlaveLine;
use ptu_outside::{Sink, write_whole};
use ptu_units::OutOfMemory;
use std::alloc::Global;
use std::fmt::Write;

// The text of a line.
fn text_of(alloc: Global, line: SlaveLine) -> Result<String, OutOfMemory>
    ensures { IfOk result (λ text. string_bytes text ≡ slave_line_text line) }
{
    let mut text = String::new(alloc);
    write!(text, "{line}")?;
    Ok(text)
}

/// Writes a line of the daemon to the sink, whole.
///
/// # Errors
/// `Write` if the sink failed: a prefix of the line was written then. `OutOfMemory`: nothing was.
pub(crate) fn write_line<K: Sink>(alloc: Global, sink: &mut K, line: SlaveLine) -> Result<(), Halt>
    ensures whole { OnOk result (HasPut K.written K.handed sink.old sink.new
        (slave_texts (line ∷ []))) }
    ensures part { OnErr result (HasPutPart K.written K.handed sink.old sink.new
        (slave_texts (line ∷ []))) }
    ensures counts { Halts result (K.faults sink.old) (K.faults sink.new) }
{
    let Ok(text) = text_of(alloc, line) else {
        return Err(Halt::OutOfMemory);
    };
    match write_whole(sink, text.as_bytes()) {
        Ok(()) => Ok(()),
        Err(_) => Err(Halt::Write),
    }
}

// Whether two selections are of one master, or both of none.
fn is_same_as(last: Option<u32>, master: Option<u32>) -> bool
    ensures { result ≡ is_same_selection last master }
{
    match (last, master) {
        (None, None) => true,
        (Some(last), Some(master)) => last == master,
        _ => false,
    }
}

// Whether this was written last.
fn is_written(said: Option<Option<u32>>, master: Option<u32>) -> bool
    ensures { result ≡ is_said said master }
{
    match said {
        None => false,
        Some(last) => is_same_as(last, master),
    }
}

/// Writes what is selected after a round, where something else was written last, or nothing.
///
/// # Errors
/// `Write` where the sink failed, and `OutOfMemory`.
pub(crate) fn say<K: Sink>(
    alloc: Global,
    sink: &mut K,
    round: u64,
    said: Option<Option<u32>>,
    master: Option<u32>,
) -> Result<(), Halt>
    ensures whole { OnOk result (HasPut K.written K.handed sink.old sink.new
        (slave_texts (map selected_line
        (said_next said (record { round = round; master = master }))))) }
    ensures part { OnErr result (HasPutPart K.written K.handed sink.old sink.new
        (slave_texts (map selected_line
        (said_next said (record { round = round; master = master }))))) }
    ensures counts { Halts result (K.faults sink.old) (K.faults sink.new) }
{
    if is_written(said, master) {
        return Ok(());
    }
    write_line(alloc, sink, SlaveLine::Selected { round, master })
}
