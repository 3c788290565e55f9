//! A reader of lines together with its source, for callers that use the source for nothing else.

ghost use Rattle.std.specs.{Prelude.{◌≡◌, ◌≤◌, length, IfOk, OnSome}, List.{AllPass}};
ghost use Rattle.ptu_lines.specs.Script.{is_plain};
ghost use Rattle.ptu_lines.specs.Reading.{octets_taken, AgreesOnEnd, CountsRead, HasNext, IsFresh, IsReadToEnd};

use crate::fault::LinesFault;
use crate::line_reader::LineReader;
use ptu_outside::Source;
use ptu_units::OutOfMemory;
use std::alloc::Global;

/// The lines of a script, read from a source in blocks. `R` is always a `LineReader`: it is a
/// parameter so that a clause can say what is left behind `source` when the value is dropped.
pub struct Lines<'a, S, R = LineReader> {
    source: &'a mut S,
    reader: R,
}

impl<'a, S, R: Drop> Drop for Lines<'a, S, R> {
    fn drop(self)
        ensures { self.exit.0.now ≡ self.entry.source.now }
    {
        let Lines {
            source: _,
            reader: _,
        } = self;
    }
}

impl<'a, S: Source> Lines<'a, S> {
    ghost use Rattle.ptu_lines.specs.Lines.{reader_of, source_of, AreLinesOf, HaveOneSource};

    /// The lines of what the source has left. It makes the one buffer.
    ///
    /// # Errors
    /// `OutOfMemory`; then no clause says what the source is afterwards. A caller that has to know
    /// makes the reader first, and calls `over`.
    pub fn new(alloc: Global, source: &'a mut S) -> Result<Lines<'a, S>, OutOfMemory>
        ensures same { IfOk result (AreLinesOf source.entry) }
        ensures source { IfOk result (λ lines. source_of lines ≡ source.old) }
        ensures fresh { IfOk result (λ lines. IsFresh (reader_of lines)) }
    {
        let reader = LineReader::new(alloc)?;
        Ok(Lines::over(source, reader))
    }

    /// The lines of what the source has left, by a reader that has read nothing.
    pub fn over(source: &'a mut S, reader: LineReader) -> Lines<'a, S>
        requires { IsFresh reader }
        ensures same { AreLinesOf source.entry result }
        ensures source { source_of result ≡ source.old }
        ensures fresh { reader_of result ≡ reader }
    {
        Lines { source, reader }
    }

    /// The number of the next line, from 1, whose text is then `text`, or `None` at the source's
    /// end. It takes at most 67108865 octets in all calls together, and reads nothing behind the
    /// end.
    ///
    /// # Errors
    /// `Line` where the line is refused, and `Read` where the source failed.
    pub fn next(&mut self) -> Result<Option<u64>, LinesFault>
        requires in_step { AgreesOnEnd (reader_of self.old).is_ended (S.left (source_of self.old)) }
        ensures same { HaveOneSource self.new self.old }
        ensures in_step { AgreesOnEnd (reader_of self.new).is_ended (S.left (source_of self.new)) }
        ensures next { HasNext result (reader_of self.old) (reader_of self.new)
            (S.left (source_of self.old)) (S.left (source_of self.new)) }
        ensures bounded { octets_taken (reader_of self.new) ≤ 67108865 }
        ensures few { (reader_of self.new).number ≤ 67108864 }
        // What it gives is plain text of at most 8192 octets, also where the source does not tell.
        ensures plain { IfOk result (λ given. OnSome given
            ((length (reader_of self.new).text ≤ 8192)
            × AllPass is_plain (reader_of self.new).text)) }
        ensures ends { IsReadToEnd (reader_of self.old).is_ended (S.ends (source_of self.old))
            → IsReadToEnd (reader_of self.new).is_ended (S.ends (source_of self.new)) }
        ensures faults { CountsRead result (S.faults (source_of self.old))
            (S.faults (source_of self.new)) }
        ensures no_fall { S.faults (source_of self.old) ≤ S.faults (source_of self.new) }
    {
        self.reader.next(self.source)
    }

    /// The text of the line that `next` gave last, without its 0A.
    pub fn text(&self) -> &[u8]
        ensures { result.now ≡ (reader_of self.now).text }
    {
        self.reader.text()
    }
}
