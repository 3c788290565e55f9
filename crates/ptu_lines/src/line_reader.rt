//! Reads a script line by line in blocks, and refuses a script or a line that is too long, or an
//! octet that is no plain text.

ghost use Rattle.std.specs.Prelude.{◌≡◌, ◌<◌, ◌≤◌, ◌+◌, ◌++◌, ℕ, List, Some, None, false, length, take, IfOk, IfNone, OnSome, OnOk, OnErr, IsTrue, position};
ghost use Rattle.std.specs.{List.{list_all, AllPass}, Io.KnownBytes.{IsAtEnd, prepend_known}};
ghost use Rattle.ptu_outside.specs.Faults.{HasRisen};
ghost use Rattle.ptu_lines.specs.Script.{is_end, is_plain, cause_of, text_of};
ghost use Rattle.ptu_lines.specs.Reading.{known_of, octets_taken, AgreesOnEnd, CountsRead, HasNext, IsEnough, IsFresh, IsReadToEnd};

use crate::cause::LineCause;
use crate::fault::LinesFault;
use crate::line_buffer::{LONGEST_LINE, LineBuffer};
use memchr::memchr;
use ptu_outside::{Failed, Source};
use ptu_units::OutOfMemory;
use std::alloc::Global;
use std::marker::Model;

/// The most octets of a script.
pub const LONGEST_SCRIPT: usize = 67_108_864;

/// A reader of lines, beside its source: the one buffer, how many octets stood before those that
/// wait in it, and the number of the line that was given last. It has to be handed the same source
/// at each call.
#[derive(Drop)]
pub struct LineReader {
    buffer: LineBuffer,
    before: usize,
    number: u64,
}

impl Model for LineReader {
    ghost use Rattle.std.specs.Prelude.{◌≤◌, ◌+◌, length};
    ghost use Rattle.ptu_lines.specs.Reading.{Reader};

    ghost Value = { Reader };

    ghost view = { λ r. record {
      number = r.number;
      text = r.buffer.text;
      before = r.before;
      waiting = r.buffer.waiting;
      is_ended = r.buffer.is_ended;
    } };

    ghost invariant = { λ r. (r.number ≤ r.before) × (r.before ≤ 67108864)
        × (r.before + length r.buffer.waiting ≤ 67108865) };
}

// The place of the first 0A.
fn first_end(octets: &[u8]) -> Option<usize>
    ensures { result ≡ position is_end octets.now }
{
    memchr(b'\n', octets)
}

// So many octets are looked at at a time.
const PART: usize = 32;

// Whether all octets are from 20 to 7E (hexadecimal).
#[inline(always)]
fn are_plain(octets: &[u8]) -> bool
    ensures { result ≡ list_all is_plain octets.now }
{
    let mut is_plain = true;
    for octet in octets {
        is_plain &= 0x20 <= *octet && *octet <= 0x7E;
    }
    is_plain
}

// Whether all octets are from 20 to 7E (hexadecimal). Those that are left behind whole parts are
// looked at with some before them, as one part more.
#[inline(always)]
fn is_plain_text(text: &[u8]) -> bool
    ensures { result ≡ list_all is_plain text.now }
{
    match text.last_chunk::<PART>() {
        None => are_plain(text),
        Some(last) => {
            let whole = text.len() / PART * PART;
            are_plain(&text[..whole]) && are_plain(last)
        }
    }
}

// Why a line is refused, if it is: so many octets stand before it, and the first `text` of its own
// are its text.
#[inline(always)]
fn refusal(before: usize, octets: &[u8], text: usize) -> Option<LineCause>
    requires before { before ≤ LONGEST_SCRIPT }
    requires octets { length octets.now ≤ 8193 }
    requires text { text ≤ length octets.now }
    requires is_text { take text octets.now ≡ text_of octets.now }
    ensures { result ≡ cause_of before octets.now }
{
    if before + octets.len() > LONGEST_SCRIPT {
        return Some(LineCause::Size);
    }
    if text > LONGEST_LINE {
        return Some(LineCause::Long);
    }
    if is_plain_text(&octets[..text]) {
        None
    } else {
        Some(LineCause::Text)
    }
}

// How many octets of those that wait are the next line's text, and how many the line has with its
// 0A, as far as they are known.
#[inline(always)]
fn extent(waiting: &[u8], end: Option<usize>) -> (usize, usize)
    requires { end ≡ position is_end (take 8193 waiting.now) }
    ensures known { take result.1 waiting.now ≡ known_of end waiting.now }
    ensures size { result.1 ≡ length (known_of end waiting.now) }
    ensures text { take result.0 (known_of end waiting.now) ≡ text_of (known_of end waiting.now) }
    ensures order { result.0 ≤ result.1 }
    ensures within { result.1 ≤ 8193 }
{
    match end {
        Some(place) => (place, place + 1),
        None => {
            let size = waiting.len().min(LONGEST_LINE + 1);
            (size, size)
        }
    }
}

// The place of the first 0A among the first 8193 octets, where the first `searched` have none.
#[inline(always)]
fn end_past(waiting: &[u8], searched: usize) -> Option<usize>
    requires order { searched ≤ length waiting.now }
    requires short { searched ≤ 8193 }
    requires none { position is_end (take searched waiting.now) ≡ None }
    ensures { result ≡ position is_end (take 8193 waiting.now) }
{
    let high = waiting.len().min(LONGEST_LINE + 1);
    let place = first_end(&waiting[searched..high])?;
    Some(searched + place)
}

// Reads on until the next line's 0A is there, and gives its place, or until enough of the line is
// there without it.
#[inline(always)]
fn find_end<S: Source>(
    buffer: &mut LineBuffer,
    before: usize,
    source: &mut S,
) -> Result<Option<usize>, Failed>
    requires before { before ≤ LONGEST_SCRIPT }
    requires within { before + length buffer.old.waiting ≤ 67108865 }
    requires in_step { AgreesOnEnd buffer.old.is_ended (S.left source.old) }
    ensures in_step { AgreesOnEnd buffer.new.is_ended (S.left source.new) }
    ensures within { before + length buffer.new.waiting ≤ 67108865 }
    ensures read { (octets : List ℕ) × (buffer.new.waiting ≡ buffer.old.waiting ++ octets)
        × (S.left source.old ≡ prepend_known octets (S.left source.new)) }
    ensures place { IfOk result (λ place. place ≡ position is_end (take 8193 buffer.new.waiting)) }
    ensures enough { IfOk result (λ place. IfNone place
        (IsEnough before buffer.new.waiting buffer.new.is_ended)) }
    ensures unended { OnErr result (position is_end buffer.new.waiting ≡ None) }
    ensures no_end { OnErr result (buffer.new.is_ended ≡ false) }
    ensures stays { IsTrue buffer.old.is_ended → IsTrue buffer.new.is_ended }
    ensures ends { IsReadToEnd buffer.old.is_ended (S.ends source.old)
        → IsReadToEnd buffer.new.is_ended (S.ends source.new) }
    ensures risen { OnErr result (HasRisen (S.faults source.old) (S.faults source.new)) }
    ensures still { OnOk result (S.faults source.new ≡ S.faults source.old) }
    ensures no_fall { S.faults source.old ≤ S.faults source.new }
{
    let mut searched = 0;
    loop {
        if let Some(place) = end_past(buffer.waiting(), searched) {
            return Ok(Some(place));
        }
        searched = buffer.waiting().len();
        let taken = before + searched;
        if searched > LONGEST_LINE || taken > LONGEST_SCRIPT {
            return Ok(None);
        }
        let limit = LONGEST_SCRIPT + 1 - taken;
        if buffer.fill(source, limit)? == 0 {
            return Ok(None);
        }
    }
}

impl LineReader {
    /// A reader that has read nothing. It makes the one buffer.
    ///
    /// # Errors
    /// `OutOfMemory` if there is no memory for the buffer.
    pub fn new(alloc: Global) -> Result<LineReader, OutOfMemory>
        ensures { IfOk result IsFresh }
    {
        Ok(LineReader {
            buffer: LineBuffer::new(alloc)?,
            before: 0,
            number: 0,
        })
    }

    /// The number of the next line, from 1, whose text is then `text`, or `None` at the source's
    /// end. It takes at most 67108865 octets in all calls together, and reads nothing behind the
    /// end.
    ///
    /// # Errors
    /// `Line` where the line is refused, and `Read` where the source failed.
    #[inline(always)]
    pub fn next<S: Source>(&mut self, source: &mut S) -> Result<Option<u64>, LinesFault>
        requires in_step { AgreesOnEnd self.old.is_ended (S.left source.old) }
        ensures in_step { AgreesOnEnd self.new.is_ended (S.left source.new) }
        ensures next { HasNext result self.old self.new (S.left source.old) (S.left source.new) }
        ensures bounded { octets_taken self.new ≤ 67108865 }
        ensures few { self.new.number ≤ 67108864 }
        // What it gives is plain text of at most 8192 octets, also where the source does not tell.
        ensures plain { IfOk result (λ given. OnSome given
            ((length self.new.text ≤ 8192) × AllPass is_plain self.new.text)) }
        ensures ends { IsReadToEnd self.old.is_ended (S.ends source.old)
            → IsReadToEnd self.new.is_ended (S.ends source.new) }
        ensures faults { CountsRead result (S.faults source.old) (S.faults source.new) }
        ensures no_fall { S.faults source.old ≤ S.faults source.new }
    {
        let end = find_end(&mut self.buffer, self.before, source)?;
        let waiting = self.buffer.waiting();
        let (text, size) = extent(waiting, end);
        if size == 0 {
            return Ok(None);
        }
        let number = self.number + 1;
        if let Some(cause) = refusal(self.before, &waiting[..size], text) {
            return Err(LinesFault::Line { number, cause });
        }
        self.buffer.take_line(text, size);
        self.before += size;
        self.number = number;
        Ok(Some(number))
    }

    /// The number of the line that `next` gave last, or 0 before the first.
    pub fn number(&self) -> u64
        ensures value { result ≡ self.now.number }
        ensures few { result ≤ 67108864 }
    {
        self.number
    }

    /// The text of the line that `next` gave last, without its 0A.
    pub fn text(&self) -> &[u8]
        ensures { result.now ≡ self.now.text }
    {
        self.buffer.text()
    }
}
