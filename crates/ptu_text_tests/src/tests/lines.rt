ghost use Rattle.std.specs.Prelude.{◌<◌, None};
ghost use Rattle.ptu_lines.specs.{Lines.{reader_of, source_of}, Reading.{AgreesOnEnd}};

use ptu_lines::{KEPT_WORDS, Lines, LinesFault, WordList, log, number, octets, word};
use ptu_outside::{Failed, MemSource, Source};
use std::alloc::{AllocError, Global};
use std::test::Fail;

// A source that gives a few octets at a time, and tells nothing.
#[derive(Drop)]
struct Pieces {
    source: MemSource,
    size: usize,
    ghost some: { 0 < size },
}

impl Source for Pieces {
    ghost left = { λ _. None };

    ghost ends = { λ _. None };

    ghost faults = { λ p. p.source.faults };

    fn read(&mut self, buf: &mut [u8]) -> Result<usize, Failed> {
        let size = buf.len().min(self.size);
        self.source.read(&mut buf[..size])
    }
}

// The texts of the lines, each followed by a bar, and what ended the reading.
fn record<S: Source>(
    alloc: Global,
    lines: &mut Lines<'_, S>,
) -> Result<(Vec<u8>, Option<LinesFault>), AllocError>
    requires { AgreesOnEnd (reader_of lines.old).is_ended (S.left (source_of lines.old)) }
{
    let mut texts = Vec::new(alloc);
    for _ in 0..u64::MAX {
        match lines.next() {
            Ok(Some(_)) => {
                texts.extend_from_slice(lines.text())?;
                texts.push(b'|')?;
            }
            Ok(None) => return Ok((texts, None)),
            Err(fault) => return Ok((texts, Some(fault))),
        }
    }
    Ok((texts, None))
}

// The number of the last line, and what ended the reading.
fn last_number<S: Source>(lines: &mut Lines<'_, S>) -> (u64, Option<LinesFault>)
    requires { AgreesOnEnd (reader_of lines.old).is_ended (S.left (source_of lines.old)) }
    ensures { AgreesOnEnd (reader_of lines.new).is_ended (S.left (source_of lines.new)) }
{
    let mut last = 0;
    for _ in 0..u64::MAX {
        match lines.next() {
            Ok(Some(number)) => last = number,
            Ok(None) => return (last, None),
            Err(fault) => return (last, Some(fault)),
        }
    }
    (last, None)
}

#[test]
fn pieces_of_any_size_give_the_same_lines(rt: HostRuntime) -> Result<(), Fail> {
    let alloc = rt.alloc();
    let text = b"gm 1\n\n# two\nturn 3\nlast";
    for size in [1, 3, 7, 1000] {
        let source = MemSource::new(text.to_vec(alloc)?, Vec::new(alloc));
        let mut source = Pieces { source, size };
        let mut lines = Lines::new(alloc, &mut source)?;
        let (texts, fault) = record(alloc, &mut lines)?;
        let wanted = b"gm 1||# two|turn 3|last|".as_slice();
        assert_eq!(rt; (texts.as_slice(), fault), (wanted, None));
    }
    Ok(())
}

// A read that fails, and the number of lines that were read whole. Octets 5, 6, 12 and 19 end a
// line, and each read gives three octets; the ninth is at the end.
const FAILING: [(u64, u64); 9] = [
    (1, 0),
    (2, 0),
    (3, 2),
    (4, 2),
    (5, 3),
    (6, 3),
    (7, 3),
    (8, 4),
    (9, 4),
];

#[test]
fn a_failed_read_comes_after_the_lines_read_whole(rt: HostRuntime) -> Result<(), Fail> {
    let alloc = rt.alloc();
    let text = b"gm 1\n\n# two\nturn 3\nlast";
    for (call, whole) in FAILING {
        let source = MemSource::new(text.to_vec(alloc)?, vec![in alloc; call]?);
        let mut source = Pieces { source, size: 3 };
        let mut lines = Lines::new(alloc, &mut source)?;
        assert_eq!(rt; last_number(&mut lines), (whole, Some(LinesFault::Read)));
    }
    Ok(())
}

#[test]
fn nothing_is_read_behind_the_end(rt: HostRuntime) -> Result<(), Fail> {
    let alloc = rt.alloc();
    // The first read gives all, the second finds the end, and a third one would fail.
    for text in ["gm 1\nlast", "gm 1\nlast\n"] {
        let mut source = MemSource::new(text.as_bytes().to_vec(alloc)?, vec![in alloc; 3]?);
        let mut lines = Lines::new(alloc, &mut source)?;
        let last = last_number(&mut lines);
        assert_eq!(rt; (last, lines.next()), ((2, None), Ok(None)));
    }
    Ok(())
}

// The words of `rx  1 ` by their numbers.
const WORDS: [Option<&str>; 6] = [None, Some("rx"), Some(""), Some("1"), Some(""), None];

#[test]
fn words_stand_between_spaces(rt: HostRuntime) {
    let mut ends = [0; KEPT_WORDS];
    let line = b"rx  1 ";
    let words = WordList::new(line, &mut ends);
    assert!(rt; words.count() == 4);
    for (k, wanted) in WORDS.iter().enumerate() {
        let wanted = wanted.map(str::as_bytes);
        assert_eq!(rt; (words.word(k), word(line, k)), (wanted, wanted));
    }
    // Those behind the sixteenth are found, too.
    let line = b"1 2 3 4 5 6 7 8 9 10 11 12 13 14 15 16 17 18";
    let words = WordList::new(line, &mut ends);
    assert!(rt; words.count() == 18 && words.word(18) == Some(b"18"));
    for k in [1, 15, 16, 17, 18, 19] {
        assert!(rt; words.word(k) == word(line, k), "word {k}");
    }
}

// Of numbers, logarithms and octets, those that no report shows.
#[test]
fn words_have_their_values(rt: HostRuntime) {
    let greatest = number(b"9999999999999999999", 0, u64::MAX);
    let values = (greatest, number(b"23", 4, 23), log(b"-128", -128, 127));
    let wanted = (Some(9_999_999_999_999_999_999), Some(23), Some(-128));
    assert_eq!(rt; values, wanted);
    let mut out = [0; 2048];
    let size = octets(b"0aFF", &mut out);
    assert_eq!(rt; (size, [out[0], out[1], out[2]]), (Some(2), [10, 255, 0]));
}
