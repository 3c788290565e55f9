//! The first words of the lines in a script, and of those in any script whose lines begin with a
//! command.

ghost use Rattle.std.specs.Prelude.{◌≡◌, Bool, List, ℕ};
ghost use Rattle.ptu_script.specs.Verb.{is_counted, name_of, verb_among, verb_in, verbs};

use ptu_lines::{LineCause, WordList};

/// The first word of a line that is a command, in scripts of one sort.
pub trait LineVerb: Copy + 'static {
    /// All of them, in the order in which they are tried.
    ghost every: { List Self };

    /// The word as it stands in a script.
    ghost word: { Self → List ℕ };

    /// A line that begins with the word may have as many words as this line.
    ghost counted: { Self → List ℕ → Bool };

    /// All of them, in the order in which they are tried.
    fn all() -> &'static [Self]
        ensures { result.now ≡ every };

    /// The word as it stands in a script.
    fn name(self) -> &'static str
        ensures { result.now ≡ word self };

    /// A line that begins with the word may have as many words as this line.
    fn is_counted(self, line: &WordList) -> bool
        ensures { result ≡ counted self line.now };
}

// The command that this word names, or `None` where it names none.
fn named<V: LineVerb>(word: &[u8]) -> Option<V>
    ensures { result ≡ verb_among V.every V.word word.now }
{
    V::all()
        .iter()
        .copied()
        .find(|verb| word == verb.name().as_bytes())
}

/// The command that the first word of the line names.
///
/// # Errors
/// `Word` if the word names no command, and `Count` if a line that begins with it may not have as
/// many words.
pub fn verb_of<V: LineVerb>(line: &WordList) -> Result<V, LineCause>
    ensures { result ≡ verb_in V.every V.word V.counted line.now }
{
    match named::<V>(line.word(1).unwrap_or(&[])) {
        None => Err(LineCause::Word),
        Some(verb) if verb.is_counted(line) => Ok(verb),
        Some(_) => Err(LineCause::Count),
    }
}

/// The first word of a line of a script that is a command.
#[derive(Clone, Copy)]
pub enum Verb {
    Gm,
    Slave,
    Master,
    Rx,
    Deliver,
    Turn,
    Tick,
    Flag,
    Judge,
    Stop,
    Class,
    Capacity,
}

// Those that most lines begin with stand first.
const VERBS: [Verb; 12] = [
    Verb::Rx,
    Verb::Deliver,
    Verb::Tick,
    Verb::Turn,
    Verb::Gm,
    Verb::Slave,
    Verb::Master,
    Verb::Flag,
    Verb::Judge,
    Verb::Stop,
    Verb::Class,
    Verb::Capacity,
];

impl LineVerb for Verb {
    ghost every = { verbs };

    ghost word = { name_of };

    ghost counted = { is_counted };

    fn all() -> &'static [Verb] {
        &VERBS
    }

    fn name(self) -> &'static str {
        match self {
            Verb::Gm => "gm",
            Verb::Slave => "slave",
            Verb::Master => "master",
            Verb::Rx => "rx",
            Verb::Deliver => "deliver",
            Verb::Turn => "turn",
            Verb::Tick => "tick",
            Verb::Flag => "flag",
            Verb::Judge => "judge",
            Verb::Stop => "stop",
            Verb::Class => "class",
            Verb::Capacity => "capacity",
        }
    }

    fn is_counted(self, line: &WordList) -> bool {
        let count = line.count();
        match self {
            Verb::Gm => count == 8,
            Verb::Slave => count == 12 || count == 13,
            Verb::Master | Verb::Rx | Verb::Flag | Verb::Judge => count == 5,
            Verb::Turn | Verb::Capacity => count == 4,
            Verb::Deliver | Verb::Tick | Verb::Stop | Verb::Class => count == 3,
        }
    }
}
