//! Laws of the definitions that the contracts of this crate cite: each is the contract of a
//! function that does nothing.

ghost use Rattle.std.specs.Prelude.{◌≡◌, ◌↔◌, List};
ghost use Rattle.clap.specs.Words.{Text};
ghost use Rattle.ptu_run.specs.{CommandLine.{words_command_of, AreWordsRefused}, Samples.{WordsAreRead}};

/// Words have a command exactly where the command line matches them.
pub fn matched_words()
    ensures { (words : List Text) → (words_command_of words ≡ None) ↔ AreWordsRefused words }
{}

/// What words that were made out by hand ask for.
pub fn sample_words()
    ensures { WordsAreRead }
{}
