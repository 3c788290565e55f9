//! The words of a command line, and whether somebody waits for the lines that they ask for.

ghost use Rattle.std.specs.Prelude.{◌≡◌, IfOk, map};
ghost use Rattle.std.specs.String.{string_bytes};
ghost use Rattle.ptu_run.specs.Waiting.{begins_with_daemon, is_waited_for};

use std::alloc::{AllocError, Global};

/// The words as text, in their order.
///
/// # Errors
/// `AllocError` where no memory is found.
pub fn texts_of(alloc: Global, words: &[String]) -> Result<Vec<&str>, AllocError>
    ensures { IfOk result (λ texts. map (λ t. t.now) texts.items ≡ map string_bytes words.now) }
{
    let mut texts = Vec::with_capacity(alloc, words.len())?;
    for word in words {
        texts.push(word.as_str())?;
    }
    Ok(texts)
}

// Whether the first word is that of a daemon.
fn is_daemon(words: &[&str]) -> bool
    ensures { result ≡ begins_with_daemon (map (λ w. w.now) words.now) }
{
    let Some(word) = words.first() else {
        return false;
    };
    *word == "serve" || *word == "slave"
}

/// Whether each line of the output that these words ask for is to be handed on as soon as it is
/// written: at a terminal, or where the words are those of a daemon, `serve` or `slave`, whose
/// lines are few and come far apart.
pub fn waits_for_lines(is_terminal: bool, words: &[&str]) -> bool
    ensures { result ≡ is_waited_for is_terminal (map (λ w. w.now) words.now) }
{
    is_terminal || is_daemon(words)
}
