//! Forms of lines, written as lines.

ghost use Rattle.std.specs.Prelude.{◌≡◌, drop};
ghost use Rattle.ptu_lines.specs.Words.{word_of, words_of};
ghost use Rattle.ptu_audit_lines.specs.Forms as specs;

use crate::words::{is_channel, kind_of, number_of, octet_log};
use ptu_lines::{KEPT_WORDS, WordList, ip};

// Whether the word may stand in this place of a form: a place in upper case tells what stands
// there, and any other is itself.
#[tactic(auto, unfolding(crate::specs::Forms::is_in_place))]
fn is_in_place(place: &[u8], word: &[u8]) -> bool
    ensures { result ≡ specs.is_in_place place.now word.now }
{
    if place == "NUM".as_bytes() {
        number_of(word).is_some()
    } else if place == "KIND".as_bytes() {
        kind_of(word).is_some()
    } else if place == "LOG".as_bytes() {
        octet_log(word).is_some()
    } else if place == "IP".as_bytes() {
        ip(word).is_some()
    } else if place == "CHANNEL".as_bytes() {
        is_channel(word)
    } else if place == "WORD".as_bytes() {
        true
    } else {
        word == place
    }
}

// Whether the line has a word with this number that may stand in this place of a form.
fn has_in_place(place: &[u8], line: &WordList, k: usize) -> bool
    ensures { result ≡ specs.is_some_in_place place.now (word_of line.now k) }
{
    match line.word(k) {
        Some(word) => is_in_place(place, word),
        None => false,
    }
}

// Whether the line has as many words as the form, each of them in its place.
#[tactic(auto, unfolding(crate::specs::Forms::fits))]
fn is_filled(form: &[u8], line: &WordList) -> bool
    ensures { result ≡ specs.fits form.now line.now }
{
    let mut ends = [0; KEPT_WORDS];
    let cut = WordList::new(form, &mut ends);
    let mut k = 1;
    'places: while let Some(place) = cut.word(k) {
        if !has_in_place(place, line, k) {
            return false;
        }
        k += 1;
    }
    match line.word(k) {
        Some(_) => false,
        None => true,
    }
}

/// Whether the line has this form.
pub fn fits(form: &str, line: &WordList) -> bool
    ensures { result ≡ specs.fits form.now line.now }
{
    is_filled(form.as_bytes(), line)
}
