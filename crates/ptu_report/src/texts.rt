//! The texts of one line, gathered in one buffer before any of them is written.

ghost use Rattle.std.specs.Prelude.{◌≡◌, ◌++◌, ◌∷◌, [], ◌<◌, length, get_or, OnOk, OnErr};
ghost use Rattle.ptu_lines.specs.Draft.{Drafted};

use crate::span::Span;
use ptu_lines::{Draft, Text};
use ptu_units::OutOfMemory;
use std::alloc::Global;
use std::marker::Model;
use std::mem::swap;

/// Texts of output, each with the 0A at its end where it is a line. Their octets stand in one room,
/// which is kept for later ones. A clause sees their octets as a list.
#[derive(Drop)]
pub struct Texts {
    draft: Draft,
    spans: Vec<Span>,
}

impl Model for Texts {
    ghost use Rattle.std.specs.Prelude.{ℕ, ◌≡◌, List, []};
    ghost use Rattle.ptu_report.specs.Spans.{texts_in, AreWithin};

    ghost Value = { List (List ℕ) };

    ghost view = { λ t. texts_in t.draft.done t.spans.items };

    ghost invariant = { λ t. AreWithin t.draft.done t.spans.items × (t.draft.text ≡ []) };
}

impl Texts {
    /// No texts. It allocates nothing.
    pub fn new(alloc: Global) -> Texts
        ensures { result ≡ [] }
    {
        Texts {
            draft: Draft::new(alloc),
            spans: Vec::new(alloc),
        }
    }

    /// Leaves none, and keeps their room.
    pub fn clear(&mut self)
        ensures { self.new ≡ [] }
    {
        self.draft.clear();
        self.spans.clear();
    }

    /// Exchanges the texts with these.
    pub fn swap_with(&mut self, other: &mut Texts)
        ensures given { other.new ≡ self.old }
        ensures taken { self.new ≡ other.old }
    {
        self.draft.swap_texts(&mut other.draft);
        swap(&mut self.spans, &mut other.spans);
    }

    /// Adds the text of the value.
    ///
    /// # Errors
    /// `OutOfMemory`, and then they are as before.
    pub fn add_text<T: Text>(&mut self, text: &T) -> Result<(), OutOfMemory>
        ensures added { OnOk result (self.new ≡ self.old ++ T.text text.now ∷ []) }
        ensures same { OnErr result (self.new ≡ self.old) }
    {
        add_to(&mut self.draft, &mut self.spans, text)
    }

    /// How many texts there are.
    pub fn count(&self) -> usize
        ensures { result ≡ length self.now }
    {
        self.spans.len()
    }

    /// The octets of the text at a place.
    pub fn text(&self, place: usize) -> &[u8]
        requires { place < length self.now }
        ensures { result.now ≡ get_or self.now place result.now }
    {
        let span = self.spans[place];
        &self.draft.octets()[span.start..span.end]
    }
}

// Puts the text of the value behind those that are done, and its span behind theirs.
#[inline(always)]
fn add_to<T: Text>(draft: &mut Draft, spans: &mut Vec<Span>, text: &T) -> Result<(), OutOfMemory>
    requires { draft.old.text ≡ [] }
    ensures octets { OnOk result (draft.new.done ≡ draft.old.done ++ T.text text.now) }
    ensures spans { OnOk result (spans.new.items ≡ spans.old.items ++ record {
      start = length draft.old.done;
      end = length draft.new.done;
    } ∷ []) }
    ensures whole { draft.new.text ≡ [] }
    ensures same { OnErr result (draft.new.done ≡ draft.old.done) }
    ensures same_spans { OnErr result (spans.new.items ≡ spans.old.items) }
{
    let added = finish(draft, spans, text);
    if added.is_err() {
        draft.drop_text();
    }
    added
}

// Puts the text of the value and its span as `add_to` does. After a failure a part of the text may
// stand in the draft.
#[inline(always)]
fn finish<T: Text>(draft: &mut Draft, spans: &mut Vec<Span>, text: &T) -> Result<(), OutOfMemory>
    requires { draft.old.text ≡ [] }
    ensures octets { OnOk result (draft.new ≡ record {
      done = draft.old.done ++ T.text text.now;
      text = [];
    }) }
    ensures spans { OnOk result (spans.new.items ≡ spans.old.items ++ record {
      start = length draft.old.done;
      end = length draft.new.done;
    } ∷ []) }
    ensures same { OnErr result (draft.new.done ≡ draft.old.done) }
    ensures same_spans { OnErr result (spans.new.items ≡ spans.old.items) }
{
    let start = draft.start();
    text.put(draft)?;
    let end = draft.octets().len();
    spans.push(Span { start, end })?;
    draft.end();
    Ok(())
}
