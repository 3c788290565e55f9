//! All datagrams that the nodes of a script sent, with their octets in one buffer. `deliver` finds
//! one by its number.

ghost use Rattle.std.specs.Prelude.{◌≡◌, ◌<◌, ◌^◌, ◌++◌, ◌∷◌, [], length, slice_get, OnOk, OnErr};

use crate::sent::SentRef;
use ptu_lines::{Draft, Text};
use ptu_outside::Channel;
use ptu_report::Texts;
use ptu_units::OutOfMemory;
use std::alloc::Global;
use std::marker::Model;

// What is kept of a datagram beside its octets.
#[derive(Clone, Copy)]
struct Head {
    from: u32,
    to: u32,
    channel: Channel,
}

/// The datagrams that the nodes of a script sent, in order. Their octets stand one behind the other
/// in one room. A clause sees them as a list.
#[derive(Drop)]
pub struct SentList {
    heads: Vec<Head>,
    octets: Texts,
}

impl Model for SentList {
    ghost use Rattle.std.specs.Prelude.{◌≡◌, List, length};
    ghost use Rattle.ptu_report_lines.specs.{declared.sent.Sent.{Sent}, Sendings.{sent_in}};

    ghost Value = { List Sent };

    ghost view = { λ s. sent_in s.heads.items s.octets };

    ghost invariant = { λ s. length s.heads.items ≡ length s.octets };
}

impl SentList {
    /// No datagrams. It allocates nothing.
    pub fn new(alloc: Global) -> SentList
        ensures { result ≡ [] }
    {
        SentList {
            heads: Vec::new(alloc),
            octets: Texts::new(alloc),
        }
    }

    /// Adds a datagram at the end.
    ///
    /// # Errors
    /// `OutOfMemory`, and then they are as before.
    #[inline(always)]
    pub fn add(&mut self, sent: &SentRef<'_>) -> Result<(), OutOfMemory>
        ensures added { OnOk result (self.new ≡ self.old ++ sent.now ∷ []) }
        ensures same { OnErr result (self.new ≡ self.old) }
    {
        add_to(&mut self.heads, &mut self.octets, sent)
    }

    /// The number of datagrams in the list.
    pub fn count(&self) -> usize
        ensures count { result ≡ length self.now }
        ensures few { result < 2 ^ 63 }
    {
        self.heads.len()
    }

    /// The datagram at this place, from 0. `None` past the list.
    pub fn get(&self, place: usize) -> Option<SentRef<'_>>
        ensures { result ≡ slice_get self.now place }
    {
        let head = self.heads.get(place)?;
        let octets = self.octets.text(place);
        Some(SentRef::new(head.from, head.to, head.channel, octets))
    }
}

// Adds what is kept of a datagram to the lists, to both or to none.
#[inline(always)]
fn add_to(heads: &mut Vec<Head>, octets: &mut Texts, sent: &SentRef<'_>) -> Result<(), OutOfMemory>
    ensures head { OnOk result (heads.new.items ≡ heads.old.items ++ record {
      from = sent.now.from;
      to = sent.now.to;
      channel = sent.now.channel;
    } ∷ []) }
    ensures octets { OnOk result (octets.new ≡ octets.old ++ sent.now.octets ∷ []) }
    ensures same_heads { OnErr result (heads.new.items ≡ heads.old.items) }
    ensures same_octets { OnErr result (octets.new ≡ octets.old) }
{
    let before = heads.len();
    heads.push(Head {
        from: sent.from(),
        to: sent.to(),
        channel: sent.channel(),
    })?;
    let added = octets.add_text(&Octets(sent.octets()));
    if added.is_err() {
        heads.truncate(before);
    }
    added
}

// Octets as they are.
#[derive(Clone, Copy)]
struct Octets<'a>(&'a [u8]);

impl Text for Octets<'_> {
    ghost text = { λ o. o.0.now };

    fn put(&self, draft: &mut Draft) -> Result<(), OutOfMemory> {
        draft.put_octets(self.0)
    }
}
