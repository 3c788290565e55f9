//! Halves that wait for their others.

ghost use Rattle.std.specs.Prelude.{◌≡◌, ◌∷◌, [], ℕ, List, IfOk, IfSome, Some, true};
ghost use Rattle.ptu_show.specs.{declared.half.Half.{Half}, Halves.{is_other}};
ghost use Rattle.ptu_show.specs.Joins.{other_of, partner, waiting_keys};
ghost use Rattle.ptu_show.specs.Waiting.{IsHalf, StandsFor};

use crate::half::{Half, HalfKey};
use ptu_units::OutOfMemory;
use std::alloc::Global;
use std::collections::HashMap;

/// Of each key the last half, where it does not join.
#[derive(Drop)]
pub struct Waiting {
    pub kept: HashMap<HalfKey, Half>,
}

// The half that waited, where the next half of its key is of the other type.
fn other_of(waited: Option<Half>, half: &Half) -> Option<Half>
    ensures other { result ≡ other_of waited half.now }
    ensures waited { IfSome result (λ before. waited ≡ Some before) }
    ensures part { IfSome result (λ before. is_other before.part half.now.part ≡ true) }
{
    match waited {
        Some(before) if before.part.is_other(half.part) => Some(before),
        _ => None,
    }
}

impl Waiting {
    /// No half waits. It allocates nothing.
    pub fn new(alloc: Global) -> Waiting
        ensures { StandsFor result.kept [] }
    {
        Waiting {
            kept: HashMap::new(alloc),
        }
    }

    /// Takes the next half, and gives the one that it joins with.
    ///
    /// # Errors
    /// `OutOfMemory`, and then what is kept is not said.
    #[inline(always)]
    pub fn take(&mut self, half: Half) -> Result<Option<Half>, OutOfMemory>
        requires read { IsHalf half }
        requires means { (halves : List Half) × StandsFor self.old.kept halves }
        ensures partner { IfOk result (λ before. (halves : List Half)
            → StandsFor self.old.kept halves → before ≡ partner halves half) }
        ensures stands { IfOk result (λ before. (halves : List Half)
            → StandsFor self.old.kept halves → StandsFor self.new.kept (half ∷ halves)) }
        ensures read { IfOk result (λ before. IfSome before IsHalf) }
        ensures other { IfOk result (λ before. IfSome before (λ other.
            is_other other.part half.part ≡ true)) }
    {
        let key = half.key();
        match other_of(self.kept.remove(&key), &half) {
            Some(before) => Ok(Some(before)),
            None => {
                self.kept.insert(key, half)?;
                Ok(None)
            }
        }
    }

    /// How many keys there are whose last half does not join.
    pub fn count(&self) -> usize
        ensures { (halves : List Half) → StandsFor self.now.kept halves
            → result ≡ waiting_keys halves }
    {
        self.kept.len()
    }
}
