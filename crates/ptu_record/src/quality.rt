//! The quality levels of Option I, and the clockClass of each (ITU-T G.8265.1).

ghost use Rattle.std.specs.Prelude.{◌≡◌, Some, nat_lt};
ghost use Rattle.ptu_record.specs.Quality.{class_of, is_usable, level_of, rank_of};

/// A quality level of Option I, best first: QL-PRC, QL-SSU-A, QL-SSU-B, QL-SEC and QL-DNU
/// (G.8265.1).
#[derive(Clone, Copy, Debug, PartialEq, Eq, PartialOrd, Ord)]
pub enum Quality {
    Prc,
    SsuA,
    SsuB,
    Sec,
    Dnu,
}

impl Quality {
    /// The clockClass of the level.
    pub fn class(self) -> u8
        ensures { result ≡ class_of self }
    {
        match self {
            Quality::Prc => 84,
            Quality::SsuA => 90,
            Quality::SsuB => 96,
            Quality::Sec => 104,
            Quality::Dnu => 110,
        }
    }

    /// Whether a master may be selected at this level: at each but QL-DNU, "do not use".
    pub fn is_usable(self) -> bool
        ensures { result ≡ is_usable (Some self) }
    {
        self != Quality::Dnu
    }

    /// Whether this level is better than the other.
    pub fn is_better_than(self, other: Quality) -> bool
        ensures { result ≡ nat_lt (rank_of (Some self)) (rank_of (Some other)) }
    {
        self < other
    }
}

/// The quality level of a clockClass, or `None` where the class is unmapped.
pub fn quality_of(class: u8) -> Option<Quality>
    ensures { result ≡ level_of class }
{
    match class {
        84 => Some(Quality::Prc),
        90 => Some(Quality::SsuA),
        96 => Some(Quality::SsuB),
        104 => Some(Quality::Sec),
        110 => Some(Quality::Dnu),
        _ => None,
    }
}
