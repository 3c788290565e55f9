//! The rules by which a judge finds a master unusable.

/// How many of the last sixteen Syncs are missing where the rule `gap` of settings and scripts
/// finds a master unusable (the project's own choice).
pub const NAMED_GAP: u8 = 4;

/// How a judge finds a master unusable.
#[derive(Clone, Copy, Debug, PartialEq, Eq)]
pub enum Rule {
    /// Where the operator said so last.
    Flag,
    /// There, and where at least so many of the last sixteen Syncs are missing.
    Gap(u8),
}
