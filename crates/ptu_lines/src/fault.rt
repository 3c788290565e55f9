//! Why no line came: it is refused, the source failed, or memory ran out.

ghost use Rattle.std.specs.Prelude.{◌≡◌};
ghost use Rattle.ptu_lines.specs.declared.fault.LinesFault.TheVariants.{Read};

use crate::cause::LineCause;
use ptu_outside::Failed;
use thiserror::Error;

/// Why no line came.
#[derive(Clone, Copy, Debug, PartialEq, Eq, Error)]
pub enum LinesFault {
    /// The line with this number, from 1, is refused.
    #[error("line {number} is refused: {cause:?}")]
    Line { number: u64, cause: LineCause },
    /// The source failed.
    #[error("the source failed")]
    Read,
}

impl From<Failed> for LinesFault {
    ghost from_gives = { λ _ fault. fault ≡ Read };

    fn from(_: Failed) -> LinesFault {
        LinesFault::Read
    }
}
