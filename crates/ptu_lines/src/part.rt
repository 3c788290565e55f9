//! The trait of what is written as a part of a line.

ghost use Rattle.std.specs.Prelude.{◌≡◌, ◌≤◌, ◌+◌, ◌++◌, List, ℕ};

use crate::line::LineText;

/// A part of a line: it has a text, of at most so many octets.
pub trait LinePart {
    /// The octets of its text.
    ghost text: { Self → List ℕ };

    /// The most octets that the text may have.
    ghost most: { Self → ℕ };

    /// Puts its text before what stands in the line.
    fn put(self, line: &mut LineText)
        requires { most self ≤ line.old.room }
        ensures text { line.new.text ≡ text self ++ line.old.text }
        ensures room { line.old.room ≤ line.new.room + most self };
}
