//! A list that a contract sees as nothing but its members.

ghost use Rattle.std.specs.Prelude.{◌≡◌};

use std::marker::Model;

/// Some values in their order. A clause sees it as their list.
#[derive(Debug, Drop)]
pub struct Listed<T> {
    members: Vec<T>,
}

impl<T> Model for Listed<T> {
    ghost use Rattle.std.specs.Prelude.{List};

    ghost Value = { List T };

    ghost view = { λ l. l.members.items };
}

impl<T> Listed<T> {
    /// The list of exactly these.
    pub fn new(list: Vec<T>) -> Listed<T>
        ensures { result ≡ list.items }
    {
        Listed { members: list }
    }

    /// The members, in order.
    pub fn list(&self) -> &[T]
        ensures { result.now ≡ self.now }
    {
        &self.members
    }

    /// The list itself, which may have room for more.
    pub fn into_list(self) -> Vec<T>
        ensures { result.items ≡ self }
    {
        let Listed { members } = self;
        members
    }
}
