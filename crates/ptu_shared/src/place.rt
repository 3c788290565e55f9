//! Types that say which of the four tables a table is. So the prover refuses a body that takes the
//! lock of another table.

ghost use Rattle.std.specs.Prelude.{ℕ};

/// Which of the four tables a table is. It is known of the type alone, and so under a lock.
pub(crate) trait Place {
    /// The index of the table, from 0 to 3.
    ghost index: { ℕ };
}

/// The place of table 0.
#[derive(Clone, Copy)]
pub(crate) struct First;

/// The place of table 1.
#[derive(Clone, Copy)]
pub(crate) struct Second;

/// The place of table 2.
#[derive(Clone, Copy)]
pub(crate) struct Third;

/// The place of table 3.
#[derive(Clone, Copy)]
pub(crate) struct Fourth;

impl Place for First {
    ghost index = { 0 };
}

impl Place for Second {
    ghost index = { 1 };
}

impl Place for Third {
    ghost index = { 2 };
}

impl Place for Fourth {
    ghost index = { 3 };
}
