//! The first words of the lines in a script of pools.

ghost use Rattle.std.specs.Prelude.{◌≡◌};
ghost use Rattle.ptu_pool_run.specs.Verb.{is_pool_counted, pool_verb_name, pool_verbs};

use ptu_lines::WordList;
use ptu_script::LineVerb;

/// The first word of a line that is a command.
#[derive(Clone, Copy)]
pub enum PoolVerb {
    Gm,
    Pool,
    Rx,
    Turn,
}

const VERBS: [PoolVerb; 4] = [PoolVerb::Gm, PoolVerb::Pool, PoolVerb::Rx, PoolVerb::Turn];

impl LineVerb for PoolVerb {
    ghost every = { pool_verbs };

    ghost word = { pool_verb_name };

    ghost counted = { is_pool_counted };

    fn all() -> &'static [PoolVerb] {
        &VERBS
    }

    fn name(self) -> &'static str {
        match self {
            PoolVerb::Gm => "gm",
            PoolVerb::Pool => "pool",
            PoolVerb::Rx => "rx",
            PoolVerb::Turn => "turn",
        }
    }

    fn is_counted(self, line: &WordList) -> bool {
        match self {
            PoolVerb::Gm => line.count() == 8,
            PoolVerb::Pool | PoolVerb::Rx | PoolVerb::Turn => line.count() == 4,
        }
    }
}
