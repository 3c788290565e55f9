//! The close of a grandmaster.

ghost use Rattle.std.specs.Prelude.{◌≡◌, ◌+◌, ℕ, List, [], ◌∷◌};
ghost use Rattle.ptu_history.specs.{Core.{book_step_moment}, Counts.{counts}, History.{Record}};
ghost use Rattle.ptu_history.specs.Verdict.{table_rates};
ghost use Rattle.ptu_shard.specs.Row.{share_of};
ghost use Rattle.ptu_admit.specs.{Lent.{moment_for_all}, Rows.{live_rows}};
ghost use Rattle.ptu_units.specs.Counts.{counted};
ghost use Rattle.ptu_grandmaster.specs.Gm.{StandsFor, tables};

use crate::gm::Gm;
use ptu_admit::{Closed, finish};
use ptu_outside::Port;

impl<P: Port> Gm<P> {
    /// Closes the grandmaster: what its tables hold at the greatest of the book's moment and their
    /// own, how many asks it granted and how many it refused as short, and its ports as they are.
    /// The last is that of its Signaling messages.
    pub fn close(self) -> (Closed<P>, P)
        ensures counts { let n = moment_for_all 0 self.book (tables self) in result.0.counts
            ≡ share_of (live_rows n self.s0.rows) ∷ share_of (live_rows n self.s1.rows)
            ∷ share_of (live_rows n self.s2.rows) ∷ share_of (live_rows n self.s3.rows) ∷ [] }
        ensures total { let n = moment_for_all 0 self.book (tables self) in result.0.total
            ≡ share_of (live_rows n self.s0.rows) + share_of (live_rows n self.s1.rows)
            + share_of (live_rows n self.s2.rows) + share_of (live_rows n self.s3.rows) }
        ensures verdicts { (result.0.granted ≡ self.granted) × (result.0.refused ≡ self.refused) }
        ensures ports { (result.0.p0 ≡ self.s0.port) × (result.0.p1 ≡ self.s1.port)
            × (result.0.p2 ≡ self.s2.port) × (result.0.p3 ≡ self.s3.port)
            × (result.1 ≡ self.reply) }
        // They are those of each history that the grandmaster stands for.
        ensures rates { (opening : ℕ) (history : List Record) → StandsFor opening self history →
            let x = book_step_moment history 0 in
            (result.0.counts ≡ table_rates history x 0 ∷ table_rates history x 1
            ∷ table_rates history x 2 ∷ table_rates history x 3 ∷ [])
            × (result.0.total ≡ table_rates history x 0 + table_rates history x 1
            + table_rates history x 2 + table_rates history x 3)
            × (result.0.granted ≡ counted (counts history).granted)
            × (result.0.refused ≡ counted (counts history).short) }
    {
        let Gm {
            mut s0,
            mut s1,
            mut s2,
            mut s3,
            mut book,
            reply,
            granted,
            refused,
            ..
        } = self;
        finish(&mut s0, &mut s1, &mut s2, &mut s3, &mut book);
        let closed = Closed {
            counts: [s0.held(), s1.held(), s2.held(), s3.held()],
            total: book.total(),
            granted,
            refused,
            p0: s0.into_port(),
            p1: s1.into_port(),
            p2: s2.into_port(),
            p3: s3.into_port(),
        };
        (closed, reply)
    }
}
