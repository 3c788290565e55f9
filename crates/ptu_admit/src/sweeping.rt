//! Grants that are over go from tables that are lent beside a book.

ghost use Rattle.std.specs.Prelude.{◌≡◌, ◌+◌, ◌-◌, ◌≤◌};
ghost use Rattle.ptu_shard.specs.Row.{IsDistinctByLease, share_of};
ghost use Rattle.ptu_admit.specs.{Lent.{four, moment_for_all, shares}, Tables.{IsSwept}};

use crate::book::Book;
use ptu_outside::Port;
use ptu_shard::Shard;
use ptu_units::Moment;

/// The greatest of the moment, the book's and the tables'.
pub(crate) fn latest_of<P: Port>(
    s0: &Shard<P>,
    s1: &Shard<P>,
    s2: &Shard<P>,
    s3: &Shard<P>,
    book: &Book,
    t: Moment,
) -> Moment
    ensures { result ≡ moment_for_all t book.now (four s0.now s1.now s2.now s3.now) }
{
    let latest = t.latest(book.now());
    let latest = s3.moment().latest(latest);
    let latest = s2.moment().latest(latest);
    let latest = s1.moment().latest(latest);
    s0.moment().latest(latest)
}

// Drops the rows of one table whose grants are over at the moment.
fn sweep_one<P: Port>(shard: &mut Shard<P>, book: &mut Book, at: Moment)
    requires { share_of shard.old.rows ≤ book.old.total }
    ensures swept { IsSwept at shard.old shard.new }
    ensures less { share_of shard.new.rows ≤ share_of shard.old.rows }
    ensures book { book.new ≡ record book.old {
      total = book.old.total - share_of shard.old.rows + share_of shard.new.rows;
    } }
    ensures distinct { IsDistinctByLease shard.old.rows × IsDistinctByLease shard.new.rows }
{
    let before = shard.held();
    shard.sweep(at);
    book.settle(before, shard.held());
}

/// Drops the rows of all four tables whose grants are over at the moment.
pub(crate) fn sweep_all<P: Port>(
    s0: &mut Shard<P>,
    s1: &mut Shard<P>,
    s2: &mut Shard<P>,
    s3: &mut Shard<P>,
    book: &mut Book,
    at: Moment,
)
    requires { book.old.total ≡ shares (four s0.old s1.old s2.old s3.old) }
    ensures s0 { IsSwept at s0.old s0.new }
    ensures s1 { IsSwept at s1.old s1.new }
    ensures s2 { IsSwept at s2.old s2.new }
    ensures s3 { IsSwept at s3.old s3.new }
    ensures book { book.new ≡ record book.old {
      total = shares (four s0.new s1.new s2.new s3.new);
    } }
    ensures before { IsDistinctByLease s0.old.rows × IsDistinctByLease s1.old.rows
        × IsDistinctByLease s2.old.rows × IsDistinctByLease s3.old.rows }
    ensures after { IsDistinctByLease s0.new.rows × IsDistinctByLease s1.new.rows
        × IsDistinctByLease s2.new.rows × IsDistinctByLease s3.new.rows }
{
    sweep_one(s0, book, at);
    sweep_one(s1, book, at);
    sweep_one(s2, book, at);
    sweep_one(s3, book, at);
}
