//! A turn: what is due is taken from the queue, sent, and put back at its next moment.

ghost use Rattle.std.specs.Prelude.{◌≡◌, ◌<◌, ◌≤◌, [], ◌∷◌, map, true, IfNone, IfSome};
ghost use Rattle.indexmap.specs.IndexMap.{spare};
ghost use Rattle.ptu_outside.specs.HandsOver.{HandsOver};
ghost use Rattle.ptu_shard.specs.{Fields.{rows_of}, Messages.{departure_of}, Queue.{HasEdges}};
ghost use Rattle.ptu_shard.specs.Row.{IsDistinctByLease};
ghost use Rattle.ptu_shard.specs.Turn.{due_messages, due_rows, is_due_row, spent_where};
ghost use Rattle.ptu_history.specs.Turns.{is_turned};

use crate::lease::{Lease, Row};
use crate::queue::Queue;
use crate::queueing::edge_of;
use crate::rows::{Key, spend_due};
use crate::sending::send_message;
use indexmap::IndexMap;
use ptu_outside::{Port, Sends};
use ptu_profile::GmConfig;
use ptu_units::Moment;

/// The next row that is due at the moment, as it was before it spends a period and a sequence
/// number. Its entry moves to its next moment.
fn next_due(rows: &mut IndexMap<Key, Lease>, edges: &mut Queue, at: Moment) -> Option<Row>
    requires { HasEdges at (rows_of rows.old.entries) edges.old.entries }
    ensures due { IfSome result (λ row. due_rows at (rows_of rows.old.entries)
        ≡ row ∷ due_rows at (rows_of rows.new.entries)) }
    ensures turned { IfSome result (λ row. is_turned row.kind ≡ true) }
    ensures none { IfNone result (due_rows at (rows_of rows.old.entries) ≡ []) }
    ensures same { IfNone result (rows_of rows.new.entries ≡ rows_of rows.old.entries) }
    ensures spent { spent_where (is_due_row at) at (rows_of rows.new.entries)
        ≡ spent_where (is_due_row at) at (rows_of rows.old.entries) }
    ensures edges { HasEdges at (rows_of rows.new.entries) edges.new.entries }
    ensures spare { spare rows.new ≡ spare rows.old }
    ensures capacity { edges.old.capacity ≤ edges.new.capacity }
{
    while let Some(entry) = edges.first_until(at) {
        if let Some(row) = spend_due(rows, at, entry) {
            edges.replace_first(edge_of(&row.spent(at)));
            return Some(row);
        }
        edges.drop_first();
    }
    None
}

/// Hands the message of each row that is due to the port, in order, and each such row spends a
/// period and a sequence number. Gives how many were sent and how many failed to be.
pub(crate) fn send_due<P: Port>(
    rows: &mut IndexMap<Key, Lease>,
    edges: &mut Queue,
    port: &mut P,
    config: &GmConfig,
    at: Moment,
) -> Sends
    requires edges { HasEdges at (rows_of rows.old.entries) edges.old.entries }
    ensures sends { HandsOver P.Port port.old port.new
        (map (departure_of config.now at) (due_messages at (rows_of rows.old.entries)))
        result.sent result.failed }
    ensures rows { rows_of rows.new.entries
        ≡ spent_where (is_due_row at) at (rows_of rows.old.entries) }
    ensures edges { HasEdges at (rows_of rows.new.entries) edges.new.entries }
    ensures spare { spare rows.new ≡ spare rows.old }
    ensures capacity { edges.old.capacity ≤ edges.new.capacity }
{
    let _count = rows.len();
    let mut sends = Sends::none();
    while let Some(row) = next_due(rows, edges, at) {
        sends = sends.and(Sends::of(send_message(port, config, at, &row)));
    }
    sends
}
