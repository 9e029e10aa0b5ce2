//! Both ends of a connection, over the nodes of a table.

ghost use Rattle.std.specs.Prelude.{◌≡◌, IfOk};
ghost use Rattle.ua_exchange.specs.Programs.{begun_over};
ghost use Rattle.ua_exchange.specs.Replies.{state_behind};
ghost use Rattle.ua_nodes.specs.Sound.{AreNodesSound};

use std::alloc::Global;
use ua_builtin::DateTime;
use ua_exchange::{PairFault, Transcript, Turn, exchange};
use ua_nodes::NodeTable;
use ua_server::Services;

/// The outcome of client operations at a server over these nodes. Services over the same nodes, as
/// a connection begins, stand beside them.
pub fn exchange_over(
    alloc: Global,
    table: NodeTable,
    before: &mut Services,
    turns: &[Turn],
    cuts_up: &[usize],
    cuts_down: &[usize],
    moment: DateTime,
) -> Result<Transcript, PairFault>
    requires sound { AreNodesSound table }
    requires same { before.old ≡ begun_over table }
    ensures services { IfOk result (λ t. t.services ≡ state_behind (begun_over table) moment turns.now) }
{
    let _before = before;
    exchange(alloc, table, turns, cuts_up, cuts_down, moment)
}
