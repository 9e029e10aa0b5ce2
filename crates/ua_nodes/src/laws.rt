//! Laws of node files, of Reads and of Writes, each carried by a function without a body.

ghost use Rattle.std.specs.Prelude.{◌≡◌, ◌≤◌, ◌↔◌, IsTrue, map, max, ℕ, List, Option, Some};
ghost use Rattle.ua_nodes.specs.declared.node.Variable.{Variable};
ghost use Rattle.ua_nodes.specs.Sound.{IsSoundNode, is_sound_node};
ghost use Rattle.ua_nodes.specs.Limit.{after_limited, limited_answers, nodes_memory};
ghost use Rattle.ua_nodes.specs.Write.{nodes_take};
ghost use Rattle.ua_builtin.specs.declared.date_time.DateTime.{DateTime};
ghost use Rattle.ua_builtin.specs.declared.node_id.NodeId.{NodeId};
ghost use Rattle.ua_structures.specs.Thin.{thinned};
ghost use Rattle.ua_structures.specs.declared.attribute.WriteValue.{WriteValue};

use crate::table::NodeTable;

/// A Write of the items without the values that their nodes could not take, where each node takes
/// the values of its own type, gives the same results and the same nodes as a Write of the items
/// themselves (OPC 10000-4, 5.11.4), with a limit of memory or without one. Allocates nothing.
pub fn values_that_their_nodes_cannot_take_change_no_write(table: &NodeTable)
    ensures answers { (most : Option ℕ) (items : List WriteValue)
        → limited_answers most table.now (map (thinned (nodes_take table.now)) items)
        ≡ limited_answers most table.now items }
    ensures nodes { (most : Option ℕ) (items : List WriteValue) (moment : DateTime)
        → after_limited most (map (thinned (nodes_take table.now)) items) moment table.now
        ≡ after_limited most items moment table.now }
{
    // Called for its clause that no two nodes are of one NodeId.
    let _count = table.nodes.len();
}

/// A Write under a limit leaves the values of the nodes with at most as much memory as the limit, or
/// as they had before. Allocates nothing.
pub fn a_write_keeps_memory_within_its_limit(table: &NodeTable)
    ensures { (most : ℕ) (items : List WriteValue) (moment : DateTime)
        → nodes_memory (after_limited (Some most) items moment table.now) ≤ max most (nodes_memory table.now) }
{
    // Called for its clause that no two nodes are of one NodeId.
    let _count = table.nodes.len();
}

/// A node is sound exactly if the test `is_sound` says so.
pub fn a_node_is_sound_where_it_passes()
    ensures { (id : NodeId) (variable : Variable) → (IsTrue (is_sound_node id variable) ↔ IsSoundNode id variable) }
{}
