//! The node table.

ghost use Rattle.std.specs.Prelude.{◌≡◌, ◌++◌, ◌∷◌, [], ◌↔◌, length, slice_get, IsSome, IsTrue, OnOk, OnErr, IsErrOf};
ghost use Rattle.std.specs.List.{IsDistinct};
ghost use Rattle.std.specs.Map.{keys_of};
ghost use Rattle.std.specs.Map.Iter.{ShowsInOrder, deref_pair};
ghost use Rattle.std.specs.Option.{option_copied, option_map};
ghost use Rattle.ua_nodes.specs.Sound.{IsSoundNode, AreNodesSound};
ghost use Rattle.ua_nodes.specs.Table.{index_of_id, node_at, same_id, variable_of};
ghost use Rattle.ua_nodes.specs.declared.fault.InsertFault.TheVariants.{Duplicate};

use crate::fault::InsertFault;
use crate::node::{Node, Variable};
use indexmap::IndexMap;
use indexmap::map::Iter;
use std::alloc::Global;
use std::marker::Model;
use ua_builtin::NodeId;
use ua_structures::{TakesTypes, ValueType};

/// Nodes with their NodeIds as keys, in the order of their insertion.
#[derive(Debug)]
pub struct NodeTable {
    pub(crate) nodes: IndexMap<NodeId, Variable>,
}

// By hand, so that a function that lets a table go calls this, and proves nothing of what lies in
// it.
impl Drop for NodeTable {
    fn drop(self) {
        let NodeTable { nodes } = self;
        drop(nodes);
    }
}

impl Model for NodeTable {
    ghost use Rattle.std.specs.Prelude.{List};
    ghost use Rattle.ua_builtin.specs.declared.node_id.NodeId.{NodeId};
    ghost use Rattle.ua_nodes.specs.declared.node.Variable.{Variable};
    ghost use Rattle.std.specs.Coded.{codes};
    ghost use Rattle.ua_nodes.specs.contracts.node.NodeValue as value;

    ghost Value = { List (NodeId × Variable) };

    ghost coded = { Prim.hlevel (codes, value.the_row.coded) };

    ghost view = { λ t. t.nodes.entries };
}

impl NodeTable {
    /// A table without nodes. Allocates nothing.
    pub fn new(alloc: Global) -> NodeTable
        ensures { result ≡ [] }
    {
        NodeTable {
            nodes: IndexMap::new(alloc),
        }
    }

    /// The number of nodes.
    pub fn len(&self) -> usize
        ensures { result ≡ length self.now }
    {
        self.nodes.len()
    }

    /// Whether the table has no nodes.
    pub fn is_empty(&self) -> bool
        ensures { IsTrue result ↔ self.now ≡ [] }
    {
        self.nodes.is_empty()
    }

    /// The node at a position in the order of insertion, with its NodeId.
    pub fn get_index(&self, index: usize) -> Option<(&NodeId, &Variable)>
        ensures { option_map deref_pair result ≡ slice_get self.now index }
    {
        self.nodes.get_index(index)
    }

    /// The nodes with their NodeIds, in the order of insertion.
    pub fn iter(&self) -> Iter<'_, NodeId, Variable>
        ensures rest { result ≡ self.now }
        ensures runs { ShowsInOrder (deref_pair {K = NodeId} {X = Variable}) }
    {
        self.nodes.iter()
    }

    /// The node with this NodeId.
    pub fn get(&self, id: &NodeId) -> Option<&Variable>
        ensures { option_copied result ≡ node_at self.now id.now }
    {
        self.nodes.get(id)
    }

    /// The position of the node with this NodeId in the order of insertion.
    pub fn index_of(&self, id: &NodeId) -> Option<usize>
        ensures { result ≡ index_of_id self.now id.now }
    {
        self.nodes.get_index_of(id)
    }

    /// Asks for room for so many nodes more. Where it is refused, the table grows as nodes come.
    pub(crate) fn make_room(&mut self, nodes: usize)
        ensures { self.new ≡ self.old }
    {
        let _room = self.nodes.reserve(nodes);
    }

    /// Inserts a node at the end.
    pub fn insert(&mut self, node: Node) -> Result<(), InsertFault>
        ensures ok { OnOk result (self.new ≡ self.old ++ (node.id, variable_of node) ∷ []) }
        ensures err { OnErr result (self.new ≡ self.old) }
        ensures distinct { OnOk result (IsDistinct same_id (keys_of self.new)) }
        ensures duplicate { IsErrOf result Duplicate ↔ IsSome (node_at self.old node.id) }
        ensures sound { OnOk result (AreNodesSound self.old → IsSoundNode node.id (variable_of node)
            → AreNodesSound self.new) }
    {
        if self.nodes.contains_key(&node.id) {
            drop(node);
            return Err(InsertFault::Duplicate);
        }
        let (id, variable) = node.into_parts();
        let before = self.nodes.insert(id, variable)?;
        drop(before);
        Ok(())
    }
}

impl TakesTypes for NodeTable {
    ghost use Rattle.ua_nodes.specs.Write.{nodes_take};

    ghost takes = { nodes_take };

    fn could_take(&self, id: &NodeId, value_type: ValueType) -> bool {
        match self.get(id) {
            Some(node) => node.array == value_type.array && value_type.kind == node.kind,
            None => false,
        }
    }
}
