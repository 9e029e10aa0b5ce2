//! Readings that an application sets.

ghost use Rattle.std.specs.Prelude.{◌≡◌, MatchResult, OnErr, IsSome, Some, None};
ghost use Rattle.ua_builtin.specs.Reasons.{first_reason};
ghost use Rattle.ua_nodes.specs.Set.{after_set, after_set_at, value_of_reading, set_node};
ghost use Rattle.ua_nodes.specs.Set.{set_reasons, set_refusal, set_refusal_at};
ghost use Rattle.ua_nodes.specs.Sound.{AreNodesSound};
ghost use Rattle.ua_nodes.specs.Table.{node_id_at, node_at};

use crate::fault::SetFault;
use crate::node::Variable;
use crate::table::NodeTable;
use crate::write::is_value_of;
use ua_builtin::{DateTime, NodeId, StatusCode};
use ua_variant::{DataValue, HeldVariant, Variant};

/// A value with its status and its SourceTimestamp.
#[derive(Debug, Drop)]
pub struct Reading {
    pub value: Variant,
    pub status: Option<StatusCode>,
    pub source_time: DateTime,
    /// The addition to the SourceTimestamp, in units of 10 picoseconds.
    pub source_picoseconds: Option<u16>,
}

impl Reading {
    /// The reading as a DataValue. Allocates nothing.
    fn into_data(self) -> DataValue
        ensures { result ≡ value_of_reading self }
    {
        DataValue {
            value: Some(HeldVariant::new(self.value)),
            status: self.status,
            source_timestamp: Some(self.source_time),
            source_picoseconds: self.source_picoseconds,
            server_timestamp: None,
            server_picoseconds: None,
        }
    }
}

impl NodeTable {
    /// Sets the value, status and SourceTimestamp of the node with a NodeId, whatever its access
    /// level: that limits clients only. Allocates nothing.
    pub fn set(&mut self, id: &NodeId, reading: Reading) -> Result<(), SetFault>
        ensures nodes { self.new ≡ after_set id.now reading self.old }
        ensures answer { MatchResult result (λ _. set_refusal (node_at self.old id.now) reading ≡ None)
            (λ fault. set_refusal (node_at self.old id.now) reading ≡ Some fault) }
        ensures kept { OnErr result (self.new ≡ self.old) }
        ensures sound { AreNodesSound self.old → AreNodesSound self.new }
    {
        match self.nodes.get_mut(id) {
            Some(variable) => variable.set(reading),
            None => {
                drop(reading);
                Err(SetFault::Unknown)
            }
        }
    }

    /// Does what [`NodeTable::set`] does for the NodeId of the node at a position in the order of
    /// insertion, without looking for it. A position past the end is answered as an unknown NodeId.
    /// Allocates nothing.
    pub fn set_at(&mut self, index: usize, reading: Reading) -> Result<(), SetFault>
        ensures nodes { self.new ≡ after_set_at (node_id_at self.old index) reading self.old }
        ensures answer { MatchResult result (λ _. set_refusal_at (node_id_at self.old index) reading self.old ≡ None)
            (λ fault. set_refusal_at (node_id_at self.old index) reading self.old ≡ Some fault) }
        ensures kept { OnErr result (self.new ≡ self.old) }
        ensures sound { AreNodesSound self.old → AreNodesSound self.new }
    {
        match self.nodes.get_index_mut(index) {
            Some(variable) => variable.set(reading),
            None => {
                drop(reading);
                Err(SetFault::Unknown)
            }
        }
    }
}

impl Variable {
    /// Sets a reading, unless it is rejected.
    fn set(&mut self, reading: Reading) -> Result<(), SetFault>
        ensures node { self.new ≡ set_node self.old reading }
        ensures answer { MatchResult result (λ _. first_reason (set_reasons self.old (value_of_reading reading)) ≡ None)
            (λ fault. first_reason (set_reasons self.old (value_of_reading reading)) ≡ Some fault) }
    {
        let moment = reading.source_time;
        let mut given = reading.into_data();
        if let Some(fault) = self.set_refusal(&given) {
            drop(given);
            return Err(fault);
        }
        self.store(&mut given, moment);
        drop(given);
        Ok(())
    }

    /// The reason why the reading is rejected for this node.
    fn set_refusal(&self, given: &DataValue) -> Option<SetFault>
        requires { IsSome given.now.value }
        ensures { result ≡ first_reason (set_reasons self.now given.now) }
    {
        let Some(value) = &given.value else {
            unreachable!();
        };
        if !is_value_of(self.kind, self.array, value.get()) {
            return Some(SetFault::Mismatch);
        }
        if !given.writable() {
            return Some(SetFault::NotWritable);
        }
        None
    }
}
