//! Items of Write.

ghost use Rattle.std.specs.Prelude.{◌≡◌, ◌+◌, ◌≤◌, ◌++◌, vec_len, vec_capacity, IsSome, Some, None, cond, is_none};
ghost use Rattle.ua_variant.specs.View.{variant_of};
ghost use Rattle.ua_builtin.specs.Reasons.{first_reason};
ghost use Rattle.ua_nodes.specs.Sound.{AreNodesSound};
ghost use Rattle.ua_nodes.specs.Table.{node_at};
ghost use Rattle.ua_nodes.specs.Write.{is_of_type, write_item_reasons, write_answer, good_or};
ghost use Rattle.ua_nodes.specs.Write.{stored, written_by, after_item, after_write, write_answers};

use crate::attribute::Attribute;
use crate::node::{NodeValue, Variable};
use crate::read::has_text;
use crate::table::NodeTable;
use std::mem;
use ua_builtin::laws::moment_is_encodable;
use ua_builtin::{DateTime, StatusCode};
use ua_structures::{VALUE_ATTRIBUTE, WriteValue};
use ua_variant::{DataValue, Variant};

impl NodeTable {
    /// Writes items in order, at a given time, and pushes the StatusCode of each. Allocates
    /// nothing.
    pub fn write_items(
        &mut self,
        items: Vec<WriteValue>,
        moment: DateTime,
        statuses: &mut Vec<StatusCode>,
    )
        requires { vec_len statuses.old + vec_len items ≤ vec_capacity statuses.old }
        ensures nodes { self.new ≡ after_write items.items moment self.old }
        ensures answers { statuses.new.items ≡ statuses.old.items ++ write_answers self.old items.items }
        ensures sound { AreNodesSound self.old → AreNodesSound self.new }
    {
        moment_is_encodable(&moment);
        for item in items {
            let mut item = item;
            let status = self.write_item(&mut item, moment);
            drop(item);
            let Ok(()) = statuses.push(status) else {
                unreachable!();
            };
        }
    }

    /// Writes an item, out of which it takes the value where it is stored.
    pub(crate) fn write_item(&mut self, item: &mut WriteValue, moment: DateTime) -> StatusCode
        ensures answer { result ≡ write_answer (node_at self.old item.old.node_id) item.old }
        ensures nodes { self.new ≡ after_item item.old moment self.old }
    {
        match self.nodes.get_mut(&item.node_id) {
            Some(variable) => variable.write(item, moment),
            None => StatusCode::BAD_NODE_ID_UNKNOWN,
        }
    }
}

impl Variable {
    /// Writes the value of an item, unless the item is rejected.
    fn write(&mut self, item: &mut WriteValue, moment: DateTime) -> StatusCode
        ensures answer { result ≡ good_or (first_reason (write_item_reasons self.old item.old)) }
        ensures node { self.new ≡ written_by self.old
            (cond (is_none (first_reason (write_item_reasons self.old item.old))) (Some item.old) None) moment }
    {
        if let Some(code) = self.write_refusal(item) {
            return code;
        }
        self.store(&mut item.value, moment);
        StatusCode::GOOD
    }

    /// The StatusCode with which an item for this node is rejected.
    pub(crate) fn write_refusal(&self, item: &WriteValue) -> Option<StatusCode>
        ensures { result ≡ first_reason (write_item_reasons self.now item.now) }
    {
        if Attribute::from_id(item.attribute_id).is_none() {
            return Some(StatusCode::BAD_ATTRIBUTE_ID_INVALID);
        }
        if !(item.attribute_id == VALUE_ATTRIBUTE && self.access.writable) {
            return Some(StatusCode::BAD_NOT_WRITABLE);
        }
        // Ranges of arrays would be taken here.
        if has_text(&item.index_range) {
            return Some(StatusCode::BAD_WRITE_NOT_SUPPORTED);
        }
        let Some(value) = &item.value.value else {
            return Some(StatusCode::BAD_WRITE_NOT_SUPPORTED);
        };
        if !(is_value_of(self.kind, self.array, value.get()) && item.value.writable()) {
            return Some(StatusCode::BAD_TYPE_MISMATCH);
        }
        None
    }

    /// Keeps a value, which it takes, its status and when it came about.
    pub(crate) fn store(&mut self, given: &mut DataValue, moment: DateTime)
        requires { IsSome given.old.value }
        ensures { self.new ≡ stored self.old given.old moment }
    {
        let Some(value) = mem::replace(&mut given.value, None) else {
            unreachable!();
        };
        self.value = NodeValue::new(value.into_inner());
        self.status = given.status;
        self.source_time = Some(given.source_timestamp.unwrap_or(moment));
        self.source_picoseconds = if given.source_timestamp.is_some() {
            given.source_picoseconds
        } else {
            None
        };
    }
}

/// Whether a value is one of the type, or an array of it without dimensions.
pub(crate) fn is_value_of(kind: u8, array: bool, value: &Variant) -> bool
    ensures { result ≡ is_of_type kind array (variant_of value.now) }
{
    match value {
        Variant::Null => false,
        Variant::One(scalar) => !array && scalar.kind() == kind,
        Variant::Many { kind: of, dims, .. } => array && *of == kind && dims.as_slice().is_empty(),
    }
}
