//! Items of Write under a limit of memory.

ghost use Rattle.std.specs.Prelude.{◌≡◌, ◌+◌, ◌-◌, ◌≤◌, ◌++◌, Some, cond, drop, length, min, vec_len, vec_capacity};
ghost use Rattle.ua_nodes.specs.Limit.{after_limited, answer_within, answers_within};
ghost use Rattle.ua_nodes.specs.Limit.{begins_refused, codes_behind_first};
ghost use Rattle.ua_nodes.specs.Limit.{given_memory, growth, items_left, limited_answers, nodes_memory, room_after};
ghost use Rattle.ua_nodes.specs.Memory.{value_memory};
ghost use Rattle.ua_nodes.specs.Sound.{AreNodesSound};
ghost use Rattle.ua_nodes.specs.Table.{node_at};
ghost use Rattle.ua_nodes.specs.Write.{after_item, after_write};

use crate::memory::memory_of;
use crate::node::{NodeValue, Variable};
use crate::table::NodeTable;
use ua_builtin::laws::moment_is_encodable;
use ua_builtin::{DateTime, StatusCode};
use ua_structures::WriteValue;

/// BadOutOfMemory (OPC 10000-6, A.2).
const BAD_OUT_OF_MEMORY: StatusCode = StatusCode { code: 0x8003_0000 };

impl NodeTable {
    /// The bytes of memory that the values of the nodes take beside the fixed place of each: an
    /// upper bound for values that were decoded. Saturated at `usize::MAX`.
    pub fn memory(&self) -> usize
        ensures { result ≡ min (nodes_memory self.now) usize.MAX }
    {
        let mut all = 0usize;
        let mut index = 0;
        while index < self.nodes.len() {
            let Some((_, node)) = self.nodes.get_index(index) else {
                unreachable!();
            };
            all = all.saturating_add(node.value.memory());
            index += 1;
        }
        all
    }

    /// Writes items as [`NodeTable::write_items`] does, except that an item with which the values
    /// of all nodes would take more than `most` bytes is answered BadOutOfMemory, and stores
    /// nothing. An item grows by what its value takes more than the value that its node had before
    /// the Write, and is judged by the room that the items before it leave; one that does not grow
    /// is never refused for this. Allocates nothing.
    pub fn write_items_within(
        &mut self,
        items: Vec<WriteValue>,
        moment: DateTime,
        most: usize,
        statuses: &mut Vec<StatusCode>,
    )
        requires { vec_len statuses.old + vec_len items ≤ vec_capacity statuses.old }
        ensures nodes { self.new ≡ after_limited (Some most) items.items moment self.old }
        ensures answers { statuses.new.items ≡ statuses.old.items ++ limited_answers (Some most) self.old items.items }
        ensures sound { AreNodesSound self.old → AreNodesSound self.new }
    {
        moment_is_encodable(&moment);
        let first = statuses.as_slice().len();
        let room = most.saturating_sub(self.memory());
        self.judge_items(items.as_slice(), room, statuses);
        let codes = codes_from(statuses.as_slice(), first);
        self.store_items(items, moment, codes);
    }

    /// Pushes the results of items in order, with this room for them.
    fn judge_items(&self, items: &[WriteValue], room: usize, statuses: &mut Vec<StatusCode>)
        requires { vec_len statuses.old + length items.now ≤ vec_capacity statuses.old }
        ensures { statuses.new.items ≡ statuses.old.items ++ answers_within room self.now items.now }
    {
        let mut left = room;
        for item in items {
            let (status, rest) = self.judge_item(item, left);
            let Ok(()) = statuses.push(status) else {
                unreachable!();
            };
            left = rest;
        }
    }

    /// The result of an item with this room left, and the room that it leaves.
    fn judge_item(&self, item: &WriteValue, room: usize) -> (StatusCode, usize)
        ensures answer { result.0 ≡ answer_within room (node_at self.now item.now.node_id) item.now }
        ensures rest { result.1 ≡ room_after room (node_at self.now item.now.node_id) item.now }
    {
        match self.nodes.get(&item.node_id) {
            Some(variable) => variable.judge(item, room),
            None => (StatusCode::BAD_NODE_ID_UNKNOWN, room),
        }
    }

    /// Writes the items whose results are not BadOutOfMemory.
    fn store_items(&mut self, items: Vec<WriteValue>, moment: DateTime, codes: &[StatusCode])
        ensures { self.new ≡ after_write (items_left items.items codes.now) moment self.old }
    {
        let mut rest = codes;
        for item in items {
            let (refused, behind) = first_refused(rest);
            self.write_unless(refused, item, moment);
            rest = behind;
        }
    }

    /// Writes an item, unless it was refused.
    fn write_unless(&mut self, refused: bool, item: WriteValue, moment: DateTime)
        ensures { self.new ≡ cond refused self.old (after_item item moment self.old) }
    {
        if refused {
            drop(item);
            return;
        }
        let mut item = item;
        let _status = self.write_item(&mut item, moment);
        drop(item);
    }
}

impl Variable {
    /// The result of an item with this room left, and the room that it leaves.
    fn judge(&self, item: &WriteValue, room: usize) -> (StatusCode, usize)
        ensures answer { result.0 ≡ answer_within room (Some self.now) item.now }
        ensures rest { result.1 ≡ room_after room (Some self.now) item.now }
    {
        if let Some(code) = self.write_refusal(item) {
            return (code, room);
        }
        let growth = self.growth_with(item);
        if growth > room {
            return (BAD_OUT_OF_MEMORY, room);
        }
        (StatusCode::GOOD, room - growth)
    }

    /// How many bytes more the value of an item takes than that of this node.
    fn growth_with(&self, item: &WriteValue) -> usize
        ensures { result ≡ given_memory item.now.value.value - value_memory self.now.value }
    {
        match &item.value.value {
            Some(value) => memory_of(value.get()).saturating_sub(self.value.memory()),
            None => 0,
        }
    }
}

impl NodeValue {
    /// The bytes of memory that the value takes beside its fixed place.
    pub fn memory(&self) -> usize
        ensures { result ≡ value_memory self.now }
    {
        memory_of(self.get())
    }
}

/// Whether the first code is there and is BadOutOfMemory, and the codes after it.
fn first_refused(codes: &[StatusCode]) -> (bool, &[StatusCode])
    ensures refused { result.0 ≡ begins_refused codes.now }
    ensures rest { result.1.now ≡ codes_behind_first codes.now }
{
    match codes.split_first() {
        Some((code, rest)) => (code.code == BAD_OUT_OF_MEMORY.code, rest),
        None => (false, codes),
    }
}

/// The codes from a position on.
fn codes_from(codes: &[StatusCode], first: usize) -> &[StatusCode]
    requires { first ≤ length codes.now }
    ensures { result.now ≡ drop first codes.now }
{
    codes.split_at(first).1
}
