//! The results of Read items, encoded without moving the values.

ghost use Rattle.std.specs.Prelude.{◌≡◌, ◌<◌, ◌↔◌, ◌++◌, true, IsTrue, OnOk, OnErr};
ghost use Rattle.ua_builtin.specs.Format.{Extends};
ghost use Rattle.ua_variant.specs.Canonical.{data_value_canonical};
ghost use Rattle.ua_variant.specs.Data.{valued};
ghost use Rattle.ua_variant.specs.Encodable.{data_value_encodable};
ghost use Rattle.ua_nodes.specs.Read.{result_octets, stamps_of};
ghost use Rattle.ua_nodes.specs.Within.{IsWithin, Passes};
ghost use Rattle.ua_nodes.specs.Sound.{AreNodesSound};
ghost use Rattle.ua_nodes.specs.declared.stamps.Stamps.{Stamps};
ghost use Rattle.ua_builtin.specs.declared.date_time.DateTime.{DateTime};

use crate::node::Variable;
use crate::read::refused;
use crate::stamps::Stamps;
use crate::table::NodeTable;
use std::alloc::AllocError;
use ua_builtin::laws::moment_is_encodable;
use ua_builtin::{DateTime, StatusCode, Wire};
use ua_structures::ReadValueId;
use ua_variant::Variant;

impl NodeTable {
    /// Appends the encoded results of Read items, one after the other: those that
    /// [`read_item`](NodeTable::read_item) makes. The Value of a node is encoded without a copy; a
    /// part of an array and the other attributes are made first, one at a time. Once there are more
    /// bytes than `most`, the earlier contents among them, no further result is appended. On an
    /// error the earlier contents stay, perhaps followed by more bytes.
    pub fn append_items(
        &self,
        items: &[ReadValueId],
        stamps: Stamps,
        moment: DateTime,
        most: Option<usize>,
        out: &mut Vec<u8>,
    ) -> Result<(), AllocError>
        requires sound { AreNodesSound self.now }
        ensures ok { OnOk result
            (IsWithin most (result_octets self.now stamps moment) items.now out.old.items out.new.items) }
        ensures err { OnErr result (Extends out.old.items out.new.items) }
    {
        for item in items {
            if passes(most, out.len()) {
                return Ok(());
            }
            self.append_item(item, stamps, moment, out)?;
        }
        Ok(())
    }

    /// Appends the encoded result of an item.
    #[tactic(auto, unfolding(ua_variant::specs::Formats::data_value_format))]
    fn append_item(
        &self,
        item: &ReadValueId,
        stamps: Stamps,
        moment: DateTime,
        out: &mut Vec<u8>,
    ) -> Result<(), AllocError>
        requires sound { AreNodesSound self.now }
        ensures ok { OnOk result (out.new.items ≡ out.old.items ++ result_octets self.now stamps moment item.now) }
        ensures err { OnErr result (Extends out.old.items out.new.items) }
    {
        moment_is_encodable(&moment);
        let Some(variable) = self.get(&item.node_id) else {
            return refused(StatusCode::BAD_NODE_ID_UNKNOWN).append(out);
        };
        if variable.gives_whole(item) {
            return variable.append_value(stamps, moment, out);
        }
        match variable.answer_beside(*out.allocator(), item, stamps, moment)? {
            Some(answer) => answer.append(out),
            None => variable.append_value(stamps, moment, out),
        }
    }
}

impl Variable {
    /// Appends the DataValue of this node's Value, with its status and timestamps.
    fn append_value(
        &self,
        stamps: Stamps,
        moment: DateTime,
        out: &mut Vec<u8>,
    ) -> Result<(), AllocError>
        requires { data_value_encodable (valued self.now.value (stamps_of self.now true stamps moment)) ≡ true }
        ensures ok { OnOk result
            (out.new.items ≡ out.old.items ++ data_value_canonical
            (valued self.now.value (stamps_of self.now true stamps moment))) }
        ensures err { OnErr result (Extends out.old.items out.new.items) }
    {
        self.stamped(None, true, stamps, moment)
            .append_beside(self.value.get(), out)
    }
}

/// Whether so many bytes are more than the most, if there is such a limit.
fn passes(most: Option<usize>, len: usize) -> bool
    ensures { IsTrue result ↔ Passes most len }
{
    match most {
        Some(most) => len > most,
        None => false,
    }
}
