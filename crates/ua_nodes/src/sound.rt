//! Whether nodes are sound.

ghost use Rattle.std.specs.Prelude.{◌≡◌, nat_lt};
ghost use Rattle.ua_builtin.specs.Format.{most_levels};
ghost use Rattle.ua_nodes.specs.Sound.{is_sound_node};
ghost use Rattle.ua_nodes.specs.Table.{variable_of};
ghost use Rattle.ua_variant.specs.Measure.{variant_depth};
ghost use Rattle.ua_variant.specs.View.{variant_of};

use crate::node::{Node, Variable};
use crate::write::is_value_of;
use ua_builtin::{MOST_LEVELS, NodeId, Wire};
use ua_diagnostic::field::field_fits;
use ua_variant::Variant;

impl Node {
    /// Whether the node is sound: its NodeId and name can be encoded, and its value is of its type,
    /// or an array of it without dimensions, and can be encoded in a DataValue. All results of
    /// Reads of a table of such nodes can be encoded.
    pub fn is_sound(&self) -> bool
        ensures { result ≡ is_sound_node self.now.id (variable_of self.now) }
    {
        self.id.is_encodable()
            && self.name.is_encodable()
            && is_value_of(self.kind, self.array, &self.value)
            && leaves_a_level(&self.value)
            && self.value.writable()
            && field_fits(&self.status)
            && field_fits(&self.source_time)
            && field_fits(&self.source_picoseconds)
    }
}

impl Variable {
    /// Whether the node with this NodeId in a table is sound, as [`Node::is_sound`].
    pub fn is_sound(&self, id: &NodeId) -> bool
        ensures { result ≡ is_sound_node id.now self.now }
    {
        id.is_encodable()
            && self.name.is_encodable()
            && is_value_of(self.kind, self.array, self.value.get())
            && leaves_a_level(self.value.get())
            && self.value.get().writable()
            && field_fits(&self.status)
            && field_fits(&self.source_time)
            && field_fits(&self.source_picoseconds)
    }
}

/// Whether a value has fewer levels than a value may have to be written.
fn leaves_a_level(value: &Variant) -> bool
    ensures { result ≡ nat_lt (variant_depth (variant_of value.now)) most_levels }
{
    value.depth() < MOST_LEVELS
}
