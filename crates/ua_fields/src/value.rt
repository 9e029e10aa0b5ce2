//! DataValues as lines.

use crate::lines::{Lines, Place, push_fields};
use std::alloc::{AllocError, Global};
use ua_variant::DataValue;

impl Lines for DataValue {
    ghost use Rattle.ua_fields.specs.Tree.{structure};
    ghost use Rattle.ua_fields.specs.DataValue.{data_value_entries};

    ghost tree = { λ m. structure (data_value_entries m) };

    fn is_structure() -> bool {
        true
    }

    #[tactic(auto, unfolding(crate::specs::DataValue::data_value_entries))]
    fn push_lines(&self, alloc: Global, out: &mut String, place: Place) -> Result<(), AllocError> {
        push_fields!(self, alloc, out, place =>
            value, status, source_timestamp, source_picoseconds, server_timestamp, server_picoseconds
        )
    }
}
