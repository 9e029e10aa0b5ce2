//! Items of a Read.

ghost use Rattle.std.specs.Prelude.{◌≡◌, IfOk};
ghost use Rattle.ua_variant.specs.View.{data_value_of};
ghost use Rattle.ua_nodes.specs.Read.{read_answer};
ghost use Rattle.ua_nodes.specs.Table.{node_at};

use std::alloc::{AllocError, Global};
use ua_builtin::{DateTime, StatusCode, UaString};
use ua_nodes::{NodeTable, Stamps, is_range};
use ua_structures::ReadValueId;
use ua_variant::{DataValue, HeldVariant, Scalar, Variant};

/// The answer to an item of a Read, at a time.
pub fn read_one_item(
    alloc: Global,
    nodes: &NodeTable,
    item: &ReadValueId,
    stamps: Stamps,
    moment: DateTime,
) -> Result<DataValue, AllocError>
    ensures answer { IfOk result
        (λ d. data_value_of d ≡ read_answer (node_at nodes.now item.now.node_id) item.now stamps moment) }
{
    nodes.read_item(alloc, item, stamps, moment)
}
