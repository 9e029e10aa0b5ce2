//! Items of a Read that ask for a range of an array.

ghost use Rattle.std.specs.Prelude.{◌≡◌, ℕ, suc, IfOk, Some};
ghost use Rattle.ua_variant.specs.View.{data_value_of};
ghost use Rattle.ua_nodes.specs.Range.{asked_range, places};
ghost use Rattle.ua_nodes.specs.Read.{read_answer};
ghost use Rattle.ua_nodes.specs.Table.{node_at};

use std::alloc::{AllocError, Global};
use ua_builtin::DateTime;
use ua_nodes::{NodeTable, Stamps};
use ua_structures::ReadValueId;
use ua_variant::DataValue;

/// The answer to an item of a Read for a range, beside which an item is for a range that ends one
/// index earlier.
pub fn read_ranged_item(
    alloc: Global,
    nodes: &NodeTable,
    item: &ReadValueId,
    shorter: &ReadValueId,
    stamps: Stamps,
    moment: DateTime,
) -> Result<DataValue, AllocError>
    requires { (first last : ℕ) → asked_range item.now.index_range ≡ Some (places first (suc last))
        → asked_range shorter.now.index_range ≡ Some (places first last) }
    ensures answer { IfOk result
        (λ d. data_value_of d ≡ read_answer (node_at nodes.now item.now.node_id) item.now stamps moment) }
{
    let _shorter = shorter;
    nodes.read_item(alloc, item, stamps, moment)
}
