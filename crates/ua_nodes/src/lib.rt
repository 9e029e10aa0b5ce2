//! The node table of a server: nodes with their values, node files, and the items of Read and Write
//! (OPC 10000-4, 5.11).
//!
//! ```
//! let mut table = NodeTable::load(alloc, "ns=1;s=Pump\trw\tPump\tInt32\t5\n")?;
//! let node = NodeId::parse_text(alloc, "ns=1;s=Pump")?;
//! let item = ReadValueId::new(node);
//! let answer = table.read_item(alloc, &item, Stamps::Both, moment)?; // a value, or a bad status
//! table.append_items(&items, Stamps::Both, moment, None, &mut out)?; // encoded
//! let mut statuses = Vec::with_capacity(alloc, items.len())?; // the caller allocates
//! table.write_items(items, moment, &mut statuses); // allocates nothing, cannot fail
//! ```
#![tactic(auto)]

mod append;
mod attribute;
mod fault;
mod laws;
mod limit;
mod memory;
mod node;
mod node_file;
mod number;
mod part;
mod range;
mod read;
mod set;
mod sound;
mod stamps;
mod table;
mod textual;
mod type_name;
mod value;
mod write;

pub use fault::{InsertFault, LineReason, LoadFault, SetFault, ValueFault};
pub use laws::{
    a_node_is_sound_where_it_passes, a_write_keeps_memory_within_its_limit,
    values_that_their_nodes_cannot_take_change_no_write,
};
pub use node::{Access, Node, NodeValue, Variable};
pub use node_file::{is_read, without_return};
pub use range::is_range;
pub use set::Reading;
pub use stamps::Stamps;
pub use table::NodeTable;
pub use type_name::parse_type;
pub use value::{MOST_OCTETS, parse_value};
