//! Calls that read and write values and messages.

mod messages;
mod nodes;
mod variants;

pub use messages::read_one_request;
pub use nodes::read_node_id;
pub use variants::{read_front, read_variant, write_data_value};
