//! What is promised of the calls that read, write, cut and assemble, each in a function that makes
//! the call alone: its contract follows from that of the call, so a body that this contract rejects
//! that one rejects too.
#![tactic(auto)]

mod chunks;
mod nodes;
mod values;

pub use chunks::{
    accept_by_reason, accept_next, agree_by, cut_body, held_by, step_next, take_frame,
};
pub use nodes::{read_one_item, read_ranged_item};
pub use values::{read_front, read_node_id, read_one_request, read_variant, write_data_value};
