//! Calls of the layers of frames and chunks.

mod agreeing;
mod assembling;
mod cutting;
mod framing;

pub use agreeing::agree_by;
pub use assembling::{accept_by_reason, accept_next, held_by, step_next};
pub use cutting::cut_body;
pub use framing::take_frame;
