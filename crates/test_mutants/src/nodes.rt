//! Calls of a node table.

mod items;
mod ranged;

pub use items::read_one_item;
pub use ranged::read_ranged_item;
