//! Node files of a server for third-party clients: the namespaces that a file names, and the nodes
//! of namespace 0 that such clients read first. Texts are made from texts, without I/O.
//!
//! ```
//! let uris = namespaces(alloc, &text)?; // of lines such as `# namespace 2 urn:plant`
//! let nodes = NodeTable::load(alloc, &text)?;
//! let whole = with_standard(alloc, &text, &nodes, &uris)?; // the file, then the lines it lacks
//! ```
#![tactic(auto)]

mod changed;
mod current;
mod namespace;
mod standard;

pub use changed::changed_nodes;
pub use current::{current_time, current_time_id, lacks_current_time};
pub use namespace::{NamespaceFault, namespaces};
pub use standard::with_standard;
