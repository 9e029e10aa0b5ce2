//! What `ua serve` does: it loads a node file, adds the nodes of the standard, follows the file as
//! it changes, serves connections one after the other or many at a time, and prints their lines.
//!
//! ```
//! let services = services(alloc, "ns=1;s=Pump\trw\tPump\tInt32\t5\n", 4840)?;
//! // a client may be served over any transport: `ua_server` has `serve`
//! ```
#![tactic(auto)]

mod at_once;
mod live;
mod serve;
mod setup;
mod standard;
mod stored;
mod time_keeper;

pub use serve::{serve_connections, services};
