//! Many connections at a time over one node table, in one thread: whose turn it is, when its socket
//! is read, what is stepped, and what is buffered until it is written. The sockets are behind a
//! trait, and nothing here waits.
//!
//! ```
//! let mut connections = Connections::new(alloc, limits, places)?;
//! connections.open(place, socket)?; // of a peer that came, where the place is free
//! connections.go_round(&mut services, &mut application); // one turn of each
//! while let Some(ended) = connections.release(place) { // what became of it, and its socket
//! ```
#![tactic(auto)]

mod application;
mod connections;
mod conversation;
mod outcome;
mod socket;

pub use application::Application;
pub use connections::{Connections, OpenFault};
pub use conversation::Conversation;
pub use outcome::{Failure, Phase, Released};
pub use socket::{Readiness, Socket, Stop};
