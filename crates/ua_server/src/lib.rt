//! A server on one connection, and its answers: endpoints, one session, and the items of Read and
//! Write (OPC 10000-4, 5.5, 5.7 and 5.11). It does no input or output.
//!
//! Its main contract is that of [`Server::step`]: however the transport fragments a client's bytes,
//! the bytes to be sent are a stated function of all bytes received, of the state before the
//! connection, and of the timestamps. Below it stands [`Services::answer`]: the response to one
//! request, and the state that it leaves.
//!
//! Several connections over one node table are [`Connection`]s over one [`Services`]: each is
//! answered as by one server that handles every message in the order of completion ([`laws`]).
//!
//! ```
//! let nodes = NodeTable::load(alloc, "ns=1;s=Pump\trw\tPump\tInt32\t5\n")?;
//! let mut services = Services::new(nodes, endpoint);
//! services.begin(); // a connection begins: there is no session
//! let mut server = Server::new(alloc, limits, channel_id);
//! let step = server.step(&mut services, piece, moment)?; // then go on with &piece[step.taken..]
//! write(&step.out);
//! if step.end.is_some() {
//!     hang_up(); // the client closed, or was refused: the ERR frame is written
//! }
//! ```
#![tactic(auto)]

mod application;
mod attributes;
mod connection;
mod endpoint;
pub mod laws;
mod reply;
mod serve_fault;
mod serve_terms;
mod server;
mod services;
mod serving;
mod session;
mod sessions;
mod step;
mod surroundings;
mod watch;
mod written;

pub use application::{Application, NoApplication};
pub use connection::Connection;
pub use endpoint::Endpoint;
pub use serve_fault::ServeFault;
pub use serve_terms::ServeTerms;
pub use server::Server;
pub use services::Services;
pub use serving::{serve, serve_application};
pub use session::SessionSlot;
pub use step::{End, Step, StepFault};
pub use watch::{AnsweredRequest, Unwatched, Watch};
pub use written::Written;
