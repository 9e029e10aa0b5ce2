//! Many connections at a time over sockets: one loop in one thread, driven by the readiness that
//! the system reports. `ua_concurrent` decides what is read, stepped, buffered and written of each
//! connection.
//!
//! ```
//! let listener = TcpListener::bind(&rt, SocketAddr::from((Ipv4Addr::LOCALHOST, 4840)))?;
//! let asked = AtOnce { limits, places: 16, total: 100 };
//! serve_at_once(&rt, alloc, listener, asked, &mut services, &mut host)?;
//! ```
#![tactic(auto)]

mod door;
mod endings;
mod leaving;
mod polled_socket;
mod serving;

pub use endings::{Endings, NotTaken, Retry};
pub use polled_socket::PolledSocket;
pub use serving::{AtOnce, PollFault, serve_at_once};
