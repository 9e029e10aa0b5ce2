//! Transports over sockets, and timestamps of the system's clock: what a program has to give to the
//! crates that have no input and no output of their own.
//!
//! ```
//! let stream = TcpStream::connect(&rt, (Ipv4Addr::LOCALHOST, 4840))?;
//! let mut line = TcpLine::new(without_delay(stream));
//! let mut moments = ClockMoments::new(&rt);
//! let moment = DateTime { ticks: moments.next() };
//! let mut client = Client::open(alloc, &mut line, limits, url, moment)?;
//! ```
#![tactic(auto)]

mod clock_moments;
mod gathering_line;
mod recorded_line;
mod tcp_line;

pub use clock_moments::ClockMoments;
pub use gathering_line::GatheringLine;
pub use recorded_line::RecordedLine;
pub use tcp_line::{TcpLine, without_delay};
