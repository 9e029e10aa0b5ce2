//! The SecureChannel of a connection under the SecurityPolicy None (OPC 10000-6, 6.7 and 7.1),
//! without input and output.
//!
//! The main contracts are those of [`ServerChannel::take`] and [`ClientChannel::take`]: however the
//! bytes are fragmented, they return the events of the frames in order, or at the first invalid
//! frame the first error that applies to it.
//!
//! ```
//! let mut channel = ServerChannel::new(alloc, limits, channel_id);
//! let (size, event) = channel.take(piece, moment)?; // then continue with &piece[size..]
//! match event {
//!     ServerEvent::Send(octets) => write(&octets), // an ACK or an OPN response
//!     ServerEvent::Asked(id, message) => write(&channel.reply(id, &answer(message))?),
//!     ServerEvent::Aborted(_) | ServerEvent::NeedMore => {}
//!     ServerEvent::Closed => hang_up(), // as after `Refused`, whose ERR message is written first
//! }
//! ```
#![tactic(auto)]

mod agreement;
mod client;
mod end_core;
mod end_fault;
mod line;
mod memory_line;
mod moments;
mod numbers;
mod running;
mod sending;
mod sent_reply;
mod server;
mod server_event;
mod server_fault;
mod server_opening;
mod server_rules;
mod taken;
mod writing;

pub use client::{AskFault, AskedCall, ClientChannel, ClientEvent, ClientTakeFault};
pub use line::{Line, LineFault};
pub use memory_line::MemoryLine;
pub use moments::{ListMoments, Moments};
pub use sent_reply::SentReply;
pub use server::ServerChannel;
pub use server_event::ServerEvent;
pub use server_fault::{ChannelFault, ReplyFault};
pub use taken::Taken;
pub use writing::write_whole;
