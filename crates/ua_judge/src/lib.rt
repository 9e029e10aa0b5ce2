//! A judge of a recorded connection (OPC 10000-6, 6.7 and 7.1): what each side sent, judged as the
//! other end would judge it, by the proved ends of `ua_channel`; replies by their kinds, too.
//!
//! The client's bytes are taken by a [`ServerChannel`], the server's by a [`ClientChannel`]. These
//! choose TokenIds and RequestIds of their own, so [`renumber`] first puts theirs in place of the
//! recorded ones: the k-th token, the k-th request. Everything else stays as it is.
//!
//! ```
//! if let Verdict::Breaks { end, code } = judge_up(alloc, &up, &down)? {
//!     accuse(frame_start(&up, end), code);
//! }
//! ```
//!
//! [`ServerChannel`]: ua_channel::ServerChannel
//! [`ClientChannel`]: ua_channel::ClientChannel
#![tactic(auto)]

mod agreed;
mod client_judge;
mod field;
mod guess;
mod judging;
mod kinds;
mod limits;
mod mark;
mod named;
mod openings;
mod raw_frame;
mod renumbering;
mod requests;
mod server_judge;
mod start;
mod taken;
mod verdict;

pub use field::Field;
pub use guess::guess_marks;
pub use judging::{judge_down, judge_up};
pub use mark::Mark;
pub use named::Named;
pub use openings::Opened;
pub use server_judge::judge_server;
pub use start::frame_start;
pub use verdict::Verdict;
