//! A client and a server in one process, over a transport whose other end is the server.
//!
//! Its contracts are those of [`ServedLine`]: the server takes what is written to it, and what is
//! read from it is the server's output for all bytes written; and of [`converse`], which runs a
//! client over such a transport: the bytes each way, the replies, and the services afterwards.
//! The [`talking_laws`] give the result of each call of a client, over any transport to a server.
#![tactic(auto)]

mod answer_clock;
mod conversation;
mod cuts;
mod fragments;
mod operation;
mod served_line;
mod server_setup;
mod stage;
pub mod talking_laws;

pub use conversation::{ConversationLog, converse};
pub use fragments::Fragments;
pub use operation::{AsOperation, Operation};
pub use served_line::{Began, ServedLine};
pub use server_setup::ServerSetup;
pub use stage::Stage;
