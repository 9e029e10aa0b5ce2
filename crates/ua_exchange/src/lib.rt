//! Both ends of a connection over memory: what a client of the program `ua` asks, and the result.
//!
//! The contract of `exchange` gives the bytes each way, the reply to each request and the end, or
//! the first client operation that is not accepted. The `laws` state for operations that are
//! accepted: a server reads what a client sends of them, and its events are just these operations,
//! in their order; the client reads what the server sends, each reply under its own RequestId; and
//! neither end ever holds more than was agreed.
#![tactic(auto)]

mod crowded;
mod exchanging;
mod fault;
pub mod laws;
mod programs;
mod transcript;
mod turn;

pub use exchanging::exchange;
pub use fault::PairFault;
pub use programs::{MESSAGE_SIZE, limits};
pub use transcript::Transcript;
pub use turn::Turn;
pub use ua_client::Reply;
