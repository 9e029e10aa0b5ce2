//! The client's end of a SecureChannel.

mod address;
mod agreed;
mod answer;
mod asked_call;
mod channel;
mod event;
mod fault;
mod greeting;
mod ids;
mod octets;
mod phase;
mod rules;
mod talking;

pub use asked_call::AskedCall;
pub use channel::ClientChannel;
pub use event::ClientEvent;
pub use fault::{AskFault, ClientTakeFault};
