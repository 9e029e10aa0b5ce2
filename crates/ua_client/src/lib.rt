//! A client of OPC UA Binary over a transport, under the SecurityPolicy None (OPC 10000-4, 5.6 and
//! 5.7; OPC 10000-6, 6.7 and 7.1).
//!
//! The main contracts are those of [`Client::open`], [`Client::begin_session_as`],
//! [`Client::call_all`], [`Client::call_into`], [`Client::renew`] and [`Client::close`]: the bytes
//! that they write, and the received bytes from which they return.
//!
//! ```
//! let mut client = Client::open(alloc, &mut line, limits, url, moment)?;
//! let token = client.begin_session(&mut line, moment)?; // for the requests' headers
//! let reply = client.call(&mut line, &request, moment)?;
//! let replies = client.call_all(&mut line, &requests, moment)?;
//! client.call_into(&mut line, &requests, moment, &mut kept)?; // keeps the replies at a fault
//! client.close(&mut line, moment)?;
//! ```
#![tactic(auto)]

mod calling;
mod client;
mod collecting;
mod connection;
mod fault;
mod group;
pub mod laws;
mod opening;
mod piece;
mod renewing;
mod reply;
mod sending;
mod session;
mod slots;

pub use client::Client;
pub use fault::{CallsFault, ClientFault, SessionFault};
pub use reply::Reply;
