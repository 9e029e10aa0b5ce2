//! Laws of the two ends of a SecureChannel (OPC 10000-6, 6.7 and 7.1), over the contracts of
//! `ua_channel`.
//!
//! Each function has no effect; its contract is the law, and a caller of the function may rely on
//! it. [`laws`] and [`client_laws`] are about one end: a byte sequence has one reading, however it
//! is fragmented. [`both_ends`] is about what one end writes and the other reads, one message at a
//! time, [`group_laws`] about lists of messages, and [`merge_laws`] about messages whose chunks are
//! interleaved. [`asking_laws`] is about a client that sends while it receives.
//!
//! ```
//! client_goes_on(); // a channel that reported an event continues with it reported
//! loop {
//!     let (size, event) = channel.take(piece, moment)?;
//!     // ..
//! }
//! ```
#![tactic(auto)]

pub mod asking_laws;
pub mod client_laws;
pub mod group_laws;
pub mod laws;
pub mod merge_laws;
