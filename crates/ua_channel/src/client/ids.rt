//! The first RequestIds of a client.

/// The RequestId of the first OPN.
pub const OPENING_ID: u32 = 1;

/// The RequestId of the first operation after it.
pub const FIRST_ID: u32 = 2;
