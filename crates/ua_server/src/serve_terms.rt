//! How a connection is served.

use std::alloc::Global;
use ua_frame::Limits;

/// How a connection is served.
#[derive(Clone, Copy, Debug)]
pub struct ServeTerms {
    pub alloc: Global,
    /// The limits of the server.
    pub limits: Limits,
    /// The SecureChannelId of the connection's channel, as
    /// [`Connection::new`](crate::Connection::new) has it.
    pub channel_id: u32,
}
