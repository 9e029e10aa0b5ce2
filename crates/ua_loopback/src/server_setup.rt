//! How a server is set up.

use ua_builtin::DateTime;
use ua_frame::Limits;
use ua_server::Services;

/// A server before its client connects.
#[derive(Debug, Drop)]
pub struct ServerSetup {
    pub limits: Limits,
    /// The SecureChannelId.
    pub channel_id: u32,
    pub services: Services,
    /// The timestamp of its first answer after the ACK, the OPN response.
    pub moment: DateTime,
    /// Those of its further answers, in order; each answer after the last of them has the last. If
    /// there are none, each answer has the first one's.
    pub later: Vec<DateTime>,
}
