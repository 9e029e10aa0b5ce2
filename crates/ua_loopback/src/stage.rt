//! The state of a connection.

use ua_server::End;

/// The state of a transport's connection at its server.
#[derive(Clone, Copy, PartialEq, Eq, Debug)]
pub enum Stage {
    /// The server takes what is written.
    Going,
    /// The server saw the connection end, or ended it, and takes nothing more.
    Ended(End),
    /// An allocation failed, and the server takes nothing more. Its services are as they were, or
    /// as the message at that place leaves them.
    Broken,
}
