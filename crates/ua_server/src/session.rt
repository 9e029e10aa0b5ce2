//! A session.

ghost use Rattle.std.specs.Prelude.{◌≡◌, None};
ghost use Rattle.ua_server.specs.Served.{session_in};
ghost use Rattle.ua_server.specs.State.{session_id, session_token};

use ua_builtin::{Identifier, NodeId};

/// A session, by its number; the first has the number 1.
#[derive(Clone, Copy, Debug)]
pub struct Session {
    pub number: u32,
    pub activated: bool,
}

/// What a connection has of the state of a server, beside its channel: its session, if there is
/// one. It is made empty, and filled by [`Services::swap_session`](crate::Services::swap_session)
/// alone.
///
/// A slot belongs to one [`Services`], which numbers the sessions it makes. A slot that is filled
/// from one `Services` and emptied into another names a session of another client there. Nothing
/// keeps a program from that; a [`Connection`](crate::Connection) that takes steps over one
/// `Services` never does it.
#[derive(Debug, Drop)]
pub struct SessionSlot {
    pub(crate) session: Option<Session>,
}

impl SessionSlot {
    /// A slot without a session.
    pub fn empty() -> SessionSlot
        ensures { session_in result ≡ None }
    {
        SessionSlot { session: None }
    }
}

/// The namespace of SessionIds.
const SESSION_IDS: u16 = 1;

/// The namespace of AuthenticationTokens.
const TOKENS: u16 = 2;

impl Session {
    /// The SessionId.
    pub fn id(self) -> NodeId
        ensures { result ≡ session_id self.number }
    {
        NodeId::new(SESSION_IDS, Identifier::Numeric(self.number))
    }

    /// The AuthenticationToken, which is no secret.
    pub fn token(self) -> NodeId
        ensures { result ≡ session_token self.number }
    {
        NodeId::new(TOKENS, Identifier::Numeric(self.number))
    }
}
