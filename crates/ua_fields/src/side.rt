//! The sides of a connection.

/// The side of a connection that sent some bytes.
#[derive(Clone, Copy, PartialEq, Eq, Debug)]
pub enum Side {
    Client,
    Server,
}
