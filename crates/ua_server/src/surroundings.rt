//! What stands beside the services while a connection is served.

/// What stands beside the services while a connection is served, each lent by the caller.
#[derive(Drop)]
pub(crate) struct Surroundings<'m, 'w, 'a, M, W, A> {
    /// The source of timestamps.
    pub moments: &'m mut M,
    /// The observer of each request that is answered.
    pub watch: &'w mut W,
    /// What acts before each step of the server.
    pub application: &'a mut A,
}
