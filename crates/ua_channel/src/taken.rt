//! What an end of a connection took of a fragment.

/// How many bytes of a fragment were taken, and the outcome.
#[derive(Debug, Drop)]
pub struct Taken<T> {
    /// The number of bytes that were taken.
    pub size: usize,
    /// The outcome at the last of them.
    pub outcome: T,
}
