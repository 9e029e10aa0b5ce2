//! The fragments in which bytes move, each way.

/// The most bytes that each call over a transport moves: each way in turn and again from the first;
/// 0 counts as 1, and an empty list sets no limit.
#[derive(Debug, Drop)]
pub struct Fragments {
    /// Of each write, which the server takes.
    pub writes: Vec<usize>,
    /// Of each read, which the client gets.
    pub reads: Vec<usize>,
}
