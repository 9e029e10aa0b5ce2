//! How far the bytes of a side were taken.

use crate::verdict::Verdict;

/// The place up to which bytes were taken, and the verdict if they decide it.
#[derive(Clone, Copy, Debug)]
pub struct Taken {
    pub at: usize,
    pub verdict: Option<Verdict>,
}
