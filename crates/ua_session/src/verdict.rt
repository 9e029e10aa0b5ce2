//! Verdicts on answers.

/// Whether the answers to a Read or a Write have a bad StatusCode, one whose top bit is set (OPC
/// 10000-4, 7.39).
#[derive(Clone, Copy, PartialEq, Eq, Debug)]
pub enum Verdict {
    /// None is bad.
    AllGood,
    /// At least one is bad.
    SomeBad,
}
