//! Frames.

use crate::kind::Kind;
use bytes::Bytes;

/// A frame, that is a UA TCP message: its kind, the fourth byte of its header, and the bytes that
/// follow the eight header bytes. `body` can be sliced and kept without a copy; a slice keeps the
/// memory of this frame alone.
#[derive(Debug, Drop)]
pub struct Frame {
    pub kind: Kind,
    pub flag: u8,
    pub body: Bytes,
}
