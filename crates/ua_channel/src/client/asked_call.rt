//! A call that a client sends.

ghost use Rattle.std.specs.Prelude.{◌<◌};

/// A call whose chunks were appended to the bytes that a client sends, one frame after the other.
#[derive(Clone, Copy, Debug)]
pub struct AskedCall {
    /// The RequestId of the call, under which it is answered.
    pub id: u32,
    /// The length in bytes of its frames together.
    pub len: usize,
    /// The length in bytes of each of these frames but the last, whose length is at most this.
    pub frame_len: usize,
    ghost some: { 0 < frame_len },
}
