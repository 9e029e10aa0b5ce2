//! The fields of frames that are renumbered.

ghost use Rattle.std.specs.Prelude.{◌≡◌, ◌≤◌, ◌+◌, length, IfSome};
ghost use Rattle.ua_judge.specs.Renumbered.{place_of};

use crate::raw_frame::{id_place, token_place};

/// A field of frames whose numbers an end chose.
#[derive(Clone, Copy, Debug)]
pub enum Field {
    /// The TokenId of a MSG or a CLO.
    Token,
    /// The RequestId of a MSG, a CLO or an OPN.
    Request,
}

impl Field {
    /// The place of the field in a frame that has it.
    pub(crate) fn place_in(self, frame: &[u8]) -> Option<usize>
        requires { 8 ≤ length frame.now }
        ensures place { result ≡ place_of self frame.now }
        ensures within { IfSome result (λ place. place + 4 ≤ length frame.now) }
    {
        match self {
            Field::Token => token_place(frame),
            Field::Request => id_place(frame),
        }
    }
}
