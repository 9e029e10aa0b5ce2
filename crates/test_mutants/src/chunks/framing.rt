//! Frames that are read.

ghost use Rattle.std.specs.Prelude.{List, ℕ};
ghost use Rattle.ua_frame.specs.Reader.{StandsAfter, AnswersFragment};
ghost use Rattle.ua_frame.specs.declared.frame.Frame.{Frame};

use ua_frame::{Frame, FrameFault, FrameReader};

/// Takes bytes up to the end of the first whole frame.
pub fn take_frame(
    reader: &mut FrameReader,
    piece: &[u8],
) -> Result<(usize, Option<Frame>), FrameFault>
    ensures stands { (octets : List ℕ) (frames : List Frame) → StandsAfter reader.old octets frames
        → AnswersFragment reader.old piece.now result reader.new octets frames }
{
    reader.take(piece)
}
