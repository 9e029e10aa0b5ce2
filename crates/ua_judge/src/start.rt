//! Where a frame begins.

ghost use Rattle.std.specs.Prelude.{◌≡◌, nat_lt, cond};
ghost use Rattle.ua_judge.specs.Starts.{StartsAt};

use crate::raw_frame::split_frame;

/// The later of two ends of frames that is before a place.
fn later_end(start: usize, end: usize, place: usize) -> usize
    ensures { result ≡ cond (nat_lt end place) end start }
{
    if end < place { end } else { start }
}

/// Where the frame begins that ends at a place of a stream, or whose header does.
pub fn frame_start(octets: &[u8], place: usize) -> usize
    ensures { StartsAt octets.now place result }
{
    let mut start = 0;
    let mut rest = octets;
    while let Some((_, more)) = split_frame(rest) {
        let end = octets.len() - more.len();
        start = later_end(start, end, place);
        rest = more;
    }
    start
}
