//! Complete writes to a transport.

ghost use Rattle.std.specs.Prelude.{◌≡◌};
ghost use Rattle.ua_channel.specs.Line.{IfTrafficKnown, StopsWithin, Wrote, failures_after};

use crate::line::Line;

/// Writes all the bytes: by one write where the transport takes them so, and by further writes of
/// the rest where it takes fewer. Where the transport fails, it returns how many bytes were written
/// before.
pub fn write_whole<L: Line>(line: &mut L, octets: &[u8]) -> Result<(), usize>
    ensures within { StopsWithin octets.now result }
    ensures wrote { IfTrafficKnown (Wrote octets.now result) (L.traffic line.old) (L.traffic line.new) }
    ensures failed { L.failures line.new ≡ failures_after (L.failures line.old) result }
{
    let mut written = 0;
    while written < octets.len() {
        match line.write(&octets[written..]) {
            Ok(n) => written += n,
            Err(_) => return Err(written),
        }
    }
    Ok(())
}
