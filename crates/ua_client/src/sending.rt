//! Complete writes to a transport.

ghost use Rattle.std.specs.Prelude.{◌≡◌, ◌<◌, ◌≤◌, ◌+◌, length, OnErr};
ghost use Rattle.ua_channel.specs.Line.{IfTrafficKnown, failures_after};
ghost use Rattle.ua_client.specs.Carried.{Writes};
ghost use Rattle.ua_client.specs.Sent.{asked_len};

use ua_channel::{AskedCall, Line, LineFault, write_whole};

/// Writes all the bytes, or the first of them where the transport fails.
pub(crate) fn send_whole<L: Line>(line: &mut L, octets: &[u8]) -> Result<(), LineFault>
    ensures written { IfTrafficKnown (Writes result octets.now) (L.traffic line.old) (L.traffic line.new) }
    ensures some { OnErr result (0 < length octets.now) }
    ensures failed { L.failures line.new ≡ failures_after (L.failures line.old) result }
{
    match write_whole(line, octets) {
        Ok(()) => Ok(()),
        Err(_) => Err(LineFault::Failed),
    }
}

/// The end of the frame that begins at a place among this many bytes: the frame has `frame_len`
/// bytes, or those that are left.
fn frame_end(at: usize, frame_len: usize, len: usize) -> usize
    requires some { 0 < frame_len }
    requires left { at < len }
    ensures some { at < result }
    ensures within { result ≤ len }
{
    if len - at <= frame_len {
        return len;
    }
    at + frame_len
}

/// Writes frames completely, each by one write where the transport takes it so. Each but the last
/// has `frame_len` bytes.
fn write_frames<L: Line>(line: &mut L, octets: &[u8], frame_len: usize) -> Result<(), LineFault>
    requires { 0 < frame_len }
    ensures written { IfTrafficKnown (Writes result octets.now) (L.traffic line.old) (L.traffic line.new) }
    ensures some { OnErr result (0 < length octets.now) }
    ensures failed { L.failures line.new ≡ failures_after (L.failures line.old) result }
{
    let mut at = 0;
    while at < octets.len() {
        let end = frame_end(at, frame_len, octets.len());
        match send_whole(line, &octets[at..end]) {
            Ok(()) => at = end,
            Err(fault) => return Err(fault),
        }
    }
    Ok(())
}

/// The end of the frames of a call that begin at a place among bytes.
fn call_end(octets: &[u8], at: usize, call: &AskedCall) -> usize
    requires { at + call.now.len ≤ length octets.now }
    ensures is { result ≡ at + call.now.len }
    ensures within { result ≤ length octets.now }
{
    let _len = octets.len();
    at + call.len
}

/// Writes the frames of calls completely, each by one write where the transport takes it so.
/// `octets` are the frames of all the calls, in order, `calls` all but the last of them, and
/// `frame_len` is the length in bytes of each frame of the last call but its last one.
pub(crate) fn write_calls<L: Line>(
    line: &mut L,
    octets: &[u8],
    calls: &[AskedCall],
    frame_len: usize,
) -> Result<(), LineFault>
    requires len { asked_len calls.now ≤ length octets.now }
    requires frame { 0 < frame_len }
    ensures written { IfTrafficKnown (Writes result octets.now) (L.traffic line.old) (L.traffic line.new) }
    ensures some { OnErr result (0 < length octets.now) }
    ensures failed { L.failures line.new ≡ failures_after (L.failures line.old) result }
{
    let mut at = 0;
    for call in calls {
        let end = call_end(octets, at, call);
        match write_frames(line, &octets[at..end], call.frame_len) {
            Ok(()) => at = end,
            Err(fault) => return Err(fault),
        }
    }
    let end = octets.len();
    match write_frames(line, &octets[at..end], frame_len) {
        Ok(()) => Ok(()),
        Err(fault) => Err(fault),
    }
}
