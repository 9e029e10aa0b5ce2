//! Frames of a recorded stream, by their sizes alone.

ghost use Rattle.std.specs.Prelude.{◌≡◌, ◌≤◌, ◌+◌, ◌++◌, length, drop, None, Some, MatchOption, IfSome};
ghost use Rattle.ua_chunk.specs.Opening.{policy_header};
ghost use Rattle.ua_frame.specs.Frames.{IsRawFrame, IsRest, kind_of, size_of};
ghost use Rattle.ua_judge.specs.RawFrames.{number_from, token_place, id_place, opening_place, rest_of, within};

use ua_frame::Kind;
use ua_wire::{front_number, split_counted, split_number};

/// The UInt32 at a place.
pub(crate) fn number_from(octets: &[u8], place: usize) -> u32
    requires { place + 4 ≤ length octets.now }
    ensures { result ≡ number_from place octets.now }
{
    let (number, _) = front_number(&octets[place..]);
    number
}

/// The size that a header names.
#[tactic(auto, unfolding(ua_frame::specs::Frames::size_of))]
fn size_of(octets: &[u8]) -> u32
    requires { 8 ≤ length octets.now }
    ensures { result ≡ size_of octets.now }
{
    let (size, _) = front_number(&octets[4..8]);
    size
}

/// The frame at the start of bytes, and the bytes after it, where all of the frame is there.
pub fn split_frame(octets: &[u8]) -> Option<(&[u8], &[u8])>
    ensures { MatchOption result (IsRest octets.now) (λ r. (octets.now ≡ r.0.now ++ r.1.now) × IsRawFrame r.0.now) }
{
    if octets.len() < 8 {
        return None;
    }
    let size = size_of(octets) as usize;
    if size < 8 || octets.len() < size {
        return None;
    }
    Some(octets.split_at(size))
}

/// The kind of a frame.
#[tactic(auto, unfolding(ua_frame::specs::Frames::kind_of))]
pub fn kind_of(frame: &[u8]) -> Option<Kind>
    requires { 8 ≤ length frame.now }
    ensures { result ≡ kind_of frame.now }
{
    match (frame[0], frame[1], frame[2]) {
        (b'H', b'E', b'L') => Some(Kind::Hel),
        (b'A', b'C', b'K') => Some(Kind::Ack),
        (b'E', b'R', b'R') => Some(Kind::Err),
        (b'M', b'S', b'G') => Some(Kind::Msg),
        (b'O', b'P', b'N') => Some(Kind::Opn),
        (b'C', b'L', b'O') => Some(Kind::Clo),
        _ => None,
    }
}

/// The bytes after the security header of an OPN.
fn split_policy(body: &[u8]) -> Option<&[u8]>
    ensures { MatchOption result (rest_of (policy_header.decode body.now) ≡ None)
        (λ r. rest_of (policy_header.decode body.now) ≡ Some r.now) }
{
    let (_, rest) = split_number(body)?;
    let (_, rest) = split_counted(rest)?;
    let (_, rest) = split_counted(rest)?;
    let (_, rest) = split_counted(rest)?;
    Some(rest)
}

/// The place of a UInt32, where the frame is as long.
fn within(place: usize, frame: &[u8]) -> Option<usize>
    ensures place { result ≡ within place frame.now }
    ensures within { IfSome result (λ place. place + 4 ≤ length frame.now) }
{
    if place < frame.len() && frame.len() - place >= 4 {
        Some(place)
    } else {
        None
    }
}

/// The place of the RequestId of an OPN.
fn opening_place(frame: &[u8]) -> Option<usize>
    requires { 8 ≤ length frame.now }
    ensures place { result ≡ opening_place frame.now (rest_of (policy_header.decode (drop 8 frame.now))) }
    ensures within { IfSome result (λ place. place + 4 ≤ length frame.now) }
{
    let rest = split_policy(&frame[8..])?;
    within(frame.len().saturating_sub(rest.len()) + 4, frame)
}

/// The place of the TokenId of a frame that has one.
pub(crate) fn token_place(frame: &[u8]) -> Option<usize>
    requires { 8 ≤ length frame.now }
    ensures place { result ≡ token_place frame.now }
    ensures within { IfSome result (λ place. place + 4 ≤ length frame.now) }
{
    match kind_of(frame) {
        Some(Kind::Msg | Kind::Clo) => within(12, frame),
        _ => None,
    }
}

/// The place of the RequestId of a frame that has one.
pub(crate) fn id_place(frame: &[u8]) -> Option<usize>
    requires { 8 ≤ length frame.now }
    ensures place { result ≡ id_place frame.now }
    ensures within { IfSome result (λ place. place + 4 ≤ length frame.now) }
{
    match kind_of(frame) {
        Some(Kind::Msg | Kind::Clo) => within(20, frame),
        Some(Kind::Opn) => opening_place(frame),
        _ => None,
    }
}
