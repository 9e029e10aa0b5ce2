//! The requests of a client.

ghost use Rattle.std.specs.Prelude.{◌≡◌, ◌≤◌, ◌+◌, ◌++◌, ◌∷◌, [], ℕ, false, List, None, Some};
ghost use Rattle.std.specs.Prelude.{length, IfOk, OnOk, option_to_list};
ghost use Rattle.ua_frame.specs.Frames.{kind_of};
ghost use Rattle.ua_frame.specs.declared.kind.Kind.TheVariants.{Msg};
ghost use Rattle.ua_judge.specs.Begun.{AreBegun, begun_after, begun_kind};
ghost use Rattle.ua_judge.specs.RawFrames.{id_place};
ghost use Rattle.ua_judge.specs.Requests.{request_behind_id, AreRequests};

use crate::kinds::request_kind_of;
use crate::named::Named;
use crate::raw_frame::{id_place, kind_of, number_from, split_frame};
use std::alloc::{AllocError, Global};
use ua_frame::Kind;
use ua_services::RequestKind;

/// A message whose last chunk has not come yet, of the kind that its first chunk begins as.
#[derive(Clone, Copy, Debug)]
struct Begun {
    number: u32,
    kind: Option<RequestKind>,
}

/// The kind of the message of a RequestId, one chunk of which begins as `own`.
fn message_kind(begun: &[Begun], number: u32, own: Option<RequestKind>) -> Option<RequestKind>
    ensures { result ≡ begun_kind number begun.now own }
{
    for message in begun {
        if message.number == number {
            return message.kind;
        }
    }
    own
}

/// Drops the unfinished message of a RequestId.
fn forget(begun: &mut Vec<Begun>, number: u32)
    ensures { begun.new.items ≡ begun_after false number None begun.old.items }
{
    begun.retain(|message| message.number != number);
}

/// Keeps the kind of the message of a chunk, where more chunks of it follow.
fn keep(
    begun: &mut Vec<Begun>,
    more: bool,
    number: u32,
    kind: Option<RequestKind>,
) -> Result<(), AllocError>
    ensures { OnOk result (begun.new.items ≡ begun_after more number kind begun.old.items) }
{
    forget(begun, number);
    if more {
        begun.push(Begun { number, kind })?;
    }
    Ok(())
}

/// Appends the request that a chunk ends, if it ends one. Its RequestId stands at this place.
fn push_chunk(
    alloc: Global,
    frame: &[u8],
    place: usize,
    end: usize,
    begun: &mut Vec<Begun>,
    requests: &mut Vec<Named>,
) -> Result<(), AllocError>
    requires header { 8 ≤ length frame.now }
    requires kind { kind_of frame.now ≡ Some Msg }
    requires place { id_place frame.now ≡ Some place }
    requires within { place + 4 ≤ length frame.now }
    ensures sends { (before : List (List ℕ)) → AreBegun begun.old.items before
        → OnOk result (requests.new.items
        ≡ requests.old.items ++ option_to_list (request_behind_id before end (id_place frame.now) frame.now)) }
    ensures begun { (before : List (List ℕ)) → AreBegun begun.old.items before
        → OnOk result (AreBegun begun.new.items (before ++ frame.now ∷ [])) }
{
    let number = number_from(frame, place);
    let own = request_kind_of(alloc, &frame[place + 4..])?;
    let kind = message_kind(begun.as_slice(), number, own);
    keep(begun, frame[3] == b'C', number, kind)?;
    if frame[3] == b'F' {
        requests.push(Named {
            number,
            place: end,
            opens: false,
            kind,
        })?;
    }
    Ok(())
}

/// Appends the request that a frame sends, if it sends one: the last chunk of a message, or an OPN.
fn push_request(
    alloc: Global,
    frame: &[u8],
    end: usize,
    begun: &mut Vec<Begun>,
    requests: &mut Vec<Named>,
) -> Result<(), AllocError>
    requires { 8 ≤ length frame.now }
    ensures sends { (before : List (List ℕ)) → AreBegun begun.old.items before
        → OnOk result (requests.new.items
        ≡ requests.old.items ++ option_to_list (request_behind_id before end (id_place frame.now) frame.now)) }
    ensures begun { (before : List (List ℕ)) → AreBegun begun.old.items before
        → OnOk result (AreBegun begun.new.items (before ++ frame.now ∷ [])) }
{
    let Some(place) = id_place(frame) else {
        return Ok(());
    };
    match kind_of(frame) {
        Some(Kind::Msg) => push_chunk(alloc, frame, place, end, begun, requests),
        Some(Kind::Opn) => {
            requests.push(Named {
                number: number_from(frame, place),
                place: end,
                opens: true,
                kind: None,
            })?;
            Ok(())
        }
        _ => Ok(()),
    }
}

/// The requests that a client sent, in order: each OPN, and each message that is not aborted, where
/// its last chunk ends.
pub(crate) fn requests_in(alloc: Global, octets: &[u8]) -> Result<Vec<Named>, AllocError>
    ensures { IfOk result (λ requests. AreRequests octets.now requests.items) }
{
    let mut requests = Vec::new(alloc);
    let mut begun = Vec::new(alloc);
    let mut rest = octets;
    while let Some((frame, more)) = split_frame(rest) {
        let end = octets.len() - more.len();
        push_request(alloc, frame, end, &mut begun, &mut requests)?;
        rest = more;
    }
    Ok(requests)
}
