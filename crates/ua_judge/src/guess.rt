//! An order in which the bytes of both sides may have been sent.

ghost use Rattle.std.specs.Prelude.{◌≡◌, ◌≤◌, ◌++◌, ◌∷◌, [], ℕ, false, List, length, map, IfOk, OnOk};
ghost use Rattle.std.specs.List.{position};
ghost use Rattle.ua_judge.specs.Guessed.{AreGuessed, begun_id, mark_at};
ghost use Rattle.ua_judge.specs.Guessing.{AreUnfinished, IsBegunWith, count_to_id, ids_after, is_request_of};

use crate::mark::Mark;
use crate::named::Named;
use crate::raw_frame::{id_place, number_from, split_frame};
use crate::requests::requests_in;
use std::alloc::{AllocError, Global};

/// Drops a RequestId from those of unfinished messages.
fn forget_id(unfinished: &mut Vec<u32>, id: u32)
    ensures { unfinished.new.items ≡ ids_after false id unfinished.old.items }
{
    unfinished.retain(|held| *held != id);
}

/// Has a RequestId among those of unfinished messages where more chunks of its message follow.
fn keep_id(unfinished: &mut Vec<u32>, more: bool, id: u32) -> Result<(), AllocError>
    ensures { OnOk result (unfinished.new.items ≡ ids_after more id unfinished.old.items) }
{
    forget_id(unfinished, id);
    if more {
        unfinished.push(id)?;
    }
    Ok(())
}

/// The RequestId of a frame that begins a message of a server, by the ids of its unfinished messages,
/// which it then has anew.
fn begun_by(frame: &[u8], unfinished: &mut Vec<u32>) -> Result<Option<u32>, AllocError>
    requires { 8 ≤ length frame.now }
    ensures begins { (before : List (List ℕ)) → AreUnfinished unfinished.old.items before
        → IfOk result (λ id. id ≡ begun_id before frame.now) }
    ensures unfinished { (before : List (List ℕ)) → AreUnfinished unfinished.old.items before
        → OnOk result (AreUnfinished unfinished.new.items (before ++ frame.now ∷ [])) }
{
    let Some(place) = id_place(frame) else {
        return Ok(None);
    };
    let id = number_from(frame, place);
    let begins = !unfinished.contains(&id);
    keep_id(unfinished, frame[3] == b'C', id)?;
    Ok(if begins { Some(id) } else { None })
}

/// The index of the first request of a RequestId.
fn index_of(requests: &[Named], id: u32) -> Option<usize>
    ensures { result ≡ position (is_request_of id) requests.now }
{
    requests.iter().position(|request| request.number == id)
}

/// Which of the requests is the first of a RequestId, counted from 1; 0 where there is none.
fn first_of(requests: &[Named], id: u32) -> usize
    ensures within { result ≤ length requests.now }
    ensures first { result ≡ count_to_id id requests.now }
{
    match index_of(requests, id) {
        Some(at) => at + 1,
        None => 0,
    }
}

/// Adds marks: these requests were sent where so many of the server's bytes had been.
fn push_marks(marks: &mut Vec<Mark>, requests: &[Named], down: usize) -> Result<(), AllocError>
    ensures { OnOk result (marks.new.items ≡ marks.old.items ++ map (mark_at down) requests.now) }
{
    for request in requests {
        marks.push(Mark {
            up: request.place,
            down,
        })?;
    }
    Ok(())
}

/// The mark of the first frame of a client, if there is one: nothing was sent to it before.
fn first_marks(alloc: Global, up: &[u8]) -> Result<Vec<Mark>, AllocError>
    ensures { IfOk result (λ marks. IsBegunWith up.now marks.items) }
{
    let mut marks = Vec::new(alloc);
    if let Some((first, _)) = split_frame(up) {
        marks.push(Mark {
            up: first.len(),
            down: 0,
        })?;
    }
    Ok(marks)
}

/// Marks for a record that tells no order: the first frame of the client was sent before all that the
/// server sent, and each request just before the server's reply to it, or to a later one, begins; those
/// after the last reply at the end.
pub fn guess_marks(alloc: Global, up: &[u8], down: &[u8]) -> Result<Vec<Mark>, AllocError>
    ensures { IfOk result (λ marks. AreGuessed up.now down.now marks.items) }
{
    let requests = requests_in(alloc, up)?;
    let mut marks = first_marks(alloc, up)?;
    let mut unfinished = Vec::new(alloc);
    let mut sent = 0;
    let mut rest = down;
    while let Some((frame, more)) = split_frame(rest) {
        if let Some(id) = begun_by(frame, &mut unfinished)? {
            let next = sent + first_of(&requests[sent..], id);
            push_marks(&mut marks, &requests[sent..next], down.len() - rest.len())?;
            sent = next;
        }
        rest = more;
    }
    push_marks(&mut marks, &requests[sent..], down.len())?;
    Ok(marks)
}
