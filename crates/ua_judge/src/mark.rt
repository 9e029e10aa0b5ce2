//! The order in which the bytes of both sides were sent.

ghost use Rattle.std.specs.Prelude.{◌≡◌, nat_le, map, IfOk};
ghost use Rattle.ua_judge.specs.Marks.{place_at, placed};

use crate::named::Named;
use std::alloc::{AllocError, Global};

/// A place of the client's bytes: how many of the server's had been sent by then.
#[derive(Clone, Copy, Debug)]
pub struct Mark {
    pub up: usize,
    pub down: usize,
}

/// Whether a mark is not before a place of the client's bytes.
fn is_by(mark: &Mark, end: usize) -> bool
    ensures { result ≡ nat_le end mark.now.up }
{
    end <= mark.up
}

/// How many of the server's bytes, of which there are `all`, had been sent at the first mark that is
/// not before a place of the client's.
fn place_at(marks: &[Mark], end: usize, all: usize) -> usize
    ensures { result ≡ place_at marks.now end all }
{
    for mark in marks {
        if is_by(mark, end) {
            return mark.down;
        }
    }
    all
}

/// The requests of a client, each with how many of the server's bytes had been sent by then.
pub fn placed(
    alloc: Global,
    marks: &[Mark],
    all: usize,
    requests: &[Named],
) -> Result<Vec<Named>, AllocError>
    ensures { IfOk result (λ names. names.items ≡ map (placed marks.now all) requests.now) }
{
    let mut names = Vec::new(alloc);
    for request in requests {
        names.push(Named {
            number: request.number,
            place: place_at(marks, request.place, all),
            opens: request.opens,
            kind: request.kind,
        })?;
    }
    Ok(names)
}
