//! Both sides of a recorded connection, judged.

ghost use Rattle.std.specs.Prelude.{◌≡◌, drop, map, IfOk};
ghost use Rattle.ua_judge.specs.Judged.{JudgesUp, JudgesDown, token_name, channel_of_openings};

use crate::agreed::{limits_of_client, limits_of_server};
use crate::client_judge::judge_client;
use crate::field::Field;
use crate::mark::{Mark, placed};
use crate::named::Named;
use crate::openings::{Opened, openings_in};
use crate::renumbering::renumber;
use crate::requests::requests_in;
use crate::server_judge::judge_server;
use crate::verdict::Verdict;
use std::alloc::{AllocError, Global};

/// The tokens of openings, each known from the start.
fn tokens_of(alloc: Global, openings: &[Opened]) -> Result<Vec<Named>, AllocError>
    ensures { IfOk result (λ names. names.items ≡ map token_name openings.now) }
{
    let mut names = Vec::new(alloc);
    for opened in openings {
        names.push(Named {
            number: opened.token,
            place: 0,
            opens: true,
            kind: None,
        })?;
    }
    Ok(names)
}

/// The channel of openings: that of the first, or 0.
fn channel_of(openings: &[Opened]) -> u32
    ensures { result ≡ channel_of_openings openings.now }
{
    match openings.first() {
        Some(opened) => opened.channel,
        None => 0,
    }
}

/// The verdict on the client's bytes, by what the server opened and which limits it named.
pub fn judge_up(alloc: Global, up: &[u8], down: &[u8]) -> Result<Verdict, AllocError>
    ensures { IfOk result (JudgesUp up.now down.now) }
{
    let openings = openings_in(alloc, down)?;
    let limits = limits_of_server(alloc, down)?;
    let names = tokens_of(alloc, openings.as_slice())?;
    let octets = renumber(alloc, Field::Token, names.as_slice(), up)?;
    let channel = channel_of(openings.as_slice());
    judge_client(alloc, limits, channel, octets.as_slice())
}

/// The verdict on the server's bytes, by what the client asked and which limits it named. The marks
/// tell how many of the server's bytes had been sent at places of the client's.
pub fn judge_down(
    alloc: Global,
    up: &[u8],
    down: &[u8],
    marks: &[Mark],
) -> Result<Verdict, AllocError>
    ensures { IfOk result (JudgesDown up.now down.now marks.now) }
{
    let requests = requests_in(alloc, up)?;
    let limits = limits_of_client(alloc, up)?;
    let names = placed(alloc, marks, down.len(), requests.as_slice())?;
    let octets = renumber(alloc, Field::Request, names.as_slice(), down)?;
    judge_server(alloc, limits, later(names.as_slice()), octets.as_slice())
}

/// The requests after the first one, the first OPN.
fn later(names: &[Named]) -> &[Named]
    ensures { result.now ≡ drop 1 names.now }
{
    match names.split_first() {
        Some((_, later)) => later,
        None => names,
    }
}
