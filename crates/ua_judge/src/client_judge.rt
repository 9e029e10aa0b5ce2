//! A client, judged as a server would.

ghost use Rattle.std.specs.Prelude.{◌≡◌, ◌<◌, ◌≤◌, ◌-◌, ℕ, List, None, length, take, drop, IfOk};
ghost use Rattle.ua_frame.specs.declared.limits.Limits.{Limits};
ghost use Rattle.ua_judge.specs.Judging.{AdvancesServer, IsOutcome, IsRefusalVerdict, ServerTakesTo, closed_at};
ghost use Rattle.ua_channel.specs.ServerAnswers.{Progress};
ghost use Rattle.ua_judge.specs.Verdicts.{IsClientVerdict, ServerAt};

use crate::taken::Taken;
use crate::verdict::Verdict;
use std::alloc::{AllocError, Global};
use ua_builtin::DateTime;
use ua_channel::{ChannelFault, ServerChannel, ServerEvent};
use ua_frame::Limits;

/// The verdict at an event, where that is the close of the channel.
fn closed_at(end: usize, event: &ServerEvent) -> Option<Verdict>
    ensures { result ≡ closed_at end event.now }
{
    match event {
        ServerEvent::Closed => Some(Verdict::Closes { end }),
        _ => None,
    }
}

/// The verdict at a fault that is a refusal.
fn refused_at(end: usize, fault: ChannelFault) -> Result<Option<Verdict>, AllocError>
    ensures { IfOk result (IsRefusalVerdict end fault) }
{
    match fault {
        ChannelFault::Refused { code, .. } => Ok(Some(Verdict::Breaks { end, code })),
        _ => Err(AllocError),
    }
}

/// The verdict where the bytes taken end, if they decide it.
fn verdict_at(
    end: usize,
    answer: Result<ServerEvent, ChannelFault>,
) -> Result<Option<Verdict>, AllocError>
    ensures { IfOk result (IsOutcome end answer) }
{
    match answer {
        Ok(event) => Ok(closed_at(end, &event)),
        Err(fault) => refused_at(end, fault),
    }
}

/// Takes bytes up to the end of the first frame that has an event or is refused, or else all of them.
fn advance(
    server: &mut ServerChannel,
    piece: &[u8],
) -> ua_channel::Taken<Result<ServerEvent, ChannelFault>>
    ensures takes { (limits : Limits) (channel : ℕ) (octets : List ℕ) → ServerAt limits channel server.old octets
        → AdvancesServer limits channel server.new piece.now octets result.size result.outcome }
    ensures within { result.size ≤ length piece.now }
    ensures progress { Progress piece.now result.size result.outcome }
{
    server.advance(piece, DateTime { ticks: 0 })
}

/// Takes some of the bytes of a client after a place. Returns the place up to which they are taken,
/// and the verdict if they decide it.
fn take_next(server: &mut ServerChannel, octets: &[u8], at: usize) -> Result<Taken, AllocError>
    requires { at < length octets.now }
    ensures takes { (limits : Limits) (channel : ℕ) → ServerAt limits channel server.old (take at octets.now)
        → IfOk result (λ r. ServerTakesTo limits channel octets.now r.at server.new r.verdict) }
    ensures within { IfOk result (λ r. r.at ≤ length octets.now) }
    ensures further { IfOk result (λ r. r.verdict ≡ None → at < r.at) }
{
    let taken = advance(server, &octets[at..]);
    let end = at + taken.size;
    match verdict_at(end, taken.outcome) {
        Ok(verdict) => Ok(Taken { at: end, verdict }),
        Err(error) => Err(error),
    }
}

/// The verdict of a server with these limits, whose channel has this SecureChannelId, on the bytes of
/// a client.
pub(crate) fn judge_client(
    alloc: Global,
    limits: Limits,
    channel: u32,
    octets: &[u8],
) -> Result<Verdict, AllocError>
    ensures { IfOk result (IsClientVerdict limits channel octets.now) }
{
    let mut server = ServerChannel::new(alloc, limits, channel);
    let mut at = 0;
    while at < octets.len() {
        let taken = take_next(&mut server, octets, at)?;
        if let Some(verdict) = taken.verdict {
            return Ok(verdict);
        }
        at = taken.at;
    }
    Ok(Verdict::Keeps)
}
