//! A server, judged as a client would.

ghost use Rattle.std.specs.List.{concat};
ghost use Rattle.std.specs.Prelude.{◌≡◌, ◌<◌, ◌≤◌, ◌-◌, ◌++◌, ◌∷◌, [], ℕ, true, false, length, take, drop, max, min};
ghost use Rattle.std.specs.Prelude.{List, None, Option, Some, Err, is_some, IfOk, MatchResult};
ghost use Rattle.ua_channel.specs.Asks.{Placed, asked_in, next_id};
ghost use Rattle.ua_channel.specs.Asks.Asking.{Call, Renewal};
ghost use Rattle.ua_channel.specs.Client.{client_limits};
ghost use Rattle.ua_channel.specs.ClientAsks.{AnswersFor, IsAskFaultFor};
ghost use Rattle.ua_channel.specs.ClientTold.ClientTold.{Answered};
ghost use Rattle.ua_channel.specs.declared.client.fault.AskFault.{AskFault};
ghost use Rattle.ua_channel.specs.declared.client.fault.AskFault.TheVariants.{NotOpen};
ghost use Rattle.ua_judge.specs.Judging.{GoesOnJudging, TakesTo, TakesUpTo, failed, reply_verdict, verdict_at};
ghost use Rattle.ua_judge.specs.Kinds.{is_misfit};
ghost use Rattle.ua_judge.specs.declared.named.Named.{Named};
ghost use Rattle.ua_judge.specs.declared.verdict.Verdict.TheVariants.{Stops};
ghost use Rattle.ua_judge.specs.Verdicts.{GoesOnAfter, IsReasonAgainstAsking, IsNoStop, IsServerVerdict, IsVerdictOn};
ghost use Rattle.ua_judge.specs.Verdicts.{asking, named_asks_of, place_after};

use crate::kinds::is_misfit;
use crate::named::Named;
use crate::taken::Taken;
use crate::verdict::Verdict;
use std::alloc::{AllocError, Global};
use ua_builtin::{DateTime, StatusCode, UaString};
use ua_channel::{AskFault, ClientChannel, ClientEvent};
use ua_chunk::Message;
use ua_frame::Limits;

/// Sends a renewal.
fn renew(client: &mut ClientChannel) -> Result<(), AskFault>
    ensures asks { (requests : List Named) (asks : List Placed) (octets : List ℕ)
        → GoesOnAfter requests client.old asks octets
        → MatchResult result
        (λ _. GoesOnAfter requests client.new (asks ++ (length octets, Renewal (next_id (asked_in asks))) ∷ []) octets)
        (λ _. GoesOnAfter requests client.new asks octets) }
    ensures judged { (requests : List Named) (asks : List Placed) (octets : List ℕ)
        → GoesOnAfter requests client.old asks octets
        → (why : Option AskFault) × (IsReasonAgainstAsking (client_limits client.old) asks requests true octets why
        × AnswersFor why result) }
    ensures limits { client_limits client.new ≡ client_limits client.old }
{
    match client.renew(DateTime { ticks: 0 }) {
        Ok(asked) => {
            drop(asked);
            Ok(())
        }
        Err(fault) => Err(fault),
    }
}

/// Sends a call, with a body that does not matter.
fn call(client: &mut ClientChannel) -> Result<(), AskFault>
    ensures asks { (requests : List Named) (asks : List Placed) (octets : List ℕ)
        → GoesOnAfter requests client.old asks octets
        → MatchResult result
        (λ _. GoesOnAfter requests client.new (asks ++ (length octets, Call (next_id (asked_in asks))) ∷ []) octets)
        (λ _. GoesOnAfter requests client.new asks octets) }
    ensures judged { (requests : List Named) (asks : List Placed) (octets : List ℕ)
        → GoesOnAfter requests client.old asks octets
        → (why : Option AskFault) × (IsReasonAgainstAsking (client_limits client.old) asks requests false octets why
        × AnswersFor why result) }
    ensures limits { client_limits client.new ≡ client_limits client.old }
{
    match client.ask(&[0]) {
        Ok(asked) => {
            drop(asked);
            Ok(())
        }
        Err(fault) => Err(fault),
    }
}

/// Sends the next request of the recorded client.
fn ask(client: &mut ClientChannel, opens: bool) -> Result<(), AskFault>
    ensures asks { (requests : List Named) (asks : List Placed) (octets : List ℕ)
        → GoesOnAfter requests client.old asks octets
        → MatchResult result
        (λ _. GoesOnAfter requests client.new (asks ++ (length octets, asking opens (next_id (asked_in asks))) ∷ [])
        octets)
        (λ _. GoesOnAfter requests client.new asks octets) }
    ensures judged { (requests : List Named) (asks : List Placed) (octets : List ℕ)
        → GoesOnAfter requests client.old asks octets
        → (why : Option AskFault) × (IsReasonAgainstAsking (client_limits client.old) asks requests opens octets why
        × AnswersFor why result) }
    ensures limits { client_limits client.new ≡ client_limits client.old }
{
    if opens {
        return renew(client);
    }
    call(client)
}

/// The verdict of a client that fails at a place, by an ERR of its peer or for a reason of its own.
fn failed(end: usize, code: StatusCode, peer: bool) -> Verdict
    ensures { result ≡ failed end code peer }
{
    if peer {
        Verdict::Refuses { end, code }
    } else {
        Verdict::Breaks { end, code }
    }
}

/// The verdict at a reply that ends here, if it is of another kind than its request.
fn verdict_on_reply(
    alloc: Global,
    requests: &[Named],
    end: usize,
    id: u32,
    reply: &Message,
) -> Result<Option<Verdict>, AllocError>
    ensures { IfOk result (λ found.
        found ≡ reply_verdict end (is_misfit requests.now (Answered id (concat reply.now)))) }
{
    if is_misfit(alloc, requests, id, reply)? {
        Ok(Some(Verdict::Breaks {
            end,
            code: StatusCode::BAD_UNKNOWN_RESPONSE,
        }))
    } else {
        Ok(None)
    }
}

/// The verdict at an event, if it ends the channel or brings such a reply.
fn verdict_at(
    alloc: Global,
    requests: &[Named],
    end: usize,
    event: &ClientEvent,
) -> Result<Option<Verdict>, AllocError>
    ensures { IfOk result (λ found. found ≡ verdict_at requests.now end event.now) }
{
    match event {
        ClientEvent::Failed { code, peer } => Ok(Some(failed(end, *code, *peer))),
        ClientEvent::Answered(id, reply) => verdict_on_reply(alloc, requests, end, *id, reply),
        _ => Ok(None),
    }
}

/// The same of an event that is no longer needed.
fn verdict_of(
    alloc: Global,
    requests: &[Named],
    end: usize,
    event: ClientEvent,
) -> Result<Option<Verdict>, AllocError>
    ensures { IfOk result (λ found. found ≡ verdict_at requests.now end event) }
{
    let found = verdict_at(alloc, requests, end, &event);
    drop(event);
    found
}

/// Whether there is a verdict.
fn has_verdict(taken: &Taken) -> bool
    ensures { result ≡ is_some taken.now.verdict }
{
    taken.verdict.is_some()
}

/// Takes some of the bytes of a server between two places. Returns the place up to which they are
/// taken, and the verdict if they decide it.
fn take_next(
    alloc: Global,
    client: &mut ClientChannel,
    requests: &[Named],
    octets: &[u8],
    at: usize,
    end: usize,
) -> Result<Taken, AllocError>
    requires some { at < end }
    requires within { end ≤ length octets.now }
    ensures takes { (asks : List Placed) → GoesOnAfter requests.now client.old asks (take at octets.now)
        → IfOk result (λ r.
        TakesTo (client_limits client.old) requests.now asks octets.now r.at client.new r.verdict) }
    ensures within { IfOk result (λ r. r.at ≤ end) }
    ensures further { IfOk result (λ r. at < r.at) }
    ensures limits { client_limits client.new ≡ client_limits client.old }
{
    match client.take(&octets[at..end], DateTime { ticks: 0 }) {
        Ok((size, event)) => {
            let next = at + size;
            let verdict = verdict_of(alloc, requests, next, event)?;
            Ok(Taken { at: next, verdict })
        }
        Err(_) => Err(AllocError),
    }
}

/// Takes the bytes of a server from a place up to another one, or up to the frame that decides the
/// verdict. Returns the place up to which they are taken.
fn take_to(
    alloc: Global,
    client: &mut ClientChannel,
    requests: &[Named],
    octets: &[u8],
    from: usize,
    place: usize,
) -> Result<Taken, AllocError>
    requires { from ≤ length octets.now }
    ensures takes { (asks : List Placed) → GoesOnAfter requests.now client.old asks (take from octets.now)
        → IfOk result (λ r.
        TakesUpTo (client_limits client.old) requests.now asks octets.now from place r.at client.new r.verdict) }
    ensures within { IfOk result (λ r. r.at ≤ length octets.now) }
    ensures limits { client_limits client.new ≡ client_limits client.old }
{
    let end = place.min(octets.len());
    let mut at = from;
    while at < end {
        let taken = take_next(alloc, client, requests, octets, at, end)?;
        if has_verdict(&taken) {
            return Ok(taken);
        }
        at = taken.at;
    }
    Ok(Taken { at, verdict: None })
}

/// Sends a request of the recorded client where the bytes that were taken end at its place.
fn send(client: &mut ClientChannel, request: &Named, at: usize) -> Result<(), AskFault>
    ensures asks { (requests : List Named) (asks : List Placed) (octets : List ℕ)
        → length octets ≡ at → GoesOnAfter requests client.old asks octets
        → MatchResult result
        (λ _. GoesOnAfter requests client.new
        (asks ++ (request.now.place, asking request.now.opens (next_id (asked_in asks))) ∷ []) octets)
        (λ _. GoesOnAfter requests client.new asks octets) }
    ensures judged { (requests : List Named) (asks : List Placed) (octets : List ℕ)
        → GoesOnAfter requests client.old asks octets → request.now.place ≡ at
        → (why : Option AskFault)
        × (IsReasonAgainstAsking (client_limits client.old) asks requests request.now.opens octets why
        × AnswersFor why result) }
    ensures placed { IfOk result (λ _. request.now.place ≡ at) }
    ensures placeless { (request.now.place ≡ at → ⊥) → result ≡ Err NotOpen }
    ensures limits { client_limits client.new ≡ client_limits client.old }
{
    if request.place == at {
        return ask(client, request.opens);
    }
    Err(AskFault::NotOpen)
}

/// The verdict where a request cannot be sent.
fn stopped(at: usize, fault: AskFault) -> Result<Taken, AllocError>
    ensures stops { IfOk result (λ taken. taken ≡ record { at = at; verdict = Some (Stops at fault) }) }
    ensures named { (why : Option AskFault) → IsAskFaultFor why fault → IfOk result (λ _. why ≡ Some fault) }
{
    match fault {
        AskFault::OutOfMemory => Err(AllocError),
        fault => Ok(Taken {
            at,
            verdict: Some(Verdict::Stops { end: at, fault }),
        }),
    }
}

/// Takes the bytes of a server up to the place of a request, and sends the request. Returns the place
/// up to which they are taken, and the verdict if they decide it, or if the request cannot be sent.
fn go_on(
    alloc: Global,
    client: &mut ClientChannel,
    requests: &[Named],
    octets: &[u8],
    from: usize,
    request: &Named,
) -> Result<Taken, AllocError>
    requires { from ≤ length octets.now }
    ensures takes { (before : List Named) → place_after 0 before ≡ from
        → GoesOnAfter requests.now client.old (named_asks_of before) (take from octets.now)
        → IfOk result (λ r.
        GoesOnJudging (client_limits client.old) requests.now before request.now octets.now r.at client.new r.verdict) }
    ensures within { IfOk result (λ r. r.at ≤ length octets.now) }
    ensures limits { client_limits client.new ≡ client_limits client.old }
{
    let taken = take_to(alloc, client, requests, octets, from, request.place)?;
    if has_verdict(&taken) {
        return Ok(taken);
    }
    let at = taken.at;
    match send(client, request, at) {
        Ok(()) => Ok(Taken { at, verdict: None }),
        Err(fault) => stopped(at, fault),
    }
}

/// Takes the bytes of a server from a place to their end, and returns the verdict on all of them.
fn finish(
    alloc: Global,
    client: &mut ClientChannel,
    requests: &[Named],
    octets: &[u8],
    from: usize,
) -> Result<Verdict, AllocError>
    requires { from ≤ length octets.now }
    ensures { (asks : List Placed) → GoesOnAfter requests.now client.old asks (take from octets.now)
        → IfOk result (λ verdict.
        IsNoStop verdict × IsVerdictOn (client_limits client.old) asks requests.now octets.now verdict) }
{
    let taken = take_to(alloc, client, requests, octets, from, octets.len())?;
    match taken.verdict {
        Some(verdict) => Ok(verdict),
        None => Ok(Verdict::Keeps),
    }
}

/// The verdict of a client with these limits on the bytes of a server. The client sent these requests
/// after its first OPN, each where so many of these bytes had come.
pub fn judge_server(
    alloc: Global,
    limits: Limits,
    requests: &[Named],
    octets: &[u8],
) -> Result<Verdict, AllocError>
    ensures { IfOk result (IsServerVerdict limits requests.now octets.now) }
{
    let mut client = ClientChannel::new(alloc, limits, UaString::null());
    let mut at = 0;
    for request in requests {
        let taken = go_on(alloc, &mut client, requests, octets, at, request)?;
        if let Some(verdict) = taken.verdict {
            return Ok(verdict);
        }
        at = taken.at;
    }
    finish(alloc, &mut client, requests, octets, at)
}
