//! A client's channel that is open.

ghost use Rattle.std.specs.Prelude.{true, ◌≡◌, ◌<◌, ◌+◌, ◌^◌, ◌++◌, ◌∷◌, [], List, ℕ, length, drop};
ghost use Rattle.std.specs.Prelude.{IsTrue, OnErr, OnOk, IfOk};
ghost use Rattle.ua_builtin.specs.Reasons.{first_reason};
ghost use Rattle.ua_frame.specs.Frames.{LetsIn};
ghost use Rattle.ua_frame.specs.declared.limits.Limits.{Limits};
ghost use Rattle.ua_chunk.specs.Assembling.{Stands};
ghost use Rattle.ua_chunk.specs.declared.chunk.Chunk.{Chunk};
ghost use Rattle.ua_channel.specs.Asks.{Asking};
ghost use Rattle.ua_channel.specs.Asks.Asking.{Call, Renewal};
ghost use Rattle.ua_channel.specs.ClientAsks.{Talks, call_lane, renew_reasons};
ghost use Rattle.ua_channel.specs.ClientAsks.{is_too_large, Calls, AsksRenewal, AnswersFor};
ghost use Rattle.ua_channel.specs.inside.ClientAsking.{more_reasons, AnswersCall, JudgesCall, AsBefore};
ghost use Rattle.ua_channel.specs.inside.ClientParts.{Judged, greeted, first_reasons, IsOpenedWith, IsOpenedBy};
ghost use Rattle.ua_channel.specs.inside.ClientParts.{kept_renewal_reasons, IsRenewedWith};
ghost use Rattle.ua_channel.specs.inside.ClientParts.{TellsRenewal, chunk_token_reasons};
ghost use Rattle.ua_channel.specs.inside.ClientParts.{chunk_reasons, refused_reasons, unasked_reasons, known_reasons};
ghost use Rattle.ua_channel.specs.inside.ClientParts.{any_event, drops_first, left_behind, IsChunkAccepted};
ghost use Rattle.ua_channel.specs.inside.ClientParts.{IsDeliveredWith, IsFirstOnce, IsTakenWith};
ghost use Rattle.ua_channel.specs.inside.ClientParts.{ClientTakesFrame, DeliversEvent};
ghost use Rattle.ua_channel.specs.ClientSends.{AreFramesOf, appended};
ghost use Rattle.ua_channel.specs.ClientTable.{client_reasons, answer_gate, reply_gate};
ghost use Rattle.ua_channel.specs.ClientTokens.{from_last};
ghost use Rattle.ua_channel.specs.Content.{content};
ghost use Rattle.ua_channel.specs.inside.Parts.{HasShape};
ghost use Rattle.ua_channel.specs.Received.{Received};

use crate::client::agreed::Agreed;
use crate::client::answer::{Answer, judge_answer};
use crate::client::asked_call::AskedCall;
use crate::client::event::Event;
use crate::client::fault::AskFault;
use crate::client::greeting::stop_of_error;
use crate::client::ids::{FIRST_ID, OPENING_ID};
use crate::client::octets::renewal_octets;
use crate::end_fault::EndFault;
use crate::numbers::Numbers;
use std::alloc::Global;
use ua_builtin::{DateTime, StatusCode};
use ua_chunk::{Assembler, CHUNK_HEADERS, Chunk, Delivered, Lane, cut, read_chunk};
use ua_frame::{Frame, Kind, Limits};

/// The most calls that may be unanswered.
const MOST_PENDING: usize = 64;

/// The most tokens that are held where a further one is asked for.
const MOST_TOKENS: usize = 16;

/// The first number that is the RequestId of no call and of no renewal; the CLO may have it.
const NO_ID: usize = 4_294_967_295;

/// What a client keeps of an open channel.
#[derive(Debug, Drop)]
pub struct Talking {
    pub agreed: Agreed,
    pub channel: u32,
    /// The tokens that the server may use: from the last one that it used to the newest.
    pub tokens: Vec<u32>,
    /// The newest token, under which calls go out.
    pub newest: u32,
    /// The RequestIds of the calls that are unanswered.
    pub pending: Vec<u32>,
    /// The RequestId of the renewal that is unanswered.
    pub renewal: Option<u32>,
    /// The RequestId that the next call gets.
    pub next: u32,
    pub assembler: Assembler,
}

/// Whether the first of the tokens stands before the last place of one, or that has no place.
fn drops_first(tokens: &[u32], token: u32) -> bool
    ensures { result ≡ drops_first token tokens.now }
{
    match tokens.split_first() {
        None => false,
        Some((first, rest)) => *first != token || rest.contains(&token),
    }
}

/// Drops the tokens before the last place of one, and all where it has none.
fn release_before(tokens: &mut Vec<u32>, token: u32)
    ensures { tokens.new.items ≡ from_last token tokens.old.items }
{
    while drops_first(tokens.as_slice(), token) {
        tokens.remove(0);
    }
}

/// Whether a RequestId is the first of these.
fn is_first(ids: &[u32], request: u32) -> bool
    ensures { IsTrue result → ids.now ≡ request ∷ drop 1 ids.now }
{
    match ids.split_first() {
        None => false,
        Some((first, _)) => *first == request,
    }
}

/// Drops a RequestId, where the first of them does not occur again. Nearly always it is that one.
fn forget(ids: &mut Vec<u32>, request: u32)
    ensures { IsFirstOnce ids.old.items → ids.new.items ≡ left_behind true request ids.old.items }
{
    if is_first(ids.as_slice(), request) {
        ids.remove(0);
        return;
    }
    ids.retain(|id| *id != request);
}

/// The event of a delivered message.
fn event_of(delivered: Option<Delivered>) -> Option<Event>
    ensures { DeliversEvent delivered result }
{
    match delivered {
        None => None,
        Some(Delivered::Whole(id, message)) => Some(Event::Answered(id, message)),
        Some(Delivered::Aborted(id, code, _)) => Some(Event::Aborted(id, code)),
    }
}

impl Talking {
    /// The channel that the first answer opens.
    pub fn open(
        alloc: Global,
        limits: &Limits,
        agreed: Agreed,
        answer: Answer,
    ) -> Result<Talking, EndFault>
        ensures { Judged (first_reasons answer) (IsOpenedWith limits.now agreed answer) result }
    {
        if answer.request != OPENING_ID {
            return Err(EndFault::Refused(StatusCode::BAD_UNKNOWN_RESPONSE));
        }
        let mut tokens = Vec::new(alloc);
        let Ok(()) = tokens.push(answer.token) else {
            return Err(EndFault::OutOfMemory);
        };
        Ok(Talking {
            agreed,
            channel: answer.channel,
            tokens,
            newest: answer.token,
            pending: Vec::new(alloc),
            renewal: None,
            next: FIRST_ID,
            assembler: Assembler::new(
                alloc,
                limits.max_message_size,
                limits.max_chunk_count,
                Some(answer.sequence),
            ),
        })
    }

    /// The channel that the first frame after an ACK opens.
    pub(crate) fn on_first(
        alloc: Global,
        limits: &Limits,
        agreed: Agreed,
        frame: Frame,
    ) -> Result<Talking, EndFault>
        ensures { LetsIn (answer_gate agreed.ack.send_buffer_size) frame
            → Judged (client_reasons limits.now (greeted agreed) [] (content frame))
            (IsOpenedBy limits.now agreed (content frame)) result }
    {
        match frame.kind {
            Kind::Opn => match judge_answer(alloc, frame) {
                Ok(answer) => Talking::open(alloc, limits, agreed, answer),
                Err(fault) => Err(fault),
            },
            Kind::Err => Err(stop_of_error(alloc, &frame.body)),
            _ => Err(EndFault::Closed),
        }
    }

    // ---- what is received

    /// Takes the answer to a renewal.
    fn on_answer(&mut self, answer: Answer) -> Result<(), EndFault>
        ensures { (cs : List Chunk) → Stands self.old.assembler cs
            → Judged (kept_renewal_reasons self.old answer) (λ _. IsRenewedWith self.old answer cs self.new) result }
    {
        if answer.channel != self.channel {
            return Err(EndFault::Refused(StatusCode::BAD_TCP_SECURE_CHANNEL_UNKNOWN));
        }
        if self.tokens.contains(&answer.token) {
            return Err(EndFault::Refused(StatusCode::BAD_SECURE_CHANNEL_TOKEN_UNKNOWN));
        }
        if let Err(fault) = self.assembler.step(answer.sequence) {
            return Err(EndFault::from_chunk(fault, StatusCode::BAD_RESPONSE_TOO_LARGE));
        }
        if self.renewal != Some(answer.request) {
            return Err(EndFault::Refused(StatusCode::BAD_UNKNOWN_RESPONSE));
        }
        let Ok(()) = self.tokens.push(answer.token) else {
            return Err(EndFault::OutOfMemory);
        };
        self.newest = answer.token;
        self.renewal = None;
        Ok(())
    }

    /// Takes the response to a renewal, and returns the token as an event.
    fn on_renewed(&mut self, answer: Answer) -> Result<Option<Event>, EndFault>
        ensures { (cs : List Chunk) → Stands self.old.assembler cs
            → Judged (kept_renewal_reasons self.old answer) (TellsRenewal self.old answer cs self.new) result }
    {
        match self.on_answer(answer) {
            Ok(()) => Ok(Some(Event::Renewed(answer.token))),
            Err(fault) => Err(fault),
        }
    }

    /// Whether a chunk is on this channel, under a token that is held.
    fn judge_chunk(&self, chunk: &Chunk) -> Result<(), EndFault>
        ensures { Judged (chunk_token_reasons self.now chunk.now) any_event result }
    {
        if chunk.channel != self.channel {
            return Err(EndFault::Refused(StatusCode::BAD_TCP_SECURE_CHANNEL_UNKNOWN));
        }
        if !self.tokens.contains(&chunk.token) {
            return Err(EndFault::Refused(StatusCode::BAD_SECURE_CHANNEL_TOKEN_UNKNOWN));
        }
        Ok(())
    }

    /// Takes what the assembler makes of a chunk.
    fn accept(&mut self, chunk: Chunk) -> Result<Option<Delivered>, EndFault>
        ensures { (cs : List Chunk) → Stands self.old.assembler cs
            → Judged (refused_reasons self.old cs chunk) (IsChunkAccepted self.old cs chunk self.new) result }
    {
        match self.assembler.accept(chunk) {
            Ok(delivered) => Ok(delivered),
            Err(fault) => Err(EndFault::from_chunk(fault, StatusCode::BAD_RESPONSE_TOO_LARGE)),
        }
    }

    /// Takes what a chunk of this request and token delivered, which it ended or not.
    fn on_delivered(
        &mut self,
        request: u32,
        token: u32,
        ends: bool,
        delivered: Option<Delivered>,
    ) -> Result<Option<Event>, EndFault>
        ensures { IsFirstOnce self.old.pending.items → Judged (unasked_reasons self.old request)
            (IsDeliveredWith self.old request token ends delivered self.new) result }
    {
        if !self.pending.contains(&request) {
            drop(delivered);
            return Err(EndFault::Refused(StatusCode::BAD_UNKNOWN_RESPONSE));
        }
        release_before(&mut self.tokens, token);
        if ends {
            forget(&mut self.pending, request);
        }
        Ok(event_of(delivered))
    }

    /// Takes a chunk of this channel under a token that is held.
    fn on_known(&mut self, chunk: Chunk) -> Result<Option<Event>, EndFault>
        ensures { (cs : List Chunk) → Stands self.old.assembler cs → IsFirstOnce self.old.pending.items
            → Judged (known_reasons self.old cs chunk) (IsTakenWith self.old cs chunk self.new) result }
    {
        let (request, token, ends) = (chunk.request, chunk.token, !chunk.flag.is_more());
        match self.accept(chunk) {
            Ok(delivered) => self.on_delivered(request, token, ends, delivered),
            Err(fault) => Err(fault),
        }
    }

    /// Takes a chunk of a message.
    fn on_chunk(&mut self, chunk: Chunk) -> Result<Option<Event>, EndFault>
        ensures { (cs : List Chunk) → Stands self.old.assembler cs → IsFirstOnce self.old.pending.items
            → Judged (chunk_reasons self.old cs chunk) (IsTakenWith self.old cs chunk self.new) result }
    {
        match self.judge_chunk(&chunk) {
            Ok(()) => self.on_known(chunk),
            Err(fault) => Err(fault),
        }
    }

    /// Takes a frame.
    pub(crate) fn on_frame(
        &mut self,
        alloc: Global,
        frame: Frame,
    ) -> Result<Option<Event>, EndFault>
        requires { HasShape frame }
        ensures { (limits : Limits) (before : Received) (asked : List Asking) → Talks limits self.old before asked
            → LetsIn (reply_gate self.old.agreed.ack.send_buffer_size) frame
            → Judged (client_reasons limits before asked (content frame))
            (ClientTakesFrame limits before asked (content frame) self.new) result }
    {
        match frame.kind {
            Kind::Msg => self.on_chunk(read_chunk(frame)),
            Kind::Opn => match judge_answer(alloc, frame) {
                Ok(answer) => self.on_renewed(answer),
                Err(fault) => Err(fault),
            },
            Kind::Err => Err(stop_of_error(alloc, &frame.body)),
            _ => Err(EndFault::Closed),
        }
    }

    // ---- what is sent

    /// Where calls go.
    fn lane(&self) -> Lane
        ensures lane { result ≡ call_lane self.now.agreed.ack self.now.channel self.now.newest }
        ensures room { 0 < result.room }
        ensures size { result.room + 24 < 2 ^ 32 }
    {
        let ack = self.agreed.ack;
        Lane {
            channel: self.channel,
            token: self.newest,
            room: ack.receive_buffer_size - CHUNK_HEADERS as u32,
            octets: ack.max_message_size,
            chunks: ack.max_chunk_count,
        }
    }

    /// Why no call may be sent after so many more calls, whatever its body.
    fn full(&self, more: usize) -> Option<AskFault>
        ensures { result ≡ first_reason (more_reasons self.now more) }
    {
        if self.pending.len().saturating_add(more) >= MOST_PENDING {
            return Some(AskFault::TooManyPending);
        }
        if (self.next as usize).saturating_add(more) >= NO_ID {
            return Some(AskFault::Exhausted);
        }
        None
    }

    /// Whether the server does not accept a body of so many bytes.
    fn is_too_large(&self, len: usize) -> bool
        ensures { (body : List ℕ) → length body ≡ len → result ≡ is_too_large self.now.agreed.ack body }
    {
        self.lane().refusal(len).is_some()
    }

    /// Why a call with a body of so many bytes is refused after so many more calls.
    pub fn judge(&self, more: usize, len: usize) -> Result<(), AskFault>
        ensures { JudgesCall self.now more len result }
    {
        if let Some(fault) = self.full(more) {
            return Err(fault);
        }
        if self.is_too_large(len) {
            return Err(AskFault::RequestTooLarge);
        }
        Ok(())
    }

    /// Appends the chunks of a call under the next RequestId. A fault leaves `out` as it was.
    #[tactic(auto, using(crate::proofs::ChunkFrames::appended_framed))]
    pub fn ask(
        &mut self,
        body: &[u8],
        numbers: &mut Numbers,
        out: &mut Vec<u8>,
    ) -> Result<AskedCall, AskFault>
        requires { 0 < length body.now }
        ensures answers { AnswersCall self.old body.now result }
        ensures behind { OnOk result (out.new.items ≡ out.old.items ++ appended out.old.items out.new.items) }
        ensures len { IfOk result (λ asked. asked.len ≡ length (appended out.old.items out.new.items)) }
        ensures asked { IfOk result
            (λ asked. Calls self.old numbers.old.next body.now asked.id (appended out.old.items out.new.items)
            numbers.new.next) }
        ensures frames { IfOk result
            (λ asked. AreFramesOf asked.frame_len (appended out.old.items out.new.items)) }
        ensures talks { (limits : Limits) (before : Received) (asked : List Asking) → Talks limits self.old before asked
            → IfOk result (λ call. Talks limits self.new before (asked ++ Call call.id ∷ [])) }
        ensures agreed { self.new.agreed ≡ self.old.agreed }
        ensures unchanged { OnErr result (AsBefore self.old self.new × (numbers.new ≡ numbers.old)) }
        ensures err { OnErr result (out.new.items ≡ out.old.items) }
    {
        if let Some(fault) = self.full(0) {
            return Err(fault);
        }
        let id = self.next;
        let lane = self.lane();
        let before = out.len();
        let next = match cut(&lane, body, numbers.number(), id, out) {
            Ok(next) => next,
            Err(fault) => return Err(AskFault::from_cut(fault)),
        };
        match self.pending.push(id) {
            Ok(()) => {
                self.next = id + 1;
                numbers.go_on(next);
                Ok(AskedCall {
                    id,
                    len: out.len() - before,
                    frame_len: CHUNK_HEADERS + lane.room as usize,
                })
            }
            Err(_) => {
                out.truncate(before);
                Err(AskFault::OutOfMemory)
            }
        }
    }

    /// Why a renewal is not sent.
    fn renew_refusal(&self) -> Option<AskFault>
        ensures { result ≡ first_reason (renew_reasons self.now) }
    {
        if self.renewal.is_some() {
            return Some(AskFault::RenewPending);
        }
        if self.tokens.len() >= MOST_TOKENS {
            return Some(AskFault::TooManyTokens);
        }
        if self.next as usize >= NO_ID {
            return Some(AskFault::Exhausted);
        }
        None
    }

    /// The OPN that renews the token, under the next RequestId.
    pub fn renew(
        &mut self,
        alloc: Global,
        moment: DateTime,
        numbers: &mut Numbers,
    ) -> Result<(u32, Vec<u8>), AskFault>
        ensures answers { AnswersFor (first_reason (renew_reasons self.old)) result }
        ensures asked { IfOk result (λ r. AsksRenewal self.old numbers.old.next moment r.0 r.1.items numbers.new.next) }
        ensures talks { (limits : Limits) (before : Received) (asked : List Asking) → Talks limits self.old before asked
            → IfOk result (λ r. Talks limits self.new before (asked ++ Renewal r.0 ∷ [])) }
        ensures agreed { self.new.agreed ≡ self.old.agreed }
        ensures unchanged { OnErr result ((self.new ≡ self.old) × (numbers.new ≡ numbers.old)) }
    {
        if let Some(fault) = self.renew_refusal() {
            return Err(fault);
        }
        let id = self.next;
        let out = renewal_octets(alloc, self.channel, numbers.number(), id, moment)?;
        self.renewal = Some(id);
        self.next = id + 1;
        numbers.step();
        Ok((id, out))
    }
}
