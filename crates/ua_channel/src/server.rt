//! The server's end of a connection.

ghost use Rattle.std.specs.Prelude.{◌≡◌, ◌<◌, length};

use crate::agreement::Agreement;
use crate::end_core::EndCore;
use crate::numbers::Numbers;
use crate::running::Running;
use crate::sending::{Opening, agreed_octets, opened_octets, reply_in_place, reply_octets};
use crate::sent_reply::SentReply;
use crate::server_event::{Event, ServerEvent};
use crate::server_fault::{ChannelFault, ReplyFault};
use crate::server_rules::{ServerRules, hello_gate};
use crate::taken::Taken;
use std::alloc::{AllocError, Global};
use ua_builtin::DateTime;
use ua_chunk::Lane;
use ua_frame::{FrameReader, LEAST_BUFFER_SIZE, Limits};

/// The phases of a connection.
#[derive(Debug, Drop)]
pub enum Phase {
    /// It waits for the HEL.
    Waiting,
    /// It agreed on the HEL, and waits for the first OPN.
    Greeted(Agreement),
    /// It has a token.
    Open(Running),
    /// It ended.
    Done,
}

/// The server's end of a connection: it takes the bytes of a client, however they are fragmented,
/// and returns the bytes to send (OPC 10000-6, 6.7 and 7.1).
///
/// A connection begins with the client's HEL and its OPN, which [`take`] answers; then come
/// messages, renewals of the token, and one CLO. After a fault, and after the CLO, the channel
/// holds nothing and takes nothing more.
///
/// [`take`]: ServerChannel::take
#[derive(Debug)]
pub struct ServerChannel {
    end: EndCore<ServerRules, Phase>,
}

// By hand, so that a function that lets a channel go calls this, and proves nothing of what lies in
// it.
impl Drop for ServerChannel {
    fn drop(self) {
        let ServerChannel { end } = self;
        drop(end);
    }
}

impl ServerChannel {
    ghost use Rattle.std.specs.Prelude.{◌≡◌, ◌<◌, ◌≤◌, ◌+◌, ◌^◌, ◌↔◌, ◌⊎◌, [], ℕ, List, length};
    ghost use Rattle.std.specs.Prelude.{take, None, Some, Ok, Err, IfOk, IfSome, MatchOption};
    ghost use Rattle.std.specs.Prelude.{MatchResult, OnOk, OnErr, IsErrOf, IsTrue};
    ghost use Rattle.ua_chunk.specs.Cutting.{most_octets};
    ghost use Rattle.ua_chunk.specs.declared.lane.Lane.{Lane};
    ghost use Rattle.ua_chunk.specs.Open.{open_ids};
    ghost use Rattle.ua_channel.specs.Received.{received};
    ghost use Rattle.ua_channel.specs.ServerAnswers.{Progress, AnswersAt, ServerAnswers};
    ghost use Rattle.ua_channel.specs.ServerAnswers.{SendsReply, ReplyGoes, RepliesOn};
    ghost use Rattle.ua_channel.specs.inside.ServerSteps.{AnswersTo, StandsWith};
    ghost use Rattle.ua_channel.specs.ServerStands.{limits_of, channel_of, next_of, bound_of};
    ghost use Rattle.ua_channel.specs.ServerStands.{HasNoToken, IsWithoutToken, ChannelStands, Goes};
    ghost use Rattle.ua_channel.specs.ServerStands.{IsDone, bound_after, held_after, WhateverCame};
    ghost use Rattle.ua_channel.specs.ServerStands.{WhateverWasTold};
    ghost use Rattle.ua_channel.specs.inside.ServerFrames.{LaneIs};
    ghost use Rattle.ua_channel.specs.ServerTold.{Told};
    ghost use Rattle.ua_channel.specs.declared.server.Phase.TheVariants as phase;
    ghost use Rattle.ua_channel.specs.declared.server_fault.ChannelFault.TheVariants as fault;
    ghost use Rattle.ua_channel.specs.declared.server_fault.ReplyFault.TheVariants.{NotOpen, OutOfMemory};
    ghost use Rattle.ua_channel.specs.declared.server_event.Event.TheVariants as inner;
    ghost use Rattle.ua_channel.specs.declared.server_event.ServerEvent.TheVariants as handed;

    /// Waits for the HEL of a client. The server has these limits, and its channel will have this
    /// SecureChannelId.
    pub fn new(alloc: Global, limits: Limits, channel: u32) -> ServerChannel
        ensures stands { ChannelStands result [] [] [] }
        ensures goes { Goes result [] [] }
        ensures limits { limits_of result ≡ limits }
        ensures channel { channel_of result ≡ channel }
        ensures next { next_of result ≡ 1 }
    {
        ServerChannel {
            end: EndCore {
                alloc,
                rules: ServerRules { limits, channel },
                reader: FrameReader::new(alloc, hello_gate()),
                numbers: Numbers::new(),
                bound: LEAST_BUFFER_SIZE as usize,
                phase: Phase::Waiting,
            },
        }
    }

    /// Whether the channel ended.
    fn is_done(&self) -> bool
        ensures { IsTrue result ↔ (self.now.end.phase ≡ phase.Done) }
    {
        match self.end.phase {
            Phase::Done => true,
            Phase::Waiting | Phase::Greeted(_) | Phase::Open(_) => false,
        }
    }

    /// Returns the bytes to send as an event. Without them the channel fails.
    fn send(&mut self, octets: Result<Vec<u8>, AllocError>) -> Result<ServerEvent, ChannelFault>
        ensures sent { MatchResult octets (λ out. result ≡ Ok (handed.Send out)) (λ _. result ≡ Err fault.OutOfMemory) }
        ensures good { OnOk result (self.new ≡ self.old) }
        ensures done { OnErr result (IsDone self.new) }
        ensures limits { limits_of self.new ≡ limits_of self.old }
        ensures channel { channel_of self.new ≡ channel_of self.old }
    {
        match octets {
            Ok(octets) => Ok(ServerEvent::Send(octets)),
            Err(_) => {
                self.end.fail();
                Err(ChannelFault::OutOfMemory)
            }
        }
    }

    /// The event that is returned for the last frame. `moment` is the timestamp of an OPN response.
    fn answer(&mut self, event: Event, moment: DateTime) -> Result<ServerEvent, ChannelFault>
        ensures closes { event ≡ inner.Closed → result ≡ Ok handed.Closed }
        ensures answers { (octets : List ℕ) (told : List Told) → StandsWith event self.old octets told
            → AnswersTo (channel_of self.old) (next_of self.old) moment result self.new octets told }
        ensures limits { limits_of self.new ≡ limits_of self.old }
        ensures channel { channel_of self.new ≡ channel_of self.old }
    {
        match event {
            Event::Agreed(agreement) => self.send(agreed_octets(self.end.alloc, &agreement)),
            Event::Opened {
                request,
                handle,
                token,
                lifetime,
            } => {
                let opening = Opening {
                    channel: self.end.rules.channel,
                    request,
                    handle,
                    token,
                    lifetime,
                };
                match opened_octets(self.end.alloc, &opening, self.end.numbers.number(), moment) {
                    Ok(octets) => {
                        self.end.numbers.step();
                        Ok(ServerEvent::Send(octets))
                    }
                    Err(_) => {
                        self.end.fail();
                        Err(ChannelFault::OutOfMemory)
                    }
                }
            }
            Event::Asked {
                request,
                message,
                ..
            } => Ok(ServerEvent::Asked(request, message)),
            Event::Aborted(request) => Ok(ServerEvent::Aborted(request)),
            Event::Closed => Ok(ServerEvent::Closed),
        }
    }

    /// Takes bytes up to the end of the first frame that has an event, or else the whole fragment.
    /// `moment` is the timestamp of an OPN response.
    fn go_on(&mut self, piece: &[u8], moment: DateTime) -> Taken<Result<ServerEvent, ChannelFault>>
        ensures answers { WhateverWasTold self.old
            (AnswersAt (channel_of self.old) (next_of self.old) moment piece.now result.size result.outcome self.new) }
        ensures progress { Progress piece.now result.size result.outcome }
        ensures limits { limits_of self.new ≡ limits_of self.old }
        ensures channel { channel_of self.new ≡ channel_of self.old }
    {
        let Taken { size, outcome } = self.end.next_event(piece);
        match outcome {
            Ok(None) => Taken {
                size,
                outcome: Ok(ServerEvent::NeedMore),
            },
            Ok(Some(event)) => Taken {
                size,
                outcome: self.answer(event, moment),
            },
            Err(fault) => Taken {
                size,
                outcome: Err(ChannelFault::from_end(fault)),
            },
        }
    }

    /// Takes bytes as [`take`](ServerChannel::take) does, and returns also at an error how many it
    /// took: up to the end of the refused frame, or to the eighth byte of the refused header.
    pub fn advance(
        &mut self,
        piece: &[u8],
        moment: DateTime,
    ) -> Taken<Result<ServerEvent, ChannelFault>>
        ensures answers { WhateverWasTold self.old
            (AnswersAt (channel_of self.old) (next_of self.old) moment piece.now result.size result.outcome self.new) }
        ensures progress { Progress piece.now result.size result.outcome }
        ensures closed { IsDone self.old → (result.size ≡ 0) × (result.outcome ≡ Err fault.Closed)
            × (self.new ≡ self.old) }
        // After `OutOfMemory` the bound is what it was before the call.
        ensures starved { IsErrOf result.outcome fault.OutOfMemory → bound_of self.new ≡ bound_of self.old }
        ensures limits { limits_of self.new ≡ limits_of self.old }
        ensures channel { channel_of self.new ≡ channel_of self.old }
    {
        if self.is_done() {
            return Taken {
                size: 0,
                outcome: Err(ChannelFault::Closed),
            };
        }
        let bound = self.end.bound;
        let Taken { size, outcome } = self.go_on(piece, moment);
        match outcome {
            Ok(event) => Taken {
                size,
                outcome: Ok(event),
            },
            Err(fault) => {
                if let ChannelFault::OutOfMemory = fault {
                    self.end.bound = bound;
                }
                Taken {
                    size,
                    outcome: Err(fault),
                }
            }
        }
    }

    /// Takes bytes up to the end of the first frame at which bytes are to be sent, a message is
    /// complete or aborted, or the channel is closed; or else the whole fragment. Returns how many it
    /// took. `moment` is the timestamp of an OPN response. After a fault, and after a close, it
    /// returns `Closed`.
    pub fn take(
        &mut self,
        piece: &[u8],
        moment: DateTime,
    ) -> Result<(usize, ServerEvent), ChannelFault>
        ensures answers { WhateverWasTold self.old
            (ServerAnswers (channel_of self.old) (next_of self.old) moment piece.now result self.new) }
        ensures closed { IsDone self.old → (result ≡ Err fault.Closed) × (self.new ≡ self.old) }
        // After `OutOfMemory` the bound is what it was before the call.
        ensures starved { IsErrOf result fault.OutOfMemory → bound_of self.new ≡ bound_of self.old }
        ensures limits { limits_of self.new ≡ limits_of self.old }
        ensures channel { channel_of self.new ≡ channel_of self.old }
    {
        let Taken { size, outcome } = self.advance(piece, moment);
        match outcome {
            Ok(event) => Ok((size, event)),
            Err(fault) => Err(fault),
        }
    }

    /// Where replies go, if the channel is open.
    fn lane(&self) -> Option<Lane>
        ensures lane { MatchOption result (HasNoToken self.now.end.phase)
            (LaneIs self.now.end.rules.channel self.now.end.phase) }
        ensures room { IfSome result (λ lane. 0 < lane.room) }
        ensures size { IfSome result (λ lane. lane.room + 24 < 2 ^ 32) }
    {
        match &self.end.phase {
            Phase::Open(running) => Some(running.lane(self.end.rules.channel)),
            Phase::Waiting | Phase::Greeted(_) | Phase::Done => None,
        }
    }

    /// The maximum size, in bytes, of a body that can be sent as a reply; `None` where the client
    /// sets no such limit, and where no channel is open. A larger body becomes an abort.
    pub fn most_octets(&self) -> Option<usize>
        ensures most { WhateverCame self.now (λ octets frames rest. ¬ IsWithoutToken self.now → (lane : Lane)
            → RepliesOn self.now (received frames) lane → (0 < lane.room) × (result ≡ most_octets lane)) }
        ensures not_open { IsWithoutToken self.now → result ≡ None }
    {
        match self.lane() {
            Some(lane) => lane.most_octets(),
            None => None,
        }
    }

    /// The reply under a RequestId: the chunks of its body under the last token that the client
    /// used, or an abort where the client does not accept the body; and which of both it is. Where
    /// an allocation fails, the channel fails.
    pub fn respond(&mut self, id: u32, body: &[u8]) -> Result<SentReply, ReplyFault>
        requires { 0 < length body.now }
        ensures stands { WhateverCame self.old (λ octets frames rest.
            OnOk result (ChannelStands self.new octets frames rest)) }
        ensures sent { WhateverCame self.old (λ octets frames rest.
            IfOk result (SendsReply self.old self.new (received frames) body.now id)) }
        // No channel is open before the first OPN or after the channel ended, and in no other case.
        ensures not_open { IsErrOf result NotOpen ↔ IsWithoutToken self.old }
        ensures unchanged { IsErrOf result NotOpen → self.new ≡ self.old }
        ensures before { WhateverCame self.old (λ octets frames rest.
            IsErrOf result NotOpen ↔ ((received frames).openings ≡ [])) }
        ensures failed { IsErrOf result OutOfMemory → IsDone self.new }
        ensures bound { bound_of self.new ≡ bound_of self.old }
        ensures limits { limits_of self.new ≡ limits_of self.old }
        ensures channel { channel_of self.new ≡ channel_of self.old }
    {
        let Some(lane) = self.lane() else {
            return Err(ReplyFault::NotOpen);
        };
        match reply_octets(self.end.alloc, &lane, body, id, &mut self.end.numbers) {
            Ok(sent) => Ok(sent),
            Err(_) => {
                self.end.fail();
                Err(ReplyFault::OutOfMemory)
            }
        }
    }

    /// What [`respond`](ServerChannel::respond) returns. The chunks of a small body, and of one that
    /// takes several, may be put in its own vector, which is then taken: the body is as it was, or
    /// empty. After an error it is as it was.
    pub fn respond_with(&mut self, id: u32, body: &mut Vec<u8>) -> Result<SentReply, ReplyFault>
        requires { 0 < length body.old.items }
        ensures stands { WhateverCame self.old (λ octets frames rest.
            OnOk result (ChannelStands self.new octets frames rest)) }
        ensures sent { WhateverCame self.old (λ octets frames rest.
            IfOk result (SendsReply self.old self.new (received frames) body.old.items id)) }
        // No channel is open before the first OPN or after the channel ended, and in no other case.
        ensures not_open { IsErrOf result NotOpen ↔ IsWithoutToken self.old }
        ensures unchanged { IsErrOf result NotOpen → self.new ≡ self.old }
        ensures before { WhateverCame self.old (λ octets frames rest.
            IsErrOf result NotOpen ↔ ((received frames).openings ≡ [])) }
        ensures failed { IsErrOf result OutOfMemory → IsDone self.new }
        ensures left { (body.new.items ≡ body.old.items) ⊎ (body.new.items ≡ []) }
        ensures kept { OnErr result (body.new.items ≡ body.old.items) }
        ensures bound { bound_of self.new ≡ bound_of self.old }
        ensures limits { limits_of self.new ≡ limits_of self.old }
        ensures channel { channel_of self.new ≡ channel_of self.old }
    {
        let Some(lane) = self.lane() else {
            return Err(ReplyFault::NotOpen);
        };
        match reply_in_place(self.end.alloc, &lane, body, id, &mut self.end.numbers) {
            Ok(sent) => Ok(sent),
            Err(_) => {
                self.end.fail();
                Err(ReplyFault::OutOfMemory)
            }
        }
    }

    /// The bytes that [`respond`](ServerChannel::respond) returns: the reply, or an abort in its
    /// place.
    pub fn reply(&mut self, id: u32, body: &[u8]) -> Result<Vec<u8>, ReplyFault>
        requires { 0 < length body.now }
        ensures stands { WhateverCame self.old (λ octets frames rest.
            OnOk result (ChannelStands self.new octets frames rest)) }
        ensures sent { WhateverCame self.old (λ octets frames rest.
            IfOk result (λ out. ReplyGoes self.old self.new (received frames) body.now id out.items)) }
        // No channel is open before the first OPN or after the channel ended, and in no other case.
        ensures not_open { IsErrOf result NotOpen ↔ IsWithoutToken self.old }
        ensures unchanged { IsErrOf result NotOpen → self.new ≡ self.old }
        ensures before { WhateverCame self.old (λ octets frames rest.
            IsErrOf result NotOpen ↔ ((received frames).openings ≡ [])) }
        ensures failed { IsErrOf result OutOfMemory → IsDone self.new }
        ensures bound { bound_of self.new ≡ bound_of self.old }
        ensures limits { limits_of self.new ≡ limits_of self.old }
        ensures channel { channel_of self.new ≡ channel_of self.old }
    {
        match self.respond(id, body) {
            Ok(SentReply { octets, .. }) => Ok(octets),
            Err(fault) => Err(fault),
        }
    }

    /// Ends the channel where no reply can be made: it then holds nothing and takes nothing more.
    pub fn end(&mut self)
        ensures done { IsDone self.new }
        ensures limits { limits_of self.new ≡ limits_of self.old }
        ensures channel { channel_of self.new ≡ channel_of self.old }
        ensures bound { bound_of self.new ≡ bound_of self.old }
    {
        self.end.fail();
    }

    /// The number of bytes held: those of an incomplete frame, and those of unfinished messages. It
    /// is never more than [`bound`](ServerChannel::bound).
    pub fn held(&self) -> usize
        ensures held { WhateverCame self.now (λ octets frames rest. result ≡ held_after (received frames) rest) }
        ensures bound { WhateverCame self.now (λ octets frames rest.
            result ≤ bound_after (limits_of self.now) (received frames)) }
        ensures done { IsDone self.now → result ≡ 0 }
    {
        self.end.held()
    }

    /// The maximum number of bytes that may be held: 8192 before the ACK; after it those of a frame
    /// of the agreed size and of 4 messages of the maximum size.
    pub fn bound(&self) -> usize
        ensures stands { WhateverCame self.now (λ octets frames rest.
            result ≡ bound_after (limits_of self.now) (received frames)) }
        ensures is { result ≡ bound_of self.now }
    {
        self.end.bound
    }

    /// The number of unfinished messages.
    pub fn open_count(&self) -> usize
        ensures count { WhateverCame self.now (λ octets frames rest.
            result ≡ length (open_ids (received frames).messages)) }
        ensures done { IsDone self.now → result ≡ 0 }
    {
        match &self.end.phase {
            Phase::Open(running) => running.open_count(),
            Phase::Waiting | Phase::Greeted(_) | Phase::Done => 0,
        }
    }
}
