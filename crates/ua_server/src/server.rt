//! A server on one connection.

ghost use Rattle.std.specs.Prelude.{◌≡◌, false, ℕ, List, Err, None, IfOk, IsErrOf};
ghost use Rattle.ua_builtin.specs.declared.date_time.DateTime.{DateTime};
ghost use Rattle.ua_channel.specs.ServerAnswers.{Progress};
ghost use Rattle.ua_channel.specs.ServerStands.{limits_of, channel_of, bound_of, IsDone, WhateverWasTold};
ghost use Rattle.ua_channel.specs.ServerTold.{Told};
ghost use Rattle.ua_channel.specs.declared.server.ServerChannel.{ServerChannel};
ghost use Rattle.ua_channel.specs.declared.server_fault.ChannelFault.TheVariants as channel_fault;
ghost use Rattle.ua_server.specs.Now.{StepNow, StepsNow};
ghost use Rattle.ua_server.specs.State.{State};
ghost use Rattle.ua_server.specs.Stepping.{AnswersBehind, is_given_up};
ghost use Rattle.ua_server.specs.declared.step.StepFault.TheVariants as step_fault;

use crate::reply::Replied;
use crate::services::Services;
use crate::step::{Advanced, AnsweredMessage, End, Step, StepFault};
use crate::written::Written;
use std::alloc::Global;
use ua_builtin::DateTime;
use ua_channel::{ChannelFault, ReplyFault, ServerChannel, ServerEvent, Taken};
use ua_chunk::Message;
use ua_frame::Limits;

/// Whether a message was aborted.
fn is_given_up(answer: &Result<ServerEvent, ChannelFault>) -> bool
    ensures { result ≡ is_given_up answer.now }
{
    match answer {
        Ok(ServerEvent::Aborted(_)) => true,
        Ok(_) => false,
        Err(_) => false,
    }
}

/// Takes bytes as the channel does, and passes over messages that were aborted.
fn next_answered(
    channel: &mut ServerChannel,
    piece: &[u8],
    moment: DateTime,
) -> Taken<Result<ServerEvent, ChannelFault>>
    ensures answers { WhateverWasTold channel.old
        (AnswersBehind channel.old moment piece.now result.size result.outcome channel.new) }
    ensures progress { Progress piece.now result.size result.outcome }
    ensures some { is_given_up result.outcome ≡ false }
    ensures closed { IsDone channel.old → (result.outcome ≡ Err channel_fault.Closed) × (channel.new ≡ channel.old) }
    ensures starved { WhateverWasTold channel.old (λ octets told.
        IsErrOf result.outcome channel_fault.OutOfMemory → bound_of channel.new ≡ bound_of channel.old) }
    ensures limits { limits_of channel.new ≡ limits_of channel.old }
    ensures channel { channel_of channel.new ≡ channel_of channel.old }
{
    let Taken { size, outcome } = channel.advance(piece, moment);
    if !is_given_up(&outcome) {
        return Taken { size, outcome };
    }
    drop(outcome);
    let mut taken = size;
    while taken < piece.len() {
        let Taken { size, outcome } = channel.advance(&piece[taken..], moment);
        taken += size;
        if !is_given_up(&outcome) {
            return Taken {
                size: taken,
                outcome,
            };
        }
        drop(outcome);
    }
    Taken {
        size: taken,
        outcome: Ok(ServerEvent::NeedMore),
    }
}

/// The step for a fault of the channel after this many bytes: its output is the ERR frame with the
/// reason for the refusal.
fn refusal(alloc: Global, taken: usize, fault: ChannelFault) -> Result<Step, StepFault>
    ensures now { (old mid : ServerChannel) (moment : DateTime) (piece octets : List ℕ) (told : List Told)
        (before : State)
        → AnswersBehind old moment piece taken (Err fault) mid octets told
        → StepNow old moment piece result mid octets told before before }
    ensures taken { IfOk result (λ step. (step.taken ≡ taken) × (step.end ≡ None → ⊥)) }
    ensures closed { fault ≡ channel_fault.Closed → result ≡ Err step_fault.Closed }
{
    match fault {
        ChannelFault::Refused { code, err_frame } => {
            let mut out = Vec::new(alloc);
            match out.extend_from_slice(&err_frame) {
                Ok(()) => Ok(Step {
                    taken,
                    out,
                    end: Some(End::Refused(code)),
                }),
                Err(_) => Err(StepFault::OutOfMemory),
            }
        }
        ChannelFault::Closed => Err(StepFault::Closed),
        ChannelFault::OutOfMemory => Err(StepFault::OutOfMemory),
    }
}

/// A server on one connection: it takes the bytes of a client, however they are fragmented, answers
/// them from its services, and gives the bytes to be sent (OPC 10000-6, 6.7 and 7.1).
///
/// After a fault, and once the connection ended, it holds nothing and takes nothing more.
#[derive(Debug, Drop)]
pub struct Server {
    alloc: Global,
    channel: ServerChannel,
}

impl Server {
    ghost use Rattle.std.specs.Prelude.{◌≡◌, ◌≤◌, ◌↔◌, ◌⊎◌, [], ℕ, List};
    ghost use Rattle.std.specs.Prelude.{None, false, Ok, Err, IfOk, OnErr, IsErrOf, IsTrue};
    ghost use Rattle.std.specs.List.{concat};
    ghost use Rattle.std.specs.Map.{keys_of};
    ghost use Rattle.ua_builtin.specs.declared.date_time.DateTime.{DateTime};
    ghost use Rattle.ua_channel.specs.Received.{received};
    ghost use Rattle.ua_channel.specs.ServerPlaces.{agreed_by};
    ghost use Rattle.ua_channel.specs.ServerStands.{limits_of, channel_of, next_of, WhateverCame};
    ghost use Rattle.ua_channel.specs.ServerStands.{bound_of, Goes, GoesTelling, IsDone};
    ghost use Rattle.ua_channel.specs.ServerStands.{bound_after, held_after, ChannelStands as Holds};
    ghost use Rattle.ua_channel.specs.ServerTold.{Asked, Told};
    ghost use Rattle.ua_channel.specs.declared.server.ServerChannel.{ServerChannel};
    ghost use Rattle.ua_services.specs.Response.{response};
    ghost use Rattle.ua_server.specs.History.{StandsOver};
    ghost use Rattle.ua_server.specs.Now.{AdvanceNow};
    ghost use Rattle.ua_server.specs.Reply.{answered};
    ghost use Rattle.ua_server.specs.Requests.{request_answered};
    ghost use Rattle.ua_server.specs.Said.{lane_at};
    ghost use Rattle.ua_server.specs.Served.{channel_in};
    ghost use Rattle.ua_server.specs.Serving.{IsClean};
    ghost use Rattle.ua_server.specs.State.{State};
    ghost use Rattle.ua_server.specs.Stepping.{AnswersBehind, IsReplyAt, ServerStands, StepTakes, is_given_up};
    ghost use Rattle.ua_server.specs.Stored.{stored_of};
    ghost use Rattle.ua_server.specs.Storing.{AdvanceStores, StepStores};
    ghost use Rattle.ua_server.specs.declared.step.StepFault.TheVariants as step_fault;

    /// A server that waits for a client's HEL, with these limits; its channel will have this
    /// SecureChannelId.
    pub fn new(alloc: Global, limits: Limits, channel_id: u32) -> Server
        ensures stands { (first : State) → ServerStands (channel_in result) [] [] first [] first }
        ensures history { (first : State) → StandsOver (channel_in result) [] [] first first }
        ensures holds { Holds (channel_in result) [] [] [] }
        ensures limits { limits_of (channel_in result) ≡ limits }
        ensures channel { channel_of (channel_in result) ≡ channel_id }
    {
        Server {
            alloc,
            channel: ServerChannel::new(alloc, limits, channel_id),
        }
    }

    /// How many bytes are held: those of an unfinished frame, and those of unfinished messages.
    /// They are never more than [`bound`](Server::bound).
    pub fn held(&self) -> usize
        ensures held { WhateverCame (channel_in self.now) (λ octets frames rest.
            result ≡ held_after (received frames) rest) }
        ensures bound { WhateverCame (channel_in self.now) (λ octets frames rest.
            result ≤ bound_after (limits_of (channel_in self.now)) (received frames)) }
        ensures done { IsDone (channel_in self.now) → result ≡ 0 }
    {
        self.channel.held()
    }

    /// The most bytes that may be held: 8192 before the ACK, then those of a frame of the agreed
    /// size and of 4 messages of the greatest size.
    pub fn bound(&self) -> usize
        ensures stands { WhateverCame (channel_in self.now) (λ octets frames rest.
            result ≡ bound_after (limits_of (channel_in self.now)) (received frames)) }
        ensures is { result ≡ bound_of (channel_in self.now) }
    {
        self.channel.bound()
    }

    /// Takes bytes up to the end of the first frame that is answered or that ends the connection,
    /// else the whole fragment, and gives the bytes to be sent. `moment` is the timestamp of the
    /// answer. If an allocation fails, the services are as they were, or as the first whole message
    /// of the fragment leaves them.
    pub fn step(
        &mut self,
        services: &mut Services,
        piece: &[u8],
        moment: DateTime,
    ) -> Result<Step, StepFault>
        // As a function of the current state alone, however it arose.
        ensures now { StepsNow (channel_in self.old) moment piece.now result (channel_in self.new) services.old
            services.new }
        ensures endpoint { services.new.endpoint ≡ services.old.endpoint }
        ensures memory_limit { services.new.memory_limit ≡ services.old.memory_limit }
        // No node comes, goes or moves.
        ensures ids { keys_of services.new.nodes ≡ keys_of services.old.nodes }
        ensures progress { IfOk result (λ step. StepTakes piece.now step) }
        // After a failed allocation, the bound is what it was before the call.
        ensures starved { WhateverWasTold (channel_in self.old) (λ octets told.
            IsErrOf result step_fault.OutOfMemory → bound_of (channel_in self.new) ≡ bound_of (channel_in self.old)) }
        ensures closed { IsDone (channel_in self.old) → (result ≡ Err step_fault.Closed) × (self.new ≡ self.old)
            × (services.new ≡ services.old) }
        ensures limits { limits_of (channel_in self.new) ≡ limits_of (channel_in self.old) }
        ensures channel { channel_of (channel_in self.new) ≡ channel_of (channel_in self.old) }
    {
        let mut unasked = Written::nothing();
        self.step_telling(services, piece, moment, &mut unasked)
    }

    /// Does what [`step`](Server::step) does, and keeps in `written` what the Write that was
    /// answered stored: its message, instead of dropping it. What `written` had before is dropped;
    /// after any other step, and after a fault, it is empty.
    pub fn step_telling(
        &mut self,
        services: &mut Services,
        piece: &[u8],
        moment: DateTime,
        written: &mut Written,
    ) -> Result<Step, StepFault>
        // As a function of the current state alone, however it arose.
        ensures now { StepsNow (channel_in self.old) moment piece.now result (channel_in self.new) services.old
            services.new }
        // `written` has just the items that were stored by the Write that this step answered, in
        // order, and nothing of another step.
        ensures stores { WhateverWasTold (channel_in self.old) (λ octets told.
            StepStores piece.now result written.new (channel_in self.new) octets told services.old) }
        ensures failed { OnErr result (written.new ≡ []) }
        ensures endpoint { services.new.endpoint ≡ services.old.endpoint }
        ensures memory_limit { services.new.memory_limit ≡ services.old.memory_limit }
        // No node comes, goes or moves.
        ensures ids { keys_of services.new.nodes ≡ keys_of services.old.nodes }
        ensures progress { IfOk result (λ step. StepTakes piece.now step) }
        // After a failed allocation, the bound is what it was before the call.
        ensures starved { WhateverWasTold (channel_in self.old) (λ octets told.
            IsErrOf result step_fault.OutOfMemory → bound_of (channel_in self.new) ≡ bound_of (channel_in self.old)) }
        ensures closed { IsDone (channel_in self.old) → (result ≡ Err step_fault.Closed) × (self.new ≡ self.old)
            × (services.new ≡ services.old) }
        ensures limits { limits_of (channel_in self.new) ≡ limits_of (channel_in self.old) }
        ensures channel { channel_of (channel_in self.new) ≡ channel_of (channel_in self.old) }
    {
        match self.advance(services, piece, moment, written) {
            Ok(found) => Ok(found.step),
            Err(fault) => Err(fault),
        }
    }

    /// Whether no frame and no message is unfinished.
    pub(crate) fn is_clean(&self) -> bool
        ensures { WhateverCame (channel_in self.now) (λ octets frames rest. IsTrue result ↔ IsClean frames rest) }
    {
        self.channel.open_count() == 0 && self.channel.held() == 0
    }

    /// What [`step`](Server::step) does, and whether something was answered, and which request.
    pub(crate) fn advance(
        &mut self,
        services: &mut Services,
        piece: &[u8],
        moment: DateTime,
        written: &mut Written,
    ) -> Result<Advanced, StepFault>
        ensures now { WhateverWasTold (channel_in self.old) (λ octets told. AdvanceNow (channel_in self.old) moment
            piece.now result (channel_in self.new) octets told services.old services.new) }
        ensures stores { WhateverWasTold (channel_in self.old) (λ octets told.
            AdvanceStores piece.now result written.new (channel_in self.new) octets told services.old) }
        ensures failed { OnErr result (written.new ≡ []) }
        ensures endpoint { services.new.endpoint ≡ services.old.endpoint }
        ensures memory_limit { services.new.memory_limit ≡ services.old.memory_limit }
        // No node comes, goes or moves.
        ensures ids { keys_of services.new.nodes ≡ keys_of services.old.nodes }
        ensures progress { IfOk result (λ found. StepTakes piece.now found.step) }
        ensures starved { WhateverWasTold (channel_in self.old) (λ octets told.
            IsErrOf result step_fault.OutOfMemory → bound_of (channel_in self.new) ≡ bound_of (channel_in self.old)) }
        ensures closed { IsDone (channel_in self.old) → (result ≡ Err step_fault.Closed) × (self.new ≡ self.old)
            × (services.new ≡ services.old) }
        ensures limits { limits_of (channel_in self.new) ≡ limits_of (channel_in self.old) }
        ensures channel { channel_of (channel_in self.new) ≡ channel_of (channel_in self.old) }
    {
        written.forget();
        let Taken { size, outcome } = next_answered(&mut self.channel, piece, moment);
        match outcome {
            Ok(event) => self.answer(services, size, event, moment, written),
            Err(fault) => match refusal(self.alloc, size, fault) {
                Ok(step) => Ok(Advanced {
                    step,
                    answered: false,
                    request: None,
                }),
                Err(fault) => Err(fault),
            },
        }
    }

    /// The step for an event after this many bytes.
    #[tactic(auto, using(crate::proofs::EndpointStays::left_stays, crate::proofs::EndpointStays::broken_stays, crate::proofs::EndpointStays::broken_ids))]
    fn answer(
        &mut self,
        services: &mut Services,
        taken: usize,
        event: ServerEvent,
        moment: DateTime,
        written: &mut Written,
    ) -> Result<Advanced, StepFault>
        requires some { is_given_up (Ok event) ≡ false }
        requires empty { written.old ≡ [] }
        ensures now { (old : ServerChannel) (piece octets : List ℕ) (told : List Told)
            → AnswersBehind old moment piece taken (Ok event) (channel_in self.old) octets told
            → AdvanceNow old moment piece result (channel_in self.new) octets
            told services.old services.new }
        ensures stores { (old : ServerChannel) (piece octets : List ℕ) (told : List Told)
            → AnswersBehind old moment piece taken (Ok event) (channel_in self.old) octets told
            → AdvanceStores piece result written.new (channel_in self.new) octets told services.old }
        ensures failed { OnErr result (written.new ≡ []) }
        ensures endpoint { services.new.endpoint ≡ services.old.endpoint }
        ensures memory_limit { services.new.memory_limit ≡ services.old.memory_limit }
        // No node comes, goes or moves.
        ensures ids { keys_of services.new.nodes ≡ keys_of services.old.nodes }
        ensures taken { IfOk result (λ found. found.step.taken ≡ taken) }
        ensures starved { (old : ServerChannel) (piece octets : List ℕ) (told : List Told) → Goes old octets told
            → AnswersBehind old moment piece taken (Ok event) (channel_in self.old) octets told
            → IsErrOf result step_fault.OutOfMemory → bound_of (channel_in self.new) ≡ bound_of old }
        ensures limits { limits_of (channel_in self.new) ≡ limits_of (channel_in self.old) }
        ensures channel { channel_of (channel_in self.new) ≡ channel_of (channel_in self.old) }
    {
        match event {
            ServerEvent::NeedMore => Ok(Advanced {
                step: Step::silent(self.alloc, taken, None),
                answered: false,
                request: None,
            }),
            ServerEvent::Send(out) => Ok(Advanced {
                step: Step::saying(taken, out),
                answered: true,
                request: None,
            }),
            ServerEvent::Asked(id, message) => {
                match self.reply_to(services, id, message, moment, written) {
                    Ok(told) => Ok(Advanced {
                        step: Step::saying(taken, told.out),
                        answered: true,
                        request: Some(told.request),
                    }),
                    Err(fault) => Err(fault),
                }
            }
            ServerEvent::Aborted(_) => unreachable!(),
            ServerEvent::Closed => {
                let step = Step::silent(self.alloc, taken, Some(End::Closed));
                Ok(Advanced {
                    step,
                    answered: false,
                    request: None,
                })
            }
        }
    }

    /// Answers a whole message, under its RequestId, and gives the answered request; what it stored
    /// is kept in `written`.
    fn reply_to(
        &mut self,
        services: &mut Services,
        id: u32,
        message: Message,
        moment: DateTime,
        written: &mut Written,
    ) -> Result<AnsweredMessage, StepFault>
        requires { written.old ≡ [] }
        ensures sent { (octets : List ℕ) (before : List Told) (token : ℕ)
            → GoesTelling (channel_in self.old) octets before (Asked id token (concat message))
            → IfOk result (λ told. GoesTelling (channel_in self.new) octets before (Asked id token (concat message))
            × IsReplyAt (channel_of (channel_in self.old)) token (agreed_by before)
            (response.canonical (answered services.old moment (concat message)).1) (next_of (channel_in self.old)) id
            told.out.items (next_of (channel_in self.new))) }
        ensures noted { (octets : List ℕ) (before : List Told) (token : ℕ)
            → GoesTelling (channel_in self.old) octets before (Asked id token (concat message))
            → IfOk result
            (λ told.
            told.request ≡ request_answered (lane_at (channel_of (channel_in self.old)) token (agreed_by before))
            services.old moment (concat message)) }
        ensures stored { IfOk result (λ told. written.new ≡ stored_of services.old (concat message)) }
        ensures forgotten { OnErr result (written.new ≡ []) }
        ensures state { IfOk result (λ told. services.new ≡ (answered services.old moment (concat message)).0) }
        ensures failed { (octets : List ℕ) (before : List Told) (token : ℕ)
            → GoesTelling (channel_in self.old) octets before (Asked id token (concat message))
            → OnErr result ((result ≡ Err step_fault.OutOfMemory) × IsDone (channel_in self.new)) }
        ensures broken { OnErr result ((services.new ≡ services.old)
            ⊎ (services.new ≡ (answered services.old moment (concat message)).0)) }
        ensures bound { bound_of (channel_in self.new) ≡ bound_of (channel_in self.old) }
        ensures limits { limits_of (channel_in self.new) ≡ limits_of (channel_in self.old) }
        ensures channel { channel_of (channel_in self.new) ≡ channel_of (channel_in self.old) }
    {
        let most = self.channel.most_octets();
        let told = services.reply_to_message(self.alloc, &message, moment, most);
        let Replied {
            body,
            request,
            results,
        } = match told {
            Ok(told) => told,
            Err(_) => {
                drop(message);
                self.channel.end();
                return Err(StepFault::OutOfMemory);
            }
        };
        written.keep(message, results);
        let mut body = body;
        match self.channel.respond_with(id, &mut body) {
            Ok(sent) => {
                let request = request.sent_as(sent.is_abort);
                Ok(AnsweredMessage {
                    out: sent.octets,
                    request,
                })
            }
            Err(ReplyFault::OutOfMemory) => {
                written.forget();
                Err(StepFault::OutOfMemory)
            }
            Err(ReplyFault::NotOpen) => {
                written.forget();
                Err(StepFault::Closed)
            }
        }
    }
}
