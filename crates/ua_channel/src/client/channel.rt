//! A client's channel.

ghost use Rattle.std.specs.Prelude.{◌≡◌, ◌≤◌, ◌<◌, ◌++◌, ◌∷◌, [], List, ℕ, length, take};
ghost use Rattle.std.specs.Prelude.{IsTrue, Some, Err, IfOk, IsErrOf, OnOk, OnErr};
ghost use Rattle.ua_wire.specs.Counted.{text};
ghost use Rattle.ua_builtin.specs.Reasons.{first_reason};
ghost use Rattle.ua_frame.specs.Frames.{frame_octets};
ghost use Rattle.ua_channel.specs.Asks.{Placed, asked_in, next_id};
ghost use Rattle.ua_channel.specs.Asks.Asking.{Call, Renewal};
ghost use Rattle.ua_channel.specs.Client.{ClientStands, IsClientDone, SameClient, WhateverPassed};
ghost use Rattle.ua_channel.specs.Client.{client_limits, url_of, client_next, client_bound};
ghost use Rattle.ua_channel.specs.Client.{client_bound_behind, held_octets, call_refused, renewal_refused};
ghost use Rattle.ua_channel.specs.Client.{closing_refused, JudgesLength, SendsCall, SendsRenewal, SendsClosing};
ghost use Rattle.ua_channel.specs.Client.{WhateverWasHeard, IsCalledBetween};
ghost use Rattle.ua_channel.specs.ClientAnswers.{ClientAnswers, ClientProgress};
ghost use Rattle.ua_channel.specs.ClientAsks.{call_reasons, closing_reasons, renewing_reasons};
ghost use Rattle.ua_channel.specs.ClientAsks.{AnswersFor, IsCloseWith, IsRenewalWith, JudgesBy};
ghost use Rattle.ua_channel.specs.inside.ClientParts.{AnswersEvent, EndsWithEvent, outcome_counted};
ghost use Rattle.ua_channel.specs.ClientSends.{AreFramesOf, appended, hello_frame, hello_to};
ghost use Rattle.ua_channel.specs.ClientTold.{ClientTold};
ghost use Rattle.ua_channel.specs.Received.{received};
ghost use Rattle.ua_channel.specs.declared.client.fault.AskFault.TheVariants.{NotOpen};
ghost use Rattle.ua_channel.specs.declared.client.fault.ClientTakeFault.TheVariants.{Closed, OutOfMemory};

use crate::client::address::Address;
use crate::client::asked_call::AskedCall;
use crate::client::event::{ClientEvent, Event};
use crate::client::fault::{AskFault, ClientTakeFault};
use crate::client::ids::FIRST_ID;
use crate::client::octets::{close_octets, hello_octets, open_octets};
use crate::client::phase::Phase;
use crate::client::rules::ClientRules;
use crate::end_core::EndCore;
use crate::numbers::Numbers;
use crate::taken::Taken;
use std::alloc::{AllocError, Global};
use ua_builtin::{DateTime, UaString};
use ua_frame::{FrameReader, Gate, Kind, LEAST_BUFFER_SIZE, Limits};

/// The client's end of a connection and its SecureChannel (OPC 10000-6, 6.7 and 7.1), without input
/// and output: it takes the bytes that were received, and returns the bytes to send.
///
/// First send [`hello`](ClientChannel::hello), then what [`take`](ClientChannel::take) returns with
/// `Send`; after `Open` the client may send calls.
#[derive(Debug)]
pub struct ClientChannel {
    address: Address,
    end: EndCore<ClientRules, Phase>,
}

// By hand, so that a function that lets a channel go calls this, and proves nothing of what lies in
// it.
impl Drop for ClientChannel {
    fn drop(self) {
        let ClientChannel { address, end } = self;
        drop(address);
        drop(end);
    }
}

impl ClientChannel {
    /// A client with these limits, for the server of this URL, that has sent and received nothing.
    pub fn new(alloc: Global, limits: Limits, url: UaString) -> ClientChannel
        requires { IsTrue (text.encodable url) }
        ensures stands { ClientStands result [] [] [] [] }
        ensures limits { client_limits result ≡ limits }
        ensures url { url_of result ≡ url }
        ensures next { client_next result ≡ 2 }
    {
        let gate = Gate::new(LEAST_BUFFER_SIZE)
            .taking(Kind::Ack)
            .taking(Kind::Err);
        let mut numbers = Numbers::new();
        numbers.step(); // The OPN takes the first one.
        ClientChannel {
            address: Address { url },
            end: EndCore {
                alloc,
                rules: ClientRules { limits },
                reader: FrameReader::new(alloc, gate),
                numbers,
                bound: LEAST_BUFFER_SIZE as usize,
                phase: Phase::Waiting,
            },
        }
    }

    // ---- memory

    /// The number of bytes held that are incomplete: of a frame, and of unfinished messages.
    pub fn held(&self) -> usize
        ensures held { WhateverPassed self.now (λ asks octets frames rest. result ≡ held_octets frames rest) }
        ensures bound { WhateverPassed self.now (λ asks octets frames rest. result ≤ client_bound self.now) }
        ensures done { IsClientDone self.now → result ≡ 0 }
    {
        self.end.held()
    }

    /// The maximum number of bytes that may be held: 8192 before the ACK; after it the largest
    /// frame that the server sends, and 4 times the largest message that this end accepts.
    #[inline]
    pub fn bound(&self) -> usize
        ensures stands { WhateverPassed self.now (λ asks octets frames rest.
            result ≡ client_bound_behind (client_limits self.now) (received frames).ack) }
        ensures is { result ≡ client_bound self.now }
    {
        self.end.bound
    }

    // ---- what is sent

    /// The URL of the server.
    #[inline]
    pub fn url(&self) -> &UaString
        ensures { result.now ≡ url_of self.now }
    {
        &self.address.url
    }

    /// The RequestId of the next call, renewal or CLO; 2 where the channel failed or was closed.
    pub fn next_id(&self) -> u32
        ensures stands { WhateverPassed self.now (λ asks octets frames rest. result ≡ next_id (asked_in asks)) }
        ensures done { IsClientDone self.now → result ≡ 2 }
    {
        match &self.end.phase {
            Phase::Open(talking) => talking.next,
            _ => FIRST_ID,
        }
    }

    /// The HEL that begins the connection, whatever was received so far.
    pub fn hello(&self) -> Result<Vec<u8>, AllocError>
        ensures { IfOk result
            (λ out. out.items ≡ frame_octets (hello_frame (hello_to (client_limits self.now) (url_of self.now)))) }
    {
        hello_octets(self.end.alloc, &self.end.rules.limits, &self.address.url)
    }

    /// Why a call with a body of `len` bytes would be refused after `before` more calls, each of
    /// which succeeds. Failing allocations are not considered, and the function allocates nothing.
    pub fn judge(&self, before: usize, len: usize) -> Result<(), AskFault>
        ensures judges { JudgesLength self.now before len result }
        ensures stands { WhateverPassed self.now (λ asks octets frames rest.
            JudgesBy (λ body. first_reason (call_reasons (received frames) (asked_in asks) before body)) len result) }
    {
        match &self.end.phase {
            Phase::Open(talking) => talking.judge(before, len),
            _ => Err(AskFault::NotOpen),
        }
    }

    /// Sends a call with this body: appends its chunks to `out`, and returns where their frames
    /// end, and the RequestId under which it is answered. A fault leaves `out` as it was.
    pub fn call(&mut self, body: &[u8], out: &mut Vec<u8>) -> Result<AskedCall, AskFault>
        requires { 0 < length body.now }
        ensures answers { AnswersFor (call_refused self.old 0 body.now) result }
        ensures behind { OnOk result (out.new.items ≡ out.old.items ++ appended out.old.items out.new.items) }
        ensures len { IfOk result (λ asked. asked.len ≡ length (appended out.old.items out.new.items)) }
        ensures sent { IfOk result (λ asked. SendsCall self.old (client_next self.old) body.now asked.id
            (appended out.old.items out.new.items) (client_next self.new)) }
        ensures frames { IfOk result
            (λ asked. AreFramesOf asked.frame_len (appended out.old.items out.new.items)) }
        // The same by what was received and sent, also inside a frame or a message.
        ensures refuses { WhateverPassed self.old (λ asks octets frames rest.
            AnswersFor (first_reason (call_reasons (received frames) (asked_in asks) 0 body.now)) result) }
        ensures calls { WhateverPassed self.old (λ asks octets frames rest. IfOk result (λ asked.
            IsCalledBetween self.old self.new asks frames body.now asked.id (appended out.old.items out.new.items))) }
        ensures stands { WhateverPassed self.old (λ asks octets frames rest. IfOk result (λ asked.
            ClientStands self.new (asks ++ (length octets, Call asked.id) ∷ []) octets frames rest)) }
        ensures err { OnErr result (out.new.items ≡ out.old.items) }

        // After a fault the channel is in the state before, and sends next what it would have sent.
        ensures kept { WhateverPassed self.old (λ asks octets frames rest.
            OnErr result (ClientStands self.new asks octets frames rest)) }
        ensures next { OnErr result (client_next self.new ≡ client_next self.old) }
        ensures done { IsClientDone self.old → (result ≡ Err NotOpen) × (self.new ≡ self.old) }
        ensures same { SameClient self.old self.new }
        ensures bound { client_bound self.new ≡ client_bound self.old }
    {
        match &mut self.end.phase {
            Phase::Open(talking) => talking.ask(body, &mut self.end.numbers, out),
            _ => Err(AskFault::NotOpen),
        }
    }

    /// The chunks that [`call`](ClientChannel::call) appends, and the RequestId.
    pub fn ask(&mut self, body: &[u8]) -> Result<(u32, Vec<u8>), AskFault>
        requires { 0 < length body.now }
        ensures answers { AnswersFor (call_refused self.old 0 body.now) result }
        ensures sent { IfOk result (λ r. SendsCall self.old (client_next self.old) body.now r.0 r.1.items
            (client_next self.new)) }
        // The same by what was received and sent, also inside a frame or a message.
        ensures refuses { WhateverPassed self.old (λ asks octets frames rest.
            AnswersFor (first_reason (call_reasons (received frames) (asked_in asks) 0 body.now)) result) }
        ensures calls { WhateverPassed self.old (λ asks octets frames rest.
            IfOk result (λ r. IsCalledBetween self.old self.new asks frames body.now r.0 r.1.items)) }
        ensures stands { WhateverPassed self.old (λ asks octets frames rest.
            IfOk result (λ r. ClientStands self.new (asks ++ (length octets, Call r.0) ∷ []) octets frames rest)) }

        // After a fault the channel is in the state before, and sends next what it would have sent.
        ensures kept { WhateverPassed self.old (λ asks octets frames rest.
            OnErr result (ClientStands self.new asks octets frames rest)) }
        ensures next { OnErr result (client_next self.new ≡ client_next self.old) }
        ensures done { IsClientDone self.old → (result ≡ Err NotOpen) × (self.new ≡ self.old) }
        ensures same { SameClient self.old self.new }
        ensures bound { client_bound self.new ≡ client_bound self.old }
    {
        let mut out = Vec::new(self.end.alloc);
        match self.call(body, &mut out) {
            Ok(asked) => Ok((asked.id, out)),
            Err(fault) => Err(fault),
        }
    }

    /// The OPN that renews the token (OPC 10000-4, 5.6.2), and its RequestId. Its timestamp is
    /// `moment`.
    pub fn renew(&mut self, moment: DateTime) -> Result<(u32, Vec<u8>), AskFault>
        ensures answers { AnswersFor (renewal_refused self.old) result }
        ensures sent { IfOk result (λ r. SendsRenewal self.old (client_next self.old) moment r.0 r.1.items
            (client_next self.new)) }
        // The same by what was received and sent.
        ensures refuses { WhateverPassed self.old (λ asks octets frames rest.
            AnswersFor (first_reason (renewing_reasons (received frames) (asked_in asks))) result) }
        ensures renews { WhateverPassed self.old (λ asks octets frames rest. IfOk result (λ r. IsRenewalWith
            (received frames) (asked_in asks) (client_next self.old) moment r.0 r.1.items (client_next self.new))) }
        ensures stands { WhateverPassed self.old (λ asks octets frames rest.
            IfOk result (λ r. ClientStands self.new (asks ++ (length octets, Renewal r.0) ∷ []) octets frames rest)) }
        ensures unchanged { OnErr result (self.new ≡ self.old) }
        ensures same { SameClient self.old self.new }
        ensures bound { client_bound self.new ≡ client_bound self.old }
    {
        match &mut self.end.phase {
            Phase::Open(talking) => talking.renew(self.end.alloc, moment, &mut self.end.numbers),
            _ => Err(AskFault::NotOpen),
        }
    }

    /// The CLO, after which the channel is closed. Its timestamp is `moment`.
    pub fn close(&mut self, moment: DateTime) -> Result<Vec<u8>, AskFault>
        ensures answers { AnswersFor (closing_refused self.old) result }
        ensures sent { IfOk result (λ out. SendsClosing self.old (client_next self.old) moment out.items) }
        // The same by what was received and sent.
        ensures refuses { WhateverPassed self.old (λ asks octets frames rest.
            AnswersFor (first_reason (closing_reasons (received frames))) result) }
        ensures closes { WhateverPassed self.old (λ asks octets frames rest. IfOk result (λ out.
            IsCloseWith (received frames) (asked_in asks) (client_next self.old) moment out.items)) }
        ensures done { OnOk result (IsClientDone self.new) }
        ensures unchanged { OnErr result (self.new ≡ self.old) }
        ensures same { SameClient self.old self.new }
        ensures bound { client_bound self.new ≡ client_bound self.old }
    {
        let out = self.closing(moment)?;
        self.end.fail();
        Ok(out)
    }

    fn closing(&self, moment: DateTime) -> Result<Vec<u8>, AskFault>
        ensures answers { AnswersFor (closing_refused self.now) result }
        ensures sent { IfOk result (λ out. SendsClosing self.now (client_next self.now) moment out.items) }
        ensures refuses { WhateverPassed self.now (λ asks octets frames rest.
            AnswersFor (first_reason (closing_reasons (received frames))) result) }
        ensures closes { WhateverPassed self.now (λ asks octets frames rest. IfOk result (λ out.
            IsCloseWith (received frames) (asked_in asks) (client_next self.now) moment out.items)) }
    {
        match &self.end.phase {
            Phase::Open(talking) => {
                let (channel, token, id) = (talking.channel, talking.newest, talking.next);
                let out = close_octets(
                    self.end.alloc,
                    channel,
                    token,
                    self.end.numbers.number(),
                    id,
                    moment,
                )?;
                Ok(out)
            }
            _ => Err(AskFault::NotOpen),
        }
    }

    // ---- what is received

    /// The event that is returned. `moment` is the timestamp of an OPN request.
    fn answer(&mut self, event: Event, moment: DateTime) -> Result<ClientEvent, ClientTakeFault>
        ensures answers { (asks : List Placed) (octets : List ℕ) (told : List ClientTold)
            → EndsWithEvent event self.old asks octets told → AnswersEvent moment result self.new asks octets told }
        ensures same { SameClient self.old self.new }
        ensures next { client_next self.new ≡ client_next self.old }
    {
        match event {
            Event::Agreed(_) => match open_octets(self.end.alloc, moment) {
                Ok(out) => Ok(ClientEvent::Send(out)),
                Err(_) => {
                    self.end.fail();
                    Err(ClientTakeFault::OutOfMemory)
                }
            },
            Event::Opened(_, _) => Ok(ClientEvent::Open),
            Event::Answered(id, message) => Ok(ClientEvent::Answered(id, message)),
            Event::Aborted(id, code) => Ok(ClientEvent::Aborted(id, code)),
            Event::Renewed(token) => Ok(ClientEvent::Renewed(token)),
        }
    }

    /// Takes bytes up to the end of the first frame that has an event, or else the whole fragment.
    /// `moment` is the timestamp of the OPN request.
    fn go_on(
        &mut self,
        piece: &[u8],
        moment: DateTime,
    ) -> Taken<Result<ClientEvent, ClientTakeFault>>
        ensures answers { WhateverWasHeard self.old
            (ClientAnswers moment piece.now (outcome_counted result.size result.outcome) self.new) }
        ensures progress { ClientProgress piece.now (outcome_counted result.size result.outcome) }
        ensures same { SameClient self.old self.new }
        ensures next { client_next self.new ≡ client_next self.old }
    {
        let Taken { size, outcome } = self.end.next_event(piece);
        match outcome {
            Ok(None) => Taken {
                size,
                outcome: Ok(ClientEvent::NeedMore),
            },
            Ok(Some(event)) => Taken {
                size,
                outcome: self.answer(event, moment),
            },
            Err(fault) => Taken {
                size,
                outcome: ClientEvent::from_fault(fault),
            },
        }
    }

    /// Takes bytes up to the end of the first frame that has an event or needs bytes to be sent, or
    /// else the whole fragment, and returns how many it took. `moment` is the timestamp of the OPN
    /// request. At a header that is refused, the bytes taken end at its eighth byte. After a
    /// failure the channel is closed.
    pub fn take(
        &mut self,
        piece: &[u8],
        moment: DateTime,
    ) -> Result<(usize, ClientEvent), ClientTakeFault>
        ensures answers { WhateverWasHeard self.old (ClientAnswers moment piece.now result self.new) }
        ensures progress { ClientProgress piece.now result }
        ensures closed { IsClientDone self.old → (result ≡ Err Closed) × (self.new ≡ self.old) }
        // After `OutOfMemory` the bound is what it was before the call.
        ensures starved { IsErrOf result OutOfMemory → client_bound self.new ≡ client_bound self.old }
        ensures same { SameClient self.old self.new }
        ensures next { client_next self.new ≡ client_next self.old }
    {
        if let Phase::Done = self.end.phase {
            return Err(ClientTakeFault::Closed);
        }
        let bound = self.end.bound;
        let Taken { size, outcome } = self.go_on(piece, moment);
        match outcome {
            Ok(event) => Ok((size, event)),
            Err(fault) => {
                self.end.bound = bound;
                Err(fault)
            }
        }
    }
}
