//! The reply to a message.

ghost use Rattle.std.specs.Prelude.{◌≡◌, ◌<◌, ◌⊎◌, IsTrue, IfOk, OnErr, None, Some, length};
ghost use Rattle.std.specs.List.{concat};
ghost use Rattle.ua_builtin.specs.declared.date_time.DateTime.{DateTime};
ghost use Rattle.ua_services.specs.Request.{kind_of_request, read_as_request, request_read};
ghost use Rattle.ua_services.specs.Response.{header_of_response, response};
ghost use Rattle.ua_server.specs.Answer.{answer, fault_of};
ghost use Rattle.ua_server.specs.Reply.{IsBodyWithin, answered};
ghost use Rattle.ua_server.specs.Requests.{encoding_number, items_asked, request_answered};
ghost use Rattle.ua_server.specs.inside.Replying.{IsRepliedTo};
ghost use Rattle.ua_server.specs.Stored.{results_of};

use crate::attributes::item_count;
use crate::services::Services;
use crate::watch::{AnsweredRequest, items_asked};
use std::alloc::{AllocError, Global};
use ua_builtin::{
    DateTime, MOST_LEVELS, NodeId, Octets, ReadFault, Source, StatusCode, Wire, WriteFault,
};
use ua_chunk::Message;
use ua_nodes::values_that_their_nodes_cannot_take_change_no_write;
use ua_opening::standard_number;
use ua_services::{
    ReadRequest, Request, RequestFault, RequestKind, Response, UaArray, WriteRequest, empty_body,
    read_read_request, read_request_kind, read_request_of_kind, read_write_request_for,
    write_response,
};

/// The body of the reply to a message, and what it answers.
#[derive(Debug, Drop)]
pub(crate) struct Replied {
    /// The body.
    pub body: Vec<u8>,
    /// The answered request.
    pub request: AnsweredRequest,
    /// The results of a Write; null of another request.
    pub results: UaArray<StatusCode>,
}

/// The body of the response to a request, its ServiceResult, and the results of a Write.
#[derive(Debug, Drop)]
pub(crate) struct AnswerBody {
    /// The body.
    pub body: Vec<u8>,
    /// The ServiceResult.
    pub code: StatusCode,
    /// The results of a Write; null of another request.
    pub results: UaArray<StatusCode>,
}

impl AnswerBody {
    ghost use Rattle.std.specs.Prelude.{◌≡◌, None, Some};

    /// The body of a response that is not that of a Write.
    pub(crate) fn new(body: Vec<u8>, code: StatusCode) -> AnswerBody
        ensures body { result.body ≡ body }
        ensures code { result.code ≡ code }
        ensures results { result.results ≡ None }
    {
        AnswerBody {
            body,
            code,
            results: UaArray::null(),
        }
    }

    /// The reply of this body to a request of this kind, for so many items.
    #[inline(always)]
    fn replied(self, kind: RequestKind, items: usize) -> Replied
        ensures body { result.body ≡ self.body }
        ensures request { result.request
            ≡ record { kind = Some kind; encoding = None; items = items; code = self.code } }
        ensures results { result.results ≡ self.results }
    {
        Replied {
            body: self.body,
            request: AnsweredRequest {
                kind: Some(kind),
                encoding: None,
                items,
                code: self.code,
            },
            results: self.results,
        }
    }
}

impl Services {
    /// The body of the reply to a message with this body: the response to the request that the body
    /// encodes, or a ServiceFault where it encodes none. If an allocation fails, the state is as it
    /// was, or as the message leaves it.
    #[tactic(auto, using(crate::proofs::GivenUp::whole_body))]
    pub fn reply<S: Source>(
        &mut self,
        alloc: Global,
        src: &mut S,
        moment: DateTime,
    ) -> Result<Vec<u8>, AllocError>
        ensures body { IfOk result
            (λ body. body.items ≡ response.canonical (answered self.old moment (S.octets src.old)).1) }
        ensures some { IfOk result (λ body. 0 < length body.items) }
        ensures state { IfOk result (λ body. self.new ≡ (answered self.old moment (S.octets src.old)).0) }
        ensures refused { OnErr result
            ((self.new ≡ self.old) ⊎ (self.new ≡ (answered self.old moment (S.octets src.old)).0)) }
    {
        match self.reply_telling(alloc, src, moment, None) {
            Ok(Replied { body, results, .. }) => {
                drop(results);
                Ok(body)
            }
            Err(error) => Err(error),
        }
    }

    /// Does what [`reply`](Services::reply) does, and also gives the answered request and the
    /// results of a Write. The results of a Read are dropped once the body has more than `most`
    /// bytes. Of a Write no value is kept that its node could not take: its item is refused, at the
    /// latest for the type, or all are before a session is activated.
    pub(crate) fn reply_telling<S: Source>(
        &mut self,
        alloc: Global,
        src: &mut S,
        moment: DateTime,
        most: Option<usize>,
    ) -> Result<Replied, AllocError>
        ensures body { IfOk result (λ told.
            IsBodyWithin most (response.canonical (answered self.old moment (S.octets src.old)).1) told.body.items) }
        ensures some { IfOk result (λ told. 0 < length told.body.items) }
        ensures request { IfOk result
            (λ told. told.request ≡ request_answered None self.old moment (S.octets src.old)) }
        ensures results { IfOk result
            (λ told. told.results ≡ results_of (answered self.old moment (S.octets src.old)).1) }
        ensures state { IfOk result (λ told. self.new ≡ (answered self.old moment (S.octets src.old)).0) }
        ensures refused { OnErr result
            ((self.new ≡ self.old) ⊎ (self.new ≡ (answered self.old moment (S.octets src.old)).0)) }
    {
        let mut head = src.fork();
        match self.reply_to_request(alloc, src, moment, most) {
            Ok(told) => Ok(told),
            Err(RequestFault::Unsupported(handle)) => {
                let code = StatusCode::BAD_SERVICE_UNSUPPORTED;
                self.misread(alloc, &mut head, handle, code, moment)
            }
            Err(RequestFault::Unreadable(handle)) => {
                let code = StatusCode::BAD_DECODING_ERROR;
                self.misread(alloc, &mut head, handle, code, moment)
            }
            Err(RequestFault::OutOfMemory) => Err(AllocError),
        }
    }

    /// Replies to the request that a body is. A Read and a Write are read where they are answered: a
    /// request of any kind is as large as the largest one, and would be moved twice.
    #[inline(always)]
    fn reply_to_request<S: Source>(
        &mut self,
        alloc: Global,
        src: &mut S,
        moment: DateTime,
        most: Option<usize>,
    ) -> Result<Replied, RequestFault>
        ensures { IsRepliedTo most (request_read (S.octets src.old)) self.old moment self.new result }
    {
        let kind = read_request_kind(alloc, src)?;
        match kind {
            RequestKind::Read => self.reply_to_read(alloc, src, moment, most),
            RequestKind::Write => self.reply_to_write(alloc, src, moment, most),
            _ => self.reply_to_other(alloc, src, kind, moment, most),
        }
    }

    /// Replies to the Read that a body is behind its NodeId.
    #[inline(never)]
    fn reply_to_read<S: Source>(
        &self,
        alloc: Global,
        src: &mut S,
        moment: DateTime,
        most: Option<usize>,
    ) -> Result<Replied, RequestFault>
        ensures { IsRepliedTo most (read_as_request RequestKind.Read (S.octets src.old)) self.now moment self.now
            result }
    {
        let mut message = ReadRequest::empty();
        read_read_request(alloc, src, &mut message)?;
        let items = item_count(&message.nodes_to_read);
        match self.read_body(alloc, &message, moment, most) {
            Ok(answer) => Ok(answer.replied(RequestKind::Read, items)),
            Err(_) => Err(RequestFault::OutOfMemory),
        }
    }

    /// Replies to the Write that a body is behind its NodeId. No value is kept that its node could
    /// not take now: what is kept is answered as the Write itself is.
    #[inline(never)]
    fn reply_to_write<S: Source>(
        &mut self,
        alloc: Global,
        src: &mut S,
        moment: DateTime,
        most: Option<usize>,
    ) -> Result<Replied, RequestFault>
        ensures { IsRepliedTo most (read_as_request RequestKind.Write (S.octets src.old)) self.old moment self.new
            result }
    {
        values_that_their_nodes_cannot_take_change_no_write(&self.nodes);
        let mut message = WriteRequest::empty();
        read_write_request_for(alloc, src, self, &mut message)?;
        let items = item_count(&message.nodes_to_write);
        match self.write_body(alloc, &mut message, moment) {
            Ok(answer) => Ok(answer.replied(RequestKind::Write, items)),
            Err(_) => Err(RequestFault::OutOfMemory),
        }
    }

    /// Replies to the request of another kind that a body is behind its NodeId.
    #[inline(never)]
    fn reply_to_other<S: Source>(
        &mut self,
        alloc: Global,
        src: &mut S,
        kind: RequestKind,
        moment: DateTime,
        most: Option<usize>,
    ) -> Result<Replied, RequestFault>
        ensures { IsRepliedTo most (read_as_request kind (S.octets src.old)) self.old moment self.new result }
    {
        let request = read_request_of_kind(alloc, src, kind)?;
        let mut request = request;
        let told = self.body_for(alloc, &mut request, moment, most);
        drop(request);
        match told {
            Ok(told) => Ok(told),
            Err(_) => Err(RequestFault::OutOfMemory),
        }
    }

    /// What [`reply_telling`](Services::reply_telling) gives for a message. Nearly each has one
    /// part, whose bytes are read faster than those of several.
    pub(crate) fn reply_to_message(
        &mut self,
        alloc: Global,
        message: &Message,
        moment: DateTime,
        most: Option<usize>,
    ) -> Result<Replied, AllocError>
        ensures body { IfOk result (λ told.
            IsBodyWithin most (response.canonical (answered self.old moment (concat message.now)).1) told.body.items) }
        ensures some { IfOk result (λ told. 0 < length told.body.items) }
        ensures request { IfOk result
            (λ told. told.request ≡ request_answered None self.old moment (concat message.now)) }
        ensures results { IfOk result
            (λ told. told.results ≡ results_of (answered self.old moment (concat message.now)).1) }
        ensures state { IfOk result (λ told. self.new ≡ (answered self.old moment (concat message.now)).0) }
        ensures refused { OnErr result
            ((self.new ≡ self.old) ⊎ (self.new ≡ (answered self.old moment (concat message.now)).0)) }
    {
        match message.parts() {
            [part] => self.reply_telling(alloc, &mut Octets::new(part.as_slice()), moment, most),
            _ => self.reply_telling(alloc, &mut message.source(), moment, most),
        }
    }

    /// The body of the response to a request, the answered request, and the results of a Write.
    /// What the response or the nodes are to hold is taken out of the request.
    #[tactic(auto, using(crate::proofs::Answered::kept_by, crate::proofs::Stores::read_results, crate::proofs::Stores::other_results))]
    fn body_for(
        &mut self,
        alloc: Global,
        request: &mut Request,
        moment: DateTime,
        most: Option<usize>,
    ) -> Result<Replied, AllocError>
        ensures body { IfOk result
            (λ told. IsBodyWithin most (response.canonical (answer self.old moment request.old).1) told.body.items) }
        ensures some { IfOk result (λ told. 0 < length told.body.items) }
        ensures request { IfOk result
            (λ told. told.request ≡ record {
              kind = Some (kind_of_request request.old);
              encoding = None;
              items = items_asked request.old;
              code = (header_of_response (answer self.old moment request.old).1).service_result;
            }) }
        ensures results { IfOk result (λ told. told.results ≡ results_of (answer self.old moment request.old).1) }
        ensures state { IfOk result (λ told. self.new ≡ (answer self.old moment request.old).0) }
        ensures refused { OnErr result
            ((self.new ≡ self.old) ⊎ (self.new ≡ (answer self.old moment request.old).0)) }
    {
        let kind = Some(request.kind());
        let items = items_asked(request);
        let AnswerBody {
            body,
            code,
            results,
        } = match request {
            Request::Read(message) => self.read_body(alloc, message, moment, most)?,
            Request::Write(message) => self.write_body(alloc, message, moment)?,
            other => {
                let response = self.respond(alloc, other, moment)?;
                let code = response.header().service_result;
                AnswerBody::new(body_of(alloc, response)?, code)
            }
        };
        let request = AnsweredRequest {
            kind,
            encoding: None,
            items,
            code,
        };
        Ok(Replied {
            body,
            request,
            results,
        })
    }

    /// The body of the ServiceFault that answers what is no request, which the source begins with,
    /// and what a [`Watch`](crate::Watch) gets of it.
    fn misread<S: Source>(
        &self,
        alloc: Global,
        head: &mut S,
        handle: u32,
        code: StatusCode,
        moment: DateTime,
    ) -> Result<Replied, AllocError>
        ensures body { IfOk result (λ told. told.body.items ≡ response.canonical (fault_of handle code.code moment)) }
        ensures some { IfOk result (λ told. 0 < length told.body.items) }
        ensures request { IfOk result (λ told. told.request
            ≡ record { kind = None; encoding = encoding_number (S.octets head.old); items = 0; code = code }) }
        ensures results { IfOk result (λ told. told.results ≡ None) }
    {
        let encoding = encoding_ahead(alloc, head)?;
        let body = body_of(alloc, self.fault(handle, code, moment))?;
        let request = AnsweredRequest {
            kind: None,
            encoding,
            items: 0,
            code,
        };
        Ok(Replied {
            body,
            request,
            results: UaArray::null(),
        })
    }
}

/// The number of the encoding that bytes begin with, if it is one of namespace 0.
fn encoding_ahead<S: Source>(alloc: Global, src: &mut S) -> Result<Option<u32>, AllocError>
    ensures { IfOk result (λ number. number ≡ encoding_number (S.octets src.old)) }
{
    match NodeId::read_value(alloc, src, MOST_LEVELS) {
        Ok(id) => Ok(standard_number(&id)),
        Err(ReadFault::NoValue) => Ok(None),
        Err(ReadFault::OutOfMemory) => Err(AllocError),
    }
}

/// The body of a response that can be written, which is let go of.
#[tactic(auto, using(crate::proofs::Replies::response_takes_some))]
pub(crate) fn body_of(alloc: Global, message: Response) -> Result<Vec<u8>, AllocError>
    requires { IsTrue (response.encodable message) }
    ensures body { IfOk result (λ body. body.items ≡ response.canonical message) }
    ensures some { IfOk result (λ body. 0 < length body.items) }
{
    let mut body = empty_body(alloc);
    let written = write_response(&message, &mut body);
    drop(message);
    match written {
        Ok(()) => Ok(body),
        Err(WriteFault::OutOfMemory) => Err(AllocError),
        Err(WriteFault::NotWritable) => unreachable!(),
    }
}
