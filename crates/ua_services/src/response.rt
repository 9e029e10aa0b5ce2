//! Responses.

ghost use Rattle.std.specs.Prelude.{◌≡◌, ◌≤◌, ◌++◌, ◌⊎◌, ℕ, List, length, IfOk};
ghost use Rattle.std.specs.Prelude.{IfErr, OnOk, OnErr, IsErrOf, IsFalse, ◌↔◌};
ghost use Rattle.ua_builtin.specs.Exact.{image_read, skipped};
ghost use Rattle.ua_builtin.specs.Format.{most_levels, Gives, StaysBehind};
ghost use Rattle.ua_wire.specs.declared.fault.WriteFault.TheVariants.{NotWritable};
ghost use Rattle.ua_opening.specs.Message.{IsBody, kind_at};
ghost use Rattle.ua_services.specs.Response.{response, responses, response_kind, response_of_kind, unread_by};
ghost use Rattle.ua_services.specs.Response.{read_as_response, response_kind_alone};
ghost use Rattle.ua_services.specs.Response.{response_read, MisreadResponse};

use crate::fault::ResponseFault;
use crate::kinds::{
    kind_of, message_of_kind, name_of, number_of, numbered, skip_of_kind, skip_structure,
};
use crate::request::RequestKind;
use crate::{by_kind, requests, responses};
use std::alloc::{AllocError, Global};
use ua_builtin::{MOST_LEVELS, NodeId, ReadFault, Skip, Source, Wire, WriteFault};
use ua_opening::{ResponseHeader, ServiceFault, append_message, empty_body, standard_number};
use ua_structures::{
    ActivateSessionResponse, CloseSessionResponse, CreateSessionResponse, GetEndpointsResponse,
    ReadResponse, WriteResponse,
};

/// The kinds of response, as [`requests`](crate::requests) has those of request.
#[macro_export]
macro_rules! responses {
    ($each:ident $(, $($words:tt)+)?) => {
        $each!(Response ResponseKind [
            GetEndpoints(GetEndpointsResponse) = 431,
            CreateSession(CreateSessionResponse) = 464,
            ActivateSession(ActivateSessionResponse) = 470,
            CloseSession(CloseSessionResponse) = 476,
            Read(ReadResponse) = 634,
            Write(WriteResponse) = 676,
            ServiceFault(ServiceFault) = 397,
        ] $($($words)+)?)
    };
}

/// The kinds of responses, each with its own encoding (OPC 10000-6, A.3).
#[derive(Clone, Copy, PartialEq, Eq, Debug)]
pub enum ResponseKind {
    GetEndpoints,
    CreateSession,
    ActivateSession,
    CloseSession,
    Read,
    Write,
    ServiceFault,
}

impl ResponseKind {
    ghost use Rattle.std.specs.Prelude.{◌≡◌};
    ghost use Rattle.ua_services.specs.Response.{response_kind_name, responses};

    /// The name of the structure of a response of this kind, such as `ReadResponse`.
    pub fn name(self) -> &'static str
        ensures { result.now ≡ response_kind_name self }
    {
        responses!(name_of, self)
    }

    /// The number of the encoding of this kind in namespace 0 (OPC 10000-6, A.3).
    pub fn encoding(self) -> u32
        ensures { result ≡ responses.number self }
    {
        responses!(number_of, self)
    }
}

/// A response, as the body of a message (OPC 10000-6, 5.2.9).
#[derive(Debug)]
pub enum Response {
    GetEndpoints(GetEndpointsResponse),
    CreateSession(CreateSessionResponse),
    ActivateSession(ActivateSessionResponse),
    CloseSession(CloseSessionResponse),
    Read(ReadResponse),
    Write(WriteResponse),
    ServiceFault(ServiceFault),
}

// By hand, so that a crate that lets a response go calls this, and proves nothing of what lies in
// it.
impl Drop for Response {
    fn drop(self) {
        responses!(by_kind, self, message, _number => drop(message))
    }
}

impl Response {
    ghost use Rattle.std.specs.Prelude.{◌≡◌, ◌≢◌, ◌↔◌, IsTrue, IfOk, IfErr};
    ghost use Rattle.ua_services.specs.Response.{kind_of_response, header_of_response, Answers};
    ghost use Rattle.ua_services.specs.declared.response.Response.TheVariants.{CreateSession, Read};
    ghost use Rattle.ua_services.specs.declared.response.ResponseKind.TheVariants.{CreateSession as CreateSessionKind};
    ghost use Rattle.ua_services.specs.declared.response.ResponseKind.TheVariants.{Read as ReadKind};

    /// Returns the Read response by value, or, as an error, the response itself if it is another
    /// one.
    pub fn into_read(self) -> Result<ReadResponse, Response>
        ensures taken { IfOk result (λ message. self ≡ Read message) }
        ensures same { IfErr result (λ other. other ≡ self) }
        ensures other { IfErr result (λ other. kind_of_response other ≢ ReadKind) }
    {
        match self {
            Response::Read(message) => Ok(message),
            other => Err(other),
        }
    }

    /// Returns the CreateSession response by value, or, as an error, the response itself if it is
    /// another one.
    pub fn into_create_session(self) -> Result<CreateSessionResponse, Response>
        ensures taken { IfOk result (λ message. self ≡ CreateSession message) }
        ensures same { IfErr result (λ other. other ≡ self) }
        ensures other { IfErr result (λ other. kind_of_response other ≢ CreateSessionKind) }
    {
        match self {
            Response::CreateSession(message) => Ok(message),
            other => Err(other),
        }
    }

    /// The kind of the response.
    pub fn kind(&self) -> ResponseKind
        ensures { result ≡ kind_of_response self.now }
    {
        responses!(kind_of, self)
    }

    /// The header, with which responses of every kind begin.
    pub fn header(&self) -> &ResponseHeader
        ensures { result.now ≡ header_of_response self.now }
    {
        responses!(by_kind, self, message, _number => &message.response_header)
    }

    /// Whether this is a response to a request of that kind: it is of the request's own kind, or a
    /// ServiceFault (OPC 10000-4, 5.3).
    pub fn answers(&self, request: RequestKind) -> bool
        ensures { IsTrue result ↔ Answers (kind_of_response self.now) request }
    {
        let kind = self.kind();
        kind == ResponseKind::ServiceFault || kind == request.own_answer()
    }
}

/// The kind of response that each request asks for: the one of its name.
macro_rules! named_alike {
    ($all:ident $kinds:ident [$($kind:ident($held:ident) = $of:literal,)+] $request:expr) => {
        match $request {
            $($kinds::$kind => ResponseKind::$kind,)+
        }
    };
}

impl RequestKind {
    ghost use Rattle.std.specs.Prelude.{◌≡◌};
    ghost use Rattle.ua_services.specs.Response.{own_answer};

    /// The kind of response that a request of this kind asks for: the one of its name.
    pub fn own_answer(self) -> ResponseKind
        ensures { result ≡ own_answer self }
    {
        requests!(named_alike, self)
    }
}

// The response that a NodeId announces.
fn announced_kind(id: &NodeId) -> Option<ResponseKind>
    ensures { result ≡ response_kind id.now }
{
    responses!(numbered, standard_number(id)?)
}

// Shows that a response of a kind is read as its structure is.
#[inline]
#[tactic(auto, unfolding(crate::specs::Response::response_of_kind))]
fn lawful_kind(kind: ResponseKind)
    ensures { (levels : ℕ) (octets : List ℕ) → response_of_kind kind levels octets ≡ image_read (responses.make kind)
        ((responses.format kind).decode levels) octets }
{}

// Reads the structure of a response of that kind.
fn read_kind<S: Source>(
    alloc: Global,
    src: &mut S,
    depth: u32,
    kind: ResponseKind,
) -> Result<Response, ReadFault>
    requires levels { depth ≤ most_levels }
    ensures exact { Gives (response_of_kind kind depth) (S.octets src.old) (S.octets src.new) result }
    ensures behind { StaysBehind (S.octets src.old) (S.octets src.new) }
{
    responses!(
        message_of_kind,
        kind,
        lawful_kind,
        Wire::read_value(alloc, src, depth)
    )
}

impl Wire for Response {
    ghost use Rattle.ua_services.specs.Response.{response};

    ghost format = { response };

    #[inline]
    #[tactic(auto, using(crate::proofs::ResponseLawful::lawful_response))]
    fn lawful() {}

    #[tactic(auto, unfolding(crate::specs::Response::response, crate::specs::Response::response_of_kind))]
    fn read_value<S: Source>(
        alloc: Global,
        src: &mut S,
        depth: u32,
    ) -> Result<Response, ReadFault> {
        let id = NodeId::read_value(alloc, src, depth)?;
        let Some(kind) = announced_kind(&id) else {
            return Err(ReadFault::NoValue);
        };
        read_kind(alloc, src, depth, kind)
    }

    #[tactic(auto, unfolding(crate::specs::Response::response, ua_builtin::specs::NodeId::node_id))]
    fn is_encodable(&self) -> bool {
        responses!(by_kind, self, message, _number => message.is_encodable())
    }

    #[tactic(auto, unfolding(crate::specs::Response::response, ua_builtin::specs::NodeId::node_id))]
    fn append(&self, out: &mut Vec<u8>) -> Result<(), AllocError> {
        responses!(by_kind, self, message, number => append_message(number, message, out))
    }
}

// What a fault within a response means.
fn unreadable(fault: ReadFault) -> ResponseFault
    ensures { result ≡ unread_by fault }
{
    match fault {
        ReadFault::NoValue => ResponseFault::Unreadable,
        ReadFault::OutOfMemory => ResponseFault::OutOfMemory,
    }
}

// Reads a ReadResponse after its NodeId, and nothing after it: where it stands, so that it is moved
// once.
#[inline(never)]
fn read_last<S: Source>(alloc: Global, src: &mut S) -> Result<Response, ResponseFault>
    ensures { (result ≡ read_as_response ResponseKind.Read (S.octets src.old))
        ⊎ (result ≡ Err ResponseFault.OutOfMemory) }
{
    let mut message = ReadResponse::empty();
    if let Err(fault) = message.read_into(alloc, src, MOST_LEVELS) {
        return Err(unreadable(fault));
    }
    if src.left() > 0 {
        return Err(ResponseFault::Unreadable);
    }
    Ok(Response::Read(message))
}

// Reads a response of another kind after its NodeId, and nothing after it.
#[inline(never)]
fn read_other<S: Source>(
    alloc: Global,
    src: &mut S,
    kind: ResponseKind,
) -> Result<Response, ResponseFault>
    ensures { (result ≡ read_as_response kind (S.octets src.old)) ⊎ (result ≡ Err ResponseFault.OutOfMemory) }
{
    let response = match read_kind(alloc, src, MOST_LEVELS, kind) {
        Ok(response) => response,
        Err(fault) => return Err(unreadable(fault)),
    };
    if src.left() > 0 {
        drop(response);
        return Err(ResponseFault::Unreadable);
    }
    Ok(response)
}

// The kind of response that a body is to be, by the NodeId that it begins with. The source is left
// after that.
#[inline(always)]
fn body_kind<S: Source>(alloc: Global, src: &mut S) -> Result<ResponseKind, ResponseFault>
    ensures found { IfOk result (λ k. response_read (S.octets src.old) ≡ read_as_response k (S.octets src.new)) }
    ensures refused { IfErr result (λ fault. (response_read (S.octets src.old) ≡ Err fault)
        ⊎ (fault ≡ ResponseFault.OutOfMemory)) }
{
    let id = match NodeId::read_value(alloc, src, MOST_LEVELS) {
        Ok(id) => id,
        Err(fault) => return Err(unreadable(fault)),
    };
    match announced_kind(&id) {
        Some(kind) => Ok(kind),
        None => Err(ResponseFault::Unknown),
    }
}

/// Decodes a body that is one response, of at most nesting depth 100, with nothing after it. After
/// an error, discard the source.
#[tactic(auto, using(crate::proofs::ResponseRead::response_found, crate::proofs::ResponseRead::response_refused, crate::proofs::ResponseRead::response_counted))]
pub fn read_response<S: Source>(alloc: Global, src: &mut S) -> Result<Response, ResponseFault>
    ensures read { (result ≡ response_read (S.octets src.old)) ⊎ (result ≡ Err ResponseFault.OutOfMemory) }
    ensures found { IfOk result (λ m. IsBody response m (S.octets src.old)) }
    ensures counted { IfOk result (λ m. response.count m ≤ length (S.octets src.old)) }
    ensures refused { IfErr result (λ fault. MisreadResponse (S.octets src.old) fault) }
{
    let kind = body_kind(alloc, src)?;
    match kind {
        ResponseKind::Read => read_last(alloc, src),
        _ => read_other(alloc, src, kind),
    }
}

// Skips the structure of a response of that kind, field by field.
#[tactic(auto, using(crate::proofs::ResponseSkipped::skips_kind))]
fn skip_kind<S: Source>(
    alloc: Global,
    src: &mut S,
    depth: u32,
    kind: ResponseKind,
) -> Result<(), ReadFault>
    requires levels { depth ≤ most_levels }
    ensures exact { Gives (skipped (kind_at responses depth (Some kind))) (S.octets src.old) (S.octets src.new) result }
    ensures behind { StaysBehind (S.octets src.old) (S.octets src.new) }
{
    responses!(skip_of_kind, kind, alloc, src, depth)
}

// Skips a response of that kind after its NodeId, and nothing after it.
fn skip_last<S: Source>(
    alloc: Global,
    src: &mut S,
    kind: ResponseKind,
) -> Result<ResponseKind, ResponseFault>
    ensures { (result ≡ response_kind_alone (read_as_response kind (S.octets src.old)))
        ⊎ (result ≡ Err ResponseFault.OutOfMemory) }
{
    if let Err(fault) = skip_kind(alloc, src, MOST_LEVELS, kind) {
        return Err(unreadable(fault));
    }
    if src.left() > 0 {
        return Err(ResponseFault::Unreadable);
    }
    Ok(kind)
}

/// The kind of the response that [`read_response`] would decode from this body, of which nothing is
/// kept: no more memory is allocated than one scalar, as a String, or a part of an array needs at a
/// time. After an error, discard the source.
pub fn skip_response<S: Source>(alloc: Global, src: &mut S) -> Result<ResponseKind, ResponseFault>
    ensures kind { (result ≡ response_kind_alone (response_read (S.octets src.old)))
        ⊎ (result ≡ Err ResponseFault.OutOfMemory) }
{
    let id = match NodeId::read_value(alloc, src, MOST_LEVELS) {
        Ok(id) => id,
        Err(fault) => return Err(unreadable(fault)),
    };
    match announced_kind(&id) {
        Some(kind) => skip_last(alloc, src, kind),
        None => Err(ResponseFault::Unknown),
    }
}

/// Appends the canonical body of a response at the end. On an error the vector is unchanged.
pub fn write_response(message: &Response, out: &mut Vec<u8>) -> Result<(), WriteFault>
    ensures ok { OnOk result (out.new.items ≡ out.old.items ++ response.canonical message.now) }
    ensures err { OnErr result (out.new.items ≡ out.old.items) }
    ensures refused { IsErrOf result NotWritable ↔ IsFalse (response.encodable message.now) }
{
    message.write(out)
}

/// The canonical body of a response, which is dropped.
pub fn response_body(alloc: Global, message: Response) -> Result<Vec<u8>, WriteFault>
    ensures ok { IfOk result (λ body. body.items ≡ response.canonical message) }
    ensures refused { IsErrOf result NotWritable ↔ IsFalse (response.encodable message) }
{
    let mut body = empty_body(alloc);
    let written = message.write(&mut body);
    drop(message);
    match written {
        Ok(()) => Ok(body),
        Err(fault) => Err(fault),
    }
}
