//! Requests.

ghost use Rattle.std.specs.Prelude.{◌≡◌, ◌≤◌, ◌++◌, ◌⊎◌, ℕ, List, length, IfOk};
ghost use Rattle.std.specs.Prelude.{IfErr, OnOk, OnErr, IsErrOf, IsFalse, ◌↔◌};
ghost use Rattle.ua_builtin.specs.Exact.{image_read, skipped};
ghost use Rattle.ua_builtin.specs.Format.{most_levels, Gives, StaysBehind};
ghost use Rattle.ua_wire.specs.declared.fault.WriteFault.TheVariants.{NotWritable};
ghost use Rattle.ua_opening.specs.Message.{IsBody, handle_behind, kind_at};
ghost use Rattle.ua_services.specs.Request.{request, requests, request_kind, request_of_kind, unread_with};
ghost use Rattle.ua_services.specs.Request.{read_as_request, kind_alone, request_read, thin_read, MisreadRequest};

use crate::fault::RequestFault;
use crate::kinds::{kind_of, message_of_kind, name_of, numbered, skip_of_kind, skip_structure};
use crate::{by_kind, requests};
use std::alloc::{AllocError, Global};
use ua_builtin::{MOST_LEVELS, NodeId, ReadFault, Skip, Source, Wire, WriteFault};
use ua_opening::{RequestHeader, append_message, empty_body, standard_number};
use ua_structures::{
    ActivateSessionRequest, CloseSessionRequest, CreateSessionRequest, GetEndpointsRequest,
    ReadRequest, TakesTypes, WriteRequest,
};

/// The kinds of request, each with the structure that it holds and the number of its encoding
/// (OPC 10000-6, A.3), in front of the words of a macro that is the same for each kind.
#[macro_export]
macro_rules! requests {
    ($each:ident $(, $($words:tt)+)?) => {
        $each!(Request RequestKind [
            GetEndpoints(GetEndpointsRequest) = 428,
            CreateSession(CreateSessionRequest) = 461,
            ActivateSession(ActivateSessionRequest) = 467,
            CloseSession(CloseSessionRequest) = 473,
            Read(ReadRequest) = 631,
            Write(WriteRequest) = 673,
        ] $($($words)+)?)
    };
}

/// The kinds of requests, each with its own encoding (OPC 10000-6, A.3).
#[derive(Clone, Copy, PartialEq, Eq, Debug)]
pub enum RequestKind {
    GetEndpoints,
    CreateSession,
    ActivateSession,
    CloseSession,
    Read,
    Write,
}

impl RequestKind {
    ghost use Rattle.std.specs.Prelude.{◌≡◌};
    ghost use Rattle.ua_services.specs.Request.{request_kind_name, request_kind_numbered};

    /// The name of the structure of a request of this kind, such as `ReadRequest`.
    pub fn name(self) -> &'static str
        ensures { result.now ≡ request_kind_name self }
    {
        requests!(name_of, self)
    }

    /// The kind of request whose encoding has this number in namespace 0, if there is one
    /// (OPC 10000-6, A.3).
    pub fn from_encoding(number: u32) -> Option<RequestKind>
        ensures { result ≡ request_kind_numbered number }
    {
        requests!(numbered, number)
    }
}

/// A request, as the body of a message (OPC 10000-6, 5.2.9).
#[derive(Debug)]
pub enum Request {
    GetEndpoints(GetEndpointsRequest),
    CreateSession(CreateSessionRequest),
    ActivateSession(ActivateSessionRequest),
    CloseSession(CloseSessionRequest),
    Read(ReadRequest),
    Write(WriteRequest),
}

// By hand, so that a crate that lets a request go calls this, and proves nothing of what lies in
// it.
impl Drop for Request {
    fn drop(self) {
        requests!(by_kind, self, message, _number => drop(message))
    }
}

impl Request {
    ghost use Rattle.std.specs.Prelude.{◌≡◌, ◌≢◌, IfOk, IfErr};
    ghost use Rattle.ua_services.specs.Request.{kind_of_request, header_of_request};
    ghost use Rattle.ua_services.specs.declared.request.Request.TheVariants.{Read, Write};
    ghost use Rattle.ua_services.specs.declared.request.RequestKind.TheVariants.{Read as ReadKind, Write as WriteKind};

    /// Returns the Read by value, or, as an error, the request itself if it is another one.
    pub fn into_read(self) -> Result<ReadRequest, Request>
        ensures taken { IfOk result (λ message. self ≡ Read message) }
        ensures same { IfErr result (λ other. other ≡ self) }
        ensures other { IfErr result (λ other. kind_of_request other ≢ ReadKind) }
    {
        match self {
            Request::Read(message) => Ok(message),
            other => Err(other),
        }
    }

    /// Returns the Write by value, or, as an error, the request itself if it is another one.
    pub fn into_write(self) -> Result<WriteRequest, Request>
        ensures taken { IfOk result (λ message. self ≡ Write message) }
        ensures same { IfErr result (λ other. other ≡ self) }
        ensures other { IfErr result (λ other. kind_of_request other ≢ WriteKind) }
    {
        match self {
            Request::Write(message) => Ok(message),
            other => Err(other),
        }
    }

    /// The kind of the request.
    pub fn kind(&self) -> RequestKind
        ensures { result ≡ kind_of_request self.now }
    {
        requests!(kind_of, self)
    }

    /// The header, with which requests of every kind begin.
    pub fn header(&self) -> &RequestHeader
        ensures { result.now ≡ header_of_request self.now }
    {
        requests!(by_kind, self, message, _number => &message.request_header)
    }
}

// The request that a NodeId announces.
fn announced_kind(id: &NodeId) -> Option<RequestKind>
    ensures { result ≡ request_kind id.now }
{
    RequestKind::from_encoding(standard_number(id)?)
}

// Shows that a request of a kind is read as its structure is.
#[inline]
#[tactic(auto, unfolding(crate::specs::Request::request_of_kind))]
fn lawful_kind(kind: RequestKind)
    ensures { (levels : ℕ) (octets : List ℕ) → request_of_kind kind levels octets ≡ image_read (requests.make kind)
        ((requests.format kind).decode levels) octets }
{}

// Reads the structure of a request of that kind.
fn read_kind<S: Source>(
    alloc: Global,
    src: &mut S,
    depth: u32,
    kind: RequestKind,
) -> Result<Request, ReadFault>
    requires levels { depth ≤ most_levels }
    ensures exact { Gives (request_of_kind kind depth) (S.octets src.old) (S.octets src.new) result }
    ensures behind { StaysBehind (S.octets src.old) (S.octets src.new) }
{
    requests!(
        message_of_kind,
        kind,
        lawful_kind,
        Wire::read_value(alloc, src, depth)
    )
}

impl Wire for Request {
    ghost use Rattle.ua_services.specs.Request.{request};

    ghost format = { request };

    #[inline]
    #[tactic(auto, using(crate::proofs::RequestLawful::lawful_request))]
    fn lawful() {}

    #[tactic(auto, unfolding(crate::specs::Request::request, crate::specs::Request::request_of_kind))]
    fn read_value<S: Source>(alloc: Global, src: &mut S, depth: u32) -> Result<Request, ReadFault> {
        let id = NodeId::read_value(alloc, src, depth)?;
        let Some(kind) = announced_kind(&id) else {
            return Err(ReadFault::NoValue);
        };
        read_kind(alloc, src, depth, kind)
    }

    #[tactic(auto, unfolding(crate::specs::Request::request, ua_builtin::specs::NodeId::node_id))]
    fn is_encodable(&self) -> bool {
        requests!(by_kind, self, message, _number => message.is_encodable())
    }

    #[tactic(auto, unfolding(crate::specs::Request::request, ua_builtin::specs::NodeId::node_id))]
    fn append(&self, out: &mut Vec<u8>) -> Result<(), AllocError> {
        requests!(by_kind, self, message, number => append_message(number, message, out))
    }
}

// What a fault within a request whose handle is known means.
fn unread(fault: ReadFault, handle: u32) -> RequestFault
    ensures { result ≡ unread_with handle fault }
{
    match fault {
        ReadFault::NoValue => RequestFault::Unreadable(handle),
        ReadFault::OutOfMemory => RequestFault::OutOfMemory,
    }
}

// The RequestHandle of the header at the start of the source, or 0 where no header reads
// whole.
fn handle_ahead<S: Source>(alloc: Global, src: &mut S) -> Result<u32, RequestFault>
    ensures { (result ≡ Ok (handle_behind (S.octets src.old))) ⊎ (result ≡ Err RequestFault.OutOfMemory) }
{
    match RequestHeader::skip_for_handle(alloc, src, MOST_LEVELS) {
        Ok(handle) => Ok(handle),
        Err(ReadFault::NoValue) => Ok(0),
        Err(ReadFault::OutOfMemory) => Err(RequestFault::OutOfMemory),
    }
}

// What a fault within a request means, whose header at the start of the source.
#[inline(never)]
fn unreadable<S: Source>(alloc: Global, src: &mut S, fault: ReadFault) -> RequestFault
    ensures { (result ≡ unread_with (handle_behind (S.octets src.old)) fault) ⊎ (result ≡ RequestFault.OutOfMemory) }
{
    if matches!(fault, ReadFault::OutOfMemory) {
        return RequestFault::OutOfMemory;
    }
    match handle_ahead(alloc, src) {
        Ok(handle) => unread(fault, handle),
        Err(fault) => fault,
    }
}

// What a request means that is not supported, whose header at the start of the source.
fn unsupported<S: Source>(alloc: Global, src: &mut S) -> RequestFault
    ensures { (result ≡ RequestFault.Unsupported (handle_behind (S.octets src.old)))
        ⊎ (result ≡ RequestFault.OutOfMemory) }
{
    match handle_ahead(alloc, src) {
        Ok(handle) => RequestFault::Unsupported(handle),
        Err(fault) => fault,
    }
}

/// Decodes a body that is one Read, after the NodeId that announces it, into this one. After an
/// error, discard the source.
#[inline(always)]
pub fn read_read_request<S: Source>(
    alloc: Global,
    src: &mut S,
    message: &mut ReadRequest,
) -> Result<(), RequestFault>
    ensures read { IfOk result (λ _. read_as_request RequestKind.Read (S.octets src.old)
        ≡ Ok (Request.Read message.new)) }
    ensures refused { IfErr result (λ fault. (read_as_request RequestKind.Read (S.octets src.old) ≡ Err fault)
        ⊎ (fault ≡ RequestFault.OutOfMemory)) }
{
    let mut head = src.fork();
    if let Err(fault) = message.read_into(alloc, src, MOST_LEVELS) {
        return Err(unreadable(alloc, &mut head, fault));
    }
    if src.left() > 0 {
        return Err(unreadable(alloc, &mut head, ReadFault::NoValue));
    }
    Ok(())
}

// Reads a ReadRequest after its NodeId, and nothing after it.
#[inline(never)]
fn read_last<S: Source>(alloc: Global, src: &mut S) -> Result<Request, RequestFault>
    ensures { (result ≡ read_as_request RequestKind.Read (S.octets src.old)) ⊎ (result ≡ Err RequestFault.OutOfMemory) }
{
    let mut message = ReadRequest::empty();
    read_read_request(alloc, src, &mut message)?;
    Ok(Request::Read(message))
}

/// Decodes a body that is one request of this kind, after the NodeId that announces it. After an
/// error, discard the source.
#[inline(never)]
pub fn read_request_of_kind<S: Source>(
    alloc: Global,
    src: &mut S,
    kind: RequestKind,
) -> Result<Request, RequestFault>
    ensures { (result ≡ read_as_request kind (S.octets src.old)) ⊎ (result ≡ Err RequestFault.OutOfMemory) }
{
    let mut head = src.fork();
    let request = match read_kind(alloc, src, MOST_LEVELS, kind) {
        Ok(request) => request,
        Err(fault) => return Err(unreadable(alloc, &mut head, fault)),
    };
    if src.left() > 0 {
        drop(request);
        return Err(unreadable(alloc, &mut head, ReadFault::NoValue));
    }
    Ok(request)
}

/// The kind of request that a body is to be, by the NodeId that it begins with. The source is left
/// after that; after an error, discard it.
#[inline(always)]
pub fn read_request_kind<S: Source>(alloc: Global, src: &mut S) -> Result<RequestKind, RequestFault>
    ensures found { IfOk result (λ k. request_read (S.octets src.old) ≡ read_as_request k (S.octets src.new)) }
    ensures refused { IfErr result (λ fault. (request_read (S.octets src.old) ≡ Err fault)
        ⊎ (fault ≡ RequestFault.OutOfMemory)) }
{
    let id = match NodeId::read_value(alloc, src, MOST_LEVELS) {
        Ok(id) => id,
        Err(fault) => return Err(unread(fault, 0)),
    };
    match announced_kind(&id) {
        Some(kind) => Ok(kind),
        None => Err(unsupported(alloc, src)),
    }
}

/// Decodes a body that is one request, of at most nesting depth 100, with nothing after it. After
/// an error, discard the source.
#[tactic(auto, using(crate::proofs::RequestRead::request_found, crate::proofs::RequestRead::request_refused, crate::proofs::RequestRead::request_counted))]
pub fn read_request<S: Source>(alloc: Global, src: &mut S) -> Result<Request, RequestFault>
    ensures read { (result ≡ request_read (S.octets src.old)) ⊎ (result ≡ Err RequestFault.OutOfMemory) }
    ensures found { IfOk result (λ m. IsBody request m (S.octets src.old)) }
    ensures counted { IfOk result (λ m. request.count m ≤ length (S.octets src.old)) }
    ensures refused { IfErr result (λ fault. MisreadRequest (S.octets src.old) fault) }
{
    let kind = read_request_kind(alloc, src)?;
    match kind {
        RequestKind::Read => read_last(alloc, src),
        _ => read_request_of_kind(alloc, src, kind),
    }
}

/// Decodes a body that is one Write, after the NodeId that announces it, into this one, without the
/// values that nodes could not take. After an error, discard the source.
#[inline(always)]
pub fn read_write_request_for<S: Source, T: TakesTypes>(
    alloc: Global,
    src: &mut S,
    types: &T,
    message: &mut WriteRequest,
) -> Result<(), RequestFault>
    ensures read { IfOk result (λ _.
        thin_read (T.takes types.now) (read_as_request RequestKind.Write (S.octets src.old))
        ≡ Ok (Request.Write message.new)) }
    ensures refused { IfErr result (λ fault.
        (thin_read (T.takes types.now) (read_as_request RequestKind.Write (S.octets src.old)) ≡ Err fault)
        ⊎ (fault ≡ RequestFault.OutOfMemory)) }
{
    let mut head = src.fork();
    if let Err(fault) = message.read_thinned_into(alloc, src, MOST_LEVELS, types) {
        return Err(unreadable(alloc, &mut head, fault));
    }
    if src.left() > 0 {
        return Err(unreadable(alloc, &mut head, ReadFault::NoValue));
    }
    Ok(())
}

// Reads a Write after its NodeId, and nothing after it, without the values that nodes could not
// take.

// Skips the structure of a request of that kind, field by field.
#[tactic(auto, using(crate::proofs::RequestSkipped::skips_kind))]
fn skip_kind<S: Source>(
    alloc: Global,
    src: &mut S,
    depth: u32,
    kind: RequestKind,
) -> Result<(), ReadFault>
    requires levels { depth ≤ most_levels }
    ensures exact { Gives (skipped (kind_at requests depth (Some kind))) (S.octets src.old) (S.octets src.new) result }
    ensures behind { StaysBehind (S.octets src.old) (S.octets src.new) }
{
    requests!(skip_of_kind, kind, alloc, src, depth)
}

// Skips a request of that kind after its NodeId, and nothing after it.
fn skip_last<S: Source>(
    alloc: Global,
    src: &mut S,
    kind: RequestKind,
) -> Result<RequestKind, RequestFault>
    ensures { (result ≡ kind_alone (read_as_request kind (S.octets src.old)))
        ⊎ (result ≡ Err RequestFault.OutOfMemory) }
{
    let mut head = src.fork();
    if let Err(fault) = skip_kind(alloc, src, MOST_LEVELS, kind) {
        return Err(unreadable(alloc, &mut head, fault));
    }
    if src.left() > 0 {
        return Err(unreadable(alloc, &mut head, ReadFault::NoValue));
    }
    Ok(kind)
}

/// The kind of the request that [`read_request`] would decode from this body, of which nothing is
/// kept: no more memory is allocated than one scalar, as a String, or a part of an array needs at a
/// time. After an error, discard the source.
pub fn skip_request<S: Source>(alloc: Global, src: &mut S) -> Result<RequestKind, RequestFault>
    ensures kind { (result ≡ kind_alone (request_read (S.octets src.old))) ⊎ (result ≡ Err RequestFault.OutOfMemory) }
{
    let kind = read_request_kind(alloc, src)?;
    skip_last(alloc, src, kind)
}

/// Appends the canonical body of a request at the end. On an error the vector is unchanged.
pub fn write_request(message: &Request, out: &mut Vec<u8>) -> Result<(), WriteFault>
    ensures ok { OnOk result (out.new.items ≡ out.old.items ++ request.canonical message.now) }
    ensures err { OnErr result (out.new.items ≡ out.old.items) }
    ensures refused { IsErrOf result NotWritable ↔ IsFalse (request.encodable message.now) }
{
    message.write(out)
}

/// The canonical body of a request, which is dropped.
pub fn request_body(alloc: Global, message: Request) -> Result<Vec<u8>, WriteFault>
    ensures ok { IfOk result (λ body. body.items ≡ request.canonical message) }
    ensures refused { IsErrOf result NotWritable ↔ IsFalse (request.encodable message) }
{
    let mut body = empty_body(alloc);
    let written = message.write(&mut body);
    drop(message);
    match written {
        Ok(()) => Ok(body),
        Err(fault) => Err(fault),
    }
}
