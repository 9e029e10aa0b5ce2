//! Headers of requests and responses, and the ServiceFault.

ghost use Rattle.std.specs.Prelude.{◌≡◌, Some, None, IsTrue, MatchOption};
ghost use Rattle.ua_builtin.specs.ExtensionObject.{null_object};
ghost use Rattle.ua_builtin.specs.Format.{StaysBehind};
ghost use Rattle.ua_builtin.specs.NodeId.{node_id};
ghost use Rattle.ua_diagnostic.specs.View.{no_diagnostics};
ghost use Rattle.ua_opening.specs.Header.{request_header, response_header, service_fault};
ghost use Rattle.ua_opening.specs.Plain.{empty_request_header, empty_response_header};
ghost use Rattle.ua_opening.specs.Plain.{request_header_of, response_header_of, service_fault_of};
ghost use Rattle.ua_opening.specs.inside.HeaderEnds.{behind_diagnostics, behind_result};

use crate::array::UaArray;
use std::alloc::Global;
use ua_builtin::laws::{moment_is_encodable, status_is_encodable};
use ua_builtin::{
    DateTime, ExtensionObject, NULL_COUNT, NodeId, ReadFault, Skip, Source, StatusCode, UaString,
    Wire,
};
use ua_diagnostic::DiagnosticInfo;

/// What follows the ServiceResult of nearly each response, as a number, the least byte first: 00 of
/// a DiagnosticInfo without fields (OPC 10000-6, 5.2.2.12), FF FF FF FF of a null array of texts
/// (5.2.5), and 00 00 00 of the object that holds nothing (5.2.2.15).
const NOTHING_MORE: u64 = 0x0000_00FF_FFFF_FF00;

/// The same with an array of no texts, whose count is 00 00 00 00.
const NO_TEXTS: u64 = 0;

/// The header of each request (OPC 10000-4, 7.33).
#[derive(Debug, Drop)]
pub struct RequestHeader {
    /// The AuthenticationToken from CreateSession; null without a session.
    pub authentication_token: NodeId,
    /// The time at which the client sent the request.
    pub timestamp: DateTime,
    /// A number chosen by the client, which the response repeats.
    pub request_handle: u32,
    /// The diagnostics that the client asks for, as a bit mask.
    pub return_diagnostics: u32,
    pub audit_entry_id: UaString,
    /// How long the client waits for the response, in milliseconds; 0 is no limit.
    pub timeout_hint: u32,
    pub additional_header: ExtensionObject,
}

impl RequestHeader {
    /// The header of a request with this AuthenticationToken (null without a session), timestamp
    /// and RequestHandle. It asks for no diagnostics, and has no AuditEntryId, no TimeoutHint and
    /// no AdditionalHeader.
    #[tactic(auto, using(crate::proofs::PlainFits::request_header_fits))]
    pub fn new(
        authentication_token: NodeId,
        timestamp: DateTime,
        request_handle: u32,
    ) -> RequestHeader
        ensures value { result ≡ request_header_of authentication_token timestamp request_handle }
        ensures encodable { IsTrue (node_id.encodable authentication_token) → IsTrue (request_header.encodable result) }
    {
        moment_is_encodable(&timestamp);
        RequestHeader {
            authentication_token,
            timestamp,
            request_handle,
            return_diagnostics: 0,
            audit_entry_id: UaString::null(),
            timeout_hint: 0,
            additional_header: ExtensionObject::null(),
        }
    }
}

impl RequestHeader {
    ghost use Rattle.std.specs.Prelude.{◌≤◌};
    ghost use Rattle.ua_builtin.specs.Exact.{image_read};
    ghost use Rattle.ua_builtin.specs.Format.{most_levels, Gives, GivesBy};

    /// A header whose fields are null or 0, to decode one into. Allocates nothing.
    pub fn empty() -> RequestHeader
        ensures { result ≡ empty_request_header }
    {
        RequestHeader::new(NodeId::null(), DateTime { ticks: 0 }, 0)
    }

    /// Decodes the header at the start of the source into this one, as `read_value` does; a header
    /// returned by value would be moved at each step. After an error, discard the source.
    #[inline(never)]
    #[tactic(auto, unfolding(crate::specs::Header::request_header))]
    pub fn read_into<S: Source>(
        &mut self,
        alloc: Global,
        src: &mut S,
        depth: u32,
    ) -> Result<(), ReadFault>
        requires levels { depth ≤ most_levels }
        ensures exact { GivesBy (λ _. self.new) (request_header.decode depth) (S.octets src.old)
            (S.octets src.new) result }
        ensures behind { StaysBehind (S.octets src.old) (S.octets src.new) }
    {
        self.authentication_token = NodeId::read_value(alloc, src, depth)?;
        self.timestamp = DateTime::read_value(alloc, src, depth)?;
        self.request_handle = u32::read_value(alloc, src, depth)?;
        self.return_diagnostics = u32::read_value(alloc, src, depth)?;
        if let Some(timeout_hint) = take_timeout_alone(alloc, src) {
            self.audit_entry_id = UaString::null();
            self.timeout_hint = timeout_hint;
            self.additional_header = ExtensionObject::null();
            return Ok(());
        }
        self.read_behind_diagnostics(alloc, src, depth)
    }

    /// Decodes the fields after ReturnDiagnostics into this header.
    #[inline(never)]
    fn read_behind_diagnostics<S: Source>(
        &mut self,
        alloc: Global,
        src: &mut S,
        depth: u32,
    ) -> Result<(), ReadFault>
        requires levels { depth ≤ most_levels }
        ensures exact { GivesBy (λ _. (self.new.audit_entry_id, (self.new.timeout_hint, self.new.additional_header)))
            behind_diagnostics (S.octets src.old) (S.octets src.new) result }
        ensures kept { (self.new.authentication_token ≡ self.old.authentication_token)
            × (self.new.timestamp ≡ self.old.timestamp)
            × (self.new.request_handle ≡ self.old.request_handle)
            × (self.new.return_diagnostics ≡ self.old.return_diagnostics) }
        ensures behind { StaysBehind (S.octets src.old) (S.octets src.new) }
    {
        self.audit_entry_id = UaString::read_value(alloc, src, depth)?;
        self.timeout_hint = u32::read_value(alloc, src, depth)?;
        self.additional_header = ExtensionObject::read_value(alloc, src, depth)?;
        Ok(())
    }

    /// Skips the header at the start of the source, and returns its RequestHandle. After an error,
    /// discard the source.
    #[tactic(auto, unfolding(crate::specs::Header::request_header))]
    pub fn skip_for_handle<S: Source>(
        alloc: Global,
        src: &mut S,
        depth: u32,
    ) -> Result<u32, ReadFault>
        requires levels { depth ≤ most_levels }
        ensures exact { Gives (image_read (λ header. header.request_handle) (request_header.decode depth))
            (S.octets src.old) (S.octets src.new) result }
        ensures behind { StaysBehind (S.octets src.old) (S.octets src.new) }
    {
        <(NodeId, DateTime)>::skip_value(alloc, src, depth)?;
        let request_handle = u32::read_value(alloc, src, depth)?;
        u32::skip_value(alloc, src, depth)?;
        if take_timeout_alone(alloc, src).is_some() {
            return Ok(request_handle);
        }
        <(UaString, (u32, ExtensionObject))>::skip_value(alloc, src, depth)?;
        Ok(request_handle)
    }
}

/// Takes what follows the ReturnDiagnostics of a request that names no audit entry and adds
/// nothing, as nearly each one, and answers its TimeoutHint. With `None` nothing is taken.
#[inline(always)]
fn take_timeout_alone<S: Source>(alloc: Global, src: &mut S) -> Option<u32>
    ensures exact { MatchOption result (S.octets src.new ≡ S.octets src.old)
        (λ timeout. behind_diagnostics (S.octets src.old) ≡ Some ((None, (timeout, null_object)), S.octets src.new)) }
    ensures behind { StaysBehind (S.octets src.old) (S.octets src.new) }
{
    let mut ahead = src.fork();
    let Ok(NULL_COUNT) = u32::read_value(alloc, &mut ahead, 0) else {
        return None;
    };
    let Ok(timeout_hint) = u32::read_value(alloc, &mut ahead, 0) else {
        return None;
    };
    // The object that holds nothing: the NodeId 00 00, and 00 of no body (OPC 10000-6, 5.2.2.15).
    let Ok(0) = u16::read_value(alloc, &mut ahead, 0) else {
        return None;
    };
    let Ok(0) = u8::read_value(alloc, &mut ahead, 0) else {
        return None;
    };
    *src = ahead;
    Some(timeout_hint)
}

/// The header of each response (OPC 10000-4, 7.34).
#[derive(Debug, Drop)]
pub struct ResponseHeader {
    /// The time at which the server sent the response.
    pub timestamp: DateTime,
    /// The RequestHandle of the request.
    pub request_handle: u32,
    /// The result of the service call.
    pub service_result: StatusCode,
    pub service_diagnostics: DiagnosticInfo,
    /// The strings that diagnostics refer to by index.
    pub string_table: UaArray<UaString>,
    pub additional_header: ExtensionObject,
}

impl ResponseHeader {
    /// The header of a response with this timestamp, the RequestHandle of its request and this
    /// ServiceResult. It has no diagnostics, no strings and no AdditionalHeader.
    #[tactic(auto, using(crate::proofs::PlainFits::response_header_fits))]
    pub fn new(
        timestamp: DateTime,
        request_handle: u32,
        service_result: StatusCode,
    ) -> ResponseHeader
        ensures value { result ≡ response_header_of timestamp request_handle service_result }
        ensures encodable { IsTrue (response_header.encodable result) }
    {
        moment_is_encodable(&timestamp);
        status_is_encodable(&service_result);
        ResponseHeader {
            timestamp,
            request_handle,
            service_result,
            service_diagnostics: DiagnosticInfo::empty(),
            string_table: UaArray::null(),
            additional_header: ExtensionObject::null(),
        }
    }
}

impl ResponseHeader {
    ghost use Rattle.std.specs.Prelude.{◌≤◌};
    ghost use Rattle.ua_builtin.specs.Format.{most_levels, GivesBy};

    /// A header whose fields are null or 0, to decode one into. Allocates nothing.
    pub fn empty() -> ResponseHeader
        ensures { result ≡ empty_response_header }
    {
        ResponseHeader::new(DateTime { ticks: 0 }, 0, StatusCode::GOOD)
    }

    /// Decodes the header at the start of the source into this one, as `read_value` does; a header
    /// returned by value would be moved at each step. After an error, discard the source.
    #[inline(never)]
    #[tactic(auto, unfolding(crate::specs::Header::response_header))]
    pub fn read_into<S: Source>(
        &mut self,
        alloc: Global,
        src: &mut S,
        depth: u32,
    ) -> Result<(), ReadFault>
        requires levels { depth ≤ most_levels }
        ensures exact { GivesBy (λ _. self.new) (response_header.decode depth) (S.octets src.old)
            (S.octets src.new) result }
        ensures behind { StaysBehind (S.octets src.old) (S.octets src.new) }
    {
        self.timestamp = DateTime::read_value(alloc, src, depth)?;
        self.request_handle = u32::read_value(alloc, src, depth)?;
        self.service_result = StatusCode::read_value(alloc, src, depth)?;
        if let Some(texts) = take_nothing_more(alloc, src, depth) {
            self.service_diagnostics = DiagnosticInfo::empty();
            self.string_table = texts;
            self.additional_header = ExtensionObject::null();
            return Ok(());
        }
        self.read_behind_result(alloc, src, depth)
    }

    /// Decodes the fields after the ServiceResult into this header.
    #[inline(never)]
    fn read_behind_result<S: Source>(
        &mut self,
        alloc: Global,
        src: &mut S,
        depth: u32,
    ) -> Result<(), ReadFault>
        requires levels { depth ≤ most_levels }
        ensures exact { GivesBy
            (λ _. (self.new.service_diagnostics, (self.new.string_table, self.new.additional_header)))
            (behind_result depth) (S.octets src.old) (S.octets src.new) result }
        ensures kept { (self.new.timestamp ≡ self.old.timestamp) × (self.new.request_handle ≡ self.old.request_handle)
            × (self.new.service_result ≡ self.old.service_result) }
        ensures behind { StaysBehind (S.octets src.old) (S.octets src.new) }
    {
        self.service_diagnostics = DiagnosticInfo::read_value(alloc, src, depth)?;
        self.string_table = UaArray::read_value(alloc, src, depth)?;
        self.additional_header = ExtensionObject::read_value(alloc, src, depth)?;
        Ok(())
    }
}

/// Takes what follows the ServiceResult of a response without diagnostics and texts that adds
/// nothing, as nearly each one, and answers its table of texts, null or empty. With `None` nothing
/// is taken.
#[inline(always)]
#[tactic(auto, using(crate::proofs::HeaderRead::nothing_more, crate::proofs::HeaderRead::no_texts))]
fn take_nothing_more<S: Source>(alloc: Global, src: &mut S, depth: u32) -> Option<UaArray<UaString>>
    ensures exact { MatchOption result (S.octets src.new ≡ S.octets src.old)
        (λ texts. behind_result depth (S.octets src.old)
        ≡ Some ((no_diagnostics, (texts, null_object)), S.octets src.new)) }
    ensures behind { StaysBehind (S.octets src.old) (S.octets src.new) }
{
    if depth == 0 {
        return None;
    }
    let mut ahead = src.fork();
    let texts = match u64::read_value(alloc, &mut ahead, 0) {
        Ok(NOTHING_MORE) => UaArray::null(),
        Ok(NO_TEXTS) => UaArray::new(Some(Vec::new(alloc))),
        _ => return None,
    };
    *src = ahead;
    Some(texts)
}

impl Skip for ResponseHeader {
    #[tactic(auto, unfolding(crate::specs::Header::response_header))]
    fn skip_value<S: Source>(alloc: Global, src: &mut S, depth: u32) -> Result<(), ReadFault> {
        DateTime::skip_value(alloc, src, depth)?;
        u32::skip_value(alloc, src, depth)?;
        StatusCode::read_value(alloc, src, depth)?;
        if let Some(texts) = take_nothing_more(alloc, src, depth) {
            drop(texts);
            return Ok(());
        }
        <(DiagnosticInfo, (UaArray<UaString>, ExtensionObject))>::skip_value(alloc, src, depth)
    }
}

/// The response to a request whose service call failed (OPC 10000-4, 7.35).
#[derive(Debug, Drop)]
pub struct ServiceFault {
    pub response_header: ResponseHeader,
}

impl ServiceFault {
    /// The ServiceFault with this StatusCode and timestamp, and the RequestHandle of its request.
    #[tactic(auto, unfolding(crate::specs::Header::service_fault))]
    pub fn new(timestamp: DateTime, request_handle: u32, code: StatusCode) -> ServiceFault
        ensures value { result ≡ service_fault_of timestamp request_handle code }
        ensures encodable { IsTrue (service_fault.encodable result) }
    {
        ServiceFault {
            response_header: ResponseHeader::new(timestamp, request_handle, code),
        }
    }
}
