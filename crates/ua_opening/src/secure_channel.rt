//! The SecureChannel services.

ghost use Rattle.std.specs.Prelude.{◌≡◌, pos, IsTrue};
ghost use Rattle.ua_opening.specs.Plain.{open_request_of, open_response_of, close_request_of};
ghost use Rattle.ua_opening.specs.SecureChannel.{open_request, open_response, close_request};

use crate::header::{RequestHeader, ResponseHeader};
use ua_builtin::laws::moment_is_encodable;
use ua_builtin::{DateTime, NodeId, StatusCode, UaBytes};

/// The OpenSecureChannel request: asks for a SecureChannel, or for a new token of one (OPC 10000-4,
/// 5.6.2).
#[derive(Debug, Drop)]
pub struct OpenRequest {
    pub request_header: RequestHeader,
    pub client_protocol_version: u32,
    /// 0 to issue a token, 1 to renew it; any other number is preserved.
    pub request_type: i32,
    /// 1 for None, 2 for Sign, 3 for SignAndEncrypt; any other number is preserved.
    pub security_mode: i32,
    pub client_nonce: UaBytes,
    /// The requested lifetime of the token, in milliseconds.
    pub requested_lifetime: u32,
}

/// To issue a token, as a RequestType (OPC 10000-4, 5.6.2).
const ISSUE: i32 = 0;

/// To renew a token, as a RequestType (OPC 10000-4, 5.6.2).
const RENEW: i32 = 1;

/// No security, as a MessageSecurityMode (OPC 10000-4, 7.20).
const NO_SECURITY: i32 = 1;

impl OpenRequest {
    /// Asks for a SecureChannel and its first token, with this lifetime in milliseconds: with a
    /// null AuthenticationToken, without security and without a nonce.
    #[tactic(auto, using(crate::proofs::PlainFits::issue_fits))]
    pub fn issue(timestamp: DateTime, request_handle: u32, requested_lifetime: u32) -> OpenRequest
        ensures value { result ≡ open_request_of (pos 0) timestamp request_handle requested_lifetime }
        ensures encodable { IsTrue (open_request.encodable result) }
    {
        moment_is_encodable(&timestamp);
        OpenRequest::with_type(ISSUE, timestamp, request_handle, requested_lifetime)
    }

    /// Asks for a new token of a SecureChannel, otherwise as [`issue`](OpenRequest::issue) does.
    #[tactic(auto, using(crate::proofs::PlainFits::renew_fits))]
    pub fn renew(timestamp: DateTime, request_handle: u32, requested_lifetime: u32) -> OpenRequest
        ensures value { result ≡ open_request_of (pos 1) timestamp request_handle requested_lifetime }
        ensures encodable { IsTrue (open_request.encodable result) }
    {
        moment_is_encodable(&timestamp);
        OpenRequest::with_type(RENEW, timestamp, request_handle, requested_lifetime)
    }

    fn with_type(
        request_type: i32,
        timestamp: DateTime,
        request_handle: u32,
        requested_lifetime: u32,
    ) -> OpenRequest
        ensures { result ≡ open_request_of request_type timestamp request_handle requested_lifetime }
    {
        OpenRequest {
            request_header: RequestHeader::new(NodeId::null(), timestamp, request_handle),
            client_protocol_version: 0,
            request_type,
            security_mode: NO_SECURITY,
            client_nonce: UaBytes::null(),
            requested_lifetime,
        }
    }
}

/// The response to an [`OpenRequest`] (OPC 10000-4, 5.6.2).
#[derive(Debug, Drop)]
pub struct OpenResponse {
    pub response_header: ResponseHeader,
    pub server_protocol_version: u32,
    /// The SecureChannelId.
    pub channel_id: u32,
    /// The TokenId that chunks are sent with.
    pub token_id: u32,
    /// The time at which the token was created.
    pub created_at: DateTime,
    /// The lifetime of the token, in milliseconds.
    pub revised_lifetime: u32,
    pub server_nonce: UaBytes,
}

impl OpenResponse {
    /// The good response to the request with this RequestHandle: the SecureChannelId, its TokenId,
    /// created at this time, and the token's lifetime in milliseconds; without a nonce.
    #[tactic(auto, using(crate::proofs::PlainFits::open_response_fits))]
    pub fn new(
        created_at: DateTime,
        request_handle: u32,
        channel_id: u32,
        token_id: u32,
        revised_lifetime: u32,
    ) -> OpenResponse
        ensures value { result ≡ open_response_of created_at request_handle channel_id token_id revised_lifetime }
        ensures encodable { IsTrue (open_response.encodable result) }
    {
        moment_is_encodable(&created_at);
        OpenResponse {
            response_header: ResponseHeader::new(created_at, request_handle, StatusCode::GOOD),
            server_protocol_version: 0,
            channel_id,
            token_id,
            created_at,
            revised_lifetime,
            server_nonce: UaBytes::null(),
        }
    }
}

/// The CloseSecureChannel request: closes the SecureChannel. It has no response. (OPC 10000-4,
/// 5.6.3).
#[derive(Debug, Drop)]
pub struct CloseRequest {
    pub request_header: RequestHeader,
}

impl CloseRequest {
    /// Closes the SecureChannel, with a null AuthenticationToken.
    #[tactic(auto, using(crate::proofs::PlainFits::close_request_fits))]
    pub fn new(timestamp: DateTime, request_handle: u32) -> CloseRequest
        ensures value { result ≡ close_request_of timestamp request_handle }
        ensures encodable { IsTrue (close_request.encodable result) }
    {
        moment_is_encodable(&timestamp);
        CloseRequest {
            request_header: RequestHeader::new(NodeId::null(), timestamp, request_handle),
        }
    }
}
