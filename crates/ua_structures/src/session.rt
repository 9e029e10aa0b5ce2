//! The Session services.

ghost use Rattle.std.specs.Prelude.{◌≡◌, IsTrue};
ghost use Rattle.ua_builtin.specs.DoubleBits.{double_bits};
ghost use Rattle.ua_builtin.specs.ExtensionObject.{extension_object};
ghost use Rattle.ua_builtin.specs.NodeId.{node_id};
ghost use Rattle.ua_opening.specs.Array.{array};
ghost use Rattle.ua_structures.specs.Discovery.{application_description, endpoint_description};
ghost use Rattle.ua_opening.specs.Field.{string};
ghost use Rattle.ua_opening.specs.Header.{request_header as header_format, response_header as answer_format};
ghost use Rattle.ua_structures.specs.Plain.{create_session_of, session_of, activate_session_of, activated_of};
ghost use Rattle.ua_structures.specs.Session.{create_session_request, create_session_response};
ghost use Rattle.ua_structures.specs.Session.{activate_session_request, activate_session_response};

use crate::discovery::{ApplicationDescription, EndpointDescription};
use crate::signature::{SignatureData, SignedSoftwareCertificate};
use ua_builtin::{DoubleBits, ExtensionObject, NodeId, StatusCode, UaBytes, UaString};
use ua_opening::{RequestHeader, ResponseHeader, UaArray};
use ua_variant::DiagnosticInfo;

/// Every timeout can be written: its bits are within the range of their type once they are read.
#[inline]
#[tactic(auto, unfolding(ua_wire::specs::DoubleBits::double_bits))]
fn timeout_is_encodable(timeout: &DoubleBits)
    ensures { IsTrue (double_bits.encodable timeout.now) }
{
    let _bits = timeout.bits;
}

/// The identity token of an anonymous user, the body of an ExtensionObject (OPC 10000-4, 7.41.3).
#[derive(Debug, Drop)]
pub struct AnonymousIdentityToken {
    /// The `policy_id` of the [`UserTokenPolicy`](crate::UserTokenPolicy) that the token is for.
    pub policy_id: UaString,
}

/// The CreateSession request: asks for a session (OPC 10000-4, 5.7.2).
#[derive(Debug, Drop)]
pub struct CreateSessionRequest {
    pub request_header: RequestHeader,
    pub client_description: ApplicationDescription,
    pub server_uri: UaString,
    /// The URL by which the client reached the server.
    pub endpoint_url: UaString,
    /// A human-readable name.
    pub session_name: UaString,
    pub client_nonce: UaBytes,
    pub client_certificate: UaBytes,
    /// The requested session timeout, in milliseconds without a request.
    pub requested_session_timeout: DoubleBits,
    /// The maximum size of a response in bytes; 0 is no limit.
    pub max_response_message_size: u32,
}

impl CreateSessionRequest {
    /// Asks for a session of this client, at this EndpointUrl, with this name and this timeout in
    /// milliseconds; without a limit on responses, and the other fields are null.
    #[tactic(auto, using(crate::proofs::PlainFits::create_session_fits))]
    pub fn new(
        request_header: RequestHeader,
        client_description: ApplicationDescription,
        endpoint_url: UaString,
        session_name: UaString,
        requested_session_timeout: DoubleBits,
    ) -> CreateSessionRequest
        ensures value { result ≡ create_session_of request_header client_description endpoint_url session_name
            requested_session_timeout }
        ensures encodable { IsTrue (header_format.encodable request_header)
            → IsTrue (application_description.encodable client_description)
            → IsTrue (string.encodable endpoint_url) → IsTrue (string.encodable session_name)
            → IsTrue (create_session_request.encodable result) }
    {
        timeout_is_encodable(&requested_session_timeout);
        CreateSessionRequest {
            request_header,
            client_description,
            server_uri: UaString::null(),
            endpoint_url,
            session_name,
            client_nonce: UaBytes::null(),
            client_certificate: UaBytes::null(),
            requested_session_timeout,
            max_response_message_size: 0,
        }
    }
}

/// The response to a [`CreateSessionRequest`] (OPC 10000-4, 5.7.2).
#[derive(Debug, Drop)]
pub struct CreateSessionResponse {
    pub response_header: ResponseHeader,
    /// The NodeId of the session.
    pub session_id: NodeId,
    /// The AuthenticationToken in the request headers of the session.
    pub authentication_token: NodeId,
    /// The session timeout, in milliseconds without a request.
    pub revised_session_timeout: DoubleBits,
    pub server_nonce: UaBytes,
    pub server_certificate: UaBytes,
    pub server_endpoints: UaArray<EndpointDescription>,
    pub server_software_certificates: UaArray<SignedSoftwareCertificate>,
    pub server_signature: SignatureData,
    /// The maximum size of a request in bytes; 0 is no limit.
    pub max_request_message_size: u32,
}

impl CreateSessionResponse {
    /// A session with this SessionId and AuthenticationToken, its timeout in milliseconds, the
    /// endpoints of the server, and the maximum size of a request in bytes; the other fields are
    /// null.
    #[tactic(auto, using(crate::proofs::PlainFits::session_fits))]
    pub fn new(
        response_header: ResponseHeader,
        session_id: NodeId,
        authentication_token: NodeId,
        revised_session_timeout: DoubleBits,
        server_endpoints: UaArray<EndpointDescription>,
        max_request_message_size: u32,
    ) -> CreateSessionResponse
        ensures value { result ≡ session_of response_header session_id authentication_token revised_session_timeout
            server_endpoints max_request_message_size }
        ensures encodable { IsTrue (answer_format.encodable response_header) → IsTrue (node_id.encodable session_id)
            → IsTrue (node_id.encodable authentication_token)
            → IsTrue ((array endpoint_description).encodable server_endpoints)
            → IsTrue (create_session_response.encodable result) }
    {
        timeout_is_encodable(&revised_session_timeout);
        CreateSessionResponse {
            response_header,
            session_id,
            authentication_token,
            revised_session_timeout,
            server_nonce: UaBytes::null(),
            server_certificate: UaBytes::null(),
            server_endpoints,
            server_software_certificates: UaArray::null(),
            server_signature: SignatureData::null(),
            max_request_message_size,
        }
    }
}

/// The ActivateSession request: gives the identity of the session's user (OPC 10000-4, 5.7.3).
#[derive(Debug, Drop)]
pub struct ActivateSessionRequest {
    pub request_header: RequestHeader,
    pub client_signature: SignatureData,
    pub client_software_certificates: UaArray<SignedSoftwareCertificate>,
    pub locale_ids: UaArray<UaString>,
    pub user_identity_token: ExtensionObject,
    pub user_token_signature: SignatureData,
}

impl ActivateSessionRequest {
    /// Gives this user identity to the session of the header; the other fields are null.
    #[tactic(auto, using(crate::proofs::PlainFits::activate_session_fits))]
    pub fn new(
        request_header: RequestHeader,
        user_identity_token: ExtensionObject,
    ) -> ActivateSessionRequest
        ensures value { result ≡ activate_session_of request_header user_identity_token }
        ensures encodable { IsTrue (header_format.encodable request_header)
            → IsTrue (extension_object.encodable user_identity_token)
            → IsTrue (activate_session_request.encodable result) }
    {
        ActivateSessionRequest {
            request_header,
            client_signature: SignatureData::null(),
            client_software_certificates: UaArray::null(),
            locale_ids: UaArray::null(),
            user_identity_token,
            user_token_signature: SignatureData::null(),
        }
    }
}

/// The response to an [`ActivateSessionRequest`] (OPC 10000-4, 5.7.3).
#[derive(Debug, Drop)]
pub struct ActivateSessionResponse {
    pub response_header: ResponseHeader,
    pub server_nonce: UaBytes,
    pub results: UaArray<StatusCode>,
    pub diagnostic_infos: UaArray<DiagnosticInfo>,
}

impl ActivateSessionResponse {
    /// A response whose fields, other than the header, are null.
    #[tactic(auto, using(crate::proofs::PlainFits::activated_fits))]
    pub fn new(response_header: ResponseHeader) -> ActivateSessionResponse
        ensures value { result ≡ activated_of response_header }
        ensures encodable { IsTrue (answer_format.encodable response_header)
            → IsTrue (activate_session_response.encodable result) }
    {
        ActivateSessionResponse {
            response_header,
            server_nonce: UaBytes::null(),
            results: UaArray::null(),
            diagnostic_infos: UaArray::null(),
        }
    }
}

/// The CloseSession request: closes a session (OPC 10000-4, 5.7.4).
#[derive(Debug, Drop)]
pub struct CloseSessionRequest {
    pub request_header: RequestHeader,
    pub delete_subscriptions: bool,
}

/// The response to a [`CloseSessionRequest`] (OPC 10000-4, 5.7.4).
#[derive(Debug, Drop)]
pub struct CloseSessionResponse {
    pub response_header: ResponseHeader,
}
