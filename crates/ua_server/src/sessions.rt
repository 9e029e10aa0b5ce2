//! The services of endpoints and sessions.

ghost use Rattle.std.specs.Prelude.{◌≡◌, ◌↔◌, IsTrue, IfOk, OnErr, option_map};
ghost use Rattle.ua_builtin.specs.NodeId.{null_id as no_node};
ghost use Rattle.ua_builtin.specs.Reasons.{first_reason};
ghost use Rattle.ua_services.specs.Response.{response};
ghost use Rattle.ua_builtin.specs.Status.{of_code};
ghost use Rattle.ua_opening.specs.Header.{response_header};
ghost use Rattle.ua_opening.specs.Plain.{response_header_of};
ghost use Rattle.ua_server.specs.Answer.{answer_activate_session, answer_close_session, answer_create_session};
ghost use Rattle.ua_server.specs.Sessions.{endpoints_given, session_reasons, create_reasons};
ghost use Rattle.ua_server.specs.Sessions.{session_given, is_anonymous_token, activate_reasons};
ghost use Rattle.ua_server.specs.Sessions.{with_activated, activation_given, close_reasons, close_given};
ghost use Rattle.ua_server.specs.State.{begun, with_next_session, is_own, is_activated};

use crate::endpoint::serves;
use crate::services::Services;
use crate::session::Session;
use std::alloc::{AllocError, Global};
use ua_builtin::{DateTime, ExtensionBody, ExtensionObject, NodeId, ReadFault, StatusCode};
use ua_services::{
    ActivateSessionRequest, ActivateSessionResponse, CloseSessionRequest, CloseSessionResponse,
    CreateSessionRequest, CreateSessionResponse, GetEndpointsRequest, GetEndpointsResponse,
    RequestHeader, Response, ResponseHeader, UaArray, read_identity,
};

/// The header of a good response.
pub(crate) fn good_header(moment: DateTime, request_handle: u32) -> ResponseHeader
    ensures value { result ≡ response_header_of moment request_handle (of_code 0) }
    ensures encodable { IsTrue (response_header.encodable result) }
{
    ResponseHeader::new(moment, request_handle, StatusCode::GOOD)
}

fn is_null(id: &NodeId) -> bool
    ensures { IsTrue result ↔ (id.now ≡ no_node) }
{
    *id == NodeId::null()
}

/// Whether a user identity token is anonymous: the object holds nothing, or an
/// AnonymousIdentityToken.
#[tactic(auto, using(crate::proofs::Identities::carried, crate::proofs::Identities::not_carried))]
fn is_nobody(alloc: Global, identity: &ExtensionObject) -> Result<bool, AllocError>
    ensures { IfOk result (λ b. b ≡ is_anonymous_token identity.now) }
{
    if is_null(&identity.type_id) {
        return Ok(matches!(identity.body, ExtensionBody::Absent));
    }
    match read_identity(alloc, identity) {
        Ok(token) => {
            drop(token);
            Ok(true)
        }
        Err(ReadFault::NoValue) => Ok(false),
        Err(ReadFault::OutOfMemory) => Err(AllocError),
    }
}

impl Services {
    /// Whether there is a session, and this is its token.
    pub(crate) fn is_own(&self, token: &NodeId) -> bool
        ensures { result ≡ is_own token.now self.now.session }
    {
        match self.session {
            Some(session) => *token == session.token(),
            None => false,
        }
    }

    /// Whether there is a session, and it is activated.
    pub(crate) fn is_activated(&self) -> bool
        ensures { result ≡ is_activated self.now.session }
    {
        match self.session {
            Some(session) => session.activated,
            None => false,
        }
    }

    /// Why a request that needs an activated session is refused for lack of one, before anything
    /// else of it is judged.
    pub(crate) fn session_refusal(&self, asking: &RequestHeader) -> Option<StatusCode>
        ensures { option_map (λ s. s.code) result ≡ first_reason (session_reasons self.now asking.now) }
    {
        if !self.is_own(&asking.authentication_token) {
            return Some(StatusCode::BAD_SESSION_ID_INVALID);
        }
        if !self.is_activated() {
            return Some(StatusCode::BAD_SESSION_NOT_ACTIVATED);
        }
        None
    }

    /// GetEndpoints (OPC 10000-4, 5.5.4).
    #[tactic(auto, using(crate::proofs::Answered::endpoints_fit))]
    pub(crate) fn get_endpoints(
        &self,
        alloc: Global,
        request: &GetEndpointsRequest,
        moment: DateTime,
    ) -> Result<Response, AllocError>
        ensures value { IfOk result (λ r. r ≡ endpoints_given self.now moment request.now) }
        ensures encodable { IfOk result (λ r. IsTrue (response.encodable r)) }
    {
        let endpoints = self
            .endpoint
            .endpoints(alloc, serves(&request.profile_uris))?;
        Ok(Response::GetEndpoints(GetEndpointsResponse {
            response_header: good_header(moment, request.request_header.request_handle),
            endpoints: UaArray::new(Some(endpoints)),
        }))
    }

    /// CreateSession (OPC 10000-4, 5.7.2).
    #[tactic(auto, using(crate::proofs::Answered::session_fits))]
    pub(crate) fn create_session(
        &mut self,
        alloc: Global,
        request: &CreateSessionRequest,
        moment: DateTime,
    ) -> Result<Response, AllocError>
        ensures response { IfOk result (λ r. r ≡ (answer_create_session self.old moment request.now).1) }
        ensures state { IfOk result (λ r. self.new ≡ (answer_create_session self.old moment request.now).0) }
        ensures kept { OnErr result (self.new ≡ self.old) }
        ensures encodable { IfOk result (λ r. IsTrue (response.encodable r)) }
    {
        let handle = request.request_header.request_handle;
        if self.session.is_some() || self.made == u32::MAX {
            return Ok(self.fault(handle, StatusCode::BAD_TOO_MANY_SESSIONS, moment));
        }
        let endpoints = self.endpoint.endpoints(alloc, true)?;
        let session = Session {
            number: self.made + 1,
            activated: false,
        };
        self.made = session.number;
        self.session = Some(session);
        Ok(Response::CreateSession(CreateSessionResponse::new(
            good_header(moment, handle),
            session.id(),
            session.token(),
            request.requested_session_timeout,
            UaArray::new(Some(endpoints)),
            self.endpoint.message_limit,
        )))
    }

    /// Why a session is not activated.
    fn activate_refusal(
        &self,
        alloc: Global,
        request: &ActivateSessionRequest,
    ) -> Result<Option<StatusCode>, AllocError>
        ensures { IfOk result (λ o. option_map (λ s. s.code) o ≡ first_reason (activate_reasons self.now request.now)) }
    {
        if !self.is_own(&request.request_header.authentication_token) {
            return Ok(Some(StatusCode::BAD_SESSION_ID_INVALID));
        }
        if !is_nobody(alloc, &request.user_identity_token)? {
            return Ok(Some(StatusCode::BAD_IDENTITY_TOKEN_REJECTED));
        }
        Ok(None)
    }

    /// ActivateSession (OPC 10000-4, 5.7.3).
    #[tactic(auto, using(crate::proofs::Answered::activation_fits))]
    pub(crate) fn activate_session(
        &mut self,
        alloc: Global,
        request: &ActivateSessionRequest,
        moment: DateTime,
    ) -> Result<Response, AllocError>
        ensures response { IfOk result (λ r. r ≡ (answer_activate_session self.old moment request.now).1) }
        ensures state { IfOk result (λ r. self.new ≡ (answer_activate_session self.old moment request.now).0) }
        ensures kept { OnErr result (self.new ≡ self.old) }
        ensures encodable { IfOk result (λ r. IsTrue (response.encodable r)) }
    {
        let handle = request.request_header.request_handle;
        if let Some(code) = self.activate_refusal(alloc, request)? {
            return Ok(self.fault(handle, code, moment));
        }
        if let Some(session) = &mut self.session {
            session.activated = true;
        }
        let header = good_header(moment, handle);
        Ok(Response::ActivateSession(ActivateSessionResponse::new(header)))
    }

    /// CloseSession (OPC 10000-4, 5.7.4).
    #[tactic(auto, unfolding(ua_services::specs::Response::response, ua_builtin::specs::NodeId::node_id, ua_structures::specs::Session::close_session_response))]
    pub(crate) fn close_session(
        &mut self,
        request: &CloseSessionRequest,
        moment: DateTime,
    ) -> Response
        ensures response { result ≡ (answer_close_session self.old moment request.now).1 }
        ensures state { self.new ≡ (answer_close_session self.old moment request.now).0 }
        ensures encodable { IsTrue (response.encodable result) }
    {
        let header = &request.request_header;
        if !self.is_own(&header.authentication_token) {
            let code = StatusCode::BAD_SESSION_ID_INVALID;
            return self.fault(header.request_handle, code, moment);
        }
        self.begin();
        Response::CloseSession(CloseSessionResponse {
            response_header: good_header(moment, header.request_handle),
        })
    }
}
