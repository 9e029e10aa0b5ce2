//! The structures of the Session services, as lines.

use crate::lines::{Lines, Place, push_fields};
use std::alloc::{AllocError, Global};
use ua_services::{
    ActivateSessionRequest, ActivateSessionResponse, CloseSessionRequest, CloseSessionResponse,
    CreateSessionRequest, CreateSessionResponse, SignatureData, SignedSoftwareCertificate,
};

impl Lines for SignedSoftwareCertificate {
    ghost use Rattle.ua_fields.specs.Tree.{structure};
    ghost use Rattle.ua_fields.specs.Session.{signed_software_certificate_entries};

    ghost tree = { λ m. structure (signed_software_certificate_entries m) };

    fn is_structure() -> bool {
        true
    }

    #[tactic(auto, unfolding(crate::specs::Session::signed_software_certificate_entries))]
    fn push_lines(&self, alloc: Global, out: &mut String, place: Place) -> Result<(), AllocError> {
        push_fields!(self, alloc, out, place => certificate_data, signature)
    }
}

impl Lines for SignatureData {
    ghost use Rattle.ua_fields.specs.Tree.{structure};
    ghost use Rattle.ua_fields.specs.Session.{signature_data_entries};

    ghost tree = { λ m. structure (signature_data_entries m) };

    fn is_structure() -> bool {
        true
    }

    #[tactic(auto, unfolding(crate::specs::Session::signature_data_entries))]
    fn push_lines(&self, alloc: Global, out: &mut String, place: Place) -> Result<(), AllocError> {
        push_fields!(self, alloc, out, place => algorithm, signature)
    }
}

impl Lines for CreateSessionRequest {
    ghost use Rattle.ua_fields.specs.Tree.{structure};
    ghost use Rattle.ua_fields.specs.Session.{create_session_request_entries};

    ghost tree = { λ m. structure (create_session_request_entries m) };

    fn is_structure() -> bool {
        true
    }

    #[tactic(auto, unfolding(crate::specs::Session::create_session_request_entries))]
    fn push_lines(&self, alloc: Global, out: &mut String, place: Place) -> Result<(), AllocError> {
        push_fields!(self, alloc, out, place => request_header, client_description, server_uri, endpoint_url,
            session_name, client_nonce, client_certificate, requested_session_timeout, max_response_message_size)
    }
}

impl Lines for CreateSessionResponse {
    ghost use Rattle.ua_fields.specs.Tree.{structure};
    ghost use Rattle.ua_fields.specs.Session.{create_session_response_entries};

    ghost tree = { λ m. structure (create_session_response_entries m) };

    fn is_structure() -> bool {
        true
    }

    #[tactic(auto, unfolding(crate::specs::Session::create_session_response_entries))]
    fn push_lines(&self, alloc: Global, out: &mut String, place: Place) -> Result<(), AllocError> {
        push_fields!(self, alloc, out, place => response_header, session_id, authentication_token,
            revised_session_timeout, server_nonce, server_certificate, server_endpoints, server_software_certificates,
            server_signature, max_request_message_size)
    }
}

impl Lines for ActivateSessionRequest {
    ghost use Rattle.ua_fields.specs.Tree.{structure};
    ghost use Rattle.ua_fields.specs.Session.{activate_session_request_entries};

    ghost tree = { λ m. structure (activate_session_request_entries m) };

    fn is_structure() -> bool {
        true
    }

    #[tactic(auto, unfolding(crate::specs::Session::activate_session_request_entries))]
    fn push_lines(&self, alloc: Global, out: &mut String, place: Place) -> Result<(), AllocError> {
        push_fields!(self, alloc, out, place => request_header, client_signature, client_software_certificates,
            locale_ids, user_identity_token, user_token_signature)
    }
}

impl Lines for ActivateSessionResponse {
    ghost use Rattle.ua_fields.specs.Tree.{structure};
    ghost use Rattle.ua_fields.specs.Session.{activate_session_response_entries};

    ghost tree = { λ m. structure (activate_session_response_entries m) };

    fn is_structure() -> bool {
        true
    }

    #[tactic(auto, unfolding(crate::specs::Session::activate_session_response_entries))]
    fn push_lines(&self, alloc: Global, out: &mut String, place: Place) -> Result<(), AllocError> {
        push_fields!(self, alloc, out, place => response_header, server_nonce, results, diagnostic_infos)
    }
}

impl Lines for CloseSessionRequest {
    ghost use Rattle.ua_fields.specs.Tree.{structure};
    ghost use Rattle.ua_fields.specs.Session.{close_session_request_entries};

    ghost tree = { λ m. structure (close_session_request_entries m) };

    fn is_structure() -> bool {
        true
    }

    #[tactic(auto, unfolding(crate::specs::Session::close_session_request_entries))]
    fn push_lines(&self, alloc: Global, out: &mut String, place: Place) -> Result<(), AllocError> {
        push_fields!(self, alloc, out, place => request_header, delete_subscriptions)
    }
}

impl Lines for CloseSessionResponse {
    ghost use Rattle.ua_fields.specs.Tree.{structure};
    ghost use Rattle.ua_fields.specs.Session.{close_session_response_entries};

    ghost tree = { λ m. structure (close_session_response_entries m) };

    fn is_structure() -> bool {
        true
    }

    #[tactic(auto, unfolding(crate::specs::Session::close_session_response_entries))]
    fn push_lines(&self, alloc: Global, out: &mut String, place: Place) -> Result<(), AllocError> {
        push_fields!(self, alloc, out, place => response_header)
    }
}
