//! Decodes and encodes the structures of the Session services.

use crate::session::{
    ActivateSessionRequest, ActivateSessionResponse, AnonymousIdentityToken, CloseSessionRequest,
    CloseSessionResponse, CreateSessionRequest, CreateSessionResponse,
};
use crate::signature::{SignatureData, SignedSoftwareCertificate};
use std::alloc::{AllocError, Global};
use ua_builtin::{ReadFault, Source, Wire};
use ua_opening::{are_encodable, read_fields};
use ua_wire::{append_three, append_two};

impl Wire for SignedSoftwareCertificate {
    ghost use Rattle.ua_structures.specs.Session.{signed_software_certificate};

    ghost format = { signed_software_certificate };

    #[inline]
    #[tactic(auto, unfolding(crate::specs::Session::signed_software_certificate), using(crate::proofs::SessionSound::sound_signed_software_certificate))]
    fn lawful() {}

    #[tactic(auto, unfolding(crate::specs::Session::signed_software_certificate))]
    fn read_value<S: Source>(alloc: Global, src: &mut S, depth: u32) -> Result<Self, ReadFault> {
        read_fields!(alloc, src, depth => SignedSoftwareCertificate { certificate_data, signature })
    }

    #[tactic(auto, unfolding(crate::specs::Session::signed_software_certificate))]
    fn is_encodable(&self) -> bool {
        are_encodable!(self => certificate_data, signature)
    }

    #[tactic(auto, unfolding(crate::specs::Session::signed_software_certificate))]
    fn append(&self, out: &mut Vec<u8>) -> Result<(), AllocError> {
        append_two(&self.certificate_data, &self.signature, out)
    }
}

impl Wire for SignatureData {
    ghost use Rattle.ua_structures.specs.Session.{signature_data};

    ghost format = { signature_data };

    #[inline]
    #[tactic(auto, unfolding(crate::specs::Session::signature_data), using(crate::proofs::SessionSound::sound_signature_data))]
    fn lawful() {}

    #[tactic(auto, unfolding(crate::specs::Session::signature_data))]
    fn read_value<S: Source>(alloc: Global, src: &mut S, depth: u32) -> Result<Self, ReadFault> {
        read_fields!(alloc, src, depth => SignatureData { algorithm, signature })
    }

    #[tactic(auto, unfolding(crate::specs::Session::signature_data))]
    fn is_encodable(&self) -> bool {
        are_encodable!(self => algorithm, signature)
    }

    #[tactic(auto, unfolding(crate::specs::Session::signature_data))]
    fn append(&self, out: &mut Vec<u8>) -> Result<(), AllocError> {
        append_two(&self.algorithm, &self.signature, out)
    }
}

impl Wire for AnonymousIdentityToken {
    ghost use Rattle.ua_structures.specs.Session.{anonymous_identity_token};

    ghost format = { anonymous_identity_token };

    #[inline]
    #[tactic(auto, unfolding(crate::specs::Session::anonymous_identity_token), using(crate::proofs::SessionLawful::lawful_anonymous_identity_token))]
    fn lawful() {}

    #[tactic(auto, unfolding(crate::specs::Session::anonymous_identity_token))]
    fn read_value<S: Source>(alloc: Global, src: &mut S, depth: u32) -> Result<Self, ReadFault> {
        read_fields!(alloc, src, depth => AnonymousIdentityToken { policy_id })
    }

    #[tactic(auto, unfolding(crate::specs::Session::anonymous_identity_token))]
    fn is_encodable(&self) -> bool {
        are_encodable!(self => policy_id)
    }

    #[tactic(auto, unfolding(crate::specs::Session::anonymous_identity_token))]
    fn append(&self, out: &mut Vec<u8>) -> Result<(), AllocError> {
        self.policy_id.append(out)
    }
}

impl Wire for CreateSessionRequest {
    ghost use Rattle.ua_structures.specs.Session.{create_session_request};

    ghost format = { create_session_request };

    #[inline]
    #[tactic(auto, unfolding(crate::specs::Session::create_session_request), using(crate::proofs::SessionSound::sound_create_session_request))]
    fn lawful() {}

    #[tactic(auto, unfolding(crate::specs::Session::create_session_request))]
    fn read_value<S: Source>(alloc: Global, src: &mut S, depth: u32) -> Result<Self, ReadFault> {
        read_fields!(alloc, src, depth => CreateSessionRequest {
            request_header, client_description, server_uri, endpoint_url, session_name,
            client_nonce, client_certificate, requested_session_timeout, max_response_message_size
        })
    }

    #[tactic(auto, unfolding(crate::specs::Session::create_session_request))]
    fn is_encodable(&self) -> bool {
        are_encodable!(self =>
            request_header, client_description, server_uri, endpoint_url, session_name,
            client_nonce, client_certificate, requested_session_timeout, max_response_message_size
        )
    }

    #[tactic(auto, unfolding(crate::specs::Session::create_session_request))]
    fn append(&self, out: &mut Vec<u8>) -> Result<(), AllocError> {
        append_two(&self.request_header, &self.client_description, out)?;
        append_two(&self.server_uri, &self.endpoint_url, out)?;
        append_two(&self.session_name, &self.client_nonce, out)?;
        append_three(
            &self.client_certificate,
            &self.requested_session_timeout,
            &self.max_response_message_size,
            out,
        )
    }
}

impl Wire for CreateSessionResponse {
    ghost use Rattle.ua_structures.specs.Session.{create_session_response};

    ghost format = { create_session_response };

    #[inline]
    #[tactic(auto, unfolding(crate::specs::Session::create_session_response), using(crate::proofs::SessionSound::sound_create_session_response))]
    fn lawful() {}

    #[tactic(auto, unfolding(crate::specs::Session::create_session_response))]
    fn read_value<S: Source>(alloc: Global, src: &mut S, depth: u32) -> Result<Self, ReadFault> {
        read_fields!(alloc, src, depth => CreateSessionResponse {
            response_header, session_id, authentication_token, revised_session_timeout,
            server_nonce, server_certificate, server_endpoints, server_software_certificates,
            server_signature, max_request_message_size
        })
    }

    #[tactic(auto, unfolding(crate::specs::Session::create_session_response))]
    fn is_encodable(&self) -> bool {
        are_encodable!(self =>
            response_header, session_id, authentication_token, revised_session_timeout,
            server_nonce, server_certificate, server_endpoints, server_software_certificates,
            server_signature, max_request_message_size
        )
    }

    #[tactic(auto, unfolding(crate::specs::Session::create_session_response))]
    fn append(&self, out: &mut Vec<u8>) -> Result<(), AllocError> {
        append_two(&self.response_header, &self.session_id, out)?;
        append_two(
            &self.authentication_token,
            &self.revised_session_timeout,
            out,
        )?;
        append_two(&self.server_nonce, &self.server_certificate, out)?;
        append_two(
            &self.server_endpoints,
            &self.server_software_certificates,
            out,
        )?;
        append_two(&self.server_signature, &self.max_request_message_size, out)
    }
}

impl Wire for ActivateSessionRequest {
    ghost use Rattle.ua_structures.specs.Session.{activate_session_request};

    ghost format = { activate_session_request };

    #[inline]
    #[tactic(auto, unfolding(crate::specs::Session::activate_session_request), using(crate::proofs::SessionSound::sound_activate_session_request))]
    fn lawful() {}

    #[tactic(auto, unfolding(crate::specs::Session::activate_session_request))]
    fn read_value<S: Source>(alloc: Global, src: &mut S, depth: u32) -> Result<Self, ReadFault> {
        read_fields!(alloc, src, depth => ActivateSessionRequest {
            request_header, client_signature, client_software_certificates, locale_ids,
            user_identity_token, user_token_signature
        })
    }

    #[tactic(auto, unfolding(crate::specs::Session::activate_session_request))]
    fn is_encodable(&self) -> bool {
        are_encodable!(self =>
            request_header, client_signature, client_software_certificates, locale_ids,
            user_identity_token, user_token_signature
        )
    }

    #[tactic(auto, unfolding(crate::specs::Session::activate_session_request))]
    fn append(&self, out: &mut Vec<u8>) -> Result<(), AllocError> {
        append_two(&self.request_header, &self.client_signature, out)?;
        append_two(&self.client_software_certificates, &self.locale_ids, out)?;
        append_two(&self.user_identity_token, &self.user_token_signature, out)
    }
}

impl Wire for ActivateSessionResponse {
    ghost use Rattle.ua_structures.specs.Session.{activate_session_response};

    ghost format = { activate_session_response };

    #[inline]
    #[tactic(auto, unfolding(crate::specs::Session::activate_session_response), using(crate::proofs::SessionSound::sound_activate_session_response))]
    fn lawful() {}

    #[tactic(auto, unfolding(crate::specs::Session::activate_session_response))]
    fn read_value<S: Source>(alloc: Global, src: &mut S, depth: u32) -> Result<Self, ReadFault> {
        read_fields!(alloc, src, depth => ActivateSessionResponse {
            response_header, server_nonce, results, diagnostic_infos
        })
    }

    #[tactic(auto, unfolding(crate::specs::Session::activate_session_response))]
    fn is_encodable(&self) -> bool {
        are_encodable!(self => response_header, server_nonce, results, diagnostic_infos)
    }

    #[tactic(auto, unfolding(crate::specs::Session::activate_session_response))]
    fn append(&self, out: &mut Vec<u8>) -> Result<(), AllocError> {
        append_two(&self.response_header, &self.server_nonce, out)?;
        append_two(&self.results, &self.diagnostic_infos, out)
    }
}

impl Wire for CloseSessionRequest {
    ghost use Rattle.ua_structures.specs.Session.{close_session_request};

    ghost format = { close_session_request };

    #[inline]
    #[tactic(auto, unfolding(crate::specs::Session::close_session_request), using(crate::proofs::SessionSound::sound_close_session_request))]
    fn lawful() {}

    #[tactic(auto, unfolding(crate::specs::Session::close_session_request))]
    fn read_value<S: Source>(alloc: Global, src: &mut S, depth: u32) -> Result<Self, ReadFault> {
        read_fields!(alloc, src, depth => CloseSessionRequest {
            request_header, delete_subscriptions
        })
    }

    #[tactic(auto, unfolding(crate::specs::Session::close_session_request))]
    fn is_encodable(&self) -> bool {
        are_encodable!(self => request_header, delete_subscriptions)
    }

    #[tactic(auto, unfolding(crate::specs::Session::close_session_request))]
    fn append(&self, out: &mut Vec<u8>) -> Result<(), AllocError> {
        append_two(&self.request_header, &self.delete_subscriptions, out)
    }
}

impl Wire for CloseSessionResponse {
    ghost use Rattle.ua_structures.specs.Session.{close_session_response};

    ghost format = { close_session_response };

    #[inline]
    #[tactic(auto, unfolding(crate::specs::Session::close_session_response), using(crate::proofs::SessionSound::sound_close_session_response))]
    fn lawful() {}

    #[tactic(auto, unfolding(crate::specs::Session::close_session_response))]
    fn read_value<S: Source>(alloc: Global, src: &mut S, depth: u32) -> Result<Self, ReadFault> {
        read_fields!(alloc, src, depth => CloseSessionResponse { response_header })
    }

    #[tactic(auto, unfolding(crate::specs::Session::close_session_response))]
    fn is_encodable(&self) -> bool {
        are_encodable!(self => response_header)
    }

    #[tactic(auto, unfolding(crate::specs::Session::close_session_response))]
    fn append(&self, out: &mut Vec<u8>) -> Result<(), AllocError> {
        self.response_header.append(out)
    }
}
