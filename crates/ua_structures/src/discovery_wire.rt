//! Decodes and encodes the structures of the service GetEndpoints.

use crate::discovery::{
    ApplicationDescription, EndpointDescription, GetEndpointsRequest, GetEndpointsResponse,
    UserTokenPolicy,
};
use std::alloc::{AllocError, Global};
use ua_builtin::{ReadFault, Source, Wire};
use ua_opening::{are_encodable, read_fields};
use ua_wire::{append_three, append_two};

impl Wire for ApplicationDescription {
    ghost use Rattle.ua_structures.specs.Discovery.{application_description};

    ghost format = { application_description };

    #[inline]
    #[tactic(auto, unfolding(crate::specs::Discovery::application_description), using(crate::proofs::DiscoverySound::sound_application_description))]
    fn lawful() {}

    #[tactic(auto, unfolding(crate::specs::Discovery::application_description))]
    fn read_value<S: Source>(alloc: Global, src: &mut S, depth: u32) -> Result<Self, ReadFault> {
        read_fields!(alloc, src, depth => ApplicationDescription {
            application_uri, product_uri, application_name, application_type, gateway_server_uri,
            discovery_profile_uri, discovery_urls
        })
    }

    #[tactic(auto, unfolding(crate::specs::Discovery::application_description))]
    fn is_encodable(&self) -> bool {
        are_encodable!(self =>
            application_uri, product_uri, application_name, application_type, gateway_server_uri,
            discovery_profile_uri, discovery_urls
        )
    }

    #[tactic(auto, unfolding(crate::specs::Discovery::application_description))]
    fn append(&self, out: &mut Vec<u8>) -> Result<(), AllocError> {
        append_two(&self.application_uri, &self.product_uri, out)?;
        append_two(&self.application_name, &self.application_type, out)?;
        append_three(
            &self.gateway_server_uri,
            &self.discovery_profile_uri,
            &self.discovery_urls,
            out,
        )
    }
}

impl Wire for UserTokenPolicy {
    ghost use Rattle.ua_structures.specs.Discovery.{user_token_policy};

    ghost format = { user_token_policy };

    #[inline]
    #[tactic(auto, unfolding(crate::specs::Discovery::user_token_policy), using(crate::proofs::DiscoverySound::sound_user_token_policy))]
    fn lawful() {}

    #[tactic(auto, unfolding(crate::specs::Discovery::user_token_policy))]
    fn read_value<S: Source>(alloc: Global, src: &mut S, depth: u32) -> Result<Self, ReadFault> {
        read_fields!(alloc, src, depth => UserTokenPolicy {
            policy_id, token_type, issued_token_type, issuer_endpoint_url, security_policy_uri
        })
    }

    #[tactic(auto, unfolding(crate::specs::Discovery::user_token_policy))]
    fn is_encodable(&self) -> bool {
        are_encodable!(self =>
            policy_id, token_type, issued_token_type, issuer_endpoint_url, security_policy_uri
        )
    }

    #[tactic(auto, unfolding(crate::specs::Discovery::user_token_policy))]
    fn append(&self, out: &mut Vec<u8>) -> Result<(), AllocError> {
        append_two(&self.policy_id, &self.token_type, out)?;
        append_three(
            &self.issued_token_type,
            &self.issuer_endpoint_url,
            &self.security_policy_uri,
            out,
        )
    }
}

impl Wire for EndpointDescription {
    ghost use Rattle.ua_structures.specs.Discovery.{endpoint_description};

    ghost format = { endpoint_description };

    #[inline]
    #[tactic(auto, unfolding(crate::specs::Discovery::endpoint_description), using(crate::proofs::DiscoverySound::sound_endpoint_description))]
    fn lawful() {}

    #[tactic(auto, unfolding(crate::specs::Discovery::endpoint_description))]
    fn read_value<S: Source>(alloc: Global, src: &mut S, depth: u32) -> Result<Self, ReadFault> {
        read_fields!(alloc, src, depth => EndpointDescription {
            endpoint_url, server, server_certificate, security_mode, security_policy_uri,
            user_identity_tokens, transport_profile_uri, security_level
        })
    }

    #[tactic(auto, unfolding(crate::specs::Discovery::endpoint_description))]
    fn is_encodable(&self) -> bool {
        are_encodable!(self =>
            endpoint_url, server, server_certificate, security_mode, security_policy_uri,
            user_identity_tokens, transport_profile_uri, security_level
        )
    }

    #[tactic(auto, unfolding(crate::specs::Discovery::endpoint_description))]
    fn append(&self, out: &mut Vec<u8>) -> Result<(), AllocError> {
        append_two(&self.endpoint_url, &self.server, out)?;
        append_two(&self.server_certificate, &self.security_mode, out)?;
        append_two(&self.security_policy_uri, &self.user_identity_tokens, out)?;
        append_two(&self.transport_profile_uri, &self.security_level, out)
    }
}

impl Wire for GetEndpointsRequest {
    ghost use Rattle.ua_structures.specs.Discovery.{get_endpoints_request};

    ghost format = { get_endpoints_request };

    #[inline]
    #[tactic(auto, unfolding(crate::specs::Discovery::get_endpoints_request), using(crate::proofs::DiscoverySound::sound_get_endpoints_request))]
    fn lawful() {}

    #[tactic(auto, unfolding(crate::specs::Discovery::get_endpoints_request))]
    fn read_value<S: Source>(alloc: Global, src: &mut S, depth: u32) -> Result<Self, ReadFault> {
        read_fields!(alloc, src, depth => GetEndpointsRequest {
            request_header, endpoint_url, locale_ids, profile_uris
        })
    }

    #[tactic(auto, unfolding(crate::specs::Discovery::get_endpoints_request))]
    fn is_encodable(&self) -> bool {
        are_encodable!(self => request_header, endpoint_url, locale_ids, profile_uris)
    }

    #[tactic(auto, unfolding(crate::specs::Discovery::get_endpoints_request))]
    fn append(&self, out: &mut Vec<u8>) -> Result<(), AllocError> {
        append_two(&self.request_header, &self.endpoint_url, out)?;
        append_two(&self.locale_ids, &self.profile_uris, out)
    }
}

impl Wire for GetEndpointsResponse {
    ghost use Rattle.ua_structures.specs.Discovery.{get_endpoints_response};

    ghost format = { get_endpoints_response };

    #[inline]
    #[tactic(auto, unfolding(crate::specs::Discovery::get_endpoints_response), using(crate::proofs::DiscoverySound::sound_get_endpoints_response))]
    fn lawful() {}

    #[tactic(auto, unfolding(crate::specs::Discovery::get_endpoints_response))]
    fn read_value<S: Source>(alloc: Global, src: &mut S, depth: u32) -> Result<Self, ReadFault> {
        read_fields!(alloc, src, depth => GetEndpointsResponse { response_header, endpoints })
    }

    #[tactic(auto, unfolding(crate::specs::Discovery::get_endpoints_response))]
    fn is_encodable(&self) -> bool {
        are_encodable!(self => response_header, endpoints)
    }

    #[tactic(auto, unfolding(crate::specs::Discovery::get_endpoints_response))]
    fn append(&self, out: &mut Vec<u8>) -> Result<(), AllocError> {
        append_two(&self.response_header, &self.endpoints, out)
    }
}
