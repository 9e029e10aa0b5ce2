//! The structures of the service GetEndpoints, as lines.

use crate::lines::{Lines, Place, push_fields};
use std::alloc::{AllocError, Global};
use ua_services::{
    ApplicationDescription, EndpointDescription, GetEndpointsRequest, GetEndpointsResponse,
    UserTokenPolicy,
};

impl Lines for ApplicationDescription {
    ghost use Rattle.ua_fields.specs.Tree.{structure};
    ghost use Rattle.ua_fields.specs.Discovery.{application_description_entries};

    ghost tree = { λ m. structure (application_description_entries m) };

    fn is_structure() -> bool {
        true
    }

    #[tactic(auto, unfolding(crate::specs::Discovery::application_description_entries))]
    fn push_lines(&self, alloc: Global, out: &mut String, place: Place) -> Result<(), AllocError> {
        push_fields!(self, alloc, out, place => application_uri, product_uri, application_name, application_type,
            gateway_server_uri, discovery_profile_uri, discovery_urls)
    }
}

impl Lines for UserTokenPolicy {
    ghost use Rattle.ua_fields.specs.Tree.{structure};
    ghost use Rattle.ua_fields.specs.Discovery.{user_token_policy_entries};

    ghost tree = { λ m. structure (user_token_policy_entries m) };

    fn is_structure() -> bool {
        true
    }

    #[tactic(auto, unfolding(crate::specs::Discovery::user_token_policy_entries))]
    fn push_lines(&self, alloc: Global, out: &mut String, place: Place) -> Result<(), AllocError> {
        push_fields!(self, alloc, out, place => policy_id, token_type, issued_token_type, issuer_endpoint_url,
            security_policy_uri)
    }
}

impl Lines for EndpointDescription {
    ghost use Rattle.ua_fields.specs.Tree.{structure};
    ghost use Rattle.ua_fields.specs.Discovery.{endpoint_description_entries};

    ghost tree = { λ m. structure (endpoint_description_entries m) };

    fn is_structure() -> bool {
        true
    }

    #[tactic(auto, unfolding(crate::specs::Discovery::endpoint_description_entries))]
    fn push_lines(&self, alloc: Global, out: &mut String, place: Place) -> Result<(), AllocError> {
        push_fields!(self, alloc, out, place => endpoint_url, server, server_certificate, security_mode,
            security_policy_uri, user_identity_tokens, transport_profile_uri, security_level)
    }
}

impl Lines for GetEndpointsRequest {
    ghost use Rattle.ua_fields.specs.Tree.{structure};
    ghost use Rattle.ua_fields.specs.Discovery.{get_endpoints_request_entries};

    ghost tree = { λ m. structure (get_endpoints_request_entries m) };

    fn is_structure() -> bool {
        true
    }

    #[tactic(auto, unfolding(crate::specs::Discovery::get_endpoints_request_entries))]
    fn push_lines(&self, alloc: Global, out: &mut String, place: Place) -> Result<(), AllocError> {
        push_fields!(self, alloc, out, place => request_header, endpoint_url, locale_ids, profile_uris)
    }
}

impl Lines for GetEndpointsResponse {
    ghost use Rattle.ua_fields.specs.Tree.{structure};
    ghost use Rattle.ua_fields.specs.Discovery.{get_endpoints_response_entries};

    ghost tree = { λ m. structure (get_endpoints_response_entries m) };

    fn is_structure() -> bool {
        true
    }

    #[tactic(auto, unfolding(crate::specs::Discovery::get_endpoints_response_entries))]
    fn push_lines(&self, alloc: Global, out: &mut String, place: Place) -> Result<(), AllocError> {
        push_fields!(self, alloc, out, place => response_header, endpoints)
    }
}
