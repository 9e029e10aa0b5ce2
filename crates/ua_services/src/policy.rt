//! The choice of a UserTokenPolicy among a server's endpoints.

ghost use Rattle.std.specs.Prelude.{◌≡◌, Some, option_map, is_some};
ghost use Rattle.std.specs.List.{find};
ghost use Rattle.ua_services.specs.Policy.{anonymous_id_in, chosen_id, is_anonymous};
ghost use Rattle.ua_services.specs.Policy.{is_fit, is_tcp, is_text_of, is_unsecured};

use ua_builtin::UaString;
use ua_structures::{EndpointDescription, UserTokenPolicy};

/// The URI of the security policy None.
const NO_SECURITY: &str = "http://opcfoundation.org/UA/SecurityPolicy#None";

/// The MessageSecurityMode None (OPC 10000-4, 7.20).
const NO_SECURITY_MODE: i32 = 1;

/// The URI of the transport profile of UA TCP (OPC 10000-4, 7.14).
const UA_TCP: &str = "http://opcfoundation.org/UA-Profile/Transport/uatcp-uasc-uabinary";

/// The UserTokenType Anonymous (OPC 10000-4, 7.43).
const ANONYMOUS: i32 = 0;

/// Whether a text is this one, and not null.
fn is_text(text: &UaString, wanted: &str) -> bool
    ensures { result ≡ is_text_of wanted.now text.now }
{
    match text.as_str() {
        Some(text) => text == wanted,
        None => false,
    }
}

fn is_unsecured(endpoint: &EndpointDescription) -> bool
    ensures { result ≡ is_unsecured endpoint.now }
{
    endpoint.security_mode == NO_SECURITY_MODE
        && is_text(&endpoint.security_policy_uri, NO_SECURITY)
}

fn is_tcp(endpoint: &EndpointDescription) -> bool
    ensures { result ≡ is_tcp endpoint.now }
{
    is_text(&endpoint.transport_profile_uri, UA_TCP)
}

fn is_anonymous(policy: &UserTokenPolicy) -> bool
    ensures { result ≡ is_anonymous policy.now }
{
    policy.token_type == ANONYMOUS
}

/// The first anonymous token policy.
fn find_anonymous(policies: &[UserTokenPolicy]) -> Option<&UserTokenPolicy>
    ensures { option_map (λ policy. policy.now) result ≡ find is_anonymous policies.now }
{
    policies.iter().find(|policy| is_anonymous(policy))
}

/// The PolicyId of the first anonymous token policy of an endpoint.
fn anonymous_id_in(endpoint: &EndpointDescription) -> Option<&UaString>
    ensures { option_map (λ id. id.now) result ≡ anonymous_id_in (Some endpoint.now) }
{
    let policies = endpoint.user_identity_tokens.as_items().unwrap_or(&[]);
    match find_anonymous(policies) {
        Some(policy) => Some(&policy.policy_id),
        None => None,
    }
}

/// Whether a session can be begun by an endpoint.
fn is_fit(endpoint: &EndpointDescription) -> bool
    ensures { result ≡ is_fit endpoint.now }
{
    is_unsecured(endpoint) && is_tcp(endpoint) && anonymous_id_in(endpoint).is_some()
}

/// The first endpoint by which a session can be begun.
fn find_fit(endpoints: &[EndpointDescription]) -> Option<&EndpointDescription>
    ensures { option_map (λ endpoint. endpoint.now) result ≡ find is_fit endpoints.now }
{
    endpoints.iter().find(|endpoint| is_fit(endpoint))
}

/// The PolicyId of the first anonymous UserTokenPolicy of the first endpoint that has one and uses
/// UA TCP, SecurityPolicy None and MessageSecurityMode None (1); it may be null. `None` if there is
/// no such endpoint.
#[tactic(auto, unfolding(crate::specs::Policy::chosen_id))]
pub fn chosen_id(endpoints: &[EndpointDescription]) -> Option<&UaString>
    ensures { option_map (λ id. id.now) result ≡ chosen_id endpoints.now }
{
    match find_fit(endpoints) {
        Some(endpoint) => anonymous_id_in(endpoint),
        None => None,
    }
}
