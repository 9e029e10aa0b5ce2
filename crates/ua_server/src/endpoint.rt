//! What a server tells about itself.

ghost use Rattle.std.specs.Prelude.{◌≡◌, ◌∷◌, [], Some, IfOk};
ghost use Rattle.std.specs.List.{list_any};
ghost use Rattle.ua_server.specs.Sessions.{endpoints_for};
ghost use Rattle.ua_server.specs.Endpoint.{anonymous, description_of, is_served};
ghost use Rattle.ua_server.specs.Endpoint.{are_served, none_security_policy, transport_profile};

use std::alloc::{AllocError, Global};
use ua_builtin::{UaBytes, UaString};
use ua_structures::{ApplicationDescription, EndpointDescription, UaArray, UserTokenPolicy};

/// The SecurityPolicy None (OPC 10000-7, 6.2).
const NONE_POLICY: &str = "http://opcfoundation.org/UA/SecurityPolicy#None";

/// UA TCP with secure conversation and binary encoding (OPC 10000-7, 6.6).
const TRANSPORT_PROFILE: &str = "http://opcfoundation.org/UA-Profile/Transport/uatcp-uasc-uabinary";

/// What GetEndpoints and CreateSession answer about a server. Its texts must be encodable.
#[derive(Debug, Drop)]
pub struct Endpoint {
    /// The URL of the server.
    pub url: UaString,
    pub application_uri: UaString,
    /// The name of the application, without a locale.
    pub name: UaString,
    /// The MaxRequestMessageSize of CreateSession responses, in bytes; 0 is no limit.
    pub message_limit: u32,
}

impl Endpoint {
    /// The one endpoint, which has no security (OPC 10000-4, 7.14).
    fn description(&self, alloc: Global) -> Result<EndpointDescription, AllocError>
        ensures { IfOk result (λ e. e ≡ description_of self.now) }
    {
        let server = self.application(alloc)?;
        self.describe(alloc, server)
    }

    // Each part is passed on as soon as it is made: the cost of a check grows fast with the number
    // of values alive where an allocation may fail.

    /// The endpoint of this server.
    fn describe(
        &self,
        alloc: Global,
        server: ApplicationDescription,
    ) -> Result<EndpointDescription, AllocError>
        ensures { IfOk result (λ e. e ≡ record (description_of self.now) { server = server }) }
    {
        match policies(alloc) {
            Ok(tokens) => self.describe_with(alloc, server, tokens),
            Err(refused) => {
                drop(server);
                Err(refused)
            }
        }
    }

    /// The endpoint of this server, with these user token policies.
    fn describe_with(
        &self,
        alloc: Global,
        server: ApplicationDescription,
        user_identity_tokens: UaArray<UserTokenPolicy>,
    ) -> Result<EndpointDescription, AllocError>
        ensures { IfOk result
            (λ e. e ≡ record (description_of self.now) {
              server = server;
              user_identity_tokens = user_identity_tokens;
            }) }
    {
        match self.texts(alloc) {
            Ok((endpoint_url, security_policy_uri, transport_profile_uri)) => {
                Ok(EndpointDescription {
                    endpoint_url,
                    server,
                    server_certificate: UaBytes::null(),
                    security_mode: 1,
                    security_policy_uri,
                    user_identity_tokens,
                    transport_profile_uri,
                    security_level: 0,
                })
            }
            Err(refused) => {
                drop(server);
                drop(user_identity_tokens);
                Err(refused)
            }
        }
    }

    /// The address, the security policy and the transport profile.
    fn texts(&self, alloc: Global) -> Result<(UaString, UaString, UaString), AllocError>
        ensures { IfOk result
            (λ t. (t.0 ≡ self.now.url) × ((t.1 ≡ Some none_security_policy) × (t.2 ≡ Some transport_profile))) }
    {
        let url = self.url.try_clone()?;
        let policy = UaString::from_str(alloc, NONE_POLICY)?;
        let profile = UaString::from_str(alloc, TRANSPORT_PROFILE)?;
        Ok((url, policy, profile))
    }

    /// The one endpoint, or none where the client does not ask for its profile.
    pub(crate) fn endpoints(
        &self,
        alloc: Global,
        asked: bool,
    ) -> Result<Vec<EndpointDescription>, AllocError>
        ensures { IfOk result (λ v. v.items ≡ endpoints_for asked (description_of self.now)) }
    {
        let mut endpoints = Vec::new(alloc);
        if !asked {
            return Ok(endpoints);
        }
        endpoints.push(self.description(alloc)?)?;
        Ok(endpoints)
    }

    fn application(&self, alloc: Global) -> Result<ApplicationDescription, AllocError>
        ensures { IfOk result (λ a. a ≡ (description_of self.now).server) }
    {
        let mut urls = Vec::new(alloc);
        urls.push(self.url.try_clone()?)?;
        Ok(ApplicationDescription::server(
            self.application_uri.try_clone()?,
            self.name.try_clone()?,
            UaArray::new(Some(urls)),
        ))
    }
}

/// The one user token policy.
fn policies(alloc: Global) -> Result<UaArray<UserTokenPolicy>, AllocError>
    ensures { IfOk result (λ p. p ≡ Some (anonymous ∷ [])) }
{
    let mut policies = Vec::new(alloc);
    policies.push(UserTokenPolicy {
        policy_id: UaString::from_str(alloc, "anonymous")?,
        token_type: 0,
        issued_token_type: UaString::null(),
        issuer_endpoint_url: UaString::null(),
        security_policy_uri: UaString::null(),
    })?;
    Ok(UaArray::new(Some(policies)))
}

/// Whether a client that names these profiles gets the endpoint: it names none, or the endpoint's
/// own is one of them.
pub(crate) fn serves(profiles: &UaArray<UaString>) -> bool
    ensures { result ≡ are_served profiles.now }
{
    match profiles.as_items() {
        None => true,
        Some(profiles) => profiles.is_empty() || has_own(profiles),
    }
}

fn has_own(profiles: &[UaString]) -> bool
    ensures { result ≡ list_any is_served profiles.now }
{
    for profile in profiles {
        if is_own(profile) {
            return true;
        }
    }
    false
}

fn is_own(profile: &UaString) -> bool
    ensures { result ≡ is_served profile.now }
{
    match profile.as_str() {
        Some(profile) => profile == TRANSPORT_PROFILE,
        None => false,
    }
}
