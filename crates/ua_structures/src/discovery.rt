//! Discovery: endpoints, and the applications that provide them.

ghost use Rattle.std.specs.Prelude.{◌≡◌, None, pos, IsTrue};
ghost use Rattle.ua_opening.specs.Array.{array};
ghost use Rattle.ua_structures.specs.Discovery.{application_description, get_endpoints_request};
ghost use Rattle.ua_opening.specs.Field.{string};
ghost use Rattle.ua_opening.specs.Header.{request_header as header_format};
ghost use Rattle.ua_structures.specs.Plain.{application_of, get_endpoints_request_of};

use ua_builtin::{LocalizedText, UaBytes, UaString};
use ua_opening::{RequestHeader, ResponseHeader, UaArray};

/// The description of a server or a client (OPC 10000-4, 7.2).
#[derive(Debug, Drop)]
pub struct ApplicationDescription {
    /// The globally unique identifier of the application instance.
    pub application_uri: UaString,
    pub product_uri: UaString,
    pub application_name: LocalizedText,
    /// 0 for a server, 1 for a client; any other number is preserved.
    pub application_type: i32,
    pub gateway_server_uri: UaString,
    pub discovery_profile_uri: UaString,
    pub discovery_urls: UaArray<UaString>,
}

/// A server, as an ApplicationType (OPC 10000-4, 7.4).
const SERVER: i32 = 0;

/// A client, as an ApplicationType (OPC 10000-4, 7.4).
const CLIENT: i32 = 1;

impl ApplicationDescription {
    /// A server with this ApplicationUri, this name without a locale, and these discovery URLs; the
    /// other fields are null.
    #[tactic(auto, using(crate::proofs::PlainFits::server_fits))]
    pub fn server(
        application_uri: UaString,
        name: UaString,
        discovery_urls: UaArray<UaString>,
    ) -> ApplicationDescription
        ensures value { result ≡ application_of (pos 0) application_uri name discovery_urls }
        ensures encodable { IsTrue (string.encodable application_uri) → IsTrue (string.encodable name)
            → IsTrue ((array string).encodable discovery_urls)
            → IsTrue (application_description.encodable result) }
    {
        ApplicationDescription::with_type(SERVER, application_uri, name, discovery_urls)
    }

    /// A client with this ApplicationUri and this name without a locale; the other fields are null.
    #[tactic(auto, using(crate::proofs::PlainFits::client_fits))]
    pub fn client(application_uri: UaString, name: UaString) -> ApplicationDescription
        ensures value { result ≡ application_of (pos 1) application_uri name None }
        ensures encodable { IsTrue (string.encodable application_uri) → IsTrue (string.encodable name)
            → IsTrue (application_description.encodable result) }
    {
        ApplicationDescription::with_type(CLIENT, application_uri, name, UaArray::null())
    }

    fn with_type(
        application_type: i32,
        application_uri: UaString,
        name: UaString,
        discovery_urls: UaArray<UaString>,
    ) -> ApplicationDescription
        ensures { result ≡ application_of application_type application_uri name discovery_urls }
    {
        ApplicationDescription {
            application_uri,
            product_uri: UaString::null(),
            application_name: LocalizedText {
                locale: UaString::null(),
                text: name,
            },
            application_type,
            gateway_server_uri: UaString::null(),
            discovery_profile_uri: UaString::null(),
            discovery_urls,
        }
    }
}

/// A kind of user identity token that an endpoint accepts (OPC 10000-4, 7.42).
#[derive(Debug, Drop)]
pub struct UserTokenPolicy {
    /// The PolicyId by which an identity token refers to this policy.
    pub policy_id: UaString,
    /// 0 for Anonymous; any other number is preserved.
    pub token_type: i32,
    pub issued_token_type: UaString,
    pub issuer_endpoint_url: UaString,
    pub security_policy_uri: UaString,
}

/// An endpoint of a server: its URL and its security settings (OPC 10000-4, 7.14).
#[derive(Debug, Drop)]
pub struct EndpointDescription {
    pub endpoint_url: UaString,
    pub server: ApplicationDescription,
    pub server_certificate: UaBytes,
    /// 1 for None, 2 for Sign, 3 for SignAndEncrypt; any other number is preserved.
    pub security_mode: i32,
    pub security_policy_uri: UaString,
    pub user_identity_tokens: UaArray<UserTokenPolicy>,
    pub transport_profile_uri: UaString,
    /// A greater number means more secure.
    pub security_level: u8,
}

/// The GetEndpoints request: asks for the endpoints of a server (OPC 10000-4, 5.5.4).
#[derive(Debug, Drop)]
pub struct GetEndpointsRequest {
    pub request_header: RequestHeader,
    /// The URL by which the client reached the server.
    pub endpoint_url: UaString,
    pub locale_ids: UaArray<UaString>,
    /// The transport profiles that are asked for; none means all.
    pub profile_uris: UaArray<UaString>,
}

impl GetEndpointsRequest {
    /// Asks for the endpoints at this URL, for any locale and profile.
    #[tactic(auto, using(crate::proofs::PlainFits::endpoints_fit))]
    pub fn with_url(request_header: RequestHeader, endpoint_url: UaString) -> GetEndpointsRequest
        ensures value { result ≡ get_endpoints_request_of request_header endpoint_url }
        ensures encodable { IsTrue (header_format.encodable request_header) → IsTrue (string.encodable endpoint_url)
            → IsTrue (get_endpoints_request.encodable result) }
    {
        GetEndpointsRequest {
            request_header,
            endpoint_url,
            locale_ids: UaArray::null(),
            profile_uris: UaArray::null(),
        }
    }
}

/// The response to a [`GetEndpointsRequest`] (OPC 10000-4, 5.5.4).
#[derive(Debug, Drop)]
pub struct GetEndpointsResponse {
    pub response_header: ResponseHeader,
    pub endpoints: UaArray<EndpointDescription>,
}
