//! The requests that the program `ua` makes in a session, each with exactly the fields that are
//! documented here.
//!
//! ```
//! let url = local_url(alloc, 4840)?;
//! let request = create_session_request(alloc, url, moment, 2)?; // RequestHandle 2
//! ```

ghost use Rattle.std.specs.Prelude.{◌≡◌, ◌<◌, ◌↔◌, length, string_bytes, IsErrOf, IsFalse, IsTrue, IfOk, IfSome, Some};
ghost use Rattle.std.specs.List.{list_all};
ghost use Rattle.ua_builtin.specs.Counted.{first_negative, is_text};
ghost use Rattle.ua_builtin.specs.ExtensionObject.{extension_object};
ghost use Rattle.ua_builtin.specs.NodeId.{node_id};
ghost use Rattle.ua_wire.specs.declared.fault.WriteFault.TheVariants.{NotWritable};
ghost use Rattle.ua_services.specs.Request.{request};
ghost use Rattle.ua_structures.specs.Attribute.{read_value_id, write_value};
ghost use Rattle.ua_opening.specs.Field.{string};
ghost use Rattle.ua_opening.specs.Plain.{request_header_of};
ghost use Rattle.ua_structures.specs.Plain.{value_for_node};
ghost use Rattle.ua_variant.specs.Formats.{data_value_format};
ghost use Rattle.ua_variant.specs.View.{variant_of};
ghost use Rattle.ua_services.specs.SessionRequests.{activate_session, activate_session_as, anonymous_identity};
ghost use Rattle.ua_services.specs.SessionRequests.{attribute_of_node, close_session, create_session, get_endpoints};
ghost use Rattle.ua_services.specs.SessionRequests.{local_url as url_of, part_of_node, read, value_alone, write};

use crate::identity::write_identity;
use crate::request::Request;
use std::alloc::{AllocError, Global};
use ua_builtin::{DateTime, DoubleBits, NodeId, UaString, WriteFault};
use ua_opening::RequestHeader;
use ua_structures::{
    ActivateSessionRequest, AnonymousIdentityToken, ApplicationDescription, CloseSessionRequest,
    CreateSessionRequest, GetEndpointsRequest, ReadRequest, ReadValueId, VALUE_ATTRIBUTE,
    WriteRequest, WriteValue,
};
use ua_variant::{DataValue, HeldVariant, Variant};

/// The timeout that is asked for: 120000 ms, as the pattern of a Double.
const SESSION_TIMEOUT: DoubleBits = DoubleBits {
    bits: 0x40FD_4C00_0000_0000,
};

/// The EndpointUrl of a server on this machine.
#[tactic(auto, unfolding(crate::specs::SessionRequests::local_url))]
pub fn local_url(alloc: Global, port: u16) -> Result<UaString, AllocError>
    ensures value { IfOk result (λ url. url ≡ Some (url_of port)) }
    ensures encodable { IfOk result (λ url. IsTrue (string.encodable url)) }
{
    let text = format!(in alloc; "opc.tcp://localhost:{port}")?;
    Ok(UaString::new(Some(text)))
}

/// A GetEndpoints request.
#[tactic(auto, using(crate::proofs::Asked::get_endpoints_fits, crate::proofs::Words::null_id_fits))]
pub fn get_endpoints_request(url: UaString, moment: DateTime, handle: u32) -> Request
    ensures value { result ≡ get_endpoints url moment handle }
    ensures encodable { IsTrue (string.encodable url) → IsTrue (request.encodable result) }
{
    let header = RequestHeader::new(NodeId::null(), moment, handle);
    Request::GetEndpoints(GetEndpointsRequest::with_url(header, url))
}

/// A CreateSession request, for a session named `ua` of the client `urn:ua:client`.
#[tactic(auto, using(crate::proofs::Asked::create_session_fits, crate::proofs::Words::client_uri_fits, crate::proofs::Words::name_fits, crate::proofs::Words::null_id_fits))]
pub fn create_session_request(
    alloc: Global,
    url: UaString,
    moment: DateTime,
    handle: u32,
) -> Result<Request, AllocError>
    ensures value { IfOk result (λ r. r ≡ create_session url moment handle) }
    ensures encodable { IsTrue (string.encodable url) → IfOk result (λ r. IsTrue (request.encodable r)) }
{
    let uri = UaString::from_str(alloc, "urn:ua:client")?;
    let name = UaString::from_str(alloc, "ua")?;
    let session = UaString::from_str(alloc, "ua")?;
    let header = RequestHeader::new(NodeId::null(), moment, handle);
    let client = ApplicationDescription::client(uri, name);
    Ok(Request::CreateSession(CreateSessionRequest::new(
        header,
        client,
        url,
        session,
        SESSION_TIMEOUT,
    )))
}

/// The identity of a user without a name, by the token policy with this id, which is UTF-8 as any
/// text.
fn anonymous_token(policy_id: UaString) -> AnonymousIdentityToken
    ensures named { result.policy_id ≡ policy_id }
    ensures utf8 { IsTrue (is_text policy_id) }
{
    // The call says that the text is UTF-8, and does nothing else.
    let _text = policy_id.as_str();
    AnonymousIdentityToken { policy_id }
}

/// An ActivateSession request for an anonymous user, with the UserTokenPolicy of this PolicyId. The
/// error is `NotWritable` if the id cannot be encoded as a String; the request could not be encoded
/// either.
pub fn activate_session_request_as(
    alloc: Global,
    token: NodeId,
    policy_id: UaString,
    moment: DateTime,
    handle: u32,
) -> Result<Request, WriteFault>
    ensures value { IfOk result (λ r. r ≡ activate_session_as policy_id token moment handle) }
    ensures encodable { IsTrue (node_id.encodable token)
        → IsTrue (extension_object.encodable (anonymous_identity policy_id))
        → IfOk result (λ r. IsTrue (request.encodable r)) }
    ensures refused { IsErrOf result NotWritable ↔ IsFalse (string.encodable policy_id) }
    ensures unwritable { IsErrOf result NotWritable
        → IsFalse (request.encodable (activate_session_as policy_id token moment handle)) }
{
    let identity = match write_identity(alloc, &anonymous_token(policy_id)) {
        Ok(identity) => identity,
        Err(fault) => return Err(fault),
    };
    let header = RequestHeader::new(token, moment, handle);
    Ok(Request::ActivateSession(ActivateSessionRequest::new(header, identity)))
}

/// An ActivateSession request for an anonymous user, with the UserTokenPolicy `anonymous`.
pub fn activate_session_request(
    alloc: Global,
    token: NodeId,
    moment: DateTime,
    handle: u32,
) -> Result<Request, AllocError>
    ensures value { IfOk result (λ r. r ≡ activate_session token moment handle) }
    ensures encodable { IsTrue (node_id.encodable token) → IfOk result (λ r. IsTrue (request.encodable r)) }
{
    let policy_id = UaString::from_str(alloc, "anonymous")?;
    match activate_session_request_as(alloc, token, policy_id, moment, handle) {
        Ok(request) => Ok(request),
        Err(WriteFault::OutOfMemory) => Err(AllocError),
        Err(WriteFault::NotWritable) => unreachable!(),
    }
}

/// A CloseSession request, which keeps subscriptions.
#[tactic(auto, using(crate::proofs::Asked::closing_fits))]
pub fn close_session_request(token: NodeId, moment: DateTime, handle: u32) -> Request
    ensures value { result ≡ close_session token moment handle }
    ensures encodable { IsTrue (node_id.encodable token) → IsTrue (request.encodable result) }
{
    Request::CloseSession(CloseSessionRequest {
        request_header: RequestHeader::new(token, moment, handle),
        delete_subscriptions: false,
    })
}

/// A Read request of these items, for source and server timestamps.
#[tactic(auto, using(crate::proofs::Asked::read_fits))]
pub fn read_request(
    token: NodeId,
    moment: DateTime,
    handle: u32,
    items: Vec<ReadValueId>,
) -> Request
    ensures value { result ≡ read token moment handle items.items }
    ensures encodable { IsTrue (node_id.encodable token) → length items.items < first_negative
        → IsTrue (list_all read_value_id.encodable items.items) → IsTrue (request.encodable result) }
{
    let header = RequestHeader::new(token, moment, handle);
    Request::Read(ReadRequest::with_items(header, items))
}

/// A Write request of these items.
#[tactic(auto, using(crate::proofs::Asked::write_fits))]
pub fn write_request(
    token: NodeId,
    moment: DateTime,
    handle: u32,
    items: Vec<WriteValue>,
) -> Request
    ensures value { result ≡ write token moment handle items.items }
    ensures encodable { IsTrue (node_id.encodable token) → length items.items < first_negative
        → IsTrue (list_all write_value.encodable items.items) → IsTrue (request.encodable result) }
{
    let header = RequestHeader::new(token, moment, handle);
    Request::Write(WriteRequest::with_items(header, items))
}

/// A Read item for an attribute of a node, by its AttributeId (OPC 10000-6, A.1), or for the part
/// of an array that an index range selects.
#[tactic(auto, using(crate::proofs::Asked::attribute_fits))]
pub fn read_attribute_item(node: NodeId, attribute: u32, range: UaString) -> ReadValueId
    ensures value { result ≡ attribute_of_node node attribute range }
    ensures encodable { IsTrue (node_id.encodable node) → IsTrue (string.encodable range)
        → IsTrue (read_value_id.encodable result) }
{
    let mut item = ReadValueId::new(node);
    item.attribute_id = attribute;
    item.index_range = range;
    item
}

/// A Read item for the Value of a node, or for the part of an array that an index range selects.
pub fn read_item(node: NodeId, range: UaString) -> ReadValueId
    ensures value { result ≡ part_of_node node range }
    ensures encodable { IsTrue (node_id.encodable node) → IsTrue (string.encodable range)
        → IsTrue (read_value_id.encodable result) }
{
    read_attribute_item(node, VALUE_ATTRIBUTE, range)
}

/// A Write item that sets the Value of a node, without status and timestamps.
pub fn write_item(node: NodeId, value: Variant) -> WriteValue
    ensures value { result ≡ value_for_node node (value_alone (variant_of value)) }
    ensures encodable { IsTrue (node_id.encodable node)
        → IsTrue (data_value_format.encodable (value_alone (variant_of value)))
        → IsTrue (write_value.encodable result) }
{
    let value = DataValue {
        value: Some(HeldVariant::new(value)),
        status: None,
        source_timestamp: None,
        source_picoseconds: None,
        server_timestamp: None,
        server_picoseconds: None,
    };
    WriteValue::new(node, value)
}
