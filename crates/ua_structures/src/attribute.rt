//! The services Read and Write.

ghost use Rattle.std.specs.Prelude.{◌≡◌, ◌<◌, ◌≤◌, ◌∷◌, [], length, IsTrue, IfOk, OnOk, OnErr};
ghost use Rattle.std.specs.List.{list_all};
ghost use Rattle.ua_builtin.specs.Counted.{first_negative};
ghost use Rattle.ua_builtin.specs.NodeId.{node_id as node_format};
ghost use Rattle.ua_builtin.specs.Status.{status_code};
ghost use Rattle.ua_builtin.specs.Format.{Extends};
ghost use Rattle.ua_opening.specs.Array.{array};
ghost use Rattle.ua_variant.specs.Formats.{data_value_format, diagnostic_format};
ghost use Rattle.ua_structures.specs.Results.{AddsResponse};
ghost use Rattle.ua_structures.specs.Attribute.{read_value_id, read_request, read_response};
ghost use Rattle.ua_structures.specs.Attribute.{write_value, write_request, write_response};
ghost use Rattle.ua_opening.specs.Header.{request_header as header_format, response_header as answer_format};
ghost use Rattle.ua_structures.specs.Plain.{empty_read, empty_read_response, empty_write, value_of_node};
ghost use Rattle.ua_structures.specs.Plain.{value_for_node, read_of, write_of, read_response_of, write_response_of};

use crate::data_values::read_data_values;
use std::alloc::{AllocError, Global};
use ua_builtin::{
    DoubleBits, NodeId, QualifiedName, ReadFault, Source, StatusCode, UaString, Wire,
};
use ua_opening::{RequestHeader, ResponseHeader, UaArray};
use ua_variant::{DataValue, DiagnosticInfo};

/// An item of a Read: an attribute of a node, or a part of it (OPC 10000-4, 7.29).
#[derive(Debug, Drop)]
pub struct ReadValueId {
    pub node_id: NodeId,
    /// The attribute; [`VALUE_ATTRIBUTE`] is the Value.
    pub attribute_id: u32,
    /// The elements of an array to read; null means all.
    pub index_range: UaString,
    /// The encoding of a structure; a null name means the default.
    pub data_encoding: QualifiedName,
}

/// The AttributeId of the Value attribute (OPC 10000-6, A.1).
pub const VALUE_ATTRIBUTE: u32 = 13;

/// The times of source and server (OPC 10000-4, 7.40).
const BOTH_TIMES: i32 = 2;

impl ReadValueId {
    /// An item for the whole Value of a node, in its default encoding.
    #[tactic(auto, using(crate::proofs::PlainFits::read_value_id_fits))]
    pub fn new(node_id: NodeId) -> ReadValueId
        ensures value { result ≡ value_of_node node_id }
        ensures encodable { IsTrue (node_format.encodable node_id) → IsTrue (read_value_id.encodable result) }
    {
        ReadValueId {
            node_id,
            attribute_id: VALUE_ATTRIBUTE,
            index_range: UaString::null(),
            data_encoding: QualifiedName {
                namespace: 0,
                name: UaString::null(),
            },
        }
    }
}

/// The Read request: asks for attributes of nodes (OPC 10000-4, 5.11.2).
#[derive(Debug, Drop)]
pub struct ReadRequest {
    pub request_header: RequestHeader,
    /// The greatest age of a value, in milliseconds.
    pub max_age: DoubleBits,
    /// 0 for Source, 1 for Server, 2 for Both, 3 for Neither; any other number is preserved.
    pub timestamps_to_return: i32,
    pub nodes_to_read: UaArray<ReadValueId>,
}

impl ReadRequest {
    ghost use Rattle.ua_builtin.specs.Format.{most_levels, GivesBy, StaysBehind};

    /// A Read of these items with a MaxAge of 0, and with source and server timestamps.
    #[tactic(auto, using(crate::proofs::PlainFits::read_request_fits))]
    pub fn with_items(request_header: RequestHeader, items: Vec<ReadValueId>) -> ReadRequest
        ensures value { result ≡ read_of request_header items.items }
        ensures encodable { IsTrue (header_format.encodable request_header) → length items.items < first_negative
            → IsTrue (list_all read_value_id.encodable items.items) → IsTrue (read_request.encodable result) }
    {
        ReadRequest {
            request_header,
            max_age: DoubleBits { bits: 0 },
            timestamps_to_return: BOTH_TIMES,
            nodes_to_read: UaArray::new(Some(items)),
        }
    }

    /// A Read of one item, as [`of_items`](ReadRequest::with_items) makes it.
    #[tactic(auto, using(crate::proofs::PlainFits::read_item_fits))]
    pub fn with_item(
        alloc: Global,
        request_header: RequestHeader,
        item: ReadValueId,
    ) -> Result<ReadRequest, AllocError>
        ensures value { IfOk result (λ request. request ≡ read_of request_header (item ∷ [])) }
        ensures encodable { IsTrue (header_format.encodable request_header) → IsTrue (read_value_id.encodable item)
            → IfOk result (λ request. IsTrue (read_request.encodable request)) }
    {
        let mut items = Vec::new(alloc);
        items.push(item)?;
        Ok(ReadRequest::with_items(request_header, items))
    }

    /// A Read of no items with an empty header, to decode one into. Allocates nothing.
    pub fn empty() -> ReadRequest
        ensures { result ≡ empty_read }
    {
        ReadRequest {
            request_header: RequestHeader::empty(),
            max_age: DoubleBits { bits: 0 },
            timestamps_to_return: 0,
            nodes_to_read: UaArray::null(),
        }
    }

    /// Decodes the ReadRequest at the start of the source into this one, as `read_value` does.
    /// After an error, discard the source.
    #[inline(never)]
    #[tactic(auto, unfolding(crate::specs::Attribute::read_request))]
    pub fn read_into<S: Source>(
        &mut self,
        alloc: Global,
        src: &mut S,
        depth: u32,
    ) -> Result<(), ReadFault>
        requires levels { depth ≤ most_levels }
        ensures exact { GivesBy (λ _. self.new) (read_request.decode depth) (S.octets src.old)
            (S.octets src.new) result }
        ensures behind { StaysBehind (S.octets src.old) (S.octets src.new) }
    {
        self.request_header.read_into(alloc, src, depth)?;
        self.max_age = DoubleBits::read_value(alloc, src, depth)?;
        self.timestamps_to_return = i32::read_value(alloc, src, depth)?;
        self.nodes_to_read = UaArray::read_value(alloc, src, depth)?;
        Ok(())
    }
}

/// The response to a [`ReadRequest`] (OPC 10000-4, 5.11.2).
#[derive(Debug, Drop)]
pub struct ReadResponse {
    pub response_header: ResponseHeader,
    /// One result for each item of the request, in its order.
    pub results: UaArray<DataValue>,
    pub diagnostic_infos: UaArray<DiagnosticInfo>,
}

impl ReadResponse {
    /// A response with the values of the items, without diagnostics.
    #[tactic(auto, using(crate::proofs::PlainFits::read_response_fits))]
    pub fn with_results(response_header: ResponseHeader, results: Vec<DataValue>) -> ReadResponse
        ensures value { result ≡ read_response_of response_header results.items }
        ensures encodable { IsTrue (answer_format.encodable response_header) → length results.items < first_negative
            → IsTrue (list_all data_value_format.encodable results.items) → IsTrue (read_response.encodable result) }
    {
        ReadResponse {
            response_header,
            results: UaArray::new(Some(results)),
            diagnostic_infos: UaArray::null(),
        }
    }
}

impl ReadResponse {
    ghost use Rattle.ua_builtin.specs.Format.{most_levels, GivesBy, StaysBehind};

    /// A response of no values with an empty header, to decode one into. Allocates nothing.
    pub fn empty() -> ReadResponse
        ensures { result ≡ empty_read_response }
    {
        ReadResponse {
            response_header: ResponseHeader::empty(),
            results: UaArray::null(),
            diagnostic_infos: UaArray::null(),
        }
    }

    /// Decodes the ReadResponse at the start of the source into this one, as `read_value` does.
    /// After an error, discard the source.
    #[inline(never)]
    #[tactic(auto, unfolding(crate::specs::Attribute::read_response))]
    pub fn read_into<S: Source>(
        &mut self,
        alloc: Global,
        src: &mut S,
        depth: u32,
    ) -> Result<(), ReadFault>
        requires levels { depth ≤ most_levels }
        ensures exact { GivesBy (λ _. self.new) (read_response.decode depth) (S.octets src.old)
            (S.octets src.new) result }
        ensures behind { StaysBehind (S.octets src.old) (S.octets src.new) }
    {
        self.response_header.read_into(alloc, src, depth)?;
        self.results = read_data_values(alloc, src, depth)?;
        self.diagnostic_infos = UaArray::read_value(alloc, src, depth)?;
        Ok(())
    }
}

/// The results of a Read: stored, or made one by one as they are encoded.
pub trait ReadResults {
    ghost use Rattle.std.specs.Prelude.{ℕ, List, OnOk};
    ghost use Rattle.ua_builtin.specs.Format.{Extends};

    /// The results can be encoded.
    ghost writable: { Self → Type 0 };

    /// Relates the bytes before the results are appended to the bytes afterwards.
    ghost adds: { Self → List ℕ → List ℕ → Type 0 };

    /// Appends the results, as an array of DataValues is encoded (OPC 10000-6, 5.2.5). The earlier
    /// contents stay, also after an error.
    fn append_results(&self, out: &mut Vec<u8>) -> Result<(), AllocError>
        requires { writable self.now }
        ensures ok { OnOk result (adds self.now out.old.items out.new.items) }
        ensures behind { Extends out.old.items out.new.items };
}

/// A stored array of results.
impl ReadResults for UaArray<DataValue> {
    ghost use Rattle.ua_structures.specs.Results.{AddsArray, IsWritableArray};

    ghost writable = { IsWritableArray };

    ghost adds = { AddsArray };

    fn append_results(&self, out: &mut Vec<u8>) -> Result<(), AllocError> {
        self.append(out)
    }
}

/// Appends the fields of a ReadResponse, in their order (OPC 10000-4, 5.11.2). On an error the
/// earlier contents stay, perhaps followed by more bytes.
pub(crate) fn append_read_response<R: ReadResults>(
    response_header: &ResponseHeader,
    results: &R,
    diagnostic_infos: &UaArray<DiagnosticInfo>,
    out: &mut Vec<u8>,
) -> Result<(), AllocError>
    requires header { IsTrue (answer_format.encodable response_header.now) }
    requires results { R.writable results.now }
    requires diagnostics { IsTrue ((array diagnostic_format).encodable diagnostic_infos.now) }
    ensures ok { OnOk result (AddsResponse (R.adds results.now) response_header.now diagnostic_infos.now out.old.items
        out.new.items) }
    ensures err { OnErr result (Extends out.old.items out.new.items) }
{
    response_header.append(out)?;
    results.append_results(out)?;
    diagnostic_infos.append(out)
}

/// An item of a Write: a value for an attribute of a node (OPC 10000-4, 5.11.4).
#[derive(Debug, Drop)]
pub struct WriteValue {
    pub node_id: NodeId,
    /// The attribute; [`VALUE_ATTRIBUTE`] is the Value.
    pub attribute_id: u32,
    /// The elements of an array to write; null means all.
    pub index_range: UaString,
    pub value: DataValue,
}

impl WriteValue {
    /// An item that sets the whole Value of a node.
    #[tactic(auto, using(crate::proofs::PlainFits::write_value_fits))]
    pub fn new(node_id: NodeId, value: DataValue) -> WriteValue
        ensures value { result ≡ value_for_node node_id value }
        ensures encodable { IsTrue (node_format.encodable node_id) → IsTrue (data_value_format.encodable value)
            → IsTrue (write_value.encodable result) }
    {
        WriteValue {
            node_id,
            attribute_id: VALUE_ATTRIBUTE,
            index_range: UaString::null(),
            value,
        }
    }
}

/// The Write request: sets attributes of nodes (OPC 10000-4, 5.11.4).
#[derive(Debug, Drop)]
pub struct WriteRequest {
    pub request_header: RequestHeader,
    pub nodes_to_write: UaArray<WriteValue>,
}

impl WriteRequest {
    /// A Write of these items.
    #[tactic(auto, using(crate::proofs::PlainFits::write_request_fits))]
    pub fn with_items(request_header: RequestHeader, items: Vec<WriteValue>) -> WriteRequest
        ensures value { result ≡ write_of request_header items.items }
        ensures encodable { IsTrue (header_format.encodable request_header) → length items.items < first_negative
            → IsTrue (list_all write_value.encodable items.items) → IsTrue (write_request.encodable result) }
    {
        WriteRequest {
            request_header,
            nodes_to_write: UaArray::new(Some(items)),
        }
    }

    /// A Write of no items with an empty header, to decode one into. Allocates nothing.
    pub fn empty() -> WriteRequest
        ensures { result ≡ empty_write }
    {
        WriteRequest {
            request_header: RequestHeader::empty(),
            nodes_to_write: UaArray::null(),
        }
    }

    /// A Write of one item.
    #[tactic(auto, using(crate::proofs::PlainFits::write_item_fits))]
    pub fn with_item(
        alloc: Global,
        request_header: RequestHeader,
        item: WriteValue,
    ) -> Result<WriteRequest, AllocError>
        ensures value { IfOk result (λ request. request ≡ write_of request_header (item ∷ [])) }
        ensures encodable { IsTrue (header_format.encodable request_header) → IsTrue (write_value.encodable item)
            → IfOk result (λ request. IsTrue (write_request.encodable request)) }
    {
        let mut items = Vec::new(alloc);
        items.push(item)?;
        Ok(WriteRequest::with_items(request_header, items))
    }
}

/// The response to a [`WriteRequest`] (OPC 10000-4, 5.11.4).
#[derive(Debug, Drop)]
pub struct WriteResponse {
    pub response_header: ResponseHeader,
    /// One result for each item of the request, in its order.
    pub results: UaArray<StatusCode>,
    pub diagnostic_infos: UaArray<DiagnosticInfo>,
}

impl WriteResponse {
    /// A response with the result of each item, without diagnostics.
    #[tactic(auto, using(crate::proofs::PlainFits::write_response_fits))]
    pub fn with_results(response_header: ResponseHeader, results: Vec<StatusCode>) -> WriteResponse
        ensures value { result ≡ write_response_of response_header results.items }
        ensures encodable { IsTrue (answer_format.encodable response_header) → length results.items < first_negative
            → IsTrue (list_all status_code.encodable results.items) → IsTrue (write_response.encodable result) }
    {
        WriteResponse {
            response_header,
            results: UaArray::new(Some(results)),
            diagnostic_infos: UaArray::null(),
        }
    }
}
