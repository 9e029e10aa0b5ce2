//! The services Read and Write.

ghost use Rattle.std.specs.Prelude.{◌≡◌, ◌+◌, ◌<◌, ◌≤◌, ◌++◌, ◌⊎◌, IsTrue, IfErr, IfOk, OnOk, OnErr};
ghost use Rattle.std.specs.Prelude.{None, Some, option_map, length, vec_len, vec_capacity};
ghost use Rattle.std.specs.List.{list_all};
ghost use Rattle.ua_builtin.specs.Format.{Extends};
ghost use Rattle.ua_builtin.specs.NodeId.{node_id};
ghost use Rattle.ua_builtin.specs.Number.{number_octets};
ghost use Rattle.ua_builtin.specs.Reasons.{first_reason};
ghost use Rattle.ua_opening.specs.Message.{standard};
ghost use Rattle.ua_services.specs.Response.{header_of_response, response};
ghost use Rattle.ua_builtin.specs.Status.{of_code, status_code};
ghost use Rattle.ua_opening.specs.Header.{response_header};
ghost use Rattle.ua_opening.specs.Plain.{response_header_of};
ghost use Rattle.ua_structures.specs.Results.{AddsResponse};
ghost use Rattle.ua_nodes.specs.Read.{read_answer};
ghost use Rattle.ua_nodes.specs.Table.{node_at};
ghost use Rattle.ua_nodes.specs.Limit.{limited_answers, after_limited};
ghost use Rattle.ua_variant.specs.Formats.{data_value_format};
ghost use Rattle.ua_server.specs.State.{with_nodes};
ghost use Rattle.ua_server.specs.Answer.{fault_of, read_items, write_items};
ghost use Rattle.ua_services.specs.declared.response.Response.TheVariants.{Write as WriteMessage};
ghost use Rattle.ua_structures.specs.Attribute.{write_response};
ghost use Rattle.ua_server.specs.Reply.{IsBodyWithin};
ghost use Rattle.ua_server.specs.Stored.{results_of};
ghost use Rattle.ua_server.specs.Attributes.{items_of, most_items, value_from, count_reasons};
ghost use Rattle.ua_server.specs.inside.GoodWrite.{good_write};
ghost use Rattle.ua_server.specs.Attributes.{items_reasons, read_reasons, read_answers, values_given};

use crate::reply::{AnswerBody, body_of};
use crate::services::Services;
use crate::sessions::good_header;
use std::alloc::{AllocError, Global};
use std::mem;
use ua_builtin::laws::moment_is_encodable;
use ua_builtin::{DateTime, NULL_COUNT, NodeId, StatusCode, Wire};
use ua_nodes::{NodeTable, Stamps};
use ua_services::{
    ReadRequest, ReadResponse, ReadValueId, RequestHeader, Response, ResponseHeader, TakesTypes,
    UaArray, ValueType, WriteRequest, WriteResponse, WriteValue, empty_body,
};
use ua_structures::ReadResults;
use ua_variant::DataValue;

/// The most items of a request.
const MOST_ITEMS: usize = 1000;

/// The greatest MaxAge, as the pattern of a Double: that of -0.
const MOST_AGE: u64 = 0x8000_0000_0000_0000;

/// How many items an array has, none where it is null.
pub(crate) fn item_count<T>(items: &UaArray<T>) -> usize
    ensures { result ≡ length (items_of items.now) }
{
    match items.as_items() {
        Some(items) => items.len(),
        None => 0,
    }
}

/// Why a request with this many items is refused before they are looked at.
pub(crate) fn count_refusal(items: usize) -> Option<StatusCode>
    ensures refusal { option_map (λ s. s.code) result ≡ first_reason (count_reasons items) }
    ensures few { result ≡ None → items ≤ most_items }
{
    if items == 0 {
        return Some(StatusCode::BAD_NOTHING_TO_DO);
    }
    if items > MOST_ITEMS {
        return Some(StatusCode::BAD_TOO_MANY_OPERATIONS);
    }
    None
}

/// Adds what a Read response begins with: the NodeId of its encoding, 01 00 and its number.
fn append_front(out: &mut Vec<u8>) -> Result<(), AllocError>
    ensures ok { OnOk result (out.new.items ≡ out.old.items ++ node_id.canonical (standard 634)) }
    ensures err { OnErr result (Extends out.old.items out.new.items) }
{
    out.extend_from_slice(&[0x01, 0x00, 0x7A, 0x02])?;
    Ok(())
}

/// Adds what a Write response begins with: the NodeId of its encoding, 01 00 and its number.
fn append_write_front(out: &mut Vec<u8>) -> Result<(), AllocError>
    ensures ok { OnOk result (out.new.items ≡ out.old.items ++ node_id.canonical (standard 676)) }
    ensures err { OnErr result (Extends out.old.items out.new.items) }
{
    out.extend_from_slice(&[0x01, 0x00, 0xA4, 0x02])?;
    Ok(())
}

/// What follows the RequestHandle of a good response: the StatusCode Good, a DiagnosticInfo without
/// fields, a null array of texts, and the object that holds nothing (OPC 10000-6, 5.2.2).
const GOOD_END: [u8; 12] = [0, 0, 0, 0, 0, 0xFF, 0xFF, 0xFF, 0xFF, 0, 0, 0];

/// Adds the header of a good response, without making it first.
fn append_good_header(moment: DateTime, handle: u32, out: &mut Vec<u8>) -> Result<(), AllocError>
    ensures ok { OnOk result (out.new.items ≡ out.old.items
        ++ response_header.canonical (response_header_of moment handle (of_code 0))) }
    ensures err { OnErr result (Extends out.old.items out.new.items) }
{
    moment_is_encodable(&moment);
    moment.append(out)?;
    handle.append(out)?;
    out.extend_from_slice(&GOOD_END)?;
    Ok(())
}

/// Adds the fields of a good Read response without diagnostics, in their order.
#[tactic(auto, unfolding(ua_opening::specs::Array::array))]
fn append_good_read<R: ReadResults>(
    moment: DateTime,
    handle: u32,
    results: &R,
    out: &mut Vec<u8>,
) -> Result<(), AllocError>
    requires results { R.writable results.now }
    ensures ok { OnOk result (AddsResponse (R.adds results.now) (response_header_of moment handle (of_code 0)) None
        out.old.items out.new.items) }
    ensures err { OnErr result (Extends out.old.items out.new.items) }
{
    append_good_header(moment, handle, out)?;
    results.append_results(out)?;
    NULL_COUNT.append(out)
}

/// Adds the fields of a good Write response without diagnostics, in their order.
#[tactic(auto, using(crate::proofs::GoodHeader::statuses_fit_alone, crate::proofs::GoodHeader::write_octets))]
fn append_good_write(
    moment: DateTime,
    handle: u32,
    results: &UaArray<StatusCode>,
    out: &mut Vec<u8>,
) -> Result<(), AllocError>
    requires { IsTrue (write_response.encodable (good_write moment handle results.now)) }
    ensures ok { OnOk result
        (out.new.items ≡ out.old.items ++ write_response.canonical (good_write moment handle results.now)) }
    ensures err { OnErr result (Extends out.old.items out.new.items) }
{
    append_good_header(moment, handle, out)?;
    results.append(out)?;
    NULL_COUNT.append(out)
}

/// The DataValues for the items of a granted Read, each made as it is written, with the Value of a
/// node read from where it stands. Once there are more than `most` bytes, no further one is made.
#[derive(Clone, Copy)]
struct ReadAnswers<'a> {
    nodes: &'a NodeTable,
    items: &'a [ReadValueId],
    stamps: Stamps,
    moment: DateTime,
    most: Option<usize>,
}

impl ReadResults for ReadAnswers<'_> {
    ghost use Rattle.std.specs.Prelude.{◌≤◌, ◌++◌, length};
    ghost use Rattle.ua_builtin.specs.Number.{number_octets};
    ghost use Rattle.ua_nodes.specs.Read.{result_octets};
    ghost use Rattle.ua_nodes.specs.Sound.{AreNodesSound};
    ghost use Rattle.ua_nodes.specs.Within.{IsWithin};
    ghost use Rattle.ua_server.specs.Attributes.{most_items};

    ghost writable = { λ a. AreNodesSound a.nodes.now × (length a.items.now ≤ most_items) };

    ghost adds = { λ a old new. IsWithin a.most (result_octets a.nodes.now a.stamps a.moment) a.items.now
        (old ++ number_octets 4 (length a.items.now)) new };

    fn append_results(&self, out: &mut Vec<u8>) -> Result<(), AllocError> {
        (self.items.len() as u32).append(out)?;
        self.nodes
            .append_items(self.items, self.stamps, self.moment, self.most, out)
    }
}

/// Before a session is activated no value is taken, whatever the nodes are: a Write is refused.
impl TakesTypes for Services {
    ghost use Rattle.ua_server.specs.Attributes.{takes_now};

    ghost takes = { takes_now };

    fn could_take(&self, id: &NodeId, value_type: ValueType) -> bool {
        self.is_activated() && self.nodes.could_take(id, value_type)
    }
}

impl Services {
    /// Why a Read is refused.
    fn read_refusal(&self, request: &ReadRequest) -> Option<StatusCode>
        ensures refusal { option_map (λ s. s.code) result ≡ first_reason (read_reasons self.now request.now) }
        ensures few { result ≡ None → length (items_of request.now.nodes_to_read) ≤ most_items }
    {
        if let Some(code) = self.session_refusal(&request.request_header) {
            return Some(code);
        }
        if Stamps::from_number(request.timestamps_to_return).is_none() {
            return Some(StatusCode::BAD_TIMESTAMPS_TO_RETURN_INVALID);
        }
        if request.max_age.bits > MOST_AGE {
            return Some(StatusCode::BAD_MAX_AGE_INVALID);
        }
        count_refusal(item_count(&request.nodes_to_read))
    }

    /// The answer to an item.
    #[tactic(auto, using(crate::proofs::Answered::value_is), unfolding(ua_variant::specs::Formats::data_value_format))]
    fn read_item(
        &self,
        alloc: Global,
        item: &ReadValueId,
        stamps: Stamps,
        moment: DateTime,
    ) -> Result<DataValue, AllocError>
        ensures value { IfOk result
            (λ d. d ≡ value_from (read_answer (node_at self.now.nodes item.now.node_id) item.now stamps moment)) }
        ensures encodable { IfOk result (λ d. IsTrue (data_value_format.encodable d)) }
    {
        self.nodes.read_item(alloc, item, stamps, moment)
    }

    /// The answers to items, one by one.
    fn read_items(
        &self,
        alloc: Global,
        items: &[ReadValueId],
        stamps: Stamps,
        moment: DateTime,
    ) -> Result<Vec<DataValue>, AllocError>
        ensures values { IfOk result (λ v. v.items ≡ read_answers self.now.nodes items.now stamps moment) }
        ensures count { IfOk result (λ v. length v.items ≡ length items.now) }
        ensures encodable { IfOk result (λ v. IsTrue (list_all data_value_format.encodable v.items)) }
    {
        let mut results = Vec::with_capacity(alloc, items.len())?;
        for item in items {
            results.push(self.read_item(alloc, item, stamps, moment)?)?;
        }
        Ok(results)
    }

    /// Read (OPC 10000-4, 5.11.2).
    #[tactic(auto, using(crate::proofs::Answered::values_fit))]
    pub(crate) fn read(
        &self,
        alloc: Global,
        request: &ReadRequest,
        moment: DateTime,
    ) -> Result<Response, AllocError>
        ensures response { IfOk result (λ r. r ≡ (read_items self.now moment request.now).1) }
        ensures encodable { IfOk result (λ r. IsTrue (response.encodable r)) }
    {
        let handle = request.request_header.request_handle;
        if let Some(code) = self.read_refusal(request) {
            return Ok(self.fault(handle, code, moment));
        }
        let stamps = Stamps::from_number(request.timestamps_to_return).unwrap_or(Stamps::Neither);
        let items = request.nodes_to_read.as_items().unwrap_or(&[]);
        let results = self.read_items(alloc, items, stamps, moment)?;
        Ok(Response::Read(ReadResponse::with_results(good_header(moment, handle), results)))
    }

    /// The body of the response to a Read that is not refused: its results are written one by one,
    /// each Value in place from the nodes. A body of more than `most` bytes is
    /// abandoned.
    fn granted_body(
        &self,
        alloc: Global,
        request: &ReadRequest,
        moment: DateTime,
        most: Option<usize>,
    ) -> Result<Vec<u8>, AllocError>
        requires few { length (items_of request.now.nodes_to_read) ≤ most_items }
        ensures body { IfOk result
            (λ body. IsBodyWithin most (response.canonical (values_given self.now moment request.now)) body.items) }
        ensures some { IfOk result (λ body. 0 < length body.items) }
    {
        let stamps = Stamps::from_number(request.timestamps_to_return).unwrap_or(Stamps::Neither);
        let items = request.nodes_to_read.as_items().unwrap_or(&[]);
        let handle = request.request_header.request_handle;
        let answers = ReadAnswers {
            nodes: &self.nodes,
            items,
            stamps,
            moment,
            most,
        };
        let mut body = empty_body(alloc);
        append_front(&mut body)?;
        append_good_read(moment, handle, &answers, &mut body)?;
        Ok(body)
    }

    /// The body of the response to a Read, and its ServiceResult. A body of more than `most` bytes
    /// is abandoned.
    pub(crate) fn read_body(
        &self,
        alloc: Global,
        request: &ReadRequest,
        moment: DateTime,
        most: Option<usize>,
    ) -> Result<AnswerBody, AllocError>
        ensures body { IfOk result
            (λ told. IsBodyWithin most (response.canonical (read_items self.now moment request.now).1)
            told.body.items) }
        ensures some { IfOk result (λ told. 0 < length told.body.items) }
        ensures code { IfOk result
            (λ told. told.code ≡ (header_of_response (read_items self.now moment request.now).1).service_result) }
        ensures results { IfOk result (λ told. told.results ≡ None) }
    {
        if let Some(code) = self.read_refusal(request) {
            let handle = request.request_header.request_handle;
            let body = body_of(alloc, self.fault(handle, code, moment))?;
            return Ok(AnswerBody::new(body, code));
        }
        let body = self.granted_body(alloc, request, moment, most)?;
        Ok(AnswerBody::new(body, StatusCode::GOOD))
    }

    /// Why a request with this many items is refused before they are looked at: for its session, or
    /// for how many they are.
    pub(crate) fn items_refusal(&self, asking: &RequestHeader, items: usize) -> Option<StatusCode>
        ensures refusal { option_map (λ s. s.code) result ≡ first_reason (items_reasons self.now asking.now items) }
        ensures few { result ≡ None → items ≤ most_items }
    {
        if let Some(code) = self.session_refusal(asking) {
            return Some(code);
        }
        count_refusal(items)
    }

    /// Writes items in order, under the limit of memory if there is one, and pushes the StatusCode
    /// of each. Allocates nothing.
    fn store_items(
        &mut self,
        items: Vec<WriteValue>,
        moment: DateTime,
        statuses: &mut Vec<StatusCode>,
    )
        requires { vec_len statuses.old + vec_len items ≤ vec_capacity statuses.old }
        ensures answers { statuses.new.items ≡ statuses.old.items ++ limited_answers self.old.memory_limit
            self.old.nodes items.items }
        ensures state { self.new ≡ with_nodes self.old
            (after_limited self.old.memory_limit items.items moment self.old.nodes) }
    {
        match self.memory_limit {
            None => self.nodes.write_items(items, moment, statuses),
            Some(most) => self.nodes.write_items_within(items, moment, most, statuses),
        }
    }

    /// Writes items in order, and gives the result of each. All memory is allocated first.
    #[tactic(auto, using(crate::proofs::Statuses::answers_fit, crate::proofs::Statuses::answers_count))]
    fn write_items(
        &mut self,
        alloc: Global,
        items: UaArray<WriteValue>,
        moment: DateTime,
    ) -> Result<Vec<StatusCode>, AllocError>
        ensures answers { IfOk result (λ v. v.items ≡ limited_answers self.old.memory_limit self.old.nodes
            (items_of items)) }
        ensures state { IfOk result
            (λ v. self.new ≡ with_nodes self.old
            (after_limited self.old.memory_limit (items_of items) moment self.old.nodes)) }
        ensures kept { OnErr result (self.new ≡ self.old) }
        ensures count { IfOk result (λ v. length v.items ≡ length (items_of items)) }
        ensures encodable { IfOk result (λ v. IsTrue (list_all status_code.encodable v.items)) }
    {
        let items = match items.into_items() {
            Some(items) => items,
            None => Vec::new(alloc),
        };
        let mut statuses = Vec::with_capacity(alloc, items.len())?;
        self.store_items(items, moment, &mut statuses);
        Ok(statuses)
    }

    /// The results of a Write, or why it is refused (OPC 10000-4, 5.11.4). Takes the items out of
    /// the request.
    fn granted_write(
        &mut self,
        alloc: Global,
        request: &mut WriteRequest,
        moment: DateTime,
    ) -> Result<Result<Vec<StatusCode>, StatusCode>, AllocError>
        ensures granted { IfOk result (λ r. IfOk r (λ v. (write_items self.old moment request.old).1
            ≡ WriteMessage (good_write moment request.old.request_header.request_handle (Some v.items)))) }
        ensures refused { IfOk result (λ r. IfErr r (λ s. (write_items self.old moment request.old).1
            ≡ fault_of request.old.request_header.request_handle s.code moment)) }
        ensures state { IfOk result (λ r. self.new ≡ (write_items self.old moment request.old).0) }
        ensures kept { OnErr result (self.new ≡ self.old) }
        ensures count { IfOk result (λ r. IfOk r (λ v. length v.items ≤ most_items)) }
        ensures each { IfOk result (λ r. IfOk r (λ v. IsTrue (list_all status_code.encodable v.items))) }
        ensures encodable { IfOk result (λ r. IfOk r (λ v. IsTrue
            (write_response.encodable (good_write moment request.old.request_header.request_handle (Some v.items))))) }
    {
        moment_is_encodable(&moment);
        let _handle = request.request_header.request_handle;
        let count = item_count(&request.nodes_to_write);
        if let Some(code) = self.items_refusal(&request.request_header, count) {
            return Ok(Err(code));
        }
        let items = mem::replace(&mut request.nodes_to_write, UaArray::null());
        Ok(Ok(self.write_items(alloc, items, moment)?))
    }

    /// Write. Takes the items out of the request.
    #[tactic(auto, using(crate::proofs::Answered::statuses_fit))]
    pub(crate) fn write(
        &mut self,
        alloc: Global,
        request: &mut WriteRequest,
        moment: DateTime,
    ) -> Result<Response, AllocError>
        ensures response { IfOk result (λ r. r ≡ (write_items self.old moment request.old).1) }
        ensures state { IfOk result (λ r. self.new ≡ (write_items self.old moment request.old).0) }
        ensures kept { OnErr result (self.new ≡ self.old) }
        ensures encodable { IfOk result (λ r. IsTrue (response.encodable r)) }
    {
        let handle = request.request_header.request_handle;
        match self.granted_write(alloc, request, moment)? {
            Ok(statuses) => {
                let header = good_header(moment, handle);
                Ok(Response::Write(WriteResponse::with_results(header, statuses)))
            }
            Err(code) => Ok(self.fault(handle, code, moment)),
        }
    }

    /// The body of the response to a Write, its ServiceResult and its results. Takes the items out
    /// of the request.
    #[tactic(auto, using(crate::proofs::Replies::write_whole, crate::proofs::Replies::response_takes_some, crate::proofs::Answered::statuses_fit), unfolding(ua_builtin::specs::NodeId::node_id))]
    pub(crate) fn write_body(
        &mut self,
        alloc: Global,
        request: &mut WriteRequest,
        moment: DateTime,
    ) -> Result<AnswerBody, AllocError>
        ensures body { IfOk result
            (λ told. told.body.items ≡ response.canonical (write_items self.old moment request.old).1) }
        ensures some { IfOk result (λ told. 0 < length told.body.items) }
        ensures code { IfOk result
            (λ told. told.code ≡ (header_of_response (write_items self.old moment request.old).1).service_result) }
        ensures results { IfOk result
            (λ told. told.results ≡ results_of (write_items self.old moment request.old).1) }
        ensures state { IfOk result (λ told. self.new ≡ (write_items self.old moment request.old).0) }
        ensures refused { OnErr result
            ((self.new ≡ self.old) ⊎ (self.new ≡ (write_items self.old moment request.old).0)) }
    {
        let handle = request.request_header.request_handle;
        match self.granted_write(alloc, request, moment)? {
            Ok(statuses) => {
                let results = UaArray::new(Some(statuses));
                let mut body = empty_body(alloc);
                append_write_front(&mut body)?;
                append_good_write(moment, handle, &results, &mut body)?;
                Ok(AnswerBody {
                    body,
                    code: StatusCode::GOOD,
                    results,
                })
            }
            Err(code) => {
                let body = body_of(alloc, self.fault(handle, code, moment))?;
                Ok(AnswerBody::new(body, code))
            }
        }
    }
}
