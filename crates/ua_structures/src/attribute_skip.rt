//! Skips the structures of the services Read and Write, field by field.

use crate::attribute::{
    ReadRequest, ReadResponse, ReadValueId, WriteRequest, WriteResponse, WriteValue,
};
use crate::skip::{Last, SkippedFields, skip_status_codes};
use std::alloc::Global;
use ua_builtin::{DoubleBits, NodeId, QualifiedName, ReadFault, Skip, Source, UaString};
use ua_opening::{RequestHeader, ResponseHeader, UaArray};
use ua_variant::{DataValue, DiagnosticInfo};

impl Skip for ReadValueId {
    #[tactic(auto, unfolding(crate::specs::Attribute::read_value_id))]
    fn skip_value<S: Source>(alloc: Global, src: &mut S, depth: u32) -> Result<(), ReadFault> {
        <(NodeId, (u32, (UaString, Last<QualifiedName>)))>::skip_fields(alloc, src, depth)
    }
}

impl Skip for ReadRequest {
    #[tactic(auto, unfolding(crate::specs::Attribute::read_request))]
    fn skip_value<S: Source>(alloc: Global, src: &mut S, depth: u32) -> Result<(), ReadFault> {
        RequestHeader::skip_for_handle(alloc, src, depth)?;
        <(DoubleBits, (i32, Last<UaArray<ReadValueId>>))>::skip_fields(alloc, src, depth)
    }
}

impl Skip for ReadResponse {
    #[tactic(auto, unfolding(crate::specs::Attribute::read_response))]
    fn skip_value<S: Source>(alloc: Global, src: &mut S, depth: u32) -> Result<(), ReadFault> {
        <(
            ResponseHeader,
            (UaArray<DataValue>, Last<UaArray<DiagnosticInfo>>),
        )>::skip_fields(alloc, src, depth)
    }
}

impl Skip for WriteValue {
    #[tactic(auto, unfolding(crate::specs::Attribute::write_value))]
    fn skip_value<S: Source>(alloc: Global, src: &mut S, depth: u32) -> Result<(), ReadFault> {
        <(NodeId, (u32, (UaString, Last<DataValue>)))>::skip_fields(alloc, src, depth)
    }
}

impl Skip for WriteRequest {
    #[tactic(auto, unfolding(crate::specs::Attribute::write_request))]
    fn skip_value<S: Source>(alloc: Global, src: &mut S, depth: u32) -> Result<(), ReadFault> {
        RequestHeader::skip_for_handle(alloc, src, depth)?;
        UaArray::<WriteValue>::skip_value(alloc, src, depth)
    }
}

impl Skip for WriteResponse {
    #[tactic(auto, unfolding(crate::specs::Attribute::write_response))]
    fn skip_value<S: Source>(alloc: Global, src: &mut S, depth: u32) -> Result<(), ReadFault> {
        ResponseHeader::skip_value(alloc, src, depth)?;
        skip_status_codes(alloc, src, depth)?;
        UaArray::<DiagnosticInfo>::skip_value(alloc, src, depth)
    }
}
