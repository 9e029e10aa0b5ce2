//! Skips the structures of the service GetEndpoints, field by field.

use crate::discovery::{
    ApplicationDescription, EndpointDescription, GetEndpointsRequest, GetEndpointsResponse,
    UserTokenPolicy,
};
use crate::skip::{Last, SkippedFields, skip_one};
use std::alloc::Global;
use ua_builtin::{LocalizedText, ReadFault, Skip, Source, UaBytes, UaString};
use ua_opening::{RequestHeader, ResponseHeader, UaArray};

impl Skip for ApplicationDescription {
    #[tactic(auto, unfolding(crate::specs::Discovery::application_description))]
    fn skip_value<S: Source>(alloc: Global, src: &mut S, depth: u32) -> Result<(), ReadFault> {
        UaString::skip_value(alloc, src, depth)?;
        UaString::skip_value(alloc, src, depth)?;
        skip_one::<LocalizedText, S>(alloc, src, depth)?;
        <(i32, (UaString, (UaString, Last<UaArray<UaString>>)))>::skip_fields(alloc, src, depth)
    }
}

impl Skip for UserTokenPolicy {
    #[tactic(auto, unfolding(crate::specs::Discovery::user_token_policy))]
    fn skip_value<S: Source>(alloc: Global, src: &mut S, depth: u32) -> Result<(), ReadFault> {
        <(UaString, (i32, (UaString, (UaString, Last<UaString>))))>::skip_fields(alloc, src, depth)
    }
}

impl Skip for EndpointDescription {
    #[tactic(auto, unfolding(crate::specs::Discovery::endpoint_description))]
    fn skip_value<S: Source>(alloc: Global, src: &mut S, depth: u32) -> Result<(), ReadFault> {
        <(
            UaString,
            (
                ApplicationDescription,
                (
                    UaBytes,
                    (
                        i32,
                        (UaString, (UaArray<UserTokenPolicy>, (UaString, Last<u8>))),
                    ),
                ),
            ),
        )>::skip_fields(alloc, src, depth)
    }
}

impl Skip for GetEndpointsRequest {
    #[tactic(auto, unfolding(crate::specs::Discovery::get_endpoints_request))]
    fn skip_value<S: Source>(alloc: Global, src: &mut S, depth: u32) -> Result<(), ReadFault> {
        RequestHeader::skip_for_handle(alloc, src, depth)?;
        <(UaString, (UaArray<UaString>, Last<UaArray<UaString>>))>::skip_fields(alloc, src, depth)
    }
}

impl Skip for GetEndpointsResponse {
    #[tactic(auto, unfolding(crate::specs::Discovery::get_endpoints_response))]
    fn skip_value<S: Source>(alloc: Global, src: &mut S, depth: u32) -> Result<(), ReadFault> {
        <(ResponseHeader, Last<UaArray<EndpointDescription>>)>::skip_fields(alloc, src, depth)
    }
}
