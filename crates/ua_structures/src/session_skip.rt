//! Skips the structures of the Session services, field by field.

use crate::discovery::{ApplicationDescription, EndpointDescription};
use crate::session::{
    ActivateSessionRequest, ActivateSessionResponse, AnonymousIdentityToken, CloseSessionRequest,
    CloseSessionResponse, CreateSessionRequest, CreateSessionResponse,
};
use crate::signature::{SignatureData, SignedSoftwareCertificate};
use crate::skip::{Last, SkippedFields, skip_status_codes};
use std::alloc::Global;
use ua_builtin::{DoubleBits, ExtensionObject, NodeId, ReadFault, Skip, Source, UaBytes, UaString};
use ua_opening::{RequestHeader, ResponseHeader, UaArray};
use ua_variant::DiagnosticInfo;

impl Skip for SignedSoftwareCertificate {
    #[tactic(auto, unfolding(crate::specs::Session::signed_software_certificate))]
    fn skip_value<S: Source>(alloc: Global, src: &mut S, depth: u32) -> Result<(), ReadFault> {
        <(UaBytes, Last<UaBytes>)>::skip_fields(alloc, src, depth)
    }
}

impl Skip for SignatureData {
    #[tactic(auto, unfolding(crate::specs::Session::signature_data))]
    fn skip_value<S: Source>(alloc: Global, src: &mut S, depth: u32) -> Result<(), ReadFault> {
        <(UaString, Last<UaBytes>)>::skip_fields(alloc, src, depth)
    }
}

impl Skip for AnonymousIdentityToken {
    #[tactic(auto, unfolding(crate::specs::Session::anonymous_identity_token))]
    fn skip_value<S: Source>(alloc: Global, src: &mut S, depth: u32) -> Result<(), ReadFault> {
        UaString::skip_value(alloc, src, depth)
    }
}

impl Skip for CreateSessionRequest {
    #[tactic(auto, unfolding(crate::specs::Session::create_session_request))]
    fn skip_value<S: Source>(alloc: Global, src: &mut S, depth: u32) -> Result<(), ReadFault> {
        RequestHeader::skip_for_handle(alloc, src, depth)?;
        <(
            ApplicationDescription,
            (
                UaString,
                (
                    UaString,
                    (UaString, (UaBytes, (UaBytes, (DoubleBits, Last<u32>)))),
                ),
            ),
        )>::skip_fields(alloc, src, depth)
    }
}

impl Skip for CreateSessionResponse {
    #[tactic(auto, unfolding(crate::specs::Session::create_session_response))]
    fn skip_value<S: Source>(alloc: Global, src: &mut S, depth: u32) -> Result<(), ReadFault> {
        <(
            ResponseHeader,
            (
                NodeId,
                (
                    NodeId,
                    (
                        DoubleBits,
                        (
                            UaBytes,
                            (
                                UaBytes,
                                (
                                    UaArray<EndpointDescription>,
                                    (
                                        UaArray<SignedSoftwareCertificate>,
                                        (SignatureData, Last<u32>),
                                    ),
                                ),
                            ),
                        ),
                    ),
                ),
            ),
        )>::skip_fields(alloc, src, depth)
    }
}

impl Skip for ActivateSessionRequest {
    #[tactic(auto, unfolding(crate::specs::Session::activate_session_request))]
    fn skip_value<S: Source>(alloc: Global, src: &mut S, depth: u32) -> Result<(), ReadFault> {
        RequestHeader::skip_for_handle(alloc, src, depth)?;
        <(
            SignatureData,
            (
                UaArray<SignedSoftwareCertificate>,
                (UaArray<UaString>, (ExtensionObject, Last<SignatureData>)),
            ),
        )>::skip_fields(alloc, src, depth)
    }
}

impl Skip for ActivateSessionResponse {
    #[tactic(auto, unfolding(crate::specs::Session::activate_session_response))]
    fn skip_value<S: Source>(alloc: Global, src: &mut S, depth: u32) -> Result<(), ReadFault> {
        ResponseHeader::skip_value(alloc, src, depth)?;
        UaBytes::skip_value(alloc, src, depth)?;
        skip_status_codes(alloc, src, depth)?;
        UaArray::<DiagnosticInfo>::skip_value(alloc, src, depth)
    }
}

impl Skip for CloseSessionRequest {
    #[tactic(auto, unfolding(crate::specs::Session::close_session_request))]
    fn skip_value<S: Source>(alloc: Global, src: &mut S, depth: u32) -> Result<(), ReadFault> {
        RequestHeader::skip_for_handle(alloc, src, depth)?;
        bool::skip_value(alloc, src, depth)
    }
}

impl Skip for CloseSessionResponse {
    #[tactic(auto, unfolding(crate::specs::Session::close_session_response))]
    fn skip_value<S: Source>(alloc: Global, src: &mut S, depth: u32) -> Result<(), ReadFault> {
        ResponseHeader::skip_value(alloc, src, depth)
    }
}
