//! Decodes and encodes the structures of the SecureChannel services.

use crate::secure_channel::{CloseRequest, OpenRequest, OpenResponse};
use crate::{are_encodable, read_fields};
use std::alloc::{AllocError, Global};
use ua_builtin::{ReadFault, Source, Wire};
use ua_wire::{append_three, append_two};

impl Wire for OpenRequest {
    ghost use Rattle.ua_opening.specs.SecureChannel.{open_request};

    ghost format = { open_request };

    #[inline]
    #[tactic(auto, unfolding(crate::specs::SecureChannel::open_request), using(crate::proofs::SecureChannelLawful::lawful_open_request))]
    fn lawful() {}

    #[tactic(auto, unfolding(crate::specs::SecureChannel::open_request))]
    fn read_value<S: Source>(alloc: Global, src: &mut S, depth: u32) -> Result<Self, ReadFault> {
        read_fields!(alloc, src, depth => OpenRequest {
            request_header, client_protocol_version, request_type, security_mode, client_nonce,
            requested_lifetime
        })
    }

    #[tactic(auto, unfolding(crate::specs::SecureChannel::open_request))]
    fn is_encodable(&self) -> bool {
        are_encodable!(self =>
            request_header, client_protocol_version, request_type, security_mode, client_nonce,
            requested_lifetime
        )
    }

    #[tactic(auto, unfolding(crate::specs::SecureChannel::open_request))]
    fn append(&self, out: &mut Vec<u8>) -> Result<(), AllocError> {
        append_two(&self.request_header, &self.client_protocol_version, out)?;
        append_two(&self.request_type, &self.security_mode, out)?;
        append_two(&self.client_nonce, &self.requested_lifetime, out)
    }
}

impl Wire for OpenResponse {
    ghost use Rattle.ua_opening.specs.SecureChannel.{open_response};

    ghost format = { open_response };

    #[inline]
    #[tactic(auto, unfolding(crate::specs::SecureChannel::open_response), using(crate::proofs::SecureChannelLawful::lawful_open_response))]
    fn lawful() {}

    #[tactic(auto, unfolding(crate::specs::SecureChannel::open_response))]
    fn read_value<S: Source>(alloc: Global, src: &mut S, depth: u32) -> Result<Self, ReadFault> {
        read_fields!(alloc, src, depth => OpenResponse {
            response_header, server_protocol_version, channel_id, token_id, created_at,
            revised_lifetime, server_nonce
        })
    }

    #[tactic(auto, unfolding(crate::specs::SecureChannel::open_response))]
    fn is_encodable(&self) -> bool {
        are_encodable!(self =>
            response_header, server_protocol_version, channel_id, token_id, created_at,
            revised_lifetime, server_nonce
        )
    }

    #[tactic(auto, unfolding(crate::specs::SecureChannel::open_response))]
    fn append(&self, out: &mut Vec<u8>) -> Result<(), AllocError> {
        append_two(&self.response_header, &self.server_protocol_version, out)?;
        append_two(&self.channel_id, &self.token_id, out)?;
        append_three(
            &self.created_at,
            &self.revised_lifetime,
            &self.server_nonce,
            out,
        )
    }
}

impl Wire for CloseRequest {
    ghost use Rattle.ua_opening.specs.SecureChannel.{close_request};

    ghost format = { close_request };

    #[inline]
    #[tactic(auto, unfolding(crate::specs::SecureChannel::close_request), using(crate::proofs::SecureChannelLawful::lawful_close_request))]
    fn lawful() {}

    #[tactic(auto, unfolding(crate::specs::SecureChannel::close_request))]
    fn read_value<S: Source>(alloc: Global, src: &mut S, depth: u32) -> Result<Self, ReadFault> {
        read_fields!(alloc, src, depth => CloseRequest { request_header })
    }

    #[tactic(auto, unfolding(crate::specs::SecureChannel::close_request))]
    fn is_encodable(&self) -> bool {
        are_encodable!(self => request_header)
    }

    #[tactic(auto, unfolding(crate::specs::SecureChannel::close_request))]
    fn append(&self, out: &mut Vec<u8>) -> Result<(), AllocError> {
        self.request_header.append(out)
    }
}
