//! Decodes and encodes the structures of the headers and the ServiceFault.

use crate::header::{RequestHeader, ResponseHeader, ServiceFault};
use crate::{are_encodable, read_fields};
use std::alloc::{AllocError, Global};
use ua_builtin::{ReadFault, Source, Wire};
use ua_wire::{append_three, append_two};

impl Wire for RequestHeader {
    ghost use Rattle.ua_opening.specs.Header.{request_header};

    ghost format = { request_header };

    #[inline]
    #[tactic(auto, unfolding(crate::specs::Header::request_header), using(crate::proofs::HeaderSound::sound_request_header))]
    fn lawful() {}

    #[tactic(auto, unfolding(crate::specs::Header::request_header))]
    fn read_value<S: Source>(alloc: Global, src: &mut S, depth: u32) -> Result<Self, ReadFault> {
        let mut header = RequestHeader::empty();
        match header.read_into(alloc, src, depth) {
            Ok(()) => Ok(header),
            Err(fault) => {
                drop(header);
                Err(fault)
            }
        }
    }

    #[tactic(auto, unfolding(crate::specs::Header::request_header))]
    fn is_encodable(&self) -> bool {
        are_encodable!(self =>
            authentication_token, timestamp, request_handle, return_diagnostics, audit_entry_id,
            timeout_hint, additional_header
        )
    }

    #[tactic(auto, unfolding(crate::specs::Header::request_header))]
    fn append(&self, out: &mut Vec<u8>) -> Result<(), AllocError> {
        append_two(&self.authentication_token, &self.timestamp, out)?;
        append_two(&self.request_handle, &self.return_diagnostics, out)?;
        append_three(
            &self.audit_entry_id,
            &self.timeout_hint,
            &self.additional_header,
            out,
        )
    }
}

impl Wire for ResponseHeader {
    ghost use Rattle.ua_opening.specs.Header.{response_header};

    ghost format = { response_header };

    #[inline]
    #[tactic(auto, unfolding(crate::specs::Header::response_header), using(crate::proofs::HeaderSound::sound_response_header))]
    fn lawful() {}

    #[tactic(auto, unfolding(crate::specs::Header::response_header))]
    fn read_value<S: Source>(alloc: Global, src: &mut S, depth: u32) -> Result<Self, ReadFault> {
        let mut header = ResponseHeader::empty();
        match header.read_into(alloc, src, depth) {
            Ok(()) => Ok(header),
            Err(fault) => {
                drop(header);
                Err(fault)
            }
        }
    }

    #[tactic(auto, unfolding(crate::specs::Header::response_header))]
    fn is_encodable(&self) -> bool {
        are_encodable!(self =>
            timestamp, request_handle, service_result, service_diagnostics, string_table,
            additional_header
        )
    }

    #[tactic(auto, unfolding(crate::specs::Header::response_header))]
    fn append(&self, out: &mut Vec<u8>) -> Result<(), AllocError> {
        append_two(&self.timestamp, &self.request_handle, out)?;
        append_two(&self.service_result, &self.service_diagnostics, out)?;
        append_two(&self.string_table, &self.additional_header, out)
    }
}

impl Wire for ServiceFault {
    ghost use Rattle.ua_opening.specs.Header.{service_fault};

    ghost format = { service_fault };

    #[inline]
    #[tactic(auto, unfolding(crate::specs::Header::service_fault), using(crate::proofs::HeaderSound::sound_service_fault))]
    fn lawful() {}

    #[tactic(auto, unfolding(crate::specs::Header::service_fault))]
    fn read_value<S: Source>(alloc: Global, src: &mut S, depth: u32) -> Result<Self, ReadFault> {
        read_fields!(alloc, src, depth => ServiceFault { response_header })
    }

    #[tactic(auto, unfolding(crate::specs::Header::service_fault))]
    fn is_encodable(&self) -> bool {
        are_encodable!(self => response_header)
    }

    #[tactic(auto, unfolding(crate::specs::Header::service_fault))]
    fn append(&self, out: &mut Vec<u8>) -> Result<(), AllocError> {
        self.response_header.append(out)
    }
}
