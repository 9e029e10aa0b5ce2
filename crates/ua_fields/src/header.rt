//! The structures of the headers and the ServiceFault, as lines.

use crate::lines::{Lines, Place, push_fields};
use std::alloc::{AllocError, Global};
use ua_services::{RequestHeader, ResponseHeader, ServiceFault};

impl Lines for RequestHeader {
    ghost use Rattle.ua_fields.specs.Tree.{structure};
    ghost use Rattle.ua_fields.specs.Header.{request_header_entries};

    ghost tree = { λ m. structure (request_header_entries m) };

    fn is_structure() -> bool {
        true
    }

    #[tactic(auto, unfolding(crate::specs::Header::request_header_entries))]
    fn push_lines(&self, alloc: Global, out: &mut String, place: Place) -> Result<(), AllocError> {
        push_fields!(self, alloc, out, place => authentication_token, timestamp, request_handle, return_diagnostics,
            audit_entry_id, timeout_hint, additional_header)
    }
}

impl Lines for ResponseHeader {
    ghost use Rattle.ua_fields.specs.Tree.{structure};
    ghost use Rattle.ua_fields.specs.Header.{response_header_entries};

    ghost tree = { λ m. structure (response_header_entries m) };

    fn is_structure() -> bool {
        true
    }

    #[tactic(auto, unfolding(crate::specs::Header::response_header_entries))]
    fn push_lines(&self, alloc: Global, out: &mut String, place: Place) -> Result<(), AllocError> {
        push_fields!(self, alloc, out, place => timestamp, request_handle, service_result, service_diagnostics,
            string_table, additional_header)
    }
}

impl Lines for ServiceFault {
    ghost use Rattle.ua_fields.specs.Tree.{structure};
    ghost use Rattle.ua_fields.specs.Header.{service_fault_entries};

    ghost tree = { λ m. structure (service_fault_entries m) };

    fn is_structure() -> bool {
        true
    }

    #[tactic(auto, unfolding(crate::specs::Header::service_fault_entries))]
    fn push_lines(&self, alloc: Global, out: &mut String, place: Place) -> Result<(), AllocError> {
        push_fields!(self, alloc, out, place => response_header)
    }
}
