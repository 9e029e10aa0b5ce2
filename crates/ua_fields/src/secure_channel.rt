//! The structures of the SecureChannel services, as lines.

use crate::lines::{Lines, Place, push_fields};
use std::alloc::{AllocError, Global};
use ua_services::{CloseRequest, OpenRequest};

impl Lines for OpenRequest {
    ghost use Rattle.ua_fields.specs.Tree.{structure};
    ghost use Rattle.ua_fields.specs.SecureChannel.{open_request_entries};

    ghost tree = { λ m. structure (open_request_entries m) };

    fn is_structure() -> bool {
        true
    }

    #[tactic(auto, unfolding(crate::specs::SecureChannel::open_request_entries))]
    fn push_lines(&self, alloc: Global, out: &mut String, place: Place) -> Result<(), AllocError> {
        push_fields!(self, alloc, out, place => request_header, client_protocol_version, request_type, security_mode,
            client_nonce, requested_lifetime)
    }
}

impl Lines for CloseRequest {
    ghost use Rattle.ua_fields.specs.Tree.{structure};
    ghost use Rattle.ua_fields.specs.SecureChannel.{close_request_entries};

    ghost tree = { λ m. structure (close_request_entries m) };

    fn is_structure() -> bool {
        true
    }

    #[tactic(auto, unfolding(crate::specs::SecureChannel::close_request_entries))]
    fn push_lines(&self, alloc: Global, out: &mut String, place: Place) -> Result<(), AllocError> {
        push_fields!(self, alloc, out, place => request_header)
    }
}
