//! The structures of the services Read and Write, as lines.

use crate::lines::{Lines, Place, push_fields};
use std::alloc::{AllocError, Global};
use ua_services::{
    ReadRequest, ReadResponse, ReadValueId, WriteRequest, WriteResponse, WriteValue,
};

impl Lines for ReadValueId {
    ghost use Rattle.ua_fields.specs.Tree.{structure};
    ghost use Rattle.ua_fields.specs.Attribute.{read_value_id_entries};

    ghost tree = { λ m. structure (read_value_id_entries m) };

    fn is_structure() -> bool {
        true
    }

    #[tactic(auto, unfolding(crate::specs::Attribute::read_value_id_entries))]
    fn push_lines(&self, alloc: Global, out: &mut String, place: Place) -> Result<(), AllocError> {
        push_fields!(self, alloc, out, place => node_id, attribute_id, index_range, data_encoding)
    }
}

impl Lines for ReadRequest {
    ghost use Rattle.ua_fields.specs.Tree.{structure};
    ghost use Rattle.ua_fields.specs.Attribute.{read_request_entries};

    ghost tree = { λ m. structure (read_request_entries m) };

    fn is_structure() -> bool {
        true
    }

    #[tactic(auto, unfolding(crate::specs::Attribute::read_request_entries))]
    fn push_lines(&self, alloc: Global, out: &mut String, place: Place) -> Result<(), AllocError> {
        push_fields!(self, alloc, out, place => request_header, max_age, timestamps_to_return, nodes_to_read)
    }
}

impl Lines for ReadResponse {
    ghost use Rattle.ua_fields.specs.Tree.{structure};
    ghost use Rattle.ua_fields.specs.Attribute.{read_response_entries};

    ghost tree = { λ m. structure (read_response_entries m) };

    fn is_structure() -> bool {
        true
    }

    #[tactic(auto, unfolding(crate::specs::Attribute::read_response_entries))]
    fn push_lines(&self, alloc: Global, out: &mut String, place: Place) -> Result<(), AllocError> {
        push_fields!(self, alloc, out, place => response_header, results, diagnostic_infos)
    }
}

impl Lines for WriteValue {
    ghost use Rattle.ua_fields.specs.Tree.{structure};
    ghost use Rattle.ua_fields.specs.Attribute.{write_value_entries};

    ghost tree = { λ m. structure (write_value_entries m) };

    fn is_structure() -> bool {
        true
    }

    #[tactic(auto, unfolding(crate::specs::Attribute::write_value_entries))]
    fn push_lines(&self, alloc: Global, out: &mut String, place: Place) -> Result<(), AllocError> {
        push_fields!(self, alloc, out, place => node_id, attribute_id, index_range, value)
    }
}

impl Lines for WriteRequest {
    ghost use Rattle.ua_fields.specs.Tree.{structure};
    ghost use Rattle.ua_fields.specs.Attribute.{write_request_entries};

    ghost tree = { λ m. structure (write_request_entries m) };

    fn is_structure() -> bool {
        true
    }

    #[tactic(auto, unfolding(crate::specs::Attribute::write_request_entries))]
    fn push_lines(&self, alloc: Global, out: &mut String, place: Place) -> Result<(), AllocError> {
        push_fields!(self, alloc, out, place => request_header, nodes_to_write)
    }
}

impl Lines for WriteResponse {
    ghost use Rattle.ua_fields.specs.Tree.{structure};
    ghost use Rattle.ua_fields.specs.Attribute.{write_response_entries};

    ghost tree = { λ m. structure (write_response_entries m) };

    fn is_structure() -> bool {
        true
    }

    #[tactic(auto, unfolding(crate::specs::Attribute::write_response_entries))]
    fn push_lines(&self, alloc: Global, out: &mut String, place: Place) -> Result<(), AllocError> {
        push_fields!(self, alloc, out, place => response_header, results, diagnostic_infos)
    }
}
