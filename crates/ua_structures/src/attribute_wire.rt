//! Decodes and encodes the structures of the services Read and Write.

use crate::attribute::{
    ReadRequest, ReadResponse, ReadValueId, WriteRequest, WriteResponse, WriteValue,
    append_read_response,
};
use std::alloc::{AllocError, Global};
use ua_builtin::{NodeId, QualifiedName, ReadFault, Source, UaString, Wire};
use ua_opening::{are_encodable, read_fields};
use ua_wire::{append_three, append_two};

impl Wire for ReadValueId {
    ghost use Rattle.ua_structures.specs.Attribute.{read_value_id};

    ghost format = { read_value_id };

    #[inline]
    #[tactic(auto, unfolding(crate::specs::Attribute::read_value_id), using(crate::proofs::AttributeSound::sound_read_value_id))]
    fn lawful() {}

    #[tactic(auto, unfolding(crate::specs::Attribute::read_value_id))]
    fn read_value<S: Source>(alloc: Global, src: &mut S, depth: u32) -> Result<Self, ReadFault> {
        let node_id = NodeId::read_value(alloc, src, depth)?;
        let attribute_id = u32::read_value(alloc, src, depth)?;
        let index_range = UaString::read_value(alloc, src, depth)?;
        let data_encoding = QualifiedName::read_value(alloc, src, depth)?;
        Ok(ReadValueId {
            node_id,
            attribute_id,
            index_range,
            data_encoding,
        })
    }

    #[tactic(auto, unfolding(crate::specs::Attribute::read_value_id))]
    fn is_encodable(&self) -> bool {
        are_encodable!(self => node_id, attribute_id, index_range, data_encoding)
    }

    #[tactic(auto, unfolding(crate::specs::Attribute::read_value_id))]
    fn append(&self, out: &mut Vec<u8>) -> Result<(), AllocError> {
        append_two(&self.node_id, &self.attribute_id, out)?;
        append_two(&self.index_range, &self.data_encoding, out)
    }
}

impl Wire for ReadRequest {
    ghost use Rattle.ua_structures.specs.Attribute.{read_request};

    ghost format = { read_request };

    #[inline]
    #[tactic(auto, unfolding(crate::specs::Attribute::read_request), using(crate::proofs::AttributeSound::sound_read_request))]
    fn lawful() {}

    #[tactic(auto, unfolding(crate::specs::Attribute::read_request))]
    fn read_value<S: Source>(alloc: Global, src: &mut S, depth: u32) -> Result<Self, ReadFault> {
        let mut message = ReadRequest::empty();
        match message.read_into(alloc, src, depth) {
            Ok(()) => Ok(message),
            Err(fault) => {
                drop(message);
                Err(fault)
            }
        }
    }

    #[tactic(auto, unfolding(crate::specs::Attribute::read_request))]
    fn is_encodable(&self) -> bool {
        are_encodable!(self => request_header, max_age, timestamps_to_return, nodes_to_read)
    }

    #[tactic(auto, unfolding(crate::specs::Attribute::read_request))]
    fn append(&self, out: &mut Vec<u8>) -> Result<(), AllocError> {
        append_two(&self.request_header, &self.max_age, out)?;
        append_two(&self.timestamps_to_return, &self.nodes_to_read, out)
    }
}

impl Wire for ReadResponse {
    ghost use Rattle.ua_structures.specs.Attribute.{read_response};

    ghost format = { read_response };

    #[inline]
    #[tactic(auto, unfolding(crate::specs::Attribute::read_response), using(crate::proofs::AttributeLawful::lawful_read_response))]
    fn lawful() {}

    #[tactic(auto, unfolding(crate::specs::Attribute::read_response))]
    fn read_value<S: Source>(alloc: Global, src: &mut S, depth: u32) -> Result<Self, ReadFault> {
        let mut message = ReadResponse::empty();
        match message.read_into(alloc, src, depth) {
            Ok(()) => Ok(message),
            Err(fault) => {
                drop(message);
                Err(fault)
            }
        }
    }

    #[tactic(auto, unfolding(crate::specs::Attribute::read_response))]
    fn is_encodable(&self) -> bool {
        are_encodable!(self => response_header, results, diagnostic_infos)
    }

    #[tactic(auto, unfolding(crate::specs::Attribute::read_response))]
    fn append(&self, out: &mut Vec<u8>) -> Result<(), AllocError> {
        append_read_response(
            &self.response_header,
            &self.results,
            &self.diagnostic_infos,
            out,
        )
    }
}

impl Wire for WriteValue {
    ghost use Rattle.ua_structures.specs.Attribute.{write_value};

    ghost format = { write_value };

    #[inline]
    #[tactic(auto, unfolding(crate::specs::Attribute::write_value), using(crate::proofs::AttributeLawful::lawful_write_value))]
    fn lawful() {}

    #[tactic(auto, unfolding(crate::specs::Attribute::write_value))]
    fn read_value<S: Source>(alloc: Global, src: &mut S, depth: u32) -> Result<Self, ReadFault> {
        read_fields!(alloc, src, depth => WriteValue { node_id, attribute_id, index_range, value })
    }

    #[tactic(auto, unfolding(crate::specs::Attribute::write_value))]
    fn is_encodable(&self) -> bool {
        are_encodable!(self => node_id, attribute_id, index_range, value)
    }

    #[tactic(auto, unfolding(crate::specs::Attribute::write_value))]
    fn append(&self, out: &mut Vec<u8>) -> Result<(), AllocError> {
        append_two(&self.node_id, &self.attribute_id, out)?;
        append_two(&self.index_range, &self.value, out)
    }
}

impl Wire for WriteRequest {
    ghost use Rattle.ua_structures.specs.Attribute.{write_request};

    ghost format = { write_request };

    #[inline]
    #[tactic(auto, unfolding(crate::specs::Attribute::write_request), using(crate::proofs::AttributeLawful::lawful_write_request))]
    fn lawful() {}

    #[tactic(auto, unfolding(crate::specs::Attribute::write_request))]
    fn read_value<S: Source>(alloc: Global, src: &mut S, depth: u32) -> Result<Self, ReadFault> {
        read_fields!(alloc, src, depth => WriteRequest { request_header, nodes_to_write })
    }

    #[tactic(auto, unfolding(crate::specs::Attribute::write_request))]
    fn is_encodable(&self) -> bool {
        are_encodable!(self => request_header, nodes_to_write)
    }

    #[tactic(auto, unfolding(crate::specs::Attribute::write_request))]
    fn append(&self, out: &mut Vec<u8>) -> Result<(), AllocError> {
        append_two(&self.request_header, &self.nodes_to_write, out)
    }
}

impl Wire for WriteResponse {
    ghost use Rattle.ua_structures.specs.Attribute.{write_response};

    ghost format = { write_response };

    #[inline]
    #[tactic(auto, unfolding(crate::specs::Attribute::write_response), using(crate::proofs::AttributeSound::sound_write_response))]
    fn lawful() {}

    #[tactic(auto, unfolding(crate::specs::Attribute::write_response))]
    fn read_value<S: Source>(alloc: Global, src: &mut S, depth: u32) -> Result<Self, ReadFault> {
        read_fields!(alloc, src, depth => WriteResponse {
            response_header, results, diagnostic_infos
        })
    }

    #[tactic(auto, unfolding(crate::specs::Attribute::write_response))]
    fn is_encodable(&self) -> bool {
        are_encodable!(self => response_header, results, diagnostic_infos)
    }

    #[tactic(auto, unfolding(crate::specs::Attribute::write_response))]
    fn append(&self, out: &mut Vec<u8>) -> Result<(), AllocError> {
        append_three(
            &self.response_header,
            &self.results,
            &self.diagnostic_infos,
            out,
        )
    }
}
