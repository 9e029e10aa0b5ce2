//! Hello.

use std::alloc::{AllocError, Global};
use ua_builtin::{ReadFault, Source, UaString, Wire};

/// Hello, the body of a HEL message: the limits of a client, and the endpoint that it asks for (OPC
/// 10000-6, 7.1.2.3). Sizes are in bytes; 0 means no limit.
#[derive(PartialEq, Eq, Debug, Drop)]
pub struct Hello {
    pub protocol_version: u32,
    pub receive_buffer_size: u32,
    pub send_buffer_size: u32,
    pub max_message_size: u32,
    pub max_chunk_count: u32,
    pub endpoint_url: UaString,
}

/// Reads and writes the body. The caller refuses bytes after the URL.
impl Wire for Hello {
    ghost use Rattle.ua_builtin.specs.Format.{flat};
    ghost use Rattle.ua_frame.specs.Messages.{hello};

    ghost format = { flat hello };

    #[inline]
    #[tactic(auto, using(crate::proofs::MessagesLawful::lawful_hello))]
    fn lawful() {}

    #[tactic(auto, unfolding(crate::specs::Messages::hello))]
    fn read_value<S: Source>(alloc: Global, src: &mut S, depth: u32) -> Result<Hello, ReadFault> {
        let protocol_version = u32::read_value(alloc, src, depth)?;
        let receive_buffer_size = u32::read_value(alloc, src, depth)?;
        let send_buffer_size = u32::read_value(alloc, src, depth)?;
        let max_message_size = u32::read_value(alloc, src, depth)?;
        let max_chunk_count = u32::read_value(alloc, src, depth)?;
        let endpoint_url = UaString::read_value(alloc, src, depth)?;
        Ok(Hello {
            protocol_version,
            receive_buffer_size,
            send_buffer_size,
            max_message_size,
            max_chunk_count,
            endpoint_url,
        })
    }

    #[tactic(auto, unfolding(crate::specs::Messages::hello))]
    fn is_encodable(&self) -> bool {
        self.protocol_version.is_encodable()
            && self.receive_buffer_size.is_encodable()
            && self.send_buffer_size.is_encodable()
            && self.max_message_size.is_encodable()
            && self.max_chunk_count.is_encodable()
            && self.endpoint_url.is_encodable()
    }

    #[tactic(auto, unfolding(crate::specs::Messages::hello))]
    fn append(&self, out: &mut Vec<u8>) -> Result<(), AllocError> {
        self.protocol_version.append(out)?;
        self.receive_buffer_size.append(out)?;
        self.send_buffer_size.append(out)?;
        self.max_message_size.append(out)?;
        self.max_chunk_count.append(out)?;
        self.endpoint_url.append(out)?;
        Ok(())
    }
}
