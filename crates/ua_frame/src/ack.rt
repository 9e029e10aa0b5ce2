//! Acknowledge.

ghost use Rattle.std.specs.Prelude.{◌≡◌};
ghost use Rattle.ua_frame.specs.Frames.{frame_octets};
ghost use Rattle.ua_frame.specs.Messages.{ack_frame};

use crate::header::{HEADER_LEN, header_octets};
use crate::kind::Kind;
use byteorder::{ByteOrder, LittleEndian};
use std::alloc::{AllocError, Global};
use ua_builtin::{ReadFault, Source, Wire};

/// Acknowledge, the body of an ACK message: what a server agrees to (OPC 10000-6, 7.1.2.4). Sizes
/// are in bytes; 0 means no limit.
#[derive(Clone, Copy, PartialEq, Eq, Debug)]
pub struct Ack {
    pub protocol_version: u32,
    pub receive_buffer_size: u32,
    pub send_buffer_size: u32,
    pub max_message_size: u32,
    pub max_chunk_count: u32,
}

/// Reads and writes the body. The caller refuses bytes after the last number.
impl Wire for Ack {
    ghost use Rattle.ua_builtin.specs.Format.{flat};
    ghost use Rattle.ua_frame.specs.Messages.{ack};

    ghost format = { flat ack };

    ghost memoryless = { Unit {0} };

    #[inline]
    #[tactic(auto, using(crate::proofs::MessagesLawful::lawful_ack))]
    fn lawful() {}

    #[tactic(auto, unfolding(crate::specs::Messages::ack))]
    fn read_value<S: Source>(alloc: Global, src: &mut S, depth: u32) -> Result<Ack, ReadFault> {
        let protocol_version = u32::read_value(alloc, src, depth)?;
        let receive_buffer_size = u32::read_value(alloc, src, depth)?;
        let send_buffer_size = u32::read_value(alloc, src, depth)?;
        let max_message_size = u32::read_value(alloc, src, depth)?;
        let max_chunk_count = u32::read_value(alloc, src, depth)?;
        Ok(Ack {
            protocol_version,
            receive_buffer_size,
            send_buffer_size,
            max_message_size,
            max_chunk_count,
        })
    }

    #[tactic(auto, unfolding(crate::specs::Messages::ack))]
    fn is_encodable(&self) -> bool {
        self.protocol_version.is_encodable()
            && self.receive_buffer_size.is_encodable()
            && self.send_buffer_size.is_encodable()
            && self.max_message_size.is_encodable()
            && self.max_chunk_count.is_encodable()
    }

    #[tactic(auto, unfolding(crate::specs::Messages::ack))]
    fn append(&self, out: &mut Vec<u8>) -> Result<(), AllocError> {
        self.protocol_version.append(out)?;
        self.receive_buffer_size.append(out)?;
        self.send_buffer_size.append(out)?;
        self.max_message_size.append(out)?;
        self.max_chunk_count.append(out)?;
        Ok(())
    }
}

/// The bytes of a complete ACK message, with its header.
pub fn ack_octets(ack: &Ack) -> [u8; 28]
    ensures { result ≡ frame_octets (ack_frame ack.now) }
{
    let mut octets = [0; 28];
    octets[..HEADER_LEN].copy_from_slice(&header_octets(Kind::Ack, b'F', 28));
    let numbers = [
        ack.protocol_version,
        ack.receive_buffer_size,
        ack.send_buffer_size,
        ack.max_message_size,
        ack.max_chunk_count,
    ];
    LittleEndian::write_u32_into(&numbers, &mut octets[HEADER_LEN..]);
    octets
}
