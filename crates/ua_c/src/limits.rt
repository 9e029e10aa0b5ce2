//! The limits of one end, as C gives them.

ghost use Rattle.std.specs.Prelude.{IfSome, None};
ghost use Rattle.ua_c.specs.Limits.{Allowed};

use ua_frame::Limits;

/// The size of [`UaLimits`] in bytes.
const SIZE: u32 = 20;

/// The limits of one end of a connection: the frame sizes in bytes, and the most bytes and chunks
/// of a message. The first field is the size of this structure in bytes.
#[repr(C)]
#[derive(Debug)]
pub struct UaLimits {
    pub size: u32,
    pub receive_buffer_size: u32,
    pub send_buffer_size: u32,
    pub max_message_size: u32,
    pub max_chunk_count: u32,
}

/// The limits that these numbers are; `None` if one is below the minimum, or if the structure
/// has another size.
pub(crate) fn allowed(limits: &UaLimits) -> Option<Limits>
    ensures { Allowed limits.now result }
{
    if limits.size != SIZE {
        return None;
    }
    Limits::new(
        limits.receive_buffer_size,
        limits.send_buffer_size,
        limits.max_message_size,
        limits.max_chunk_count,
    )
}
