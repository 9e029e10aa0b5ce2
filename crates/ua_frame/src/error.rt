//! Error.

ghost use Rattle.std.specs.Prelude.{◌≡◌};
ghost use Rattle.ua_frame.specs.Frames.{frame_octets};
ghost use Rattle.ua_frame.specs.Messages.{err_frame};

use crate::header::header_octets;
use crate::kind::Kind;
use std::alloc::{AllocError, Global};
use ua_builtin::{ReadFault, Source, StatusCode, UaString, Wire};

/// Error, the body of an ERR message and of an abort chunk: the StatusCode and the reason with
/// which one end gives up (OPC 10000-6, 7.1.2.5 and 6.7.3).
#[derive(PartialEq, Eq, Debug, Drop)]
pub struct ErrorFrame {
    pub error: StatusCode,
    pub reason: UaString,
}

/// Reads and writes the body. The caller refuses bytes after the reason.
impl Wire for ErrorFrame {
    ghost use Rattle.ua_builtin.specs.Format.{flat};
    ghost use Rattle.ua_frame.specs.Messages.{error};

    ghost format = { flat error };

    #[inline]
    #[tactic(auto, using(crate::proofs::MessagesLawful::lawful_error))]
    fn lawful() {}

    #[tactic(auto, unfolding(crate::specs::Messages::error))]
    fn read_value<S: Source>(
        alloc: Global,
        src: &mut S,
        depth: u32,
    ) -> Result<ErrorFrame, ReadFault> {
        let error = StatusCode::read_value(alloc, src, depth)?;
        let reason = UaString::read_value(alloc, src, depth)?;
        Ok(ErrorFrame { error, reason })
    }

    #[tactic(auto, unfolding(crate::specs::Messages::error))]
    fn is_encodable(&self) -> bool {
        self.error.is_encodable() && self.reason.is_encodable()
    }

    #[tactic(auto, unfolding(crate::specs::Messages::error))]
    fn append(&self, out: &mut Vec<u8>) -> Result<(), AllocError> {
        self.error.append(out)?;
        self.reason.append(out)?;
        Ok(())
    }
}

/// The bytes of a complete ERR message with this StatusCode and a null reason.
pub fn error_frame(code: StatusCode) -> [u8; 16]
    ensures { result ≡ frame_octets (err_frame code) }
{
    let header = header_octets(Kind::Err, b'F', 16);
    let code = code.code.to_le_bytes();
    [
        header[0], header[1], header[2], header[3], header[4], header[5], header[6], header[7],
        code[0], code[1], code[2], code[3], 0xFF, 0xFF, 0xFF, 0xFF,
    ]
}
