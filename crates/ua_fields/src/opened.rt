//! The response of OpenSecureChannel, passed over.

ghost use Rattle.ua_builtin.specs.Exact.{skipped};
ghost use Rattle.ua_builtin.specs.Format.{Gives, most_levels};
ghost use Rattle.ua_opening.specs.SecureChannel.{open_response};

use std::alloc::Global;
use ua_builtin::{DateTime, MOST_LEVELS, ReadFault, Skip, Source, UaBytes};
use ua_services::ResponseHeader;

/// Skips the OpenSecureChannelResponse at the start of the source, field by field (OPC 10000-4,
/// 5.6.2). After an error, discard the source.
#[tactic(auto, unfolding(ua_opening::specs::SecureChannel::open_response))]
pub fn skip_open_response<S: Source>(alloc: Global, src: &mut S) -> Result<(), ReadFault>
    ensures exact { Gives (skipped (open_response.decode most_levels)) (S.octets src.old) (S.octets src.new) result }
{
    ResponseHeader::skip_value(alloc, src, MOST_LEVELS)?;
    u32::skip_value(alloc, src, MOST_LEVELS)?;
    u32::skip_value(alloc, src, MOST_LEVELS)?;
    u32::skip_value(alloc, src, MOST_LEVELS)?;
    DateTime::skip_value(alloc, src, MOST_LEVELS)?;
    u32::skip_value(alloc, src, MOST_LEVELS)?;
    UaBytes::skip_value(alloc, src, MOST_LEVELS)
}
