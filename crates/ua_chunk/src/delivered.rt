//! What chunks deliver.

use crate::message::Message;
use ua_builtin::{StatusCode, UaString};

/// A message whose last chunk has arrived, with its RequestId.
#[derive(Debug, Drop)]
pub enum Delivered {
    /// A complete message, as the bodies of its chunks.
    Whole(u32, Message),
    /// A message that its sender aborted: the StatusCode, and a text for people (OPC 10000-6,
    /// 6.7.3).
    Aborted(u32, StatusCode, UaString),
}
