//! What a server is asked, and how.

use crate::policy::TokenPolicy;
use crate::question::Question;
use std::alloc::Global;
use ua_answers::AnswerStyle;
use ua_builtin::UaString;
use ua_frame::Limits;

/// What a client to a server is opened with.
#[derive(Clone, Copy, Debug)]
pub struct Opening<'a> {
    pub alloc: Global,
    pub limits: Limits,
    /// The URL by which the server is asked.
    pub url: &'a UaString,
}

/// A question that a server is asked in a session of its own.
#[derive(Clone, Copy, Debug)]
pub struct Inquiry<'a> {
    /// What the client is opened with.
    pub opening: Opening<'a>,
    pub question: &'a Question,
    /// The token policy by which the session is begun.
    pub policy: &'a TokenPolicy,
    /// How the answers are printed.
    pub style: AnswerStyle,
}
