//! The ChannelSecurityToken, and the response that holds its fields, as lines.

use crate::lines::{Lines, Place, push_fields};
use std::alloc::{AllocError, Global};
use ua_builtin::DateTime;
use ua_services::OpenResponse;

/// A ChannelSecurityToken (OPC 10000-4, 5.6.2), whose fields an [`OpenResponse`] has as its own.
#[derive(Clone, Copy)]
pub(crate) struct SecurityToken {
    channel_id: u32,
    token_id: u32,
    created_at: DateTime,
    revised_lifetime: u32,
}

impl Lines for SecurityToken {
    ghost use Rattle.ua_fields.specs.Tree.{structure};
    ghost use Rattle.ua_fields.specs.SecurityToken.{security_token_entries};

    ghost tree = { λ t. structure (security_token_entries t) };

    fn is_structure() -> bool {
        true
    }

    #[tactic(auto, unfolding(crate::specs::SecurityToken::security_token_entries))]
    fn push_lines(&self, alloc: Global, out: &mut String, place: Place) -> Result<(), AllocError> {
        push_fields!(self, alloc, out, place => channel_id, token_id, created_at, revised_lifetime)
    }
}

impl Lines for OpenResponse {
    ghost use Rattle.ua_fields.specs.Tree.{structure};
    ghost use Rattle.ua_fields.specs.SecurityToken.{open_response_entries};

    ghost tree = { λ m. structure (open_response_entries m) };

    fn is_structure() -> bool {
        true
    }

    #[tactic(auto, unfolding(crate::specs::SecurityToken::open_response_entries))]
    fn push_lines(&self, alloc: Global, out: &mut String, place: Place) -> Result<(), AllocError> {
        let token = SecurityToken {
            channel_id: self.channel_id,
            token_id: self.token_id,
            created_at: self.created_at,
            revised_lifetime: self.revised_lifetime,
        };
        place.push_field(alloc, out, "response_header", &self.response_header)?;
        place.push_field(
            alloc,
            out,
            "server_protocol_version",
            &self.server_protocol_version,
        )?;
        place.push_field(alloc, out, "security_token", &token)?;
        place.push_field(alloc, out, "server_nonce", &self.server_nonce)?;
        Ok(())
    }
}
