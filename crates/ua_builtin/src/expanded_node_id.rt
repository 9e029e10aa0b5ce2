//! ExpandedNodeId.

use crate::flags;
use crate::node_id::NodeId;
use std::alloc::{AllocError, Global};
use ua_wire::{ReadFault, Source, UaString, Wire};

/// The NodeId of a node that may be on another server: with its NamespaceUri, unless that is null,
/// and its ServerIndex, where 0 is the local server (OPC 10000-6, 5.2.2.10).
///
/// A namespace index beside a URI has no meaning; it is preserved and encoded as it is.
#[derive(PartialEq, Eq, Debug, Drop)]
pub struct ExpandedNodeId {
    pub node_id: NodeId,
    pub namespace_uri: UaString,
    pub server_index: u32,
}

const FORM: u8 = 0x3F;

const HAS_SERVER_INDEX: u8 = 0x40;

const HAS_NAMESPACE_URI: u8 = 0x80;

impl ExpandedNodeId {
    ghost use Rattle.std.specs.Prelude.{◌≡◌, ◌++◌, IsTrue, is_some, not, IfOk, OnOk, OnErr};
    ghost use Rattle.ua_wire.specs.Format.{Extends};
    ghost use Rattle.ua_builtin.specs.Flags.{flagged_text};
    ghost use Rattle.ua_builtin.specs.ExpandedNodeId.{flags_octet_of, flagged_index, is_here};

    /// Returns an owned copy, equal to this value.
    pub fn try_clone(&self) -> Result<ExpandedNodeId, AllocError>
        ensures { IfOk result (λ v. v ≡ self.now) }
    {
        Ok(ExpandedNodeId {
            node_id: self.node_id.try_clone()?,
            namespace_uri: self.namespace_uri.try_clone()?,
            server_index: self.server_index,
        })
    }

    // The form byte with the flags of what is there.
    fn octet(&self) -> u8
        ensures { result ≡ flags_octet_of self.now }
    {
        self.node_id.form()
            + flags::flag_of(HAS_NAMESPACE_URI, self.namespace_uri.is_some())
            + flags::flag_of(HAS_SERVER_INDEX, self.server_index != 0)
    }

    // Appends the index unless it is 0.
    fn append_index(&self, out: &mut Vec<u8>) -> Result<(), AllocError>
        ensures ok { OnOk result
            (out.new.items ≡ out.old.items ++ (flagged_index (not (is_here self.now.server_index))).canonical
            self.now.server_index) }
        ensures err { OnErr result (Extends out.old.items out.new.items) }
    {
        if self.server_index == 0 {
            return Ok(());
        }
        self.server_index.append(out)
    }

    // Appends the URI unless it is null, and the index unless it is 0.
    fn append_behind(&self, out: &mut Vec<u8>) -> Result<(), AllocError>
        requires { IsTrue ((flagged_text (is_some self.now.namespace_uri)).encodable self.now.namespace_uri) }
        ensures ok { OnOk result
            (out.new.items ≡ out.old.items
            ++ ((flagged_text (is_some self.now.namespace_uri)).canonical self.now.namespace_uri
            ++ (flagged_index (not (is_here self.now.server_index))).canonical self.now.server_index)) }
        ensures err { OnErr result (Extends out.old.items out.new.items) }
    {
        flags::append_flagged(&self.namespace_uri, out)?;
        self.append_index(out)
    }
}

impl Wire for ExpandedNodeId {
    ghost use Rattle.ua_wire.specs.Format.{flat};
    ghost use Rattle.ua_builtin.specs.ExpandedNodeId.{expanded_node_id};

    ghost format = { flat expanded_node_id };

    #[inline]
    #[tactic(auto, using(crate::proofs::ExpandedNodeIdLawful::lawful_expanded_node_id))]
    fn lawful() {}

    #[tactic(auto, unfolding(crate::specs::ExpandedNodeId::expanded_node_id))]
    fn read_value<S: Source>(
        alloc: Global,
        src: &mut S,
        depth: u32,
    ) -> Result<ExpandedNodeId, ReadFault> {
        let octet = u8::read_value(alloc, src, depth)?;
        let node_id = NodeId::read_form(alloc, src, depth, octet & FORM)?;
        let has_uri = octet & HAS_NAMESPACE_URI != 0;
        let namespace_uri = flags::read_flagged(alloc, src, depth, has_uri)?;
        let server_index = if octet & HAS_SERVER_INDEX != 0 {
            u32::read_value(alloc, src, depth)?
        } else {
            0
        };
        Ok(ExpandedNodeId {
            node_id,
            namespace_uri,
            server_index,
        })
    }

    #[tactic(auto, unfolding(crate::specs::ExpandedNodeId::expanded_node_id))]
    fn is_encodable(&self) -> bool {
        let _index = self.server_index;
        self.node_id.is_form_encodable() && flags::is_flagged_encodable(&self.namespace_uri)
    }

    #[tactic(auto, unfolding(crate::specs::ExpandedNodeId::expanded_node_id))]
    fn append(&self, out: &mut Vec<u8>) -> Result<(), AllocError> {
        self.octet().append(out)?;
        self.node_id.append_form(out)?;
        self.append_behind(out)
    }
}
