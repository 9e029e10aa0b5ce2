//! QualifiedName.

use std::alloc::{AllocError, Global};
use ua_wire::{ReadFault, Skip, Source, UaString, Wire, append_two};

/// A name qualified by a namespace, which is an index into the server's NamespaceArray
/// (OPC 10000-6, 5.2.2.13).
#[derive(PartialEq, Eq, Debug, Drop)]
pub struct QualifiedName {
    pub namespace: u16,
    pub name: UaString,
}

impl QualifiedName {
    ghost use Rattle.std.specs.Prelude.{◌≡◌, IfOk};

    /// Returns an owned copy, equal to this value.
    pub fn try_clone(&self) -> Result<QualifiedName, AllocError>
        ensures { IfOk result (λ v. v ≡ self.now) }
    {
        Ok(QualifiedName {
            namespace: self.namespace,
            name: self.name.try_clone()?,
        })
    }
}

impl Wire for QualifiedName {
    ghost use Rattle.ua_wire.specs.Format.{flat};
    ghost use Rattle.ua_builtin.specs.QualifiedName.{qualified_name};

    ghost format = { flat qualified_name };

    #[inline]
    #[tactic(auto, using(crate::proofs::PlainLawful::lawful_qualified_name))]
    fn lawful() {}

    #[tactic(auto, unfolding(crate::specs::QualifiedName::qualified_name))]
    fn read_value<S: Source>(
        alloc: Global,
        src: &mut S,
        depth: u32,
    ) -> Result<QualifiedName, ReadFault> {
        let namespace = u16::read_value(alloc, src, depth)?;
        let name = UaString::read_value(alloc, src, depth)?;
        Ok(QualifiedName { namespace, name })
    }

    #[tactic(auto, unfolding(crate::specs::QualifiedName::qualified_name))]
    fn is_encodable(&self) -> bool {
        self.namespace.is_encodable() && self.name.is_encodable()
    }

    #[inline(always)]
    #[tactic(auto, unfolding(crate::specs::QualifiedName::qualified_name))]
    fn append(&self, out: &mut Vec<u8>) -> Result<(), AllocError> {
        append_two(&self.namespace, &self.name, out)
    }
}

impl Skip for QualifiedName {
    #[inline]
    #[tactic(auto, unfolding(crate::specs::QualifiedName::qualified_name))]
    fn skip_value<S: Source>(alloc: Global, src: &mut S, depth: u32) -> Result<(), ReadFault> {
        u16::skip_value(alloc, src, depth)?;
        UaString::skip_value(alloc, src, depth)
    }
}
