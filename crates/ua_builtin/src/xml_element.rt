//! XmlElement.

use std::alloc::{AllocError, Global};
use ua_wire::{ReadFault, Skip, Source, UaBytes, Wire};

/// An XML element as bytes, which are never parsed, or null (OPC 10000-6, 5.2.2.8).
#[derive(PartialEq, Eq, Debug, Drop)]
pub struct XmlElement {
    pub octets: UaBytes,
}

impl XmlElement {
    ghost use Rattle.std.specs.Prelude.{◌≡◌, IfOk};

    /// Returns an owned copy, equal to this value.
    pub fn try_clone(&self) -> Result<XmlElement, AllocError>
        ensures { IfOk result (λ v. v ≡ self.now) }
    {
        Ok(XmlElement {
            octets: self.octets.try_clone()?,
        })
    }
}

impl Wire for XmlElement {
    ghost use Rattle.ua_wire.specs.Format.{flat};
    ghost use Rattle.ua_builtin.specs.XmlElement.{xml_element};

    ghost format = { flat xml_element };

    #[inline]
    #[tactic(auto, using(crate::proofs::PlainLawful::lawful_xml_element))]
    fn lawful() {}

    #[inline]
    #[tactic(auto, unfolding(crate::specs::XmlElement::xml_element))]
    fn read_value<S: Source>(
        alloc: Global,
        src: &mut S,
        depth: u32,
    ) -> Result<XmlElement, ReadFault> {
        let octets = UaBytes::read_value(alloc, src, depth)?;
        Ok(XmlElement { octets })
    }

    #[inline]
    #[tactic(auto, unfolding(crate::specs::XmlElement::xml_element))]
    fn is_encodable(&self) -> bool {
        self.octets.is_encodable()
    }

    #[inline]
    #[tactic(auto, unfolding(crate::specs::XmlElement::xml_element))]
    fn append(&self, out: &mut Vec<u8>) -> Result<(), AllocError> {
        self.octets.append(out)?;
        Ok(())
    }
}

impl Skip for XmlElement {}
