//! The binary encoding of Variants and DataValues.

ghost use Rattle.std.specs.Prelude.{◌≡◌, ◌++◌, true, OnOk, OnErr};
ghost use Rattle.ua_builtin.specs.Format.{Extends};
ghost use Rattle.ua_variant.specs.Canonical.{data_value_canonical};
ghost use Rattle.ua_variant.specs.Data.{valued};
ghost use Rattle.ua_variant.specs.Encodable.{data_value_encodable};
ghost use Rattle.ua_variant.specs.View.{data_fields_of, variant_of};

use crate::read::{read_data_value, read_variant};
use crate::values::{DataValue, Variant};
use crate::write::{append_data_value, append_valued, append_variant};
use std::alloc::{AllocError, Global};
use ua_builtin::{ReadFault, Source, Wire};

/// Variant (OPC 10000-6, 5.2.2.16).
impl Wire for Variant {
    ghost use Rattle.ua_variant.specs.Formats.{variant_format, IsOverlongArray};

    ghost format = { variant_format };

    ghost overlong = { IsOverlongArray };

    #[inline]
    #[tactic(auto, using(crate::proofs::VariantsLawful::lawful_variant))]
    fn lawful() {}

    #[tactic(auto, unfolding(crate::specs::Formats::variant_format))]
    fn read_value<S: Source>(alloc: Global, src: &mut S, depth: u32) -> Result<Variant, ReadFault> {
        read_variant(alloc, src, depth)
    }

    #[tactic(auto, unfolding(crate::specs::Formats::variant_format))]
    fn is_encodable(&self) -> bool {
        self.writable()
    }

    #[tactic(auto, using(crate::proofs::Written::variant_fits_of), unfolding(crate::specs::Formats::variant_format))]
    fn append(&self, out: &mut Vec<u8>) -> Result<(), AllocError> {
        append_variant(self, out)
    }
}

/// DataValue (OPC 10000-6, 5.2.2.17).
impl Wire for DataValue {
    ghost use Rattle.ua_variant.specs.Formats.{data_value_format};

    ghost format = { data_value_format };

    #[inline]
    #[tactic(auto, using(crate::proofs::VariantsLawful::lawful_data_value))]
    fn lawful() {}

    #[inline(always)]
    #[tactic(auto, unfolding(crate::specs::Formats::data_value_format))]
    fn read_value<S: Source>(
        alloc: Global,
        src: &mut S,
        depth: u32,
    ) -> Result<DataValue, ReadFault> {
        read_data_value(alloc, src, depth)
    }

    #[inline]
    #[tactic(auto, unfolding(crate::specs::Formats::data_value_format))]
    fn is_encodable(&self) -> bool {
        self.writable()
    }

    #[inline]
    #[tactic(auto, using(crate::proofs::Written::data_value_fits_of), unfolding(crate::specs::Formats::data_value_format))]
    fn append(&self, out: &mut Vec<u8>) -> Result<(), AllocError> {
        append_data_value(self, out)
    }
}

impl DataValue {
    /// Appends the canonical encoding of the DataValue with this value and with the status and
    /// timestamps of `self`, without moving the value. On an error the earlier contents stay,
    /// perhaps followed by more bytes.
    #[inline]
    #[tactic(auto, using(crate::proofs::Written::valued_parts))]
    pub fn append_beside(&self, value: &Variant, out: &mut Vec<u8>) -> Result<(), AllocError>
        requires { data_value_encodable (valued (variant_of value.now) (data_fields_of self.now)) ≡ true }
        ensures ok { OnOk result
            (out.new.items ≡ out.old.items ++ data_value_canonical
            (valued (variant_of value.now) (data_fields_of self.now))) }
        ensures err { OnErr result (Extends out.old.items out.new.items) }
    {
        append_valued(value, self, out)
    }
}
