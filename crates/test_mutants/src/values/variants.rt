//! Variants and DataValues.

ghost use Rattle.std.specs.Prelude.{◌≡◌, ◌≤◌, ◌++◌, ℕ, List, IfOk, IsErrOf, OnOk};
ghost use Rattle.ua_wire.specs.declared.fault.ReadFault.TheVariants.{NoValue};
ghost use Rattle.ua_wire.specs.Exact.{Begins};
ghost use Rattle.ua_wire.specs.Format.{most_levels};
ghost use Rattle.ua_variant.specs.declared.values.Variant.{Variant};
ghost use Rattle.ua_variant.specs.Formats.{variant_format, data_value_format, IsOverlongArray};

use std::alloc::Global;
use ua_builtin::{MOST_LEVELS, Octets, ReadFault, Wire, WriteFault};
use ua_variant::{DataValue, Variant};

/// The Variant that bytes begin with, and what is after it.
pub fn read_variant<'a>(alloc: Global, octets: &'a [u8]) -> Result<(Variant, Octets<'a>), ReadFault>
    ensures found { IfOk result (λ r. Begins variant_format.encodes octets.now r.0 r.1) }
    ensures none { IsErrOf result NoValue → (v : Variant) (front rest : List ℕ) → octets.now ≡ front ++ rest
        → variant_format.depth v ≤ most_levels → ¬ (variant_format.encodes v front) }
{
    let mut source = Octets::new(octets);
    let value = Variant::read(alloc, &mut source, MOST_LEVELS)?;
    Ok((value, source))
}

/// The Variant that bytes begin with. An array of more elements than bytes are there is none.
pub fn read_front(alloc: Global, octets: &[u8]) -> Result<Variant, ReadFault>
    ensures long { IsOverlongArray octets.now → IsErrOf result NoValue }
{
    let mut src = Octets::new(octets);
    Variant::read(alloc, &mut src, MOST_LEVELS)
}

/// Adds the canonical encoding of a DataValue at the end.
pub fn write_data_value(value: &DataValue, out: &mut Vec<u8>) -> Result<(), WriteFault>
    ensures ok { OnOk result (out.new.items ≡ out.old.items ++ data_value_format.canonical value.now) }
{
    value.write(out)
}
