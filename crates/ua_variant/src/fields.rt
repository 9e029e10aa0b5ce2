//! The fields of a DataValue other than its value.

ghost use Rattle.std.specs.Prelude.{◌≡◌, ◌<◌};
ghost use Rattle.std.specs.Vec.{vec_len, vec_capacity};
ghost use Rattle.ua_builtin.specs.Format.{GivesBy, StaysBehind};
ghost use Rattle.ua_variant.specs.Fields.{data_fields};
ghost use Rattle.ua_variant.specs.Reading.{fields_of};
ghost use Rattle.ua_variant.specs.Onto.{with_last};
ghost use Rattle.ua_variant.specs.View.{data_value_of, value_within};

use crate::masks;
use crate::values::{DataValue, HeldVariant};
use std::alloc::Global;
use ua_builtin::{DateTime, ReadFault, Source, StatusCode};
use ua_diagnostic::field::read_field;

/// The fields of a DataValue other than its value.
#[derive(Clone, Copy, Debug)]
pub struct Fields {
    status: Option<StatusCode>,
    source_timestamp: Option<DateTime>,
    source_picoseconds: Option<u16>,
    server_timestamp: Option<DateTime>,
    server_picoseconds: Option<u16>,
}

impl Fields {
    /// The DataValue of this value and these fields.
    #[inline]
    pub fn behind(self, value: Option<HeldVariant>) -> DataValue
        ensures { data_value_of result ≡ value_within value (fields_of self) }
    {
        DataValue {
            value,
            status: self.status,
            source_timestamp: self.source_timestamp,
            source_picoseconds: self.source_picoseconds,
            server_timestamp: self.server_timestamp,
            server_picoseconds: self.server_picoseconds,
        }
    }

    /// Pushes the DataValue of this value and these fields.
    #[inline(always)]
    pub fn push(self, value: Option<HeldVariant>, items: &mut Vec<DataValue>)
        requires room { vec_len items.old < vec_capacity items.old }
        ensures { items.new.items ≡ with_last items.old.items (value_within value (fields_of self)) }
    {
        items.push_reserved(self.behind(value));
    }
}

/// Decodes the fields of a DataValue, after its value, that its encoding mask announces.
#[inline(always)]
#[tactic(auto, unfolding(crate::specs::Fields::data_fields))]
pub(crate) fn read_data_fields<S: Source>(
    alloc: Global,
    src: &mut S,
    mask: u8,
) -> Result<Fields, ReadFault>
    ensures exact { GivesBy fields_of (data_fields mask).decode (S.octets src.old) (S.octets src.new) result }
    ensures behind { StaysBehind (S.octets src.old) (S.octets src.new) }
{
    let status = read_field(alloc, src, 0, mask & masks::STATUS != 0)?;
    let source_timestamp = read_field(alloc, src, 0, mask & masks::SOURCE_TIMESTAMP != 0)?;
    let source_picoseconds = read_field(alloc, src, 0, mask & masks::SOURCE_PICOSECONDS != 0)?;
    let server_timestamp = read_field(alloc, src, 0, mask & masks::SERVER_TIMESTAMP != 0)?;
    let server_picoseconds = read_field(alloc, src, 0, mask & masks::SERVER_PICOSECONDS != 0)?;
    Ok(Fields {
        status,
        source_timestamp,
        source_picoseconds,
        server_timestamp,
        server_picoseconds,
    })
}
