//! The nesting depth of values, and the number of values in them.

ghost use Rattle.std.specs.Prelude.{◌≡◌, ◌+◌, min};
ghost use Rattle.ua_variant.specs.Measure.{variant_depth, scalar_depth, scalars_depth, data_value_depth, variant_count};
ghost use Rattle.ua_variant.specs.Measure.{scalar_count, scalars_count, data_value_count, data_fields_count};
ghost use Rattle.ua_variant.specs.View.{row, variant_of, scalar_of, data_value_of, data_fields_of};

use crate::values::{DataValue, Elements, Scalar, Scalars, Variant};
use ua_diagnostic::field::count_of;

impl Variant {
    /// The nesting depth of the value, saturated at `u32::MAX`.
    pub fn depth(&self) -> u32
        ensures { result ≡ min (variant_depth (variant_of self.now)) u32.MAX }
    {
        measure_variant(self).0
    }

    /// The number of values in it, saturated at `u64::MAX`.
    pub fn count(&self) -> u64
        ensures { result ≡ min (variant_count (variant_of self.now)) u64.MAX }
    {
        measure_variant(self).1
    }
}

impl DataValue {
    /// The nesting depth of the value, saturated at `u32::MAX`.
    pub fn depth(&self) -> u32
        ensures { result ≡ min (data_value_depth (data_value_of self.now)) u32.MAX }
    {
        measure_data_value(self).0
    }

    /// The number of values in it, saturated at `u64::MAX`.
    pub fn count(&self) -> u64
        ensures { result ≡ min (data_value_count (data_value_of self.now)) u64.MAX }
    {
        measure_data_value(self).1
    }
}

// The nesting depth of a value and the number of values in it are found in one walk.

#[cycle(measures)]
fn measure_variant(value: &Variant) -> (u32, u64)
    ensures depth { result.0 ≡ min (variant_depth (variant_of value.now)) u32.MAX }
    ensures count { result.1 ≡ min (variant_count (variant_of value.now)) u64.MAX }
{
    match value {
        Variant::Null => (1, 1),
        Variant::One(s) => one_more(measure_scalar(s), 0),
        Variant::Many {
            items: None,
            dims,
            ..
        } => one_more((0, 0), dims.as_slice().len() as u64),
        Variant::Many {
            items: Some(items),
            dims,
            ..
        } => one_more(measure_row(items), dims.as_slice().len() as u64),
    }
}

/// What holds a value of this depth and count, and so many more values.
#[inline]
fn one_more(within: (u32, u64), beside: u64) -> (u32, u64)
    ensures depth { result.0 ≡ min (1 + within.0) u32.MAX }
    ensures count { result.1 ≡ min (1 + (within.1 + beside)) u64.MAX }
{
    let (depth, count) = within;
    (
        depth.saturating_add(1),
        count.saturating_add(beside).saturating_add(1),
    )
}

#[cycle(measures)]
fn measure_scalar(value: &Scalar) -> (u32, u64)
    ensures depth { result.0 ≡ min (scalar_depth (scalar_of value.now)) u32.MAX }
    ensures count { result.1 ≡ min (scalar_count (scalar_of value.now)) u64.MAX }
{
    match value {
        Scalar::DataValue(d) => match d.get() {
            None => (1, 1),
            Some(d) => measure_data_value(d),
        },
        Scalar::Variant(v) => match v.get() {
            None => (1, 1),
            Some(v) => measure_variant(v),
        },
        Scalar::DiagnosticInfo(d) => (d.depth(), d.count()),
        _ => (0, 1),
    }
}

#[cycle(measures)]
fn measure_row(items: &Scalars) -> (u32, u64)
    ensures depth { result.0 ≡ min (scalars_depth (row items.now)) u32.MAX }
    ensures count { result.1 ≡ min (scalars_count (row items.now)) u64.MAX }
{
    let scalars = match items.elements() {
        Elements::Packed(packed) => return (0, packed.len() as u64),
        Elements::Mixed(scalars) => scalars,
    };
    let mut deepest = 0u32;
    let mut all = 0u64;
    for s in scalars {
        let (depth, count) = measure_scalar(s);
        deepest = deepest.max(depth);
        all = all.saturating_add(count);
    }
    (deepest, all)
}

#[cycle(measures)]
fn measure_data_value(value: &DataValue) -> (u32, u64)
    ensures depth { result.0 ≡ min (data_value_depth (data_value_of value.now)) u32.MAX }
    ensures count { result.1 ≡ min (data_value_count (data_value_of value.now)) u64.MAX }
{
    let fields = count_data_fields(value);
    match &value.value {
        None => one_more((0, 0), fields),
        Some(v) => one_more(measure_variant(v.get()), fields),
    }
}

fn count_data_fields(value: &DataValue) -> u64
    ensures { result ≡ data_fields_count (data_fields_of value.now) }
{
    count_of(&value.status)
        + count_of(&value.source_timestamp)
        + count_of(&value.source_picoseconds)
        + count_of(&value.server_timestamp)
        + count_of(&value.server_picoseconds)
}
