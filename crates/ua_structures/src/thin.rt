//! Writes that are decoded without the values that their nodes could not take.

ghost use Rattle.std.specs.Prelude.{◌≡◌, ◌≤◌, Bool, false, true, Some};
ghost use Rattle.ua_builtin.specs.Exact.{image_read};
ghost use Rattle.ua_builtin.specs.Format.{most_levels, Gives, GivesBy, StaysBehind};
ghost use Rattle.ua_variant.specs.Formats.{data_value_format};
ghost use Rattle.ua_opening.specs.Array.{array_at, items_at};
ghost use Rattle.ua_structures.specs.Attribute.{write_value, write_request};
ghost use Rattle.ua_builtin.specs.Number.{number_at};
ghost use Rattle.ua_structures.specs.Thin.{kept_value, null_value as null_value_is, thinned, thinned_request};
ghost use Rattle.ua_structures.specs.inside.Ahead.{is_kept_at, type_at};
ghost use Rattle.ua_structures.specs.inside.Onto.{no_fields as no_fields_is, with_last};

use crate::attribute::{WriteRequest, WriteValue};
use std::alloc::Global;
use ua_builtin::{FIRST_NEGATIVE, NodeId, ReadFault, Skip, Source, UaString, Wire};
use ua_opening::UaArray;
use ua_variant::{DataValue, HeldVariant, Variant, masks};

/// The fewest bytes of an item of a Write: two of a NodeId, four of the number of an attribute, four
/// of a null range, and the mask of a DataValue (OPC 10000-6, 5.2.2.9, 5.2.2.4 and 5.2.2.17).
const LEAST_ITEM: usize = 11;

/// The most items of a Write for which room is made before they are read.
const MOST_ROOM: usize = 4096;

/// The type of a value: a scalar's, or an array's.
#[derive(Clone, Copy, Debug)]
pub struct ValueType {
    /// The type id of the scalar, or of the elements of the array (OPC 10000-6, 5.1.2).
    pub kind: u8,
    /// Whether the value is an array.
    pub array: bool,
}

/// Knows which nodes could take values of which types.
pub trait TakesTypes {
    ghost use Rattle.ua_builtin.specs.declared.node_id.NodeId.{NodeId};
    ghost use Rattle.ua_structures.specs.declared.thin.ValueType.{ValueType};

    /// The node of the NodeId could take a value of the type.
    ghost takes: { Self → NodeId → ValueType → Bool };

    /// Whether the node of the NodeId could take a value of the type. Allocates nothing.
    fn could_take(&self, id: &NodeId, value_type: ValueType) -> bool
        ensures { result ≡ takes self.now id.now value_type };
}

/// The type that the first byte of a Variant announces; a null one has none.
fn announced_type(tag: u8) -> Option<ValueType>
    ensures { result ≡ type_at tag }
{
    if tag == 0 {
        return None;
    }
    if tag >= masks::ARRAY {
        return Some(ValueType {
            kind: tag & masks::TYPE_ID,
            array: true,
        });
    }
    Some(ValueType {
        kind: tag,
        array: false,
    })
}

/// Whether the DataValue at the start of the source is kept, in an item for this node: looked
/// at are its mask and the first byte of its value, in a fork.
fn is_kept<S: Source, T: TakesTypes>(src: &S, types: &T, id: &NodeId) -> bool
    ensures { result ≡ is_kept_at (T.takes types.now id.now) (S.octets src.now) }
{
    let mut ahead = src.fork();
    let mut octets = [0; 2];
    if !ahead.take_into(&mut octets) {
        return true;
    }
    let [mask, tag] = octets;
    if mask & masks::VALUE == 0 {
        return true;
    }
    match announced_type(tag) {
        Some(value_type) => types.could_take(id, value_type),
        None => true,
    }
}

/// A null Variant, and neither a status nor a time. Allocates nothing.
fn null_value() -> DataValue
    ensures { result ≡ null_value_is }
{
    DataValue {
        value: Some(HeldVariant::new(Variant::Null)),
        status: None,
        source_timestamp: None,
        source_picoseconds: None,
        server_timestamp: None,
        server_picoseconds: None,
    }
}

/// A DataValue without fields. Allocates nothing.
fn no_fields() -> DataValue
    ensures { result ≡ no_fields_is }
{
    DataValue {
        value: None,
        status: None,
        source_timestamp: None,
        source_picoseconds: None,
        server_timestamp: None,
        server_picoseconds: None,
    }
}

/// Takes the mask of a DataValue that has a value and no other field, as most in a Write. Where it
/// is another one, nothing is taken.
#[inline(always)]
fn take_value_alone<S: Source>(alloc: Global, src: &mut S) -> bool
    ensures taken { result ≡ true → number_at 1 (S.octets src.old) ≡ Some (1, S.octets src.new) }
    ensures same { result ≡ false → S.octets src.new ≡ S.octets src.old }
    ensures behind { StaysBehind (S.octets src.old) (S.octets src.new) }
{
    let mut ahead = src.fork();
    let Ok(masks::VALUE) = u8::read_value(alloc, &mut ahead, 0) else {
        return false;
    };
    *src = ahead;
    true
}

/// Reads the DataValue at the start of the source into a place that has no fields: one that is
/// returned is moved at each step.
#[inline(always)]
fn read_value_into<S: Source>(
    alloc: Global,
    src: &mut S,
    depth: u32,
    place: &mut DataValue,
) -> Result<(), ReadFault>
    requires levels { depth ≤ most_levels }
    requires empty { place.old ≡ no_fields_is }
    ensures exact { GivesBy (λ _. place.new) (data_value_format.decode depth) (S.octets src.old)
        (S.octets src.new) result }
    ensures behind { StaysBehind (S.octets src.old) (S.octets src.new) }
{
    if depth > 0 && take_value_alone(alloc, src) {
        let value = Variant::read_value(alloc, src, depth - 1)?;
        place.value = Some(HeldVariant::new(value));
        return Ok(());
    }
    *place = DataValue::read_value(alloc, src, depth)?;
    Ok(())
}

/// Reads what is kept of the DataValue at the start of the source, in an item for this node, into a
/// place that has no fields.
#[inline(always)]
fn read_kept_into<S: Source, T: TakesTypes>(
    alloc: Global,
    src: &mut S,
    depth: u32,
    types: &T,
    id: &NodeId,
    place: &mut DataValue,
) -> Result<(), ReadFault>
    requires levels { depth ≤ most_levels }
    requires empty { place.old ≡ no_fields_is }
    ensures exact { GivesBy (λ _. place.new)
        (image_read (kept_value (T.takes types.now id.now)) (data_value_format.decode depth))
        (S.octets src.old) (S.octets src.new) result }
    ensures behind { StaysBehind (S.octets src.old) (S.octets src.new) }
{
    if is_kept(src, types, id) {
        return read_value_into(alloc, src, depth, place);
    }
    DataValue::skip_value(alloc, src, depth)?;
    *place = null_value();
    Ok(())
}

impl WriteValue {
    /// Decodes the item at the start of the source, as `read_value` does, to the end of the vector,
    /// but skips a value that its node could not take, and puts a null Variant in its place.
    #[inline(always)]
    #[tactic(auto, unfolding(crate::specs::Attribute::write_value))]
    fn read_onto<S: Source, T: TakesTypes>(
        alloc: Global,
        src: &mut S,
        depth: u32,
        types: &T,
        items: &mut Vec<WriteValue>,
    ) -> Result<(), ReadFault>
        requires levels { depth ≤ most_levels }
        ensures exact { GivesBy (λ _. items.new.items) (image_read (with_last items.old.items)
            (image_read (thinned (T.takes types.now)) (write_value.decode depth))) (S.octets src.old)
            (S.octets src.new) result }
        ensures behind { StaysBehind (S.octets src.old) (S.octets src.new) }
    {
        items.reserve(1)?;
        let node_id = NodeId::read_value(alloc, src, depth)?;
        let attribute_id = u32::read_value(alloc, src, depth)?;
        let index_range = UaString::read_value(alloc, src, depth)?;
        let mut value = no_fields();
        read_kept_into(alloc, src, depth, types, &node_id, &mut value)?;
        items.push_reserved(WriteValue {
            node_id,
            attribute_id,
            index_range,
            value,
        });
        Ok(())
    }
}

/// Reads that many items. There is room for as many at once as the bytes that are left can hold, and
/// for at most [`MOST_ROOM`]: memory never grows by what a count alone claims.
fn read_items<S: Source, T: TakesTypes>(
    alloc: Global,
    src: &mut S,
    depth: u32,
    count: u32,
    types: &T,
) -> Result<Vec<WriteValue>, ReadFault>
    requires levels { depth ≤ most_levels }
    ensures exact { GivesBy (λ v. v.items)
        (items_at (image_read (thinned (T.takes types.now)) (write_value.decode depth)) count) (S.octets src.old)
        (S.octets src.new) result }
    ensures behind { StaysBehind (S.octets src.old) (S.octets src.new) }
{
    let room = (src.left() / LEAST_ITEM).min(count as usize).min(MOST_ROOM);
    let mut items = Vec::with_capacity(alloc, room)?;
    for _ in 0..count {
        WriteValue::read_onto(alloc, src, depth, types, &mut items)?;
    }
    Ok(items)
}

/// Reads an array of items.
fn read_array<S: Source, T: TakesTypes>(
    alloc: Global,
    src: &mut S,
    depth: u32,
    types: &T,
) -> Result<UaArray<WriteValue>, ReadFault>
    requires levels { depth ≤ most_levels }
    ensures exact { Gives (array_at (image_read (thinned (T.takes types.now)) (write_value.decode depth)))
        (S.octets src.old) (S.octets src.new) result }
    ensures behind { StaysBehind (S.octets src.old) (S.octets src.new) }
{
    let count = u32::read_value(alloc, src, depth)?;
    if count >= FIRST_NEGATIVE {
        return Ok(UaArray::null());
    }
    // No encoding is empty: each item needs a byte at least.
    if src.left() < count as usize {
        return Err(ReadFault::NoValue);
    }
    let items = read_items(alloc, src, depth, count, types)?;
    Ok(UaArray::new(Some(items)))
}

impl WriteRequest {
    /// Decodes the Write at the start of the source into this one, as
    /// [`read_thinned`](WriteRequest::read_thinned) does. After an error, discard the source.
    #[inline(never)]
    #[tactic(auto, unfolding(crate::specs::Attribute::write_request))]
    pub fn read_thinned_into<S: Source, T: TakesTypes>(
        &mut self,
        alloc: Global,
        src: &mut S,
        depth: u32,
        types: &T,
    ) -> Result<(), ReadFault>
        requires levels { depth ≤ most_levels }
        ensures exact { GivesBy (λ _. self.new)
            (image_read (thinned_request (T.takes types.now)) (write_request.decode depth)) (S.octets src.old)
            (S.octets src.new) result }
        ensures behind { StaysBehind (S.octets src.old) (S.octets src.new) }
    {
        self.request_header.read_into(alloc, src, depth)?;
        self.nodes_to_write = read_array(alloc, src, depth, types)?;
        Ok(())
    }
}
