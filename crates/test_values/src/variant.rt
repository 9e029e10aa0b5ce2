//! `ua_variant`.

use crate::cases::{check, octets, value, writes};
use std::alloc::Global;
use std::test::Fail;
use ua_builtin::{Octets, Source, UaBytes};
use ua_variant::{
    BoxedDataValue, BoxedVariant, DataValue, Dimensions, Elements, HeldVariant, Scalar, Scalars,
    Variant,
};

#[test]
fn reads_variants(rt: HostRuntime) -> Result<(), Fail> {
    let cases = [
        ("00", "same"),
        ("0A 0100807F", "same"),
        ("19 00", "same"),
        ("18 00", "none"),
        ("20", "none"),
        ("40", "none"),
        ("80", "none"),
        ("86 FFFFFF7F", "none"),
        ("86 FFFFFFFF", "same"),
        ("C6 01000000 2A000000 FFFFFFFF", "86 01000000 2A000000"),
        ("C6 00000000 03000000 00000100 00000100 00000000", "same"),
        ("C6 FFFFFFFF 01000000 00000000", "none"),
        ("C6 00000000 FFFFFF7F", "none"),
        ("C3 02000000 0708 02000000 01000000 02000000", "same"),
        ("1A 02000000 ABCD", "unwritable"),
        ("99*9801000000 00", "same"),
        ("100*9801000000 00", "none"),
    ];
    for (words, expected) in cases {
        check::<Variant>(&rt, words, expected)?;
    }
    Ok(())
}

#[test]
fn reads_data_values(rt: HostRuntime) -> Result<(), Fail> {
    let cases = [
        ("00", "same"),
        (
            "3F 062A000000 00000000 0100000000000000 0200 0300000000000000 0400",
            "same",
        ),
        ("02 00003480", "same"),
        ("40", "none"),
        ("80", "none"),
        ("01 86FFFFFF7F", "none"),
    ];
    for (words, expected) in cases {
        check::<DataValue>(&rt, words, expected)?;
    }
    Ok(())
}

/// Bytes of an array of three hundred elements of each type.
const ARRAYS: [&str; 25] = [
    "81 2C010000 150*0001",
    "82 2C010000 150*80FF",
    "83 2C010000 150*0001",
    "84 2C010000 300*0180",
    "85 2C010000 300*01FF",
    "86 2C010000 300*01020380",
    "87 2C010000 300*010203FF",
    "88 2C010000 300*0102030405060780",
    "89 2C010000 300*01020304050607FF",
    "8A 2C010000 300*0100807F",
    "8B 2C010000 300*010000000000F87F",
    "8C 2C010000 150*0100000041020000004243",
    "8D 2C010000 300*00803ED5DEB19D01",
    "8E 2C010000 300*912B967275FAE64A8D28B404DC7DAF63",
    "8F 2C010000 300*02000000ABCD",
    "90 2C010000 300*02000000ABCD",
    "91 2C010000 300*01050100",
    "92 2C010000 300*4105010001000000",
    "93 2C010000 300*00003480",
    "94 2C010000 300*02000100000041",
    "95 2C010000 150*02010000004102020000004243",
    "96 2C010000 300*0105010001FFFFFFFF",
    "97 2C010000 300*01050700",
    "98 2C010000 300*050700",
    "99 2C010000 300*0107000000",
];

#[test]
fn keeps_three_hundred_elements_of_each_type(rt: HostRuntime) -> Result<(), Fail> {
    for words in ARRAYS {
        check::<Variant>(&rt, words, "same")?;
    }
    check::<Variant>(&rt, "9F 2C010000 300*01000000AB", "unwritable")
}

#[test]
fn measures_and_clones_variants(rt: HostRuntime) -> Result<(), Fail> {
    let alloc = rt.alloc();
    let cases = [
        ("00", 1, 1),
        ("19 00", 2, 2),
        ("17 00", 2, 2),
        ("99*9801000000 00", 100, 100),
        ("C3 02000000 0708 02000000 01000000 02000000", 1, 5),
        ("03 07", 1, 2),
    ];
    for (words, depth, count) in cases {
        let value = value::<Variant>(alloc, words)?;
        assert!(rt;
            value.depth() == depth && value.count() == count && value.writable(),
            "{words}"
        );
        let clone = value.try_clone(alloc)?;
        drop(value);
        let boxed = BoxedVariant::new(alloc, clone)?;
        writes(&rt, &boxed.into_inner(), words)?;
    }
    for words in ARRAYS {
        let value = value::<Variant>(alloc, words)?;
        let clone = value.try_clone(alloc)?;
        drop(value);
        writes(&rt, &HeldVariant::new(clone).into_inner(), words)?;
    }
    Ok(())
}

#[test]
fn measures_and_clones_data_values(rt: HostRuntime) -> Result<(), Fail> {
    let alloc = rt.alloc();
    let words = "3F 062A000000 00000000 0100000000000000 0200 0300000000000000 0400";
    let value = value::<DataValue>(alloc, words)?;
    assert!(rt; value.depth() == 2 && value.count() == 8 && value.writable());
    assert_eq!(rt; value.source_picoseconds, Some(2));
    assert_eq!(rt; value.server_picoseconds, Some(4));
    let clone = value.try_clone(alloc)?;
    drop(value);
    let boxed = BoxedDataValue::new(alloc, clone)?;
    writes(&rt, &boxed.into_inner(), words)
}

#[test]
fn keeps_a_reserved_type(rt: HostRuntime) -> Result<(), Fail> {
    let alloc = rt.alloc();
    let value = value::<Variant>(alloc, "1A 02000000 ABCD")?;
    assert!(rt; !value.writable());
    let clone = value.try_clone(alloc)?;
    drop(value);
    match &clone {
        Variant::One(Scalar::Reserved(kind, octets)) => {
            assert_eq!(rt; *kind, 26);
            writes(&rt, octets, "02000000 ABCD")
        }
        _ => Err(Fail::new("another value")),
    }
}

fn array_of(alloc: Global, items: Scalars) -> Variant {
    Variant::Many {
        kind: 5,
        items: Some(items),
        dims: Dimensions::none(alloc),
    }
}

/// The elements of the array that bytes are decoded as.
fn elements_in(alloc: Global, words: &str) -> Result<Scalars, Fail> {
    match value::<Variant>(alloc, words)?.into_array() {
        Ok((_, items, _)) => Ok(items.ok_or("null")?),
        Err(_) => Err(Fail::new("no array")),
    }
}

#[test]
fn takes_arrays_apart(rt: HostRuntime) -> Result<(), Fail> {
    let alloc = rt.alloc();
    let items = elements_in(alloc, "85 03000000 0700 0800 0900")?;
    assert!(rt; items.as_items::<u16>().is_some() && items.as_items::<u32>().is_none());
    let element = items.get(alloc, 2)?.ok_or("no element")?;
    writes(&rt, &Variant::One(element), "05 0900")?;
    assert!(rt; items.get(alloc, 3)?.is_none());
    let length = items.len();
    assert_eq!(rt; length, 3);
    let part = items.part(alloc, 1, length)?;
    drop(items);
    writes(&rt, &array_of(alloc, part), "85 02000000 0800 0900")
}

#[test]
fn makes_arrays(rt: HostRuntime) -> Result<(), Fail> {
    let alloc = rt.alloc();
    let packed = array_of(alloc, Scalars::from_items([7u16, 8].to_vec(alloc)?));
    writes(&rt, &packed, "85 02000000 0700 0800")?;
    let mut items = Vec::new(alloc);
    match value::<Variant>(alloc, "05 0700")?.into_scalar() {
        Ok(scalar) => items.push(scalar)?,
        Err(_) => return Err(Fail::new("no scalar")),
    }
    let items = Scalars::new(items);
    assert!(rt; matches!(items.elements(), Elements::Mixed(_)));
    writes(&rt, &array_of(alloc, items), "85 01000000 0700")?;
    writes(
        &rt,
        &Variant::One(Scalar::ByteString(UaBytes::null())),
        "0F FFFFFFFF",
    )
}

#[test]
fn reads_values_onto_others(rt: HostRuntime) -> Result<(), Fail> {
    let alloc = rt.alloc();
    let octets = octets(alloc, "01 0507 00 02 00003480 40")?;
    let mut src = Octets::new(octets.as_slice());
    let mut items = Vec::new(alloc);
    DataValue::read_onto(alloc, &mut src, 100, &mut items)?;
    DataValue::read_onto(alloc, &mut src, 100, &mut items)?;
    assert_eq!(rt; src.left(), 1);
    assert!(rt; DataValue::read_onto(alloc, &mut src, 100, &mut items).is_err());
    assert_eq!(rt; items.len(), 2);
    Ok(())
}
