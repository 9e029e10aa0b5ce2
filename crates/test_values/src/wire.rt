//! `ua_wire` and `ua_builtin`.

use crate::cases::{check, octets, value, writes};
use bytes::Bytes;
use std::test::Fail;
use ua_builtin::{
    BuiltInType, DateTime, DoubleBits, ExpandedNodeId, ExtensionObject, FloatBits, Guid,
    Identifier, LocalizedText, NodeId, Octets, Parts, QualifiedName, Source, StatusCode, UaBytes,
    UaString, Wire, XmlElement,
};
use ua_wire::{is_text, split_counted, split_number};

#[test]
fn reads_numbers(rt: HostRuntime) -> Result<(), Fail> {
    check::<bool>(&rt, "05", "01")?;
    check::<u8>(&rt, "FF", "same")?;
    check::<i8>(&rt, "80", "same")?;
    check::<u16>(&rt, "0100", "same")?;
    check::<i16>(&rt, "0080", "same")?;
    check::<u32>(&rt, "01000000", "same")?;
    check::<i32>(&rt, "00000080", "same")?;
    check::<u64>(&rt, "0100000000000000", "same")?;
    check::<i64>(&rt, "0000000000000080", "same")?;
    check::<FloatBits>(&rt, "0100807F", "same")?;
    check::<DoubleBits>(&rt, "000000000000F87F", "same")?;
    check::<DateTime>(&rt, "00803ED5DEB19D01", "same")?;
    check::<StatusCode>(&rt, "00003480", "same")?;
    check::<(u16, bool)>(&rt, "0200 01", "same")?;
    writes(&rt, &1u16, "0100")?;
    writes(&rt, &DateTime { ticks: -2 }, "FEFFFFFFFFFFFFFF")?;
    let status = StatusCode { code: 0x8034_0000 };
    assert!(rt; status.is_bad());
    writes(&rt, &status, "00003480")
}

#[test]
fn writes_a_guid_by_its_fields(rt: HostRuntime) -> Result<(), Fail> {
    let node = NodeId::parse_text(rt.alloc(), "g=72962b91-fa75-4ae6-8d28-b404dc7daf63")?;
    let words = "912B9672 75FA E64A 8D28 B404DC7DAF63";
    check::<Guid>(&rt, words, "same")?;
    match &node.identifier {
        Identifier::Guid(guid) => writes(&rt, guid, words),
        _ => Err(Fail::new("another identifier")),
    }
}

#[test]
fn tells_a_null_text_from_an_empty_one(rt: HostRuntime) -> Result<(), Fail> {
    let alloc = rt.alloc();
    let cases = [
        ("FFFFFFFF", "same"),
        ("FEFFFFFF", "FFFFFFFF"),
        ("00000000", "same"),
        ("06000000 486F74E6B0B4", "same"),
        ("06000000 486F74E6B0", "none"),
        ("1F000000 31*41", "same"),
        ("FFFFFF7F 41", "none"),
    ];
    for (words, expected) in cases {
        check::<UaString>(&rt, words, expected)?;
        check::<UaBytes>(&rt, words, expected)?;
        check::<XmlElement>(&rt, words, expected)?;
    }
    check::<UaString>(&rt, "01000000 FF", "none")?;
    check::<UaBytes>(&rt, "01000000 FF", "same")?;
    assert!(rt; value::<UaString>(alloc, "FEFFFFFF")?.as_str().is_none());
    let empty = value::<UaString>(alloc, "00000000")?;
    assert_eq!(rt; empty.as_str().ok_or("null")?, "");
    Ok(())
}

#[test]
fn reads_each_form_of_a_node_id(rt: HostRuntime) -> Result<(), Fail> {
    let cases = [
        ("0048", "same"),
        ("01 00 4800", "0048"),
        ("02 0000 48000000", "0048"),
        ("02 0100 48000000", "01 01 4800"),
        ("02 0001 00000000", "same"),
        ("03 0100 06000000 486F74E6B0B4", "same"),
        ("03 0100 06000000 486F74E6B0", "none"),
        ("04 0100 912B967275FAE64A8D28B404DC7DAF63", "same"),
        ("05 0200 04000000 DEADBEEF", "same"),
        ("03 0000 FFFFFF7F", "none"),
        ("40 48 00000000", "none"),
        ("06 48", "none"),
    ];
    for (words, expected) in cases {
        check::<NodeId>(&rt, words, expected)?;
    }
    Ok(())
}

#[test]
fn drops_flags_of_what_is_null(rt: HostRuntime) -> Result<(), Fail> {
    check::<ExpandedNodeId>(&rt, "80 48 FFFFFFFF", "0048")?;
    check::<ExpandedNodeId>(&rt, "40 48 00000000", "0048")?;
    check::<ExpandedNodeId>(&rt, "41 01 4800 05000000", "same")?;
    check::<ExpandedNodeId>(&rt, "81 01 4800 01000000 75", "same")?;
    check::<LocalizedText>(&rt, "01 FFFFFFFF", "00")?;
    check::<LocalizedText>(&rt, "03 02000000 656E 02000000 6869", "same")?;
    check::<LocalizedText>(&rt, "04", "none")?;
    check::<QualifiedName>(&rt, "0200 01000000 78", "same")?;
    check::<ExtensionObject>(&rt, "01004101 01 01000000 AB", "same")?;
    check::<ExtensionObject>(&rt, "0048 00", "same")?;
    check::<ExtensionObject>(&rt, "0048 02 FFFFFFFF", "same")?;
    check::<ExtensionObject>(&rt, "0048 03", "none")
}

/// Asserts that a clone equals its source.
macro_rules! clones {
    ($rt:ident $($kind:ty: $words:literal,)+) => {
        $({
            let value = value::<$kind>($rt.alloc(), $words)?;
            assert!($rt; value.try_clone()? == value, $words);
        })+
    };
}

#[test]
fn clones_are_equal(rt: HostRuntime) -> Result<(), Fail> {
    clones!(rt
        UaString: "06000000 486F74E6B0B4",
        UaBytes: "04000000 DEADBEEF",
        XmlElement: "01000000 AB",
        NodeId: "03 0100 06000000 486F74E6B0B4",
        ExpandedNodeId: "81 01 4800 01000000 75",
        QualifiedName: "0200 01000000 78",
        LocalizedText: "03 02000000 656E 02000000 6869",
        ExtensionObject: "01004101 01 01000000 AB",
    );
    Ok(())
}

#[test]
fn hands_over_texts_and_octets(rt: HostRuntime) -> Result<(), Fail> {
    let alloc = rt.alloc();
    for words in ["01000000 41", "1F000000 31*41"] {
        let text = value::<UaString>(alloc, words)?.into_string(alloc)?;
        writes(&rt, &UaString::new(text), words)?;
        let octets = value::<UaBytes>(alloc, words)?.into_octets();
        writes(&rt, &UaBytes::new(octets), words)?;
    }
    writes(
        &rt,
        &UaString::from_str(alloc, "Hot水")?,
        "06000000 486F74E6B0B4",
    )
}

#[test]
fn splits_fields_off(rt: HostRuntime) -> Result<(), Fail> {
    let octets = octets(rt.alloc(), "02000000 4142 43")?;
    let (number, rest) = split_number(octets.as_slice()).ok_or("no number")?;
    assert!(rt; number == 2 && rest.len() == 3);
    let (field, rest) = split_counted(octets.as_slice()).ok_or("no field")?;
    assert!(rt; is_text(field) && rest.len() == 1);
    let mut src = Octets::new(octets.as_slice());
    assert!(rt; src.skip(4) && !src.skip(4));
    let mut taken = [0; 3];
    assert!(rt; src.take_into(&mut taken) && taken == [0x41, 0x42, 0x43] && src.left() == 0);
    Ok(())
}

#[test]
fn reads_over_parts(rt: HostRuntime) -> Result<(), Fail> {
    let alloc = rt.alloc();
    let parts = [
        Bytes::from_static(b"\x03\x01\x00\x06"),
        Bytes::from_static(b"\x00\x00\x00\x48\x6f"),
        Bytes::from_static(b""),
        Bytes::from_static(b"\x74\xe6"),
        Bytes::from_static(b"\xb0\xb4"),
    ];
    let mut src = Parts::new(&parts);
    assert_eq!(rt; src.left(), 13);
    let node = NodeId::read(alloc, &mut src, 100)?;
    assert_eq!(rt; src.left(), 0);
    assert_eq!(rt; node.to_text(alloc)?.as_str(), "ns=1;s=Hot水");
    Ok(())
}

#[test]
fn numbers_the_built_in_types(rt: HostRuntime) -> Result<(), Fail> {
    for id in 1..=25 {
        let kind = BuiltInType::from_id(id).ok_or("no type")?;
        assert_eq!(rt; kind.id(), id);
    }
    assert!(rt; BuiltInType::from_id(0).is_none() && BuiltInType::from_id(26).is_none());
    Ok(())
}
