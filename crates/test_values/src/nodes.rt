//! `ua_nodes`.

use crate::cases::{value, writes};
use std::alloc::Global;
use std::process::Abort;
use std::test::Fail;
use ua_builtin::{DateTime, NodeId, StatusCode, UaString};
use ua_nodes::{
    Access, InsertFault, LineReason, LoadFault, Node, NodeTable, Reading, SetFault, Stamps,
    parse_type, parse_value,
};
use ua_services::session_requests::read_attribute_item;
use ua_structures::WriteValue;
use ua_variant::{Elements, Variant};

/// Two nodes.
const FILE: &str = "i=2001\tr\tLevel\tFloat\t0xC0D00000\nns=1;s=Row\trw\tRow\tInt32[]\t10,20,30\n";

/// 1970-01-01.
const MOMENT: DateTime = DateTime {
    ticks: 116_444_736_000_000_000,
};

/// Asserts what an item of a Read is answered with, without a time of the server.
fn reads(
    rt: &(impl Abort + AllocGlobal),
    table: &NodeTable,
    item: (&str, u32, &str),
    expected: &str,
) -> Result<(), Fail> {
    let (node, attribute, range) = item;
    let range = UaString::from_str(rt.alloc(), range)?;
    let item = read_attribute_item(NodeId::parse_text(rt.alloc(), node)?, attribute, range);
    let answer = table.read_item(rt.alloc(), &item, Stamps::Source, MOMENT)?;
    writes(rt, &answer, expected)
}

#[test]
fn reads_attributes(rt: HostRuntime) -> Result<(), Fail> {
    let table = NodeTable::load(rt.alloc(), FILE)?;
    let cases = [
        ("i=2001", 1, "01 11 0100D107"),
        ("i=2001", 2, "01 06 02000000"),
        ("ns=1;s=Row", 3, "01 14 0100 03000000 526F77"),
        ("ns=1;s=Row", 4, "01 15 02 03000000 526F77"),
        ("i=2001", 5, "02 00003580"),
        ("i=2001", 13, "01 0A 0000D0C0"),
        ("i=2001", 14, "01 11 000A"),
        ("i=2001", 17, "01 03 01"),
        ("ns=1;s=Row", 18, "01 03 03"),
        ("i=9999", 13, "02 00003480"),
    ];
    for (node, attribute, expected) in cases {
        reads(&rt, &table, (node, attribute, ""), expected)?;
    }
    let item = read_attribute_item(
        NodeId::parse_text(rt.alloc(), "i=2001")?,
        13,
        UaString::null(),
    );
    let answer = table.read_item(rt.alloc(), &item, Stamps::Both, MOMENT)?;
    writes(&rt, &answer, "09 0A 0000D0C0 00803ED5DEB19D01")
}

#[test]
fn reads_the_part_that_a_range_selects(rt: HostRuntime) -> Result<(), Fail> {
    let table = NodeTable::load(rt.alloc(), FILE)?;
    let cases = [
        ("0", "01 86 01000000 0A000000"),
        ("1:9", "01 86 02000000 14000000 1E000000"),
        ("02", "01 86 01000000 1E000000"),
        ("3", "02 00003780"),
        ("3:4", "02 00003780"),
        ("1:1", "02 00003680"),
        ("2:1", "02 00003680"),
        ("-1", "02 00003680"),
        ("1:", "02 00003680"),
        ("0,0", "02 00003680"),
        ("4294967296", "02 00003680"),
    ];
    for (range, expected) in cases {
        reads(&rt, &table, ("ns=1;s=Row", 13, range), expected)?;
    }
    reads(&rt, &table, ("i=2001", 13, "0"), "02 00003680")
}

/// The items that set nodes to the DataValues of these bytes.
fn settings(alloc: Global, items: &[(&str, &str)]) -> Result<Vec<WriteValue>, Fail> {
    let mut settings = Vec::new(alloc);
    for (node, words) in items {
        let node = NodeId::parse_text(alloc, node)?;
        settings.push(WriteValue::new(node, value(alloc, words)?))?;
    }
    Ok(settings)
}

/// The answers to one Write of items.
fn write(
    alloc: Global,
    table: &mut NodeTable,
    items: &[(&str, &str)],
) -> Result<Vec<StatusCode>, Fail> {
    let items = settings(alloc, items)?;
    let mut statuses = Vec::with_capacity(alloc, items.len())?;
    table.write_items(items, MOMENT, &mut statuses);
    Ok(statuses)
}

#[test]
fn writes_values(rt: HostRuntime) -> Result<(), Fail> {
    let mut table = NodeTable::load(rt.alloc(), FILE)?;
    let cases = [
        ("i=2001", "01 0A 00000000", 0x803B_0000),
        ("ns=1;s=Row", "01 06 07000000", 0x8074_0000),
        ("ns=1;s=Row", "01 86 00000000", 0),
        ("ns=1;s=Row", "00", 0x8073_0000),
        ("i=9999", "00", 0x8034_0000),
    ];
    for (node, words, code) in cases {
        let statuses = write(rt.alloc(), &mut table, &[(node, words)])?;
        assert_eq!(rt;
            statuses.as_slice(),
            [StatusCode { code }].as_slice(),
            "{node} {words}"
        );
    }
    reads(&rt, &table, ("i=2001", 13, ""), "01 0A 0000D0C0")
}

#[test]
fn writes_items_in_order(rt: HostRuntime) -> Result<(), Fail> {
    let mut table = NodeTable::load(rt.alloc(), "ns=1;s=Pump\trw\tPump\tInt32\t5\n")?;
    let items = [
        ("ns=1;s=Pump", "01 0606000000"),
        ("ns=1;s=Pump", "01 0607000000"),
    ];
    let statuses = write(rt.alloc(), &mut table, &items)?;
    let good = StatusCode::GOOD;
    assert_eq!(rt; statuses.as_slice(), [good, good].as_slice());
    reads(
        &rt,
        &table,
        ("ns=1;s=Pump", 13, ""),
        "05 0607000000 00803ED5DEB19D01",
    )?;
    reads(&rt, &table, ("i=9999", 13, ""), "02 00003480")
}

#[test]
fn writes_within_a_limit_of_memory(rt: HostRuntime) -> Result<(), Fail> {
    let mut table = NodeTable::load(rt.alloc(), "ns=1;s=A\trw\tA\tString[]\t\n")?;
    for (most, code) in [(89, 0x8003_0000), (90, 0)] {
        let items = settings(rt.alloc(), &[("ns=1;s=A", "01 8C 01000000 02000000 4142")])?;
        let mut statuses = Vec::with_capacity(rt.alloc(), items.len())?;
        table.write_items_within(items, MOMENT, most, &mut statuses);
        assert_eq!(rt;
            statuses.as_slice(),
            [StatusCode { code }].as_slice(),
            "{most}"
        );
    }
    assert_eq!(rt; table.memory(), 90);
    Ok(())
}

#[test]
fn sets_a_value_for_the_application(rt: HostRuntime) -> Result<(), Fail> {
    let mut table = NodeTable::load(rt.alloc(), "ns=1;s=Pump\trw\tPump\tInt32\t5\n")?;
    let id = NodeId::parse_text(rt.alloc(), "ns=1;s=Pump")?;
    assert_eq!(rt; table.index_of(&id), Some(0));
    assert_eq!(rt; table.set(&id, reading(rt.alloc(), "0608000000")?), Ok(()));
    let other = reading(rt.alloc(), "050800")?;
    assert_eq!(rt; table.set_at(0, other), Err(SetFault::Mismatch));
    reads(
        &rt,
        &table,
        ("ns=1;s=Pump", 13, ""),
        "05 0608000000 00803ED5DEB19D01",
    )
}

fn reading(alloc: Global, words: &str) -> Result<Reading, Fail> {
    Ok(Reading {
        value: value(alloc, words)?,
        status: None,
        source_time: MOMENT,
        source_picoseconds: None,
    })
}

/// The node of the first line of the file.
fn level(alloc: Global) -> Result<Node, Fail> {
    let (readable, writable) = (true, false);
    Ok(Node {
        id: NodeId::parse_text(alloc, "i=2001")?,
        name: UaString::from_str(alloc, "Level")?,
        kind: 10,
        array: false,
        access: Access { readable, writable },
        value: value(alloc, "0A 0000D0C0")?,
        status: None,
        source_time: None,
        source_picoseconds: None,
    })
}

#[test]
fn adds_a_node_once(rt: HostRuntime) -> Result<(), Fail> {
    let mut table = NodeTable::new(rt.alloc());
    let node = level(rt.alloc())?;
    assert!(rt; node.is_sound());
    if table.insert(node) == Err(InsertFault::OutOfMemory) {
        assert!(rt; table.is_empty());
        assert_eq!(rt; table.insert(level(rt.alloc())?), Ok(()));
    }
    let again = level(rt.alloc())?;
    assert_eq!(rt; table.insert(again), Err(InsertFault::Duplicate));
    assert_eq!(rt; table.len(), 1);
    Ok(())
}

#[test]
fn loads_node_files(rt: HostRuntime) -> Result<(), Fail> {
    let table = NodeTable::load(rt.alloc(), FILE)?;
    let (id, row) = table.get_index(1).ok_or("no node")?;
    assert_eq!(rt; id.to_text(rt.alloc())?.as_str(), "ns=1;s=Row");
    assert!(rt; row.kind == 6 && row.array && row.access.level() == 3 && row.status.is_none());
    let again = format!(in rt.alloc(); "{FILE}i=2001\tr\tLevel\tFloat\t0xC0D00000\n")?;
    let cases = [
        ("i=2001\tr\tLevel\tFloat", 1, LineReason::Fields),
        (again.as_str(), 3, LineReason::Duplicate),
        ("i=1\tr\ta\tByte\t256", 1, LineReason::Value),
    ];
    for (text, line, reason) in cases {
        match NodeTable::load(rt.alloc(), text) {
            Ok(_) => return Err(Fail::new("a table")),
            Err(fault) => assert_eq!(rt; fault, LoadFault::Line { line, reason }, "{text}"),
        }
    }
    Ok(())
}

#[test]
fn parses_arrays_into_a_vector_of_their_type(rt: HostRuntime) -> Result<(), Fail> {
    let (kind, is_array) = parse_type("Int32[]").ok_or("no type")?;
    match &parse_value(rt.alloc(), kind, is_array, "10,20")? {
        Variant::Many {
            items: Some(items),
            ..
        } => {
            assert!(rt; matches!(items.elements(), Elements::Packed(_)));
        }
        _ => return Err(Fail::new("no array")),
    }
    Ok(())
}
