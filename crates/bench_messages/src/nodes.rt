//! Work on a node file: the table of it, and items that are read from it.

use crate::fault::Fault;
use crate::given::{Given, MOMENT, request_of};
use std::alloc::Global;
use std::str;
use ua_nodes::{NodeTable, Reading, Stamps};
use ua_services::{ReadValueId, Request};
use ua_variant::{Scalar, Variant};

/// Loads a node file this many times, and lets the table go; how many bytes it went over.
pub fn load_nodes(alloc: Global, octets: &[u8], times: u32) -> Result<u64, Fault> {
    let Ok(text) = str::from_utf8(octets) else {
        return Err(Fault::Value);
    };
    let mut sum = 0u64;
    for _ in 0..times {
        match NodeTable::load(alloc, text) {
            Ok(table) => drop(table),
            Err(_) => return Err(Fault::Value),
        }
        sum = sum.wrapping_add(octets.len() as u64);
    }
    Ok(sum)
}

/// Reads each item of a list once; how many were read.
fn read_each(alloc: Global, table: &NodeTable, items: &[ReadValueId]) -> Result<u64, Fault> {
    let mut sum = 0u64;
    for item in items {
        let answer = table.read_item(alloc, item, Stamps::Server, MOMENT)?;
        drop(answer);
        sum = sum.wrapping_add(1);
    }
    Ok(sum)
}

/// Reads the items of a Read this many times from the nodes of a node file; how many were read.
pub fn read_items(alloc: Global, given: &Given, times: u32) -> Result<u64, Fault> {
    let Ok(table) = NodeTable::load(alloc, given.text()?) else {
        return Err(Fault::Value);
    };
    let request = request_of(alloc, given.octets())?;
    let Request::Read(read) = &request else {
        return Err(Fault::Value);
    };
    let items = read.nodes_to_read.as_items().unwrap_or(&[]);
    let mut sum = 0u64;
    for _ in 0..times {
        sum = sum.wrapping_add(read_each(alloc, &table, items)?);
    }
    Ok(sum)
}

/// Sets an Int32 of each node that items name; how many were set.
fn set_each(table: &mut NodeTable, items: &[ReadValueId], value: i32) -> Result<u64, Fault> {
    let mut sum = 0u64;
    for item in items {
        let reading = Reading {
            value: Variant::One(Scalar::Int32(value)),
            status: None,
            source_time: MOMENT,
            source_picoseconds: None,
        };
        match table.set(&item.node_id, reading) {
            Ok(()) => sum = sum.wrapping_add(1),
            Err(_) => return Err(Fault::Value),
        }
    }
    Ok(sum)
}

/// Sets the nodes that the items of a Read name this many times, in the table of a node file; how
/// many were set.
pub fn set_items(alloc: Global, given: &Given, times: u32) -> Result<u64, Fault> {
    let Ok(mut table) = NodeTable::load(alloc, given.text()?) else {
        return Err(Fault::Value);
    };
    let request = request_of(alloc, given.octets())?;
    let Request::Read(read) = &request else {
        return Err(Fault::Value);
    };
    let items = read.nodes_to_read.as_items().unwrap_or(&[]);
    let mut sum = 0u64;
    for _ in 0..times {
        sum = sum.wrapping_add(set_each(&mut table, items, 7)?);
    }
    Ok(sum)
}
