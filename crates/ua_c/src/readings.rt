//! Readings of nodes, without texts.

ghost use Rattle.std.specs.Prelude.{◌≡◌, None, Some, IfOk, IfErr, IfSome, MatchOption, MatchResult};
ghost use Rattle.std.specs.Option.{option_copied};
ghost use Rattle.ua_nodes.specs.Sound.{AreNodesSound};
ghost use Rattle.ua_nodes.specs.Table.{node_id_at, index_of_id};
ghost use Rattle.ua_c.specs.Handled.{OfHandle};
ghost use Rattle.ua_c.specs.Readings.{FindsIn, FindsNode, GetsAt, GetsNode, GetsNone, HasPart};
ghost use Rattle.ua_c.specs.Readings.{IsNoReading, IsReadingOf, SetsAt, SetsNode, given_if};
ghost use Rattle.ua_c.specs.Readings.{no_reading, node_at_index, value_octets_of, reading_held, status_of_set};
ghost use Rattle.ua_c.specs.Status.{ok};

use crate::handle::{UaHandle, UaNodes};
use crate::holding::{Holding, Machine};
use crate::requests::node_of;
use crate::shared::SharedNodes;
use crate::status::{
    BAD_OCTETS, BAD_READING, MISMATCH, NO_HANDLE, NO_MEMORY, OK, OTHER_HANDLE, UNKNOWN,
};
use crate::texts::{encoding_of, put};
use std::alloc::Global;
use ua_builtin::{DateTime, NodeId, StatusCode, Wire};
use ua_nodes::{Reading, SetFault, Variable};
use ua_variant::Variant;

/// A DataValue (OPC 10000-4, 7.11): where the encoding of its value stands in a byte buffer, its
/// status and its timestamps. A field is there where its flag is not 0.
#[repr(C)]
#[derive(Clone, Copy, Debug)]
pub struct UaReading {
    /// Where the encoding of the value begins, in bytes.
    pub value_at: usize,
    /// The length of the encoding, in bytes.
    pub value_len: usize,
    pub source_time: i64,
    pub server_time: i64,
    pub status: u32,
    /// In units of 10 picoseconds.
    pub source_picoseconds: u16,
    pub server_picoseconds: u16,
    pub has_value: u8,
    pub has_status: u8,
    pub has_source_time: u8,
    pub has_server_time: u8,
    pub has_source_picoseconds: u8,
    pub has_server_picoseconds: u8,
}

impl UaReading {
    /// Nothing is there.
    pub(crate) fn nothing() -> UaReading
        ensures { result ≡ no_reading }
    {
        UaReading {
            value_at: 0,
            value_len: 0,
            source_time: 0,
            server_time: 0,
            status: 0,
            source_picoseconds: 0,
            server_picoseconds: 0,
            has_value: 0,
            has_status: 0,
            has_source_time: 0,
            has_server_time: 0,
            has_source_picoseconds: 0,
            has_server_picoseconds: 0,
        }
    }

    /// What a node holds, with a value whose encoding has this many bytes and is at the start
    /// of them.
    fn held(node: &Variable, value_len: usize) -> UaReading
        ensures { result ≡ reading_held node.now value_len }
    {
        let mut reading = UaReading::nothing();
        reading.has_value = 1;
        reading.value_len = value_len;
        if let Some(status) = node.status {
            reading.has_status = 1;
            reading.status = status.code;
        }
        if let Some(time) = node.source_time {
            reading.has_source_time = 1;
            reading.source_time = time.ticks;
        }
        if let Some(picoseconds) = node.source_picoseconds {
            reading.has_source_picoseconds = 1;
            reading.source_picoseconds = picoseconds;
        }
        reading
    }

    /// The bytes of the value, where the reading has one that lies within these bytes.
    fn value_in<'a>(&self, octets: &'a [u8]) -> Option<&'a [u8]>
        ensures part { MatchOption result (¬ (HasPart octets.now self.now)) (λ part. HasPart octets.now self.now) }
        ensures octets { IfSome result (λ part. part.now ≡ value_octets_of octets.now self.now) }
    {
        if self.has_value == 0 || self.value_at > octets.len() {
            return None;
        }
        let behind = &octets[self.value_at..];
        if self.value_len > behind.len() {
            return None;
        }
        Some(&behind[..self.value_len])
    }

    fn status(&self) -> Option<StatusCode>
        ensures { result ≡ given_if self.now.has_status (record { code = self.now.status }) }
    {
        if self.has_status == 0 {
            None
        } else {
            Some(StatusCode { code: self.status })
        }
    }

    fn picoseconds(&self) -> Option<u16>
        ensures { result ≡ given_if self.now.has_source_picoseconds self.now.source_picoseconds }
    {
        if self.has_source_picoseconds == 0 {
            None
        } else {
            Some(self.source_picoseconds)
        }
    }
}

/// The reading that C hands over, with its value within these bytes, or a status.
fn reading_of(alloc: Global, octets: &[u8], given: &UaReading) -> Result<Reading, u32>
    ensures reading { IfOk result (λ reading. IsReadingOf octets.now given.now reading) }
    ensures fault { IfErr result (λ status. IsNoReading octets.now given.now status) }
{
    if given.has_source_time == 0 {
        return Err(BAD_READING);
    }
    let Some(part) = given.value_in(octets) else {
        return Err(BAD_READING);
    };
    match Variant::read_whole(alloc, part) {
        Ok(Some(value)) => Ok(Reading {
            value,
            status: given.status(),
            source_time: DateTime {
                ticks: given.source_time,
            },
            source_picoseconds: given.picoseconds(),
        }),
        Ok(None) => Err(BAD_OCTETS),
        Err(_) => Err(NO_MEMORY),
    }
}

/// The status for a reading that was set, or not.
fn status_of_set(set: Result<(), SetFault>) -> u32
    ensures { MatchResult set (λ _. result ≡ ok) (λ fault. result ≡ status_of_set (Some fault)) }
{
    match set {
        Ok(()) => OK,
        Err(SetFault::Unknown) => UNKNOWN,
        Err(SetFault::Mismatch) => MISMATCH,
        Err(SetFault::NotWritable) => BAD_OCTETS,
    }
}

impl SharedNodes {
    /// The place of the node of this NodeId.
    pub(crate) fn index_of(&self, id: &NodeId) -> Option<usize>
        ensures { result ≡ index_of_id self.now.services.nodes id.now }
    {
        self.services.nodes().index_of(id)
    }

    /// The place of the node that bytes name, or a status.
    fn find(&self, alloc: Global, node: &[u8], index: &mut usize) -> u32
        ensures { FindsIn self.now node.now index.new result }
    {
        *index = 0;
        let id = match node_of(alloc, node) {
            Ok(id) => id,
            Err(status) => return status,
        };
        match self.index_of(&id) {
            Some(found) => {
                *index = found;
                OK
            }
            None => UNKNOWN,
        }
    }

    /// Sets what the node at a place holds.
    fn set(&mut self, alloc: Global, index: usize, octets: &[u8], given: &UaReading) -> u32
        ensures { SetsAt (node_id_at self.old.services.nodes index) self.old self.new octets.now given.now result }
    {
        if self.services.nodes().get_index(index).is_none() {
            return UNKNOWN;
        }
        match reading_of(alloc, octets, given) {
            Ok(reading) => status_of_set(self.services.set_at(index, reading)),
            Err(status) => status,
        }
    }

    /// The node at a place.
    fn node(&self, index: usize) -> Option<&Variable>
        ensures node { option_copied result ≡ node_at_index self.now index }
        ensures sound { AreNodesSound self.now.services.nodes }
    {
        let (_, node) = self.services.nodes().get_index(index)?;
        Some(node)
    }

    /// Puts the encoding of the value of the node at a place into a buffer, and gives what the node
    /// holds.
    fn get(
        &self,
        alloc: Global,
        index: usize,
        buffer: &mut [u8],
        needed: &mut usize,
        reading: &mut UaReading,
    ) -> u32
        ensures { GetsAt (node_at_index self.now index) buffer.old buffer.new needed.new reading.new result }
    {
        *needed = 0;
        *reading = UaReading::nothing();
        let Some(node) = self.node(index) else {
            return UNKNOWN;
        };
        match encoding_of(alloc, node.value.get()) {
            Ok(octets) => {
                *reading = UaReading::held(node, octets.len());
                put(octets.as_slice(), buffer, needed)
            }
            Err(status) => status,
        }
    }
}

impl Holding {
    fn find(&self, alloc: Global, node: &[u8], index: &mut usize) -> u32
        ensures { FindsNode self.now node.now index.new result }
    {
        let Machine::Nodes(shared) = &self.machine else {
            *index = 0;
            return OTHER_HANDLE;
        };
        shared.find(alloc, node, index)
    }

    fn set(&mut self, alloc: Global, index: usize, octets: &[u8], given: &UaReading) -> u32
        ensures { SetsNode self.old self.new index octets.now given.now result }
    {
        let Machine::Nodes(shared) = &mut self.machine else {
            return OTHER_HANDLE;
        };
        shared.set(alloc, index, octets, given)
    }

    fn get(
        &self,
        alloc: Global,
        index: usize,
        buffer: &mut [u8],
        needed: &mut usize,
        reading: &mut UaReading,
    ) -> u32
        ensures { GetsNode self.now index buffer.old buffer.new needed.new reading.new result }
    {
        let Machine::Nodes(shared) = &self.machine else {
            *needed = 0;
            *reading = UaReading::nothing();
            return OTHER_HANDLE;
        };
        shared.get(alloc, index, buffer, needed, reading)
    }
}

/// The index of the node of a NodeId, which stays the same: its place in the node file.
#[unsafe(no_mangle)]
pub extern "C" fn ua_node_find(
    alloc: Global,
    nodes: &mut UaNodes,
    node: &[u8],
    index: &mut usize,
) -> u32
    ensures { OfHandle nodes.old.value nodes.new.value (λ why. (result ≡ why) × (index.new ≡ 0))
        (λ old new. FindsNode old node.now index.new result × (new ≡ old)) }
{
    *index = 0;
    let Some(held) = nodes.take(alloc) else {
        return NO_HANDLE;
    };
    let status = held.find(alloc, node, index);
    *nodes = UaHandle::of(held);
    status
}

/// Sets what a node holds, whatever clients may do with its value.
#[unsafe(no_mangle)]
pub extern "C" fn ua_node_set(
    alloc: Global,
    nodes: &mut UaNodes,
    index: usize,
    octets: &[u8],
    reading: &UaReading,
) -> u32
    ensures { OfHandle nodes.old.value nodes.new.value (λ why. result ≡ why)
        (λ old new. SetsNode old new index octets.now reading.now result) }
{
    let Some(mut held) = nodes.take(alloc) else {
        return NO_HANDLE;
    };
    let status = held.set(alloc, index, octets, reading);
    *nodes = UaHandle::of(held);
    status
}

/// What a node holds: the encoding of its value in a buffer, its status and timestamps.
#[unsafe(no_mangle)]
pub extern "C" fn ua_node_get(
    alloc: Global,
    nodes: &mut UaNodes,
    index: usize,
    buffer: &mut [u8],
    needed: &mut usize,
    reading: &mut UaReading,
) -> u32
    ensures { OfHandle nodes.old.value nodes.new.value
        (λ why. (result ≡ why) × GetsNone buffer.old buffer.new needed.new reading.new)
        (λ old new. GetsNode old index buffer.old buffer.new needed.new reading.new result × (new ≡ old)) }
{
    *needed = 0;
    *reading = UaReading::nothing();
    let Some(held) = nodes.take(alloc) else {
        return NO_HANDLE;
    };
    let status = held.get(alloc, index, buffer, needed, reading);
    *nodes = UaHandle::of(held);
    status
}
