//! The fragments of work.

use crate::bodies::{cut_bodies, read_requests, read_responses, write_requests, write_responses};
use crate::calls::{call, call_groups};
use crate::fault::Fault;
use crate::given::Given;
use crate::nodes::{load_nodes, read_items, set_items};
use crate::streams::{answer_among, answer_messages, dissect_octets, read_frames, take_messages};
use std::alloc::Global;
use ua_builtin::{MOST_LEVELS, Octets, Source, Wire};
use ua_pair::Side;
use ua_services::{ReadRequest, ReadResponse};
use ua_texts::push_plain_variant;
use ua_variant::Variant;

/// A fragment of work on the bytes of one value.
#[derive(Clone, Copy, PartialEq, Eq, Debug)]
pub enum Work {
    /// Reads a Variant, and lets it go.
    Read,
    /// Writes a Variant.
    Write,
    /// Clones a Variant, and lets the clone go.
    Clone,
    /// The levels and the count of a Variant, and whether it can be encoded.
    Measure,
    /// The text of a Variant in the human-readable form.
    Plain,
    ReadResponse,
    WriteResponse,
    ReadRequest,
    WriteRequest,
    /// Reads the body of a response from the parts of a message, as the program does.
    ReadResponseBody,
    WriteResponseBody,
    ReadRequestBody,
    WriteRequestBody,
    /// Loads a node file.
    Load,
    /// Reads the items of a Read from the nodes of a node file.
    ReadItem,
    /// Sets the nodes that the items of a Read name.
    Set,
    /// Splits a body into chunks.
    Cut,
    /// Reads frames.
    Frames,
    /// Takes messages at a server's channel.
    Channel,
    /// Answers messages.
    Step,
    /// Answers messages as one of several connections.
    Connection,
    /// Calls a request, one at a time.
    Call,
    /// Calls requests in groups of 64.
    CallAll,
    /// Dissects what a client sends.
    Dissect,
    /// Dissects what a server sends.
    DissectServer,
    /// Dissects what a client sends, with the fields of its messages.
    Fields,
    /// Dissects what a server sends, with the fields of its messages.
    FieldsServer,
}

impl Work {
    /// The work of this name.
    pub fn named(word: &str) -> Option<Work> {
        match word {
            "read" => Some(Work::Read),
            "write" => Some(Work::Write),
            "clone" => Some(Work::Clone),
            "measure" => Some(Work::Measure),
            "plain" => Some(Work::Plain),
            "read-response" => Some(Work::ReadResponse),
            "write-response" => Some(Work::WriteResponse),
            "read-request" => Some(Work::ReadRequest),
            "write-request" => Some(Work::WriteRequest),
            "read-response-body" => Some(Work::ReadResponseBody),
            "write-response-body" => Some(Work::WriteResponseBody),
            "read-request-body" => Some(Work::ReadRequestBody),
            "write-request-body" => Some(Work::WriteRequestBody),
            "load" => Some(Work::Load),
            "read-item" => Some(Work::ReadItem),
            "set" => Some(Work::Set),
            "cut" => Some(Work::Cut),
            "frames" => Some(Work::Frames),
            "channel" => Some(Work::Channel),
            "step" => Some(Work::Step),
            "connection" => Some(Work::Connection),
            "call" => Some(Work::Call),
            "call-all" => Some(Work::CallAll),
            "dissect" => Some(Work::Dissect),
            "dissect-server" => Some(Work::DissectServer),
            "fields" => Some(Work::Fields),
            "fields-server" => Some(Work::FieldsServer),
            _ => None,
        }
    }

    /// Does the work this many times; how many bytes, values, messages or answers it went over.
    pub fn repeat(self, alloc: Global, given: &Given, times: u32) -> Result<u64, Fault> {
        let octets = given.octets();
        match self {
            Work::Read => read_values::<Variant>(alloc, octets, times),
            Work::Write => write_values::<Variant>(alloc, octets, times),
            Work::Clone => clone_values(alloc, octets, times),
            Work::Measure => measure_values(alloc, octets, times),
            Work::Plain => show_values(alloc, octets, times),
            Work::ReadResponse => read_values::<ReadResponse>(alloc, octets, times),
            Work::WriteResponse => write_values::<ReadResponse>(alloc, octets, times),
            Work::ReadRequest => read_values::<ReadRequest>(alloc, octets, times),
            Work::WriteRequest => write_values::<ReadRequest>(alloc, octets, times),
            Work::ReadResponseBody => read_responses(alloc, octets, times),
            Work::WriteResponseBody => write_responses(alloc, octets, times),
            Work::ReadRequestBody => read_requests(alloc, octets, times),
            Work::WriteRequestBody => write_requests(alloc, octets, times),
            Work::Load => load_nodes(alloc, octets, times),
            Work::ReadItem => read_items(alloc, given, times),
            Work::Set => set_items(alloc, given, times),
            Work::Cut => cut_bodies(alloc, octets, times),
            Work::Frames => read_frames(alloc, octets, times),
            Work::Channel => take_messages(alloc, octets, times),
            Work::Step => answer_messages(alloc, given, times),
            Work::Connection => answer_among(alloc, given, times),
            Work::Call => call(alloc, given, times),
            Work::CallAll => call_groups(alloc, given, times),
            Work::Dissect => dissect_octets(alloc, Side::Client, false, octets, times),
            Work::DissectServer => dissect_octets(alloc, Side::Server, false, octets, times),
            Work::Fields => dissect_octets(alloc, Side::Client, true, octets, times),
            Work::FieldsServer => dissect_octets(alloc, Side::Server, true, octets, times),
        }
    }
}

/// The value that the bytes begin with.
fn value_in<T: Wire>(alloc: Global, octets: &[u8]) -> Result<T, Fault> {
    let value = T::read(alloc, &mut Octets::new(octets), MOST_LEVELS)?;
    Ok(value)
}

/// Reads a value this many times.
fn read_values<T: Wire + Drop>(alloc: Global, octets: &[u8], times: u32) -> Result<u64, Fault> {
    let mut sum = 0u64;
    for _ in 0..times {
        let mut src = Octets::new(octets);
        let value = T::read(alloc, &mut src, MOST_LEVELS)?;
        drop(value);
        sum = sum.wrapping_add((octets.len() - src.left()) as u64);
    }
    Ok(sum)
}

/// Writes a value this many times.
fn write_values<T: Wire + Drop>(alloc: Global, octets: &[u8], times: u32) -> Result<u64, Fault> {
    let value = value_in::<T>(alloc, octets)?;
    let mut out = Vec::with_capacity(alloc, octets.len())?;
    let mut sum = 0u64;
    for _ in 0..times {
        out.clear();
        value.write(&mut out)?;
        sum = sum.wrapping_add(out.len() as u64);
    }
    Ok(sum)
}

/// Clones a Variant this many times.
fn clone_values(alloc: Global, octets: &[u8], times: u32) -> Result<u64, Fault> {
    let value = value_in::<Variant>(alloc, octets)?;
    let mut sum = 0u64;
    for _ in 0..times {
        let copy = value.try_clone(alloc)?;
        drop(copy);
        sum = sum.wrapping_add(octets.len() as u64);
    }
    Ok(sum)
}

/// Measures a Variant this many times.
fn measure_values(alloc: Global, octets: &[u8], times: u32) -> Result<u64, Fault> {
    let value = value_in::<Variant>(alloc, octets)?;
    let mut sum = 0u64;
    for _ in 0..times {
        if value.writable() {
            sum = sum.wrapping_add(value.count());
        }
        sum = sum.wrapping_add(value.depth() as u64);
    }
    Ok(sum)
}

/// Makes the text of a Variant in the human-readable form this many times; how many bytes.
fn show_values(alloc: Global, octets: &[u8], times: u32) -> Result<u64, Fault> {
    let value = value_in::<Variant>(alloc, octets)?;
    let mut text = String::new(alloc);
    let mut sum = 0u64;
    for _ in 0..times {
        text.clear();
        push_plain_variant(alloc, &mut text, &value, false)?;
        sum = sum.wrapping_add(text.len() as u64);
    }
    Ok(sum)
}
