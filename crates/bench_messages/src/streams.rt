//! Work on what one side of a connection sends, in fragments of 4,096 bytes, as one read of a
//! transport gives them.

use crate::fault::Fault;
use crate::given::{Given, MOMENT, limits, text};
use std::alloc::Global;
use ua_builtin::Wire;
use ua_channel::{ServerChannel, ServerEvent};
use ua_frame::{FrameReader, Gate, Kind};
use ua_nodes::NodeTable;
use ua_pair::{DissectOptions, Dissector, Side};
use ua_server::{Connection, Endpoint, Server, Services};

/// The most bytes of a fragment.
const PIECE: usize = 4096;

/// The largest frame that is taken.
const FRAME_SIZE: u32 = 65535;

/// The id of the channel.
const CHANNEL: u32 = 1;

/// What takes bytes, and counts what came of them.
trait Takes {
    /// Takes bytes from the prefix of a fragment; how many.
    fn take_front(&mut self, piece: &[u8]) -> Result<usize, Fault>;

    /// How many frames, messages or answers there were so far.
    fn count(&self) -> u64;
}

/// Takes a fragment whole, or up to where this many were counted.
fn take_piece<M: Takes>(machine: &mut M, piece: &[u8], most: u64) -> Result<(), Fault> {
    let mut rest = piece;
    for _ in 0..piece.len() {
        if rest.is_empty() || machine.count() >= most {
            return Ok(());
        }
        let taken = machine.take_front(rest)?;
        rest = rest.get(taken..).unwrap_or(&[]);
    }
    Ok(())
}

/// Takes bytes in fragments, up to where this many were counted.
fn take_pieces<M: Takes>(machine: &mut M, octets: &[u8], most: u64) -> Result<(), Fault> {
    for piece in octets.chunks(PIECE) {
        take_piece(machine, piece, most)?;
        if machine.count() >= most {
            return Ok(());
        }
    }
    Ok(())
}

/// A reader of frames.
#[derive(Drop)]
struct Frames {
    reader: FrameReader,
    count: u64,
}

impl Takes for Frames {
    fn take_front(&mut self, piece: &[u8]) -> Result<usize, Fault> {
        match self.reader.take(piece) {
            Ok((taken, None)) => Ok(taken),
            Ok((taken, Some(frame))) => {
                drop(frame);
                self.count = self.count.wrapping_add(1);
                Ok(taken)
            }
            Err(_) => Err(Fault::Value),
        }
    }

    fn count(&self) -> u64 {
        self.count
    }
}

/// Reads all frames of the bytes this many times; how many frames.
pub fn read_frames(alloc: Global, octets: &[u8], times: u32) -> Result<u64, Fault> {
    let gate = Gate::new(FRAME_SIZE)
        .taking(Kind::Hel)
        .taking(Kind::Opn)
        .taking(Kind::Msg)
        .taking(Kind::Clo);
    let mut sum = 0u64;
    for _ in 0..times {
        let mut frames = Frames {
            reader: FrameReader::new(alloc, gate),
            count: 0,
        };
        take_pieces(&mut frames, octets, u64::MAX)?;
        sum = sum.wrapping_add(frames.count);
    }
    Ok(sum)
}

/// A server's channel.
#[derive(Drop)]
struct Channel {
    channel: ServerChannel,
    count: u64,
}

impl Takes for Channel {
    fn take_front(&mut self, piece: &[u8]) -> Result<usize, Fault> {
        match self.channel.take(piece, MOMENT) {
            Ok((taken, ServerEvent::Asked(_, message))) => {
                drop(message);
                self.count = self.count.wrapping_add(1);
                Ok(taken)
            }
            Ok((taken, event)) => {
                drop(event);
                Ok(taken)
            }
            Err(fault) => {
                drop(fault);
                Err(Fault::Value)
            }
        }
    }

    fn count(&self) -> u64 {
        self.count
    }
}

/// Takes this many messages of a client, which stand after its HEL and OPN; how many were taken.
pub fn take_messages(alloc: Global, octets: &[u8], times: u32) -> Result<u64, Fault> {
    let mut channel = Channel {
        channel: ServerChannel::new(alloc, limits()?, CHANNEL),
        count: 0,
    };
    take_pieces(&mut channel, octets, times as u64)?;
    Ok(channel.count)
}

/// A server and its services.
#[derive(Drop)]
struct Serving {
    server: Server,
    services: Services,
    count: u64,
}

impl Takes for Serving {
    fn take_front(&mut self, piece: &[u8]) -> Result<usize, Fault> {
        match self.server.step(&mut self.services, piece, MOMENT) {
            Ok(step) => {
                if !step.out.is_empty() {
                    self.count = self.count.wrapping_add(1);
                }
                Ok(step.taken)
            }
            Err(_) => Err(Fault::Value),
        }
    }

    fn count(&self) -> u64 {
        self.count
    }
}

/// One of several connections, and the services that they share.
#[derive(Drop)]
struct Sharing {
    connection: Connection,
    services: Services,
    count: u64,
}

impl Takes for Sharing {
    fn take_front(&mut self, piece: &[u8]) -> Result<usize, Fault> {
        match self.connection.step(&mut self.services, piece, MOMENT) {
            Ok(step) => {
                if !step.out.is_empty() {
                    self.count = self.count.wrapping_add(1);
                }
                Ok(step.taken)
            }
            Err(_) => Err(Fault::Value),
        }
    }

    fn count(&self) -> u64 {
        self.count
    }
}

/// The services over the nodes of a node file.
fn services(alloc: Global, nodes: &str) -> Result<Services, Fault> {
    let Ok(nodes) = NodeTable::load(alloc, nodes) else {
        return Err(Fault::Value);
    };
    let url = text(alloc, "opc.tcp://localhost:4840")?;
    let application_uri = text(alloc, "urn:ua:server")?;
    let name = text(alloc, "ua")?;
    if !url.is_encodable() || !application_uri.is_encodable() || !name.is_encodable() {
        return Err(Fault::Value);
    }
    let endpoint = Endpoint {
        url,
        application_uri,
        name,
        message_limit: 1_048_576,
    };
    Ok(Services::new(nodes, endpoint))
}

/// Answers so much of what a client sent, over the nodes of a node file; how many answers there
/// were.
pub fn answer_messages(alloc: Global, given: &Given, times: u32) -> Result<u64, Fault> {
    let mut serving = Serving {
        server: Server::new(alloc, limits()?, CHANNEL),
        services: services(alloc, given.text()?)?,
        count: 0,
    };
    take_pieces(&mut serving, given.octets(), times as u64)?;
    Ok(serving.count)
}

/// The same by one of several connections; how many answers there were.
pub fn answer_among(alloc: Global, given: &Given, times: u32) -> Result<u64, Fault> {
    let mut sharing = Sharing {
        connection: Connection::new(alloc, limits()?, CHANNEL),
        services: services(alloc, given.text()?)?,
        count: 0,
    };
    take_pieces(&mut sharing, given.octets(), times as u64)?;
    Ok(sharing.count)
}

/// Dissects what a side sent this many times, with the fields of messages or without; how many bytes
/// the lines have.
pub fn dissect_octets(
    alloc: Global,
    side: Side,
    fields: bool,
    octets: &[u8],
    times: u32,
) -> Result<u64, Fault> {
    let mut options = DissectOptions::plain(side);
    options.fields = fields;
    let mut lines = String::new(alloc);
    let mut sum = 0u64;
    for _ in 0..times {
        lines.clear();
        let mut dissector = Dissector::new(alloc, options);
        dissector.take(octets, &mut lines)?;
        dissector.finish(&mut lines)?;
        sum = sum.wrapping_add(lines.len() as u64);
    }
    Ok(sum)
}
