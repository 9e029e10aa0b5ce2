//! What the work is done on.

use crate::fault::Fault;
use std::alloc::Global;
use std::str;
use ua_builtin::{DateTime, Octets, UaString};
use ua_frame::Limits;
use ua_services::{Request, read_request};

/// The time of each call and answer.
pub const MOMENT: DateTime = DateTime {
    ticks: 132_000_000_000_000_000,
};

/// What the files hold.
#[derive(Drop)]
pub struct Given {
    octets: Vec<u8>,
    beside: Vec<u8>,
}

impl Given {
    /// The bytes of two files.
    pub fn new(octets: Vec<u8>, beside: Vec<u8>) -> Given {
        Given { octets, beside }
    }

    /// The bytes of the first file.
    pub fn octets(&self) -> &[u8] {
        self.octets.as_slice()
    }

    /// The bytes of the second file.
    pub fn beside(&self) -> &[u8] {
        self.beside.as_slice()
    }

    /// The text of the second file.
    pub fn text(&self) -> Result<&str, Fault> {
        match str::from_utf8(self.beside.as_slice()) {
            Ok(text) => Ok(text),
            Err(_) => Err(Fault::Value),
        }
    }
}

/// The limits of an end.
pub fn limits() -> Result<Limits, Fault> {
    Limits::new(65535, 65535, 1_048_576, 256).ok_or(Fault::Value)
}

/// The request of a body.
pub fn request_of(alloc: Global, body: &[u8]) -> Result<Request, Fault> {
    match read_request(alloc, &mut Octets::new(body)) {
        Ok(request) => Ok(request),
        Err(_) => Err(Fault::Value),
    }
}

/// A text.
pub fn text(alloc: Global, text: &str) -> Result<UaString, Fault> {
    Ok(UaString::from_str(alloc, text)?)
}
