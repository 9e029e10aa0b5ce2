//! Connections of which it is kept why they failed.

ghost use Rattle.ua_report.specs.Reasons.{StopsAsking};
ghost use Rattle.ua_session.specs.declared.fault.QuestionFault.TheVariants.{Connection};

use crate::fault::Fault;
use crate::output::Stop;
use crate::reason::{Reason, blame};
use crate::refusal_reader::RefusalReader;
use std::alloc::Global;
use std::io;
use std::io::{Read, Write};
use ua_client::ClientFault;
use ua_session::QuestionFault;

/// A connection to a server: where reasons are wanted it keeps what the server says when it
/// refuses, and always the error of the last call, if that failed.
#[derive(Debug, Drop)]
pub struct Heard<S> {
    stream: S,
    refusals: RefusalReader,
    failed: Option<io::Error>,
}

impl<S> Heard<S> {
    /// A connection over which nothing has come.
    pub fn new(alloc: Global, stream: S, wanted: bool) -> Heard<S> {
        Heard {
            stream,
            refusals: RefusalReader::new(alloc, wanted),
            failed: None,
        }
    }

    /// Why a command stops at a fault of this connection, and what more is known of that.
    pub fn blame<'a>(&self, alloc: Global, fault: QuestionFault) -> Stop<'a>
        ensures { StopsAsking fault result }
    {
        match fault {
            QuestionFault::Output(error) => Stop::Output(error),
            QuestionFault::Connection(failure) => self.blame_connection(alloc, failure),
            fault => Stop::Fault(Fault::Asking(fault)),
        }
    }

    /// The same of a connection that came to nothing.
    fn blame_connection<'a>(&self, alloc: Global, failure: ClientFault) -> Stop<'a>
        ensures { StopsAsking (Connection failure) result }
    {
        let fault = Fault::Asking(QuestionFault::Connection(failure));
        match (failure, self.refusals.reason(), self.failed) {
            (ClientFault::Peer(_), Some(text), _) => blame(alloc, fault, text),
            (ClientFault::Read | ClientFault::Write, _, Some(error)) => {
                Stop::Because(fault, Reason::System(error))
            }
            _ => Stop::Fault(fault),
        }
    }
}

impl<S: Read> Read for Heard<S> {
    ghost remaining = { λ heard. S.remaining heard.stream };

    fn read(&mut self, buffer: &mut [u8]) -> io::Result<usize> {
        let read = self.stream.read(buffer);
        self.failed = read.err();
        if let Ok(n) = read {
            self.refusals.take(&buffer[..n]);
        }
        read
    }
}

impl<S: Write> Write for Heard<S> {
    ghost contents = { λ heard. S.contents heard.stream };

    fn write(&mut self, octets: &[u8]) -> io::Result<usize> {
        let written = self.stream.write(octets);
        self.failed = written.err();
        written
    }

    fn flush(&mut self) -> io::Result<()> {
        let flushed = self.stream.flush();
        self.failed = flushed.err();
        flushed
    }
}
