//! A client's end of a connection over a transport.

ghost use Rattle.std.specs.Prelude.{◌≡◌};
ghost use Rattle.ua_client.specs.Hearing.{Listens, Fills, Hears, failures_behind, failure_of, of_take_fault};

use crate::fault::ClientFault;
use crate::piece::Piece;
use std::alloc::Global;
use ua_builtin::{DateTime, StatusCode};
use ua_channel::{ClientChannel, ClientEvent, ClientTakeFault, Line};

/// A channel, and the bytes that were read from its transport and are not yet taken.
#[derive(Debug, Drop)]
pub struct Connection {
    /// The allocator of what the calls return.
    pub alloc: Global,
    pub channel: ClientChannel,
    pub piece: Piece,
}

impl Connection {
    /// Takes the bytes that were read up to the first event, or all of them where there is none.
    fn listen(&mut self, moment: DateTime) -> Result<Option<ClientEvent>, ClientFault>
        ensures listens { Listens self.old self.new moment result }
    {
        let found = self.channel.take(self.piece.untaken(), moment);
        let (count, event) = match found {
            Ok(found) => found,
            Err(fault) => return Err(of_take(fault)),
        };
        match event {
            ClientEvent::NeedMore => {
                self.piece.clear();
                Ok(None)
            }
            ClientEvent::Failed { code, peer } => {
                self.piece.skip(count);
                Err(failure(code, peer))
            }
            event => {
                self.piece.skip(count);
                Ok(Some(event))
            }
        }
    }

    /// Reads the next bytes where all are taken.
    fn fill<L: Line>(&mut self, line: &mut L, reads: &mut u64) -> Result<(), ClientFault>
        ensures fills { Fills self.old self.new (L.traffic line.old) (L.traffic line.new) reads.old reads.new result }
        ensures failed { L.failures line.new ≡ failures_behind (L.failures line.old) result }
    {
        if !self.piece.is_empty() {
            return Ok(());
        }
        if *reads == 0 {
            return Err(ClientFault::TooLong);
        }
        *reads -= 1;
        match self.piece.read(line) {
            Ok(()) if self.piece.is_empty() => Err(ClientFault::Ended),
            Ok(()) => Ok(()),
            Err(_) => Err(ClientFault::Read),
        }
    }

    /// Goes on to the next event: takes the bytes that were read, and reads further ones where
    /// these have none.
    pub(crate) fn hear<L: Line>(
        &mut self,
        line: &mut L,
        reads: &mut u64,
        moment: DateTime,
    ) -> Result<ClientEvent, ClientFault>
        ensures hears { Hears self.old self.new moment (L.traffic line.old) (L.traffic line.new) reads.old reads.new
            result }
        ensures failed { L.failures line.new ≡ failures_behind (L.failures line.old) result }
    {
        loop {
            self.fill(line, reads)?;
            if let Some(event) = self.listen(moment)? {
                return Ok(event);
            }
        }
    }
}

/// The fault of a channel, as a fault of the client.
fn of_take(fault: ClientTakeFault) -> ClientFault
    ensures { result ≡ of_take_fault fault }
{
    match fault {
        ClientTakeFault::Closed => ClientFault::Closed,
        ClientTakeFault::OutOfMemory => ClientFault::OutOfMemory,
    }
}

/// Why a channel failed.
fn failure(code: StatusCode, peer: bool) -> ClientFault
    ensures { result ≡ failure_of code peer }
{
    if peer {
        ClientFault::Peer(code)
    } else {
        ClientFault::Refused(code)
    }
}
