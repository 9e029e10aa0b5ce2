//! The beginning and the end of a connection over a transport.

ghost use Rattle.std.specs.Prelude.{◌≡◌, [], IsTrue, IfOk, OnErr, Err};
ghost use Rattle.ua_wire.specs.Counted.{text};
ghost use Rattle.ua_channel.specs.Client.{ClientStands, client_limits, url_of, client_next};
ghost use Rattle.ua_client.specs.Client.{Closes};
ghost use Rattle.ua_client.specs.Hearing.{channel_of_connection, untaken_of, failures_behind};
ghost use Rattle.ua_client.specs.Opening.{Waits, Opens, is_agreed, is_opened, open_frame_octets, any_done};
ghost use Rattle.ua_client.specs.declared.fault.ClientFault.TheVariants.{OutOfMemory};

use crate::connection::Connection;
use crate::fault::ClientFault;
use crate::piece::Piece;
use crate::sending::send_whole;
use std::alloc::Global;
use ua_builtin::{DateTime, UaString};
use ua_channel::{ClientChannel, ClientEvent, Line};
use ua_channel_laws::client_laws::client_goes_on;
use ua_frame::Limits;

impl Connection {
    /// A connection that has sent and received nothing.
    pub fn new(alloc: Global, limits: Limits, url: UaString) -> Result<Connection, ClientFault>
        requires { IsTrue (text.encodable url) }
        ensures stands { IfOk result (λ x. ClientStands (channel_of_connection x) [] [] [] []) }
        ensures untaken { IfOk result (λ x. untaken_of x ≡ []) }
        ensures limits { IfOk result (λ x. client_limits (channel_of_connection x) ≡ limits) }
        ensures url { IfOk result (λ x. url_of (channel_of_connection x) ≡ url) }
        ensures next { IfOk result (λ x. client_next (channel_of_connection x) ≡ 2) }
        ensures memory { OnErr result (result ≡ Err OutOfMemory) }
    {
        match Piece::new(alloc) {
            Ok(piece) => Ok(Connection {
                alloc,
                channel: ClientChannel::new(alloc, limits, url),
                piece,
            }),
            Err(_) => Err(ClientFault::OutOfMemory),
        }
    }

    /// Waits for the OPN that is to be sent.
    fn wait_for_opening<L: Line>(
        &mut self,
        line: &mut L,
        reads: &mut u64,
        moment: DateTime,
    ) -> Result<Vec<u8>, ClientFault>
        ensures waits { Waits is_agreed (λ octets. octets.items ≡ open_frame_octets moment) self.old self.new
            (L.traffic line.old) (L.traffic line.new) reads.old reads.new result }
        ensures failed { L.failures line.new ≡ failures_behind (L.failures line.old) result }
    {
        client_goes_on();
        loop {
            if let ClientEvent::Send(octets) = self.hear(line, reads, moment)? {
                return Ok(octets);
            }
        }
    }

    /// Waits until the channel is open.
    fn wait_until_open<L: Line>(
        &mut self,
        line: &mut L,
        reads: &mut u64,
        moment: DateTime,
    ) -> Result<(), ClientFault>
        ensures waits { Waits is_opened any_done self.old self.new (L.traffic line.old) (L.traffic line.new) reads.old
            reads.new result }
        ensures failed { L.failures line.new ≡ failures_behind (L.failures line.old) result }
    {
        client_goes_on();
        loop {
            if let ClientEvent::Open = self.hear(line, reads, moment)? {
                return Ok(());
            }
        }
    }

    /// Sends the HEL, and the OPN after the ACK, and waits until the channel is open.
    pub fn open<L: Line>(&mut self, line: &mut L, moment: DateTime) -> Result<(), ClientFault>
        ensures opens { Opens moment self.old self.new (L.traffic line.old) (L.traffic line.new) result }
        ensures failed { L.failures line.new ≡ failures_behind (L.failures line.old) result }
    {
        client_goes_on();
        let mut reads = u64::MAX;
        let Ok(hello) = self.channel.hello() else {
            return Err(ClientFault::OutOfMemory);
        };
        let Ok(()) = send_whole(line, &hello) else {
            return Err(ClientFault::Write);
        };
        let opening = match self.wait_for_opening(line, &mut reads, moment) {
            Ok(opening) => opening,
            Err(fault) => return Err(fault),
        };
        let Ok(()) = send_whole(line, &opening) else {
            return Err(ClientFault::Write);
        };
        self.wait_until_open(line, &mut reads, moment)
    }

    /// Sends the CLO.
    pub fn close<L: Line>(&mut self, line: &mut L, moment: DateTime) -> Result<(), ClientFault>
        ensures closes { Closes moment (channel_of_connection self.old) (L.traffic line.old) (L.traffic line.new)
            result }
        ensures failed { L.failures line.new ≡ failures_behind (L.failures line.old) result }
    {
        let Ok(octets) = self.channel.close(moment) else {
            return Err(ClientFault::OutOfMemory);
        };
        match send_whole(line, &octets) {
            Ok(()) => Ok(()),
            Err(_) => Err(ClientFault::Write),
        }
    }
}
