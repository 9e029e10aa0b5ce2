//! The renewal of a channel's token over a transport.

ghost use Rattle.std.specs.Prelude.{◌≡◌};
ghost use Rattle.ua_client.specs.Hearing.{channel_of_connection, failures_behind};
ghost use Rattle.ua_client.specs.Opening.{Waits, any_done};
ghost use Rattle.ua_client.specs.Renewing.{Renews, IsRefusal, StandsSettled, is_renewed, of_renew_fault};

use crate::connection::Connection;
use crate::fault::ClientFault;
use crate::laws::clients_are_settled;
use crate::sending::send_whole;
use ua_builtin::DateTime;
use ua_channel::{AskFault, ClientEvent, Line};
use ua_channel_laws::client_laws::client_goes_on;

/// The refusal of a renewal, as a fault of the client.
fn of_ask(fault: AskFault) -> ClientFault
    ensures { result ≡ of_renew_fault fault }
{
    match fault {
        AskFault::TooManyTokens => ClientFault::TooManyTokens,
        AskFault::Exhausted => ClientFault::Exhausted,
        AskFault::OutOfMemory => ClientFault::OutOfMemory,
        AskFault::NotOpen
        | AskFault::TooManyPending
        | AskFault::RenewPending
        | AskFault::RequestTooLarge => ClientFault::Closed,
    }
}

impl Connection {
    /// Waits until the new token arrives.
    fn wait_until_renewed<L: Line>(
        &mut self,
        line: &mut L,
        reads: &mut u64,
        moment: DateTime,
    ) -> Result<(), ClientFault>
        ensures waits { Waits is_renewed any_done self.old self.new (L.traffic line.old) (L.traffic line.new) reads.old
            reads.new result }
        ensures failed { L.failures line.new ≡ failures_behind (L.failures line.old) result }
    {
        client_goes_on();
        loop {
            if let ClientEvent::Renewed(_) = self.hear(line, reads, moment)? {
                return Ok(());
            }
        }
    }

    /// Sends the OPN that renews the token, and waits until the new one arrives.
    pub fn renew<L: Line>(&mut self, line: &mut L, moment: DateTime) -> Result<(), ClientFault>
        requires settled { StandsSettled (channel_of_connection self.old) }
        ensures renews { Renews moment self.old self.new (L.traffic line.old) (L.traffic line.new) result }
        ensures unchanged { IsRefusal result → (self.new ≡ self.old) × (line.new ≡ line.old) }
        ensures failed { L.failures line.new ≡ failures_behind (L.failures line.old) result }
    {
        client_goes_on();
        clients_are_settled();
        let (_, octets) = match self.channel.renew(moment) {
            Ok(asked) => asked,
            Err(fault) => return Err(of_ask(fault)),
        };
        let Ok(()) = send_whole(line, &octets) else {
            return Err(ClientFault::Write);
        };
        let mut reads = u64::MAX;
        self.wait_until_renewed(line, &mut reads, moment)
    }
}
