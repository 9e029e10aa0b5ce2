//! Laws of what two ends send to each other, and of what each holds meanwhile. Each is the contract
//! of a function that does nothing, or only looks.

ghost use Rattle.std.specs.Prelude.{ℕ, ◌≤◌, List};
ghost use Rattle.ua_frame.specs.declared.frame.Frame.{Frame};
ghost use Rattle.ua_channel.specs.Asks.{Placed};
ghost use Rattle.ua_channel.specs.Client.{ClientStands, client_bound_behind, held_octets, client_limits};
ghost use Rattle.ua_channel.specs.Received.{received};
ghost use Rattle.ua_channel.specs.ServerStands.{ChannelStands as ServerStands, bound_after};
ghost use Rattle.ua_channel.specs.ServerStands.{held_after, limits_of as server_limits};
ghost use Rattle.ua_server.specs.Served.{channel_in};
ghost use Rattle.ua_exchange.specs.Programs.{AreOurs, most_held};

use ua_channel::ClientChannel;
use ua_server::Server;

/// A server never holds more than was agreed, whatever came and however it was fragmented, and so
/// after each prefix of what a client sends. With the limits of the program that is at most 4259839
/// bytes. Once its connection ended it holds nothing, as [`Server::held`] says.
pub fn server_holds_at_most(server: &Server)
    ensures agreed { (octets : List ℕ) (frames : List Frame) (rest : List ℕ)
        → ServerStands (channel_in server.now) octets frames rest
        → held_after (received frames) rest ≤ bound_after (server_limits (channel_in server.now)) (received frames) }
    ensures most { (octets : List ℕ) (frames : List Frame) (rest : List ℕ)
        → AreOurs (server_limits (channel_in server.now)) → ServerStands (channel_in server.now) octets frames rest
        → bound_after (server_limits (channel_in server.now)) (received frames) ≤ most_held }
{
    let _held = server.held();
}

/// The same for a client, after each prefix of what a server sends it, and whatever else came.
pub fn client_holds_at_most(client: &ClientChannel)
    ensures agreed { (asks : List Placed) (octets : List ℕ) (frames : List Frame) (rest : List ℕ)
        → ClientStands client.now asks octets frames rest
        → held_octets frames rest ≤ client_bound_behind (client_limits client.now) (received frames).ack }
    ensures most { (asks : List Placed) (octets : List ℕ) (frames : List Frame) (rest : List ℕ)
        → AreOurs (client_limits client.now) → ClientStands client.now asks octets frames rest
        → client_bound_behind (client_limits client.now) (received frames).ack ≤ most_held }
{
    let _held = client.held();
}
