//! Calls of a client.

ghost use Rattle.std.specs.Prelude.{◌⊎◌, IsTrue};
ghost use Rattle.ua_wire.specs.Counted.{text};
ghost use Rattle.ua_client.specs.Calls.{CallsAll};
ghost use Rattle.ua_client.specs.Client.{Closes, IsReady, OpensClient, OpensNothing, client_channel, connection_of};
ghost use Rattle.ua_client.specs.Kept.{CallsInto};
ghost use Rattle.ua_client.specs.Renewing.{Renews};
ghost use Rattle.ua_client.specs.Session.{BeginsSessionAs};

use std::alloc::Global;
use ua_builtin::{DateTime, NodeId, UaString};
use ua_channel::Line;
use ua_client::{CallsFault, Client, ClientFault, Reply};
use ua_frame::Limits;
use ua_services::Request;

/// The replies to requests, in their order.
pub fn call_each<L: Line>(
    alloc: Global,
    client: &mut Client,
    line: &mut L,
    requests: &[Request],
    moment: DateTime,
) -> Result<Vec<Reply>, ClientFault>
    ensures { IsReady client.old → CallsAll (λ replies. replies.items) requests.now (connection_of client.old)
        (connection_of client.new) (L.traffic line.old) (L.traffic line.new) result }
{
    let _alloc = alloc;
    client.call_all(line, requests, moment)
}

/// Opens a client over a transport.
pub fn open_over<L: Line>(
    alloc: Global,
    line: &mut L,
    limits: Limits,
    url: UaString,
    moment: DateTime,
) -> Result<Client, ClientFault>
    requires { IsTrue (text.encodable url) }
    ensures { OpensNothing (L.traffic line.old) (L.traffic line.new) result
        ⊎ OpensClient limits url moment (L.traffic line.old) (L.traffic line.new) result }
{
    Client::open(alloc, line, limits, url, moment)
}

/// Adds the replies to requests to those that are present.
pub fn call_behind<L: Line>(
    client: &mut Client,
    line: &mut L,
    requests: &[Request],
    moment: DateTime,
    replies: &mut Vec<Reply>,
) -> Result<(), CallsFault>
    ensures { IsReady client.old → CallsInto requests.now (connection_of client.old) (connection_of client.new)
        (L.traffic line.old) (L.traffic line.new) result replies.old.items replies.new.items }
{
    client.call_into(line, requests, moment, replies)
}

/// Renews the token of the channel.
pub fn renew_token<L: Line>(
    client: &mut Client,
    line: &mut L,
    moment: DateTime,
) -> Result<(), ClientFault>
    ensures { IsReady client.old → Renews moment (connection_of client.old) (connection_of client.new)
        (L.traffic line.old) (L.traffic line.new) result }
{
    client.renew(line, moment)
}

/// Closes the channel.
pub fn close_channel<L: Line>(
    client: &mut Client,
    line: &mut L,
    moment: DateTime,
) -> Result<(), ClientFault>
    ensures { IsReady client.old → Closes moment (client_channel client.old) (L.traffic line.old) (L.traffic line.new)
        result }
{
    client.close(line, moment)
}

/// Begins a session by the token policy with an id.
pub fn begin_by<L: Line>(
    client: &mut Client,
    line: &mut L,
    policy_id: UaString,
    moment: DateTime,
) -> Result<NodeId, ClientFault>
    ensures { IsReady client.old → BeginsSessionAs policy_id moment (connection_of client.old)
        (connection_of client.new) (L.traffic line.old) (L.traffic line.new) result }
{
    client.begin_session_as(line, policy_id, moment)
}
