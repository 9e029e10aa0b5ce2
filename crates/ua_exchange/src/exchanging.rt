//! A client and a server that run through operations.

ghost use Rattle.std.specs.Prelude.{◌≡◌, IfOk, IfErr, map, Some};
ghost use Rattle.ua_channel_laws.specs.ServerReads.{ServerCloses};
ghost use Rattle.ua_nodes.specs.Sound.{AreNodesSound};
ghost use Rattle.ua_server.specs.declared.step.End.TheVariants.{Closed};
ghost use Rattle.ua_exchange.specs.Accepted.{AreAccepted};
ghost use Rattle.ua_exchange.specs.Exchanged.{IsRefusedFor, down_octets};
ghost use Rattle.ua_exchange.specs.Programs.{begun_over, channel, program_limits};
ghost use Rattle.ua_exchange.specs.Replies.{state_behind, turns_replies};
ghost use Rattle.ua_exchange.specs.Turns.{all_told, up_octets};
ghost use Rattle.ua_exchange.specs.inside.Conversed.{IsConversed};
ghost use Rattle.ua_exchange.specs.inside.Counting.{FindsCrowded, turns_before};

use crate::crowded::find_crowded;
use crate::fault::PairFault;
use crate::programs::{endpoint, limits, url};
use crate::transcript::Transcript;
use crate::turn::Turn;
use std::alloc::{AllocError, Global};
use ua_builtin::DateTime;
use ua_channel::AskFault;
use ua_loopback::{ConversationLog as Conversed, Fragments, ServerSetup, Stage, converse};
use ua_nodes::NodeTable;
use ua_server::Services;

/// The SecureChannelId.
const CHANNEL_ID: u32 = 1;

/// The same lengths in a vector.
fn copied(alloc: Global, lengths: &[usize]) -> Result<Vec<usize>, AllocError> {
    let mut copy = Vec::with_capacity(alloc, lengths.len())?;
    copy.extend_from_slice(lengths)?;
    Ok(copy)
}

/// The operations before a renewal for which too many tokens count as held, or all of them.
fn front(turns: &[Turn], crowded: Option<usize>) -> &[Turn]
    requires { FindsCrowded turns.now crowded }
    ensures { result.now ≡ turns_before crowded turns.now }
{
    match crowded {
        Some(place) => &turns[..place],
        None => turns,
    }
}

/// Runs a client through these operations at a server over these nodes, both with the limits of the
/// program.
fn conversed(
    alloc: Global,
    table: NodeTable,
    turns: &[Turn],
    cuts_up: &[usize],
    cuts_down: &[usize],
    moment: DateTime,
) -> Result<Conversed, AllocError>
    requires sound { AreNodesSound table }
    ensures { IfOk result (λ t. IsConversed (begun_over table) moment turns.now t) }
{
    let about = endpoint(alloc)?;
    let address = url(alloc)?;
    let writes = copied(alloc, cuts_up)?;
    let reads = copied(alloc, cuts_down)?;
    let fragments = Fragments { writes, reads };
    let services = Services::new(table, about);
    let server = ServerSetup {
        limits: limits(),
        channel_id: CHANNEL_ID,
        services,
        moment,
        later: Vec::new(alloc),
    };
    Ok(converse(alloc, server, address, turns, fragments))
}

/// Runs a client through these operations, from the HEL to the CLO, at a server over these nodes.
/// It gives the bytes each way, the replies, how the server saw the connection end, and the
/// services afterwards. No clause mentions the fragment lengths: the result is the same for all of
/// them.
///
/// The client is a [`ua_client::Client`], the server a [`ua_server::Server`], and between them is a
/// [`ua_loopback::ServedLine`]. Both are those of the program `ua`: SecureChannelId 1, port 4840,
/// frames of 65535 bytes, messages of 1048576 bytes and 256 chunks. The server takes the client's
/// bytes, and the client the server's, in fragments of at most these lengths, in turn and again
/// from the first; 0 counts as 1, and an empty list sets no limit. The client writes one frame at a
/// time, and reads at most 4096 bytes at once, so that no fragment is longer. Each operation is
/// answered before the next begins; but a renewal is judged as the last operation of a group, after
/// at most 64 requests before it, as if none of these were answered yet. `moment` is the timestamp
/// of each answer, of each OPN and of the CLO, in units of 100 nanoseconds since 1601-01-01 00:00
/// UTC.
pub fn exchange(
    alloc: Global,
    table: NodeTable,
    turns: &[Turn],
    cuts_up: &[usize],
    cuts_down: &[usize],
    moment: DateTime,
) -> Result<Transcript, PairFault>
    requires sound { AreNodesSound table }
    ensures accepted { IfOk result (λ t. AreAccepted turns.now) }
    ensures refused { IfErr result (λ fault. IsRefusedFor turns.now fault) }
    ensures up { IfOk result (λ t. t.up.items ≡ up_octets moment turns.now) }

    // The server's services get just these requests, in their order, each under its own RequestId.
    ensures handed { IfOk result (λ t. ServerCloses program_limits channel t.up.items (all_told turns.now)) }
    ensures down { IfOk result (λ t. t.down.items ≡ down_octets table moment turns.now) }
    ensures replies { IfOk result (λ t. map Some t.replies.items ≡ turns_replies (begun_over table) moment turns.now) }
    ensures closed { IfOk result (λ t. t.end ≡ Closed) }
    ensures services { IfOk result (λ t. t.services ≡ state_behind (begun_over table) moment turns.now) }
{
    let crowded = find_crowded(turns);
    let asked = front(turns, crowded);
    let found = conversed(alloc, table, asked, cuts_up, cuts_down, moment)?;
    if let Err(fault) = found.outcome {
        return Err(PairFault::from_client(found.taken, fault));
    }
    if let Some(place) = crowded {
        return Err(PairFault::Request(place, AskFault::TooManyTokens));
    }
    let Stage::Ended(end) = found.stage else {
        unreachable!();
    };
    Ok(Transcript {
        up: found.up,
        down: found.down,
        replies: found.replies,
        end,
        services: found.services,
    })
}
