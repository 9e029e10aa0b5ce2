//! Laws of the events of a client's calls, of settled states, where the channel is open and all
//! calls and renewals are answered, and of a client whose peer keeps to the protocol.
//!
//! Each function has no effect; its contract is the law.

ghost use Rattle.std.specs.Prelude.{◌≡◌, ◌+◌, ◌++◌, ℕ, List, [], Some};
ghost use Rattle.ua_chunk.specs.declared.lane.Lane.{Lane};
ghost use Rattle.ua_services.specs.declared.request.Request.{Request};
ghost use Rattle.ua_channel.specs.Asks.{Placed, asked_in, next_id, pending_calls};
ghost use Rattle.ua_channel.specs.Client.{ClientGoes, ClientGoesTelling};
ghost use Rattle.ua_channel.specs.ClientTold.{ClientTold};
ghost use Rattle.ua_channel.specs.declared.client.channel.ClientChannel.{ClientChannel};
ghost use Rattle.ua_client.specs.Calls.{Answered};
ghost use Rattle.ua_client.specs.Opening.{IsOpened};
ghost use Rattle.ua_client.specs.Renewing.{IsIdle, IsSettled, StandsSettled};
ghost use Rattle.ua_client.specs.ClientPlace.{ClientPlace, StandsAt, lane_behind};
ghost use Rattle.ua_client.specs.Told.{told_of, IsFirstOf};
ghost use Rattle.ua_client.specs.declared.reply.Reply.{Reply};

use ua_channel_laws::client_laws::{client_goes_on, client_pairs, client_tells_delivered};

/// The event of a call is the first event that is reported of it.
pub fn calls_are_told_once()
    ensures { (x : ClientChannel) (asks : List Placed) (octets : List ℕ) (told : List ClientTold) (t : ClientTold)
        → ClientGoesTelling x asks octets told t → IsFirstOf told t }
{
    client_goes_on();
    client_pairs();
    client_tells_delivered();
}

/// No event of a call is reported before the call is sent.
pub fn calls_are_told_behind()
    ensures { (x : ClientChannel) (asks : List Placed) (octets : List ℕ) (told : List ClientTold) (n : ℕ)
        → ClientGoes x asks octets told → told_of (next_id (asked_in asks) + n) told ≡ [] }
{
    client_pairs();
    client_tells_delivered();
}

/// After its opening a client has sent no call and its state is settled; so it is after calls that
/// are answered, and with more events reported where nothing more was sent. In a settled state no
/// call is pending, and there is a lane for the next ones. A channel whose state is a settled one
/// is idle in every description of that state.
pub fn clients_are_settled()
    ensures opened { (x : ClientChannel) (octets : List ℕ) → IsOpened x octets → (s : ClientPlace) × (s.octets ≡ octets)
        × (s.asks ≡ []) × StandsAt x s × IsSettled s }
    ensures answered { (requests : List Request) (s t : ClientPlace) (taken : List ℕ) (replies : List Reply)
        → IsSettled s → Answered requests s t taken replies → IsSettled t }
    ensures later { (s t : ClientPlace) (more : List ClientTold) → IsSettled s → t.asks ≡ s.asks
        → t.told ≡ s.told ++ more → IsSettled t }
    ensures none_pending { (x : ClientChannel) (s : ClientPlace) → StandsAt x s → IsSettled s
        → pending_calls s.before.messages (asked_in s.asks) ≡ [] }
    ensures lane { (x : ClientChannel) (s : ClientPlace) → StandsAt x s → IsSettled s
        → (lane : Lane) × (lane_behind s.before ≡ Some lane) }
    ensures idle { (x : ClientChannel) (s : ClientPlace) → StandsSettled x → StandsAt x s → IsIdle x s }
{
    client_goes_on();
    client_tells_delivered();
}
