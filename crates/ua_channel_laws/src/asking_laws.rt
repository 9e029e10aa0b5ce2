//! Laws of a client that sends further calls and renewals while bytes are incomplete: inside a
//! frame or a message, and while the replies to earlier calls arrive.
//!
//! Each function has no effect; its contract is the law. The laws of `both_ends` send between two
//! messages; what they say holds of operations sent anywhere before the messages that answer them.

ghost use Rattle.std.specs.Prelude.{ℕ, List};
ghost use Rattle.ua_frame.specs.declared.limits.Limits.{Limits};
ghost use Rattle.ua_channel_laws.specs.AskedEarlier.{AreEarlier};
ghost use Rattle.ua_channel.specs.Asks.{Placed};
ghost use Rattle.ua_channel_laws.specs.ClientReads.{AtClient, ClientReads};
ghost use Rattle.ua_channel.specs.ClientTold.{ClientTold};

/// A client reads what it reads also where it sent the same operations earlier, even inside a frame
/// or a message: it reports the same events, and its state is the same.
pub fn client_asks_earlier()
    ensures { (limits : Limits) (earlier asks : List Placed) (octets : List ℕ) (told : List ClientTold) (at : AtClient)
        → AreEarlier earlier asks →
        ClientReads limits asks octets told at → ClientReads limits earlier octets told at }
{}
