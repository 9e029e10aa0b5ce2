//! Laws of a client's channel.
//!
//! Each function has no effect; its contract is the law.

ghost use Rattle.std.specs.Prelude.{◌≡◌, ◌↔◌, ◌∷◌, ◌++◌, [], ℕ, List, map, false};
ghost use Rattle.ua_frame.specs.After.{AllAfter};
ghost use Rattle.ua_frame.specs.declared.frame.Frame.{Frame};
ghost use Rattle.ua_frame.specs.declared.limits.Limits.{Limits};
ghost use Rattle.ua_frame.specs.FirstWrong.{FirstWrong};
ghost use Rattle.ua_frame.specs.Frames.{Frames};
ghost use Rattle.ua_frame.specs.Laws.{HasOneReading, HasReadings, StopsAtFirstWrong};
ghost use Rattle.ua_frame.specs.Run.{Fits, Going, Run, events};
ghost use Rattle.ua_chunk.specs.Delivered.{delivered};
ghost use Rattle.ua_channel.specs.Asks.{Placed, asked_in, calls, is_in};
ghost use Rattle.ua_channel.specs.Client.{ClientGoes, ClientGoesTelling};
ghost use Rattle.ua_channel_laws.specs.ClientConversation.{ClientConversation, ClientContinues, IsClientConversation};
ghost use Rattle.ua_channel.specs.ClientTable.{client_rules};
ghost use Rattle.ua_channel.specs.ClientTold.{ClientTold, Why, told_item};
ghost use Rattle.ua_channel_laws.specs.Paired.{as_list, delivered_under, paired, told_of_calls, with_all};
ghost use Rattle.ua_channel.specs.Received.{received};
ghost use Rattle.ua_channel.specs.declared.client.channel.ClientChannel.{ClientChannel};

/// A channel in the state after a frame that has an event continues with that event reported.
pub fn client_goes_on()
    ensures { (x : ClientChannel) (asks : List Placed) (octets : List ℕ) (told : List ClientTold) (e : ClientTold)
        → ClientGoesTelling x asks octets told e → ClientGoes x asks octets (told ++ e ∷ []) }
{}

/// The events that frames have for a client's calls are what their chunks deliver, in that order.
pub fn client_tells_delivered()
    ensures { (limits : Limits) (asks : List Placed) (frames : List Frame) →
        told_of_calls (events (client_rules limits asks) frames)
        ≡ map told_item (delivered (received frames).messages) }
{}

/// Of the frames that a client accepts, all that is delivered under the RequestId of a call is the
/// one item with which it is paired, or nothing; nothing is delivered under another RequestId.
pub fn client_pairs()
    ensures once { (limits : Limits) (asks : List Placed) (frames : List Frame)
        → AllAfter (Fits (client_rules limits asks)) frames →
        map (with_all (received frames).messages) (calls (asked_in asks))
        ≡ map as_list (paired (asked_in asks) (received frames).messages) }
    ensures no_other { (limits : Limits) (asks : List Placed) (frames : List Frame) (id : ℕ)
        → AllAfter (Fits (client_rules limits asks)) frames →
        is_in id (calls (asked_in asks)) ≡ false → delivered_under id (received frames).messages ≡ [] }
{}

/// Every byte sequence, with the operations that were sent within it, has exactly one reading at a
/// client, however it is fragmented. The reading stops at the first invalid frame, for the first
/// error of the table that applies to it.
pub fn client_reads()
    ensures some { (limits : Limits) (asks : List Placed) → HasReadings (client_rules limits asks) }
    ensures one { (limits : Limits) (asks : List Placed) → HasOneReading (client_rules limits asks) }
    ensures first_wrong { (limits : Limits) (asks : List Placed) → StopsAtFirstWrong (client_rules limits asks) }
{}

/// The frames that a client accepts, one after the other, are exactly those of a conversation in
/// plain words, or of the beginning of one. So a byte sequence has no invalid frame exactly where
/// its frames are a conversation, and the bytes after them are less than a frame with no error in
/// its header.
pub fn client_converses()
    ensures frames { (limits : Limits) (asks : List Placed) (frames : List Frame)
        → AllAfter (Fits (client_rules limits asks)) frames ↔ ClientConversation limits asks frames }
    ensures going { (limits : Limits) (asks : List Placed) (octets : List ℕ) (frames : List Frame) (rest : List ℕ) →
        Run (client_rules limits asks) octets frames rest Going ↔ ClientContinues limits asks octets frames rest }
    ensures none_wrong { (limits : Limits) (asks : List Placed) (octets : List ℕ) (raws : List (List ℕ)) (rest : List ℕ)
        → Frames octets raws rest →
        ((why : Why) → FirstWrong (client_rules limits asks) raws rest why → ⊥) ↔ IsClientConversation limits asks
        octets }
{}
