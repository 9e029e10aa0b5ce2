//! Laws of a server's channel, and of frames at either end.
//!
//! Each function has no effect; its contract is the law.

ghost use Rattle.std.specs.Prelude.{◌↔◌, ℕ, List};
ghost use Rattle.ua_frame.specs.After.{AllAfter};
ghost use Rattle.ua_frame.specs.FirstWrong.{FirstWrong};
ghost use Rattle.ua_frame.specs.Frames.{Frames};
ghost use Rattle.ua_frame.specs.Run.{Fits, Going, Over, Run};
ghost use Rattle.ua_frame.specs.Laws.{HasOneReading, HasReadings, StopsAtFirstWrong};
ghost use Rattle.ua_frame.specs.declared.frame.Frame.{Frame};
ghost use Rattle.ua_frame.specs.declared.limits.Limits.{Limits};
ghost use Rattle.ua_channel_laws.specs.Conversation.{Continues, HasEnded, IsConversation, ServerConversation};
ghost use Rattle.ua_channel.specs.ServerRules.{server_rules};

/// Every byte sequence has exactly one reading at a server, however it is fragmented. The reading
/// stops at the first invalid frame, for the first error of the table that applies to it.
pub fn server_reads()
    ensures some { (limits : Limits) (channel : ℕ) → HasReadings (server_rules limits channel) }
    ensures one { (limits : Limits) (channel : ℕ) → HasOneReading (server_rules limits channel) }
    ensures first_wrong { (limits : Limits) (channel : ℕ) → StopsAtFirstWrong (server_rules limits channel) }
{}

/// The frames that a server accepts, one after the other, are exactly those of a conversation in
/// plain words, or of the beginning of one. So a byte sequence has no invalid frame exactly where
/// its frames are a conversation, and the bytes after them are less than a frame with no error in
/// its header, or they end with a CLO.
pub fn server_converses()
    ensures frames { (limits : Limits) (channel : ℕ) (frames : List Frame)
        → AllAfter (Fits (server_rules limits channel)) frames ↔ ServerConversation limits channel frames }
    ensures going { (limits : Limits) (channel : ℕ) (octets : List ℕ) (frames : List Frame) (rest : List ℕ) →
        Run (server_rules limits channel) octets frames rest Going ↔ Continues limits channel octets frames rest }
    ensures over { (limits : Limits) (channel : ℕ) (octets : List ℕ) (frames : List Frame) (rest : List ℕ) →
        Run (server_rules limits channel) octets frames rest Over ↔ HasEnded limits channel octets frames rest }
    ensures none_wrong { (limits : Limits) (channel : ℕ) (octets : List ℕ) (raws : List (List ℕ)) (rest : List ℕ)
        → Frames octets raws rest →
        ((why : ℕ) → FirstWrong (server_rules limits channel) raws rest why → ⊥) ↔ IsConversation limits channel
        octets }
{}
