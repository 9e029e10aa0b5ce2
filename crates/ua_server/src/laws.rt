//! Laws of what a server sends, each the contract of a function that does nothing, or only looks.

ghost use Rattle.std.specs.Prelude.{◌≡◌, ◌++◌, ◌∷◌, [], ℕ, List, Option, Some, Result, Ok};
ghost use Rattle.ua_builtin.specs.declared.date_time.DateTime.{DateTime};
ghost use Rattle.ua_channel.specs.ServerRules.{server_rules};
ghost use Rattle.ua_channel.specs.ServerStands.{ChannelStands as Holds};
ghost use Rattle.ua_channel.specs.ServerStands.{limits_of, channel_of};
ghost use Rattle.ua_channel.specs.declared.server.ServerChannel.{ServerChannel};
ghost use Rattle.ua_channel.specs.ServerTold.{Told};
ghost use Rattle.ua_channel.specs.Stops.{StopsAt};
ghost use Rattle.ua_frame.specs.Run.{Run, Stopped, events};
ghost use Rattle.ua_frame.specs.declared.frame.Frame.{Frame};
ghost use Rattle.ua_nodes.specs.Table.{Nodes};
ghost use Rattle.ua_opening.specs.declared.header.RequestHeader.{RequestHeader};
ghost use Rattle.ua_server.specs.Answer.{fault_of, session_header};
ghost use Rattle.ua_server.specs.History.{ConnectionEvent, Became, IsUndisturbed, StandsOver, StepOver};
ghost use Rattle.ua_server.specs.History.{course_over, with_changes, moments_of, output_over, told_in};
ghost use Rattle.ua_server.specs.Now.{StepNow};
ghost use Rattle.ua_server.specs.Stepping.{ServerStands, StepAnswers, StepStands};
ghost use Rattle.ua_server.specs.declared.step.Step.{Step};
ghost use Rattle.ua_server.specs.declared.step.StepFault.{StepFault};
ghost use Rattle.ua_server.specs.Said.{Course, start, said_of, course_after};
ghost use Rattle.ua_server.specs.Sharing.{SharedEvent, SharedState, Changed, EndsAmong, StandsAmong, at_moment};
ghost use Rattle.ua_server.specs.Sharing.{course_at, opened, seen_by, sent_to, shared_over, told_by};
ghost use Rattle.ua_server.specs.Reply.{answered};
ghost use Rattle.ua_server.specs.Sound.{IsSoundState};
ghost use Rattle.ua_server.specs.State.{State, begun, session_token, with_nodes, with_session};
ghost use Rattle.ua_server.specs.Status.{bad_session_id_invalid};
ghost use Rattle.ua_server.specs.declared.session.Session.{Session};
ghost use Rattle.ua_services.specs.Request.{request_read};
ghost use Rattle.ua_services.specs.declared.request.Request.TheVariants as kinds;
ghost use Rattle.ua_services.specs.declared.request.Request.{Request};
ghost use Rattle.ua_structures.specs.declared.attribute.ReadRequest.{ReadRequest};
ghost use Rattle.ua_structures.specs.declared.attribute.WriteRequest.{WriteRequest};
ghost use Rattle.ua_structures.specs.declared.session.ActivateSessionRequest.{ActivateSessionRequest};
ghost use Rattle.ua_structures.specs.declared.session.CloseSessionRequest.{CloseSessionRequest};

use crate::services::Services;

/// Every `Services` is sound, whatever it answered before.
pub fn services_are_sound(services: &Services)
    ensures { IsSoundState services.now }
{
    let _limit = services.endpoint.message_limit;
    let _made = services.made;
}

/// A step defined by the current state alone answers as one defined by all events before it,
/// wherever these lead to the current state; and where it leaves the channel is the same whatever
/// the services are.
pub fn what_stands_answers_as_all_that_was_told()
    ensures answers { (old new : ServerChannel) (moment : DateTime) (piece octets : List ℕ) (told : List Told)
        (first : State) (moments : List DateTime) (before now : State) (result : Result Step StepFault)
        → ServerStands old octets told first moments before → channel_of new ≡ channel_of old
        → StepNow old moment piece result new octets told before now
        → StepAnswers (limits_of old) (channel_of old) moment piece result new octets told first moments before now }
    ensures stands { (old new : ServerChannel) (moment : DateTime) (piece octets : List ℕ) (told : List Told)
        (before now : State) (result : Result Step StepFault)
        → StepNow old moment piece result new octets told before now → StepStands piece result new octets told }
{}

/// The history of a server's connection goes on by each change of its nodes, by the application or
/// by another connection, and by each step. Where nothing was changed from outside, what is sent
/// and the state that is left are those of the channel's events alone.
pub fn a_history_goes_on_by_changes_and_steps()
    ensures became { (x : ServerChannel) (octets : List ℕ) (hs : List ConnectionEvent) (first now : State)
        (nodes : Nodes) (made : ℕ)
        → StandsOver x octets hs first now → StandsOver x octets (hs ++ Became nodes made ∷ []) first
        (with_changes now nodes made) }
    ensures beside { (x : ServerChannel) (octets : List ℕ) (hs : List ConnectionEvent) (first s s' : State)
        (mine : Option Session) → s'.endpoint ≡ s.endpoint → s'.memory_limit ≡ s.memory_limit
        → StandsOver x octets hs first (with_session s mine)
        → StandsOver x octets (hs ++ Became s'.nodes s'.made ∷ []) first (with_session s' mine) }
    ensures steps { (old new : ServerChannel) (moment : DateTime) (piece octets : List ℕ) (hs : List ConnectionEvent)
        (first before now : State) (result : Result Step StepFault)
        → StandsOver old octets hs first before → channel_of new ≡ channel_of old
        → StepNow old moment piece result new octets (told_in hs) before now
        → StepOver (limits_of old) (channel_of old) moment piece result new octets hs first before now }
    ensures unchanged { (channel : ℕ) (s : State) (hs : List ConnectionEvent) → IsUndisturbed hs
        → output_over channel (start s []) hs ≡ said_of channel (start s (moments_of hs)) (told_in hs) }
    ensures left { (channel : ℕ) (s : State) (hs : List ConnectionEvent) → IsUndisturbed hs
        → course_over channel (start s []) hs ≡ course_after channel (start s (moments_of hs)) (told_in hs) }
    ensures stands { (x : ServerChannel) (octets : List ℕ) (hs : List ConnectionEvent) (first now : State)
        → StandsOver x octets hs first now → IsUndisturbed hs
        → ServerStands x octets (told_in hs) first (moments_of hs) now }
{}

/// Events in two parts are answered as the first part, and then as the second from the state that
/// the first leaves. An event of one connection is none of another, and nothing is sent to another
/// for it.
pub fn events_are_answered_in_parts()
    ensures shared { (channels : ℕ → ℕ) (p : SharedState) (a b : List SharedEvent)
        → shared_over channels p (a ++ b) ≡ shared_over channels (shared_over channels p a) b }
    ensures sent { (channels : ℕ → ℕ) (k : ℕ) (p : SharedState) (a b : List SharedEvent)
        → sent_to channels k p (a ++ b) ≡ sent_to channels k p a ++ sent_to channels k (shared_over channels p a) b }
    ensures told { (k : ℕ) (a b : List SharedEvent) → told_by k (a ++ b) ≡ told_by k a ++ told_by k b }
    ensures others_told { (j k : ℕ) (moment : DateTime) (told : List Told) → (j ≡ k → ⊥)
        → told_by j (at_moment k moment told) ≡ [] }
    ensures others_sent { (channels : ℕ → ℕ) (j k : ℕ) (p : SharedState) (moment : DateTime) (told : List Told)
        → (j ≡ k → ⊥) → sent_to channels j p (at_moment k moment told) ≡ [] }
    ensures output { (channel : ℕ) (c : Course) (a b : List ConnectionEvent)
        → output_over channel c (a ++ b) ≡ output_over channel c a ++ output_over channel (course_over channel c a) b }
    ensures course { (channel : ℕ) (c : Course) (a b : List ConnectionEvent)
        → course_over channel c (a ++ b) ≡ course_over channel (course_over channel c a) b }
{}

/// Let one server handle every message in the order of completion, `shared_over`. What it sends to
/// a connection, and where that connection stands, are the answer to that connection's own frames,
/// where everything else that happened, on other connections and by the application, changed the
/// nodes and the number of sessions made. The clause `among` of
/// [`Connection::step`](crate::Connection::step) says that running connections are this one server.
pub fn each_connection_is_answered_as_by_one_server()
    ensures sent { (channels : ℕ → ℕ) (k : ℕ) (first : State) (es : List SharedEvent)
        → sent_to channels k (opened first) es ≡ output_over (channels k) (start (begun first) [])
        (seen_by channels k (opened first) es) }
    ensures left { (channels : ℕ → ℕ) (k : ℕ) (first : State) (es : List SharedEvent)
        → course_at (shared_over channels (opened first) es) k ≡ course_over (channels k) (start (begun first) [])
        (seen_by channels k (opened first) es) }
    ensures told { (channels : ℕ → ℕ) (k : ℕ) (first : State) (es : List SharedEvent)
        → told_in (seen_by channels k (opened first) es) ≡ told_by k es }
{}

/// What holds of a connection among others holds of it by itself, over the events as it sees them.
/// It also holds after a change of the nodes by the application, for which nothing is sent to it.
pub fn one_of_several_connections_stands_by_itself()
    ensures alone { (channels : ℕ → ℕ) (k : ℕ) (x : ServerChannel) (session : Option Session) (octets : List ℕ)
        (es : List SharedEvent) (first now : State)
        → StandsAmong channels k x session octets es first now
        → StandsOver x octets (seen_by channels k (opened first) es) (begun first) (with_session now session) }
    ensures changed { (channels : ℕ → ℕ) (k : ℕ) (x : ServerChannel) (session : Option Session) (octets : List ℕ)
        (es : List SharedEvent) (first now : State) (nodes : Nodes)
        → StandsAmong channels k x session octets es first now
        → StandsAmong channels k x session octets (es ++ Changed nodes ∷ []) first (with_nodes now nodes) }
    ensures silent { (channels : ℕ → ℕ) (k : ℕ) (p : SharedState) (nodes : Nodes)
        → (sent_to channels k p (Changed nodes ∷ []) ≡ []) × (told_by k (Changed nodes ∷ []) ≡ []) }
{}

/// A hostile client ends its own connection, and no other. That connection ends at the first wrong
/// frame, with the code of the first reason against it, and changes nothing more. The bytes
/// held for a connection's unfinished frame and messages are bounded by its own bytes alone, as
/// [`Connection::held`](crate::Connection::held) says.
pub fn a_hostile_client_ends_its_own_connection()
    ensures refused { (channels : ℕ → ℕ) (k : ℕ) (x : ServerChannel) (octets out : List ℕ) (es new : List SharedEvent)
        (first before now : State) (code : ℕ)
        → EndsAmong (Stopped code) channels k x octets out es new first before now
        → (frames : List Frame) × (rest : List ℕ) × Run (server_rules (limits_of x) (channel_of x)) octets frames rest
        (Stopped code) × StopsAt (server_rules (limits_of x) (channel_of x)) frames rest code
        × (events (server_rules (limits_of x) (channel_of x)) frames ≡ told_by k (es ++ new)) × (now ≡ before) }
    ensures holds { (channels : ℕ → ℕ) (k : ℕ) (x : ServerChannel) (session : Option Session) (octets : List ℕ)
        (es : List SharedEvent) (first now : State)
        → StandsAmong channels k x session octets es first now → (frames : List Frame) × (rest : List ℕ)
        × Holds x octets frames rest }
{}

/// A request under the AuthenticationToken of a session that another connection has, or had, is
/// answered with Bad_SessionIdInvalid, and changes nothing: a session is valid on its own
/// connection only.
pub fn a_token_of_another_connection_is_no_token()
    ensures refused { (channels : ℕ → ℕ) (j k : ℕ) (first : State) (before es : List SharedEvent) (theirs : Session)
        (octets : List ℕ) (m : Request) (asking : RequestHeader) (moment : DateTime)
        → (k ≡ j → ⊥) → ((shared_over channels (opened first) before).own j).session ≡ Some theirs
        → request_read octets ≡ Ok m → session_header m ≡ Some asking
        → asking.authentication_token ≡ session_token theirs.number
        → answered (course_at (shared_over channels (opened first) (before ++ es)) k).state moment octets
        ≡ (
          (course_at (shared_over channels (opened first) (before ++ es)) k).state,
          fault_of asking.request_handle bad_session_id_invalid moment,
        ) }
    ensures activate { (m : ActivateSessionRequest) → session_header (kinds.ActivateSession m) ≡ Some m.request_header }
    ensures close { (m : CloseSessionRequest) → session_header (kinds.CloseSession m) ≡ Some m.request_header }
    ensures read { (m : ReadRequest) → session_header (kinds.Read m) ≡ Some m.request_header }
    ensures write { (m : WriteRequest) → session_header (kinds.Write m) ≡ Some m.request_header }
{}
