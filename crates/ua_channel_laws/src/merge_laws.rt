//! Laws of messages whose chunks are interleaved on an open channel, with renewals of its token
//! anywhere among them, even inside a message (OPC 10000-6, 6.7.2.4).
//!
//! Each function has no effect; its contract is the law. The laws start from a state of an end
//! (`ServerReads`, `ClientReads`) and give its state afterwards; [`server_follows`] and
//! [`client_follows`] say what a running channel has reported after any prefix of such bytes, and
//! `asking_laws` where a client sends while it receives them.

ghost use Rattle.std.specs.Prelude.{◌≡◌, ◌<◌, ◌+◌, ◌++◌, ◌∷◌, [], ℕ, IsTrue, List, length, map};
ghost use Rattle.std.specs.List.{AllByRecursion, filter, range_with_len};
ghost use Rattle.ua_builtin.specs.DateTime.{date_time};
ghost use Rattle.ua_builtin.specs.declared.date_time.DateTime.{DateTime};
ghost use Rattle.ua_frame.specs.Frames.{frames_octets};
ghost use Rattle.ua_frame.specs.declared.frame.Frame.{Frame};
ghost use Rattle.ua_frame.specs.declared.limits.Limits.{Limits};
ghost use Rattle.ua_chunk.specs.Cutting.{chunks_of, pieces};
ghost use Rattle.ua_chunk.specs.Merge.{HaveOwnIds, Merges, Sent, outcome_under};
ghost use Rattle.ua_chunk.specs.Merge.{outcomes, part_of, parts_of, sent_under};
ghost use Rattle.ua_chunk.specs.Refusal.{FewOpen};
ghost use Rattle.ua_chunk.specs.declared.chunk.Chunk.{Chunk};
ghost use Rattle.ua_chunk.specs.declared.flag.Flag.TheVariants.{F};
ghost use Rattle.ua_chunk.specs.declared.lane.Lane.{Lane};
ghost use Rattle.ua_channel.specs.Asks.{Placed, asked_in};
ghost use Rattle.ua_channel_laws.specs.ClientReads.{AtClient, ClientReads};
ghost use Rattle.ua_channel.specs.Client.{ClientEnded, ClientGoes, client_limits};
ghost use Rattle.ua_channel.specs.ClientTable.{client_rules};
ghost use Rattle.ua_channel.specs.ClientTokens.{open_responses, tokens_of};
ghost use Rattle.ua_channel.specs.ClientTold.{ClientTold, Why, told_item};
ghost use Rattle.ua_channel_laws.specs.ExampleMerges.{client_opened, limits_of_merge, merge_asks, merge_down};
ghost use Rattle.ua_channel_laws.specs.ExampleMerges.{merge_heard, merge_messages, merge_told, merge_up};
ghost use Rattle.ua_channel_laws.specs.ExampleMerges.{opening_down, opening_heard};
ghost use Rattle.ua_channel_laws.specs.ExampleMerges.{opening_told, opening_up, server_opened};
ghost use Rattle.ua_channel_laws.specs.Merges.{AreMerged, ClientMerge, IsCutBody, MayComeNext};
ghost use Rattle.ua_channel_laws.specs.Merges.{ServerMerge, is_message_under, is_told_under, placed_later};
ghost use Rattle.ua_channel_laws.specs.Merges.{told_merged_back, told_of_merge, tokens_renewed};
ghost use Rattle.ua_channel_laws.specs.Merges.{tokens_told, with_merged, with_merged_back};
ghost use Rattle.ua_channel_laws.specs.Paired.{told_of_calls};
ghost use Rattle.ua_channel.specs.Received.{messages, openings};
ghost use Rattle.ua_channel_laws.specs.ServerMessages.{message_of_item, messages_in};
ghost use Rattle.ua_channel_laws.specs.ServerReads.{AtServer, IsBodyFor, ServerReads};
ghost use Rattle.ua_channel.specs.ServerRules.{server_rules};
ghost use Rattle.ua_channel.specs.ServerStands.{ClosedAt, Goes, RefusedAt, channel_of, limits_of};
ghost use Rattle.ua_channel.specs.ServerTold.{Told};
ghost use Rattle.ua_channel.specs.declared.client.channel.ClientChannel.{ClientChannel};
ghost use Rattle.ua_channel.specs.declared.server.ServerChannel.{ServerChannel};

/// The chunks of bodies that senders split within the limits of a receiver, under distinct
/// RequestIds, each in a lane with any maximum body size and with any SequenceNumbers, interleaved
/// in any way with at most 4 messages unfinished after each chunk, are the interleaved messages
/// that the laws below read. The chunks of a single body are so as well.
pub fn cut_bodies_merge()
    ensures merged { (limits : Limits) (ms : List Sent) (cs : List Chunk) → AllByRecursion (IsCutBody limits) ms
        → HaveOwnIds ms → Merges (map parts_of ms) (map part_of cs) → FewOpen [] cs →
        AreMerged limits ms cs }
    ensures parts { (lane : Lane) (body : List ℕ) (number : ℕ) (m : Sent)
        → pieces lane.room body ≡ m.pieces ++ m.last ∷ [] → m.end ≡ F →
        map part_of (chunks_of lane body number m.request) ≡ parts_of m }
    ensures alone { (limits : Limits) (lane : Lane) (body : List ℕ) (number id : ℕ) → 0 < lane.room
        → IsBodyFor limits lane.room body →
        (m : Sent) × (m.request ≡ id) × IsCutBody limits m × AreMerged limits (m ∷ []) (chunks_of lane body number id) }
{}

/// From its state, with its channel open, a server reads requests under distinct RequestIds, split
/// in any way within its limits, each ending in an F or aborted by a decodable A, whose chunks are
/// interleaved in any way with at most 4 messages unfinished after each chunk, and OPNs that renew
/// the token anywhere among them, from any SequenceNumber on that may come next. It refuses none.
/// Its state afterwards has one more token for each renewal, the last token that a chunk used, and
/// the next SequenceNumber. So interleavings are chained with what comes before and after, and
/// `server_follows` follows them all. The server reports each message at its last chunk, once under
/// its RequestId, and each renewal with the next token.
pub fn server_reads_merged()
    ensures reads { (limits : Limits) (channel : ℕ) (octets : List ℕ) (told : List Told) (at : AtServer) (first : ℕ)
        (ms : List Sent) (more : List Frame) (next : ℕ) →
        ServerReads limits channel octets told at → MayComeNext (server_rules limits channel) octets first
        → ServerMerge limits channel (record at { next = first }) ms more next →
        ServerReads limits channel (octets ++ frames_octets more) (told ++ told_of_merge ms at.issued more)
        (with_merged at more next) }
    ensures messages { (limits : Limits) (channel : ℕ) (octets : List ℕ) (told : List Told) (at : AtServer) (first : ℕ)
        (ms : List Sent) (more : List Frame) (next : ℕ) →
        ServerReads limits channel octets told at → MayComeNext (server_rules limits channel) octets first
        → ServerMerge limits channel (record at { next = first }) ms more next →
        messages_in (told_of_merge ms at.issued more) ≡ map message_of_item (outcomes ms (messages more)) }
    ensures once { (limits : Limits) (channel : ℕ) (octets : List ℕ) (told : List Told) (at : AtServer) (first : ℕ)
        (ms : List Sent) (more : List Frame) (next : ℕ) →
        ServerReads limits channel octets told at → MayComeNext (server_rules limits channel) octets first
        → ServerMerge limits channel (record at { next = first }) ms more next →
        (id : ℕ) → filter (is_message_under id) (messages_in (told_of_merge ms at.issued more))
        ≡ map message_of_item (outcome_under (sent_under id ms)) }
    ensures tokens { (limits : Limits) (channel : ℕ) (octets : List ℕ) (told : List Told) (at : AtServer) (first : ℕ)
        (ms : List Sent) (more : List Frame) (next : ℕ) →
        ServerReads limits channel octets told at → MayComeNext (server_rules limits channel) octets first
        → ServerMerge limits channel (record at { next = first }) ms more next →
        tokens_told (told_of_merge ms at.issued more) ≡ range_with_len (at.issued + 1) (length (openings more)) }
    // The next SequenceNumber of its state is one that may come first.
    ensures first { (limits : Limits) (channel : ℕ) (octets : List ℕ) (told : List Told) (at : AtServer)
        → ServerReads limits channel octets told at →
        MayComeNext (server_rules limits channel) octets at.next }
{}

/// The same of a client and interleaved replies, with the responses to renewals among them, where
/// the client sends calls and renewals while it receives them, each under the next RequestId. Its
/// state afterwards has the calls and renewals that were not answered. It reports each reply at its
/// last chunk, once under the RequestId of its call, and each token.
pub fn client_reads_merged()
    ensures reads { (limits : Limits) (asks later : List Placed) (octets : List ℕ) (told : List ClientTold)
        (at : AtClient) (first : ℕ) (ms : List Sent) (more : List Frame) (next : ℕ) →
        ClientReads limits asks octets told at → MayComeNext (client_rules limits asks) octets first
        → ClientMerge limits (record at { next = first }) (asked_in asks) later ms more next →
        ClientReads limits (asks ++ placed_later (length octets) later) (octets ++ frames_octets more)
        (told ++ told_merged_back ms more) (with_merged_back at (asked_in later) more next) }
    ensures messages { (limits : Limits) (asks later : List Placed) (octets : List ℕ) (told : List ClientTold)
        (at : AtClient) (first : ℕ) (ms : List Sent) (more : List Frame) (next : ℕ) →
        ClientReads limits asks octets told at → MayComeNext (client_rules limits asks) octets first
        → ClientMerge limits (record at { next = first }) (asked_in asks) later ms more next →
        told_of_calls (told_merged_back ms more) ≡ map told_item (outcomes ms (messages more)) }
    ensures once { (limits : Limits) (asks later : List Placed) (octets : List ℕ) (told : List ClientTold)
        (at : AtClient) (first : ℕ) (ms : List Sent) (more : List Frame) (next : ℕ) →
        ClientReads limits asks octets told at → MayComeNext (client_rules limits asks) octets first
        → ClientMerge limits (record at { next = first }) (asked_in asks) later ms more next →
        (id : ℕ) → filter (is_told_under id) (told_merged_back ms more)
        ≡ map told_item (outcome_under (sent_under id ms)) }
    ensures tokens { (limits : Limits) (asks later : List Placed) (octets : List ℕ) (told : List ClientTold)
        (at : AtClient) (first : ℕ) (ms : List Sent) (more : List Frame) (next : ℕ) →
        ClientReads limits asks octets told at → MayComeNext (client_rules limits asks) octets first
        → ClientMerge limits (record at { next = first }) (asked_in asks) later ms more next →
        tokens_renewed (told_merged_back ms more) ≡ tokens_of (open_responses (openings more)) }
    ensures first { (limits : Limits) (asks : List Placed) (octets : List ℕ) (told : List ClientTold) (at : AtClient)
        → ClientReads limits asks octets told at →
        MayComeNext (client_rules limits asks) octets at.next }
{}

/// After any prefix of bytes that a server reads, however it was fragmented, its channel has
/// reported a prefix of their events, and after all the bytes all of the events. None of the bytes
/// is refused, and none closes the channel.
pub fn server_follows()
    ensures begins { (x : ServerChannel) (octets more : List ℕ) (told all : List Told) (at : AtServer)
        → Goes x octets told →
        ServerReads (limits_of x) (channel_of x) (octets ++ more) all at → (later : List Told) × (all ≡ told ++ later) }
    ensures all { (x : ServerChannel) (octets : List ℕ) (told all : List Told) (at : AtServer) → Goes x octets told →
        ServerReads (limits_of x) (channel_of x) octets all at → told ≡ all }
    ensures not_refused { (x : ServerChannel) (octets more : List ℕ) (told all : List Told) (at : AtServer) (code : ℕ)
        → RefusedAt x octets told code →
        ServerReads (limits_of x) (channel_of x) (octets ++ more) all at → ⊥ }
    ensures not_closed { (x : ServerChannel) (octets more : List ℕ) (told all : List Told) (at : AtServer)
        → ClosedAt x octets told →
        ServerReads (limits_of x) (channel_of x) (octets ++ more) all at → ⊥ }
{}

/// A client has received a prefix of bytes that it reads, at whose end all operations were sent,
/// however it was fragmented. Then its channel has reported a prefix of their events, and after all
/// the bytes all of the events: the operations of the channel are those under which the bytes are
/// read to their end. With these operations it does not fail.
pub fn client_follows()
    ensures begins { (x : ClientChannel) (asks : List Placed) (octets more : List ℕ) (told all : List ClientTold)
        (at : AtClient) → ClientGoes x asks octets told →
        ClientReads (client_limits x) asks (octets ++ more) all at → (later : List ClientTold) × (all ≡ told ++ later) }
    ensures all { (x : ClientChannel) (asks : List Placed) (octets : List ℕ) (told all : List ClientTold)
        (at : AtClient) → ClientGoes x asks octets told →
        ClientReads (client_limits x) asks octets all at → told ≡ all }
    ensures not_failed { (x : ClientChannel) (asks : List Placed) (octets more : List ℕ) (told all : List ClientTold)
        (at : AtClient) (why : Why) → ClientEnded x asks octets told why →
        ClientReads (client_limits x) asks (octets ++ more) all at → ⊥ }
{}

/// The premises of `server_reads_merged` and `client_reads_merged` can be met, right after the
/// opening: by four messages whose chunks are interleaved, as many as may be unfinished at a time,
/// one of which is aborted, with a renewal in the middle of three of them. The chunks after the
/// renewal are under the second token. The client also sends a call in the middle of the frames,
/// and its reply is among them.
pub fn there_are_merges()
    // What each end read before.
    ensures server_reads { (asked : DateTime) → IsTrue (date_time.encodable asked)
        → ServerReads limits_of_merge 7 (opening_up asked) opening_told server_opened }
    ensures client_reads { (answered : DateTime) → IsTrue (date_time.encodable answered)
        → ClientReads limits_of_merge [] (opening_down answered) opening_heard client_opened }
    // The SequenceNumber 2 may come next there.
    ensures server_next { (asked : DateTime) → IsTrue (date_time.encodable asked)
        → MayComeNext (server_rules limits_of_merge 7) (opening_up asked) 2 }
    ensures client_next { (answered : DateTime) → IsTrue (date_time.encodable answered)
        → MayComeNext (client_rules limits_of_merge []) (opening_down answered) 2 }
    // The frames are such a merge, numbered from 2 to 11.
    ensures server_merges { (asked : DateTime) → IsTrue (date_time.encodable asked)
        → ServerMerge limits_of_merge 7 server_opened merge_messages (merge_up asked) 12 }
    ensures client_merges { (answered : DateTime) → IsTrue (date_time.encodable answered)
        → ClientMerge limits_of_merge client_opened [] merge_asks merge_messages (merge_down answered) 12 }
    // What they tell.
    ensures told { (asked : DateTime) → IsTrue (date_time.encodable asked)
        → told_of_merge merge_messages 1 (merge_up asked) ≡ merge_told }
    ensures heard { (answered : DateTime) → IsTrue (date_time.encodable answered)
        → told_merged_back merge_messages (merge_down answered) ≡ merge_heard }
{}
