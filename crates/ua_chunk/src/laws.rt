//! Laws about lists of chunks, for readers and for the proofs of the crates above.
//!
//! Each function has no effect; its contract is the law.

ghost use Rattle.std.specs.Prelude.{◌≡◌, [], ℕ, List, Option};
ghost use Rattle.std.specs.Prelude.{IsTrue, map};
ghost use Rattle.std.specs.List.{filter};
ghost use Rattle.ua_chunk.specs.Delivered.{delivered};
ghost use Rattle.ua_chunk.specs.Merge.{Sent, HaveOwnIds, AllWithin, Merges, IsMerge, parts_of, part_of};
ghost use Rattle.ua_chunk.specs.Merge.{sent_under, outcome_under, outcomes, is_item_of};
ghost use Rattle.ua_chunk.specs.Refusal.{FewOpen, TakesAllChunks, TakesMessages};
ghost use Rattle.ua_chunk.specs.Sequence.{ordered};
ghost use Rattle.ua_chunk.specs.declared.chunk.Chunk.{Chunk};

/// An interleaving of messages with distinct RequestIds has, under each RequestId, exactly the
/// chunks of that message, in order.
pub fn merge_by_request()
    ensures { (ms : List Sent) (cs : List Chunk) → HaveOwnIds ms → Merges (map parts_of ms) (map part_of cs)
        → IsMerge ms cs }
{}

/// Messages with distinct RequestIds, each within the limits and ending in an F or a decodable A,
/// have their chunks interleaved in any way, with few messages unfinished at a time. Then no chunk
/// is refused for its message, whatever is between them, and none at all where their
/// SequenceNumbers continue. Each message is delivered at its last chunk, complete and once.
pub fn merged()
    ensures taken { (octets chunks : ℕ) (last : Option ℕ) (ms : List Sent) (cs : List Chunk) →
        HaveOwnIds ms → AllWithin octets chunks ms → Merges (map parts_of ms) (map part_of cs) →
        IsTrue (ordered last cs) → FewOpen [] cs → TakesAllChunks octets chunks last [] cs }
    ensures messages { (octets chunks : ℕ) (ms : List Sent) (cs : List Chunk) →
        HaveOwnIds ms → AllWithin octets chunks ms → Merges (map parts_of ms) (map part_of cs) →
        FewOpen [] cs → TakesMessages octets chunks [] cs }
    ensures delivered { (ms : List Sent) (cs : List Chunk) →
        HaveOwnIds ms → Merges (map parts_of ms) (map part_of cs) → delivered cs ≡ outcomes ms cs }
    ensures once { (ms : List Sent) (cs : List Chunk) (id : ℕ) →
        HaveOwnIds ms → Merges (map parts_of ms) (map part_of cs) →
        filter (is_item_of id) (delivered cs) ≡ outcome_under (sent_under id ms) }
{}
