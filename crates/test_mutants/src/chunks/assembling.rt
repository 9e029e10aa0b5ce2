//! Chunks that are assembled.

ghost use Rattle.std.specs.Prelude.{◌≡◌, ◌++◌, ◌∷◌, [], List, None, IfOk, OnOk, MatchResult, IsTrue, IsFalse};
ghost use Rattle.ua_chunk.specs.Assembling.{Stands, last_number, octet_limit, chunk_limit};
ghost use Rattle.ua_chunk.specs.Delivered.{delivered};
ghost use Rattle.ua_chunk.specs.Open.{open_octets};
ghost use Rattle.ua_chunk.specs.Refusal.{chunk_refusal, IsFor};
ghost use Rattle.ua_chunk.specs.Sequence.{may_follow};
ghost use Rattle.ua_chunk.specs.View.{delivered_items};
ghost use Rattle.ua_chunk.specs.declared.chunk.Chunk.{Chunk};

use ua_chunk::{AssembleFault, Assembler, Chunk, Delivered};

/// Takes the next chunk: what it delivers, and where the assembler then stands.
pub fn accept_next(
    assembler: &mut Assembler,
    chunk: Chunk,
) -> Result<Option<Delivered>, AssembleFault>
    ensures given { (cs : List Chunk) → Stands assembler.old cs →
        IfOk result (λ d. delivered (cs ++ chunk ∷ []) ≡ delivered cs ++ delivered_items d) }
    ensures stands { (cs : List Chunk) → Stands assembler.old cs
        → OnOk result (Stands assembler.new (cs ++ chunk ∷ [])) }
{
    assembler.accept(chunk)
}

/// Takes the next chunk: a fault is the first reason that holds.
pub fn accept_by_reason(
    assembler: &mut Assembler,
    chunk: Chunk,
) -> Result<Option<Delivered>, AssembleFault>
    ensures faults { (cs : List Chunk) → Stands assembler.old cs →
        let reason = chunk_refusal (octet_limit assembler.old) (chunk_limit assembler.old) (last_number assembler.old)
        cs
        chunk in
        MatchResult result (λ _. reason ≡ None) (IsFor reason) }
{
    let taken = assembler.accept(chunk);
    taken
}

/// Takes a SequenceNumber that follows the last one.
pub fn step_next(assembler: &mut Assembler, sequence: u32) -> Result<(), AssembleFault>
    ensures follows { (cs : List Chunk) → Stands assembler.old cs →
        MatchResult result (λ _. IsTrue (may_follow (last_number assembler.old) sequence))
        (λ fault. (fault ≡ AssembleFault.Sequence) × IsFalse (may_follow (last_number assembler.old) sequence)) }
{
    assembler.step(sequence)
}

/// How many bytes are held of the unfinished messages.
pub fn held_by(assembler: &Assembler) -> usize
    ensures held { (cs : List Chunk) → Stands assembler.now cs → result ≡ open_octets cs }
{
    assembler.held()
}
