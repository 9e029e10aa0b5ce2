//! Reassembles messages from chunks.

ghost use Rattle.std.specs.Prelude.{◌≡◌, ◌+◌};
ghost use Rattle.ua_chunk.specs.Refusal.{passes};
ghost use Rattle.ua_chunk.specs.Sequence.{may_follow};

use crate::abort;
use crate::chunk::Chunk;
use crate::delivered::Delivered;
use crate::fault::AssembleFault;
use crate::flag::Flag;
use crate::message::Message;
use crate::pending::{Pending, PendingMessages};
use std::alloc::{AllocError, Global};

/// The maximum number of unfinished messages.
pub const MOST_OPEN: usize = 4;

/// After a SequenceNumber above this one the numbers may restart.
const LAST_BEFORE_RESTART: u32 = 4294966271;

/// They may restart at any number below this one.
const RESTART_LIMIT: u32 = 1024;

/// Reassembles messages from the chunks of one direction of a SecureChannel. Chunks of several
/// messages may be interleaved.
#[derive(Debug, Drop)]
pub struct Assembler {
    alloc: Global,
    octets: u32,
    chunks: u32,
    last: Option<u32>,
    closed: bool,
    pending: PendingMessages,
}

/// Whether a SequenceNumber may come after the last one.
fn follows(last: Option<u32>, sequence: u32) -> bool
    ensures { result ≡ may_follow last sequence }
{
    match last {
        None => true,
        Some(last) => {
            (last < u32::MAX && sequence == last + 1)
                || (last > LAST_BEFORE_RESTART && sequence < RESTART_LIMIT)
        }
    }
}

/// Whether the sum exceeds a limit; 0 means no limit.
#[inline]
fn sum_passes(limit: u32, a: usize, b: usize) -> bool
    ensures { result ≡ passes limit (a + b) }
{
    limit != 0 && a.saturating_add(b) > limit as usize
}

impl Assembler {
    ghost use Rattle.std.specs.Prelude.{◌≡◌, ◌≤◌, ◌<◌, ◌*◌, ◌∷◌, ◌++◌, [], List, length, true, false};
    ghost use Rattle.std.specs.Prelude.{Some, None, IsTrue, IsFalse, OnOk, OnErr, IfOk, MatchResult};
    ghost use Rattle.ua_chunk.specs.declared.chunk.Chunk.{Chunk};
    ghost use Rattle.ua_chunk.specs.declared.flag.Flag.TheVariants.{F as Final};
    ghost use Rattle.ua_chunk.specs.Assembling.{Stands, IsClosed, SameLimits, octet_limit, chunk_limit};
    ghost use Rattle.ua_chunk.specs.Assembling.{last_number, refusal_kept, given_kept, put_back};
    ghost use Rattle.ua_chunk.specs.Delivered.{given, delivered};
    ghost use Rattle.ua_chunk.specs.Open.{open_ids, open_octets};
    ghost use Rattle.ua_chunk.specs.Refusal.{chunk_refusal, IsFor};
    ghost use Rattle.ua_chunk.specs.Gathered.{filled, bodies, gathered};
    ghost use Rattle.ua_chunk.specs.Pending.{nothing_of};
    ghost use Rattle.ua_chunk.specs.View.{delivered_items, HasParts};

    /// An assembler for messages of at most `octets` bytes and `chunks` chunks, 0 meaning no limit,
    /// that continues after the SequenceNumber `last`, if there was one.
    pub fn new(alloc: Global, octets: u32, chunks: u32, last: Option<u32>) -> Assembler
        ensures stands { Stands result [] }
        ensures last { last_number result ≡ last }
        ensures octets { octet_limit result ≡ octets }
        ensures chunks { chunk_limit result ≡ chunks }
    {
        Assembler {
            alloc,
            octets,
            chunks,
            last,
            closed: false,
            pending: PendingMessages::new(alloc),
        }
    }

    /// Why a chunk is refused whose message was taken out; allocations are not considered.
    #[inline(always)]
    fn refusal(&self, pending: &Pending, chunk: &Chunk) -> Option<AssembleFault>
        ensures { result ≡ refusal_kept self.now pending.now chunk.now }
    {
        if !follows(self.last, chunk.sequence) {
            return Some(AssembleFault::Sequence);
        }
        let aborts = chunk.flag.is_abort();
        if aborts && !abort::is_readable(chunk.body.as_slice()) {
            return Some(AssembleFault::Unreadable);
        }
        if chunk.flag.is_more() && self.pending.len() >= MOST_OPEN {
            return Some(AssembleFault::TooManyOpen);
        }
        if !aborts && sum_passes(self.octets, pending.message.len(), chunk.body.len()) {
            return Some(AssembleFault::MessageTooLarge);
        }
        if !aborts && sum_passes(self.chunks, pending.chunks as usize, 1) {
            return Some(AssembleFault::TooManyChunks);
        }
        None
    }

    /// Appends a chunk to its message, which was taken out.
    #[inline(always)]
    fn add(&mut self, mut pending: Pending, chunk: Chunk) -> Result<Option<Delivered>, AllocError>
        ensures given { IfOk result (λ d. delivered_items d ≡ given_kept pending chunk) }
        ensures parts { IfOk result (λ d. HasParts d (pending.message ++ filled (chunk.body ∷ []))) }
        ensures pending { OnOk result (self.new.pending ≡ self.old.pending ++ put_back pending chunk) }
        ensures last { OnOk result (self.new.last ≡ Some chunk.sequence) }
        ensures closed { self.new.closed ≡ self.old.closed }
        ensures limits { SameLimits self.old self.new }
    {
        self.last = Some(chunk.sequence);
        match chunk.flag {
            Flag::F => {
                pending.add(self.alloc, chunk.body)?;
                Ok(Some(Delivered::Whole(chunk.request, pending.message)))
            }
            Flag::C => {
                pending.add(self.alloc, chunk.body)?;
                self.pending.put(pending)?;
                Ok(None)
            }
            Flag::A => {
                let abort = abort::read(self.alloc, chunk.body.as_slice())?;
                Ok(abort.map(|(code, reason)| Delivered::Aborted(chunk.request, code, reason)))
            }
        }
    }

    /// Whether a chunk is a whole message, no other is unfinished, and nothing is against it. Nearly
    /// each chunk is one.
    #[inline(always)]
    fn takes_alone(&self, chunk: &Chunk) -> bool
        ensures { IsTrue result → (self.now.closed ≡ false) × (self.now.pending ≡ []) × (chunk.now.flag ≡ Final)
            × (refusal_kept self.now (nothing_of chunk.now.request) chunk.now ≡ None) }
    {
        if self.closed || !self.pending.is_empty() || !matches!(chunk.flag, Flag::F) {
            return false;
        }
        follows(self.last, chunk.sequence)
            && !sum_passes(self.octets, 0, chunk.body.len())
            && !sum_passes(self.chunks, 0, 1)
    }

    /// Takes the next chunk, as [`Assembler::accept`] does.
    #[inline(never)]
    fn accept_among(&mut self, chunk: Chunk) -> Result<Option<Delivered>, AssembleFault>
        ensures given { (cs : List Chunk) → Stands self.old cs →
            IfOk result (λ d. delivered (cs ++ chunk ∷ []) ≡ delivered cs ++ delivered_items d) }
        ensures items { (cs : List Chunk) → Stands self.old cs → IfOk result (λ d. given cs chunk ≡ delivered_items d) }
        ensures parts { (cs : List Chunk) → Stands self.old cs
            → IfOk result (λ d. HasParts d (bodies (gathered cs chunk))) }
        ensures stands { (cs : List Chunk) → Stands self.old cs → OnOk result (Stands self.new (cs ++ chunk ∷ [])) }
        ensures last { OnOk result (last_number self.new ≡ Some chunk.sequence) }
        ensures limits { SameLimits self.old self.new }
        ensures faults { (cs : List Chunk) → Stands self.old cs →
            let reason = chunk_refusal (octet_limit self.old) (chunk_limit self.old) (last_number self.old) cs chunk in
            MatchResult result (λ _. reason ≡ None) (IsFor reason) }
        ensures failed { (cs : List Chunk) → Stands self.old cs → OnErr result (IsClosed self.new) }
        ensures closed { IsClosed self.old → (result ≡ Err AssembleFault.Closed) × IsClosed self.new }
        ensures unchanged { IsClosed self.old → self.new ≡ self.old }
    {
        if self.closed {
            return Err(AssembleFault::Closed);
        }
        let _chunks = self.chunks;
        let pending = self.pending.take_out(chunk.request);
        if let Some(fault) = self.refusal(&pending, &chunk) {
            self.close();
            return Err(fault);
        }
        match self.add(pending, chunk) {
            Ok(delivered) => Ok(delivered),
            Err(_) => {
                self.close();
                Err(AssembleFault::OutOfMemory)
            }
        }
    }

    /// Takes the next chunk, and returns the message that it ends, if it ends one. After a fault
    /// the assembler takes nothing more.
    #[inline(always)]
    pub fn accept(&mut self, chunk: Chunk) -> Result<Option<Delivered>, AssembleFault>
        // What is returned is what the chunks deliver with this one, and did not deliver without
        // it.
        ensures given { (cs : List Chunk) → Stands self.old cs →
            IfOk result (λ d. delivered (cs ++ chunk ∷ []) ≡ delivered cs ++ delivered_items d) }
        ensures items { (cs : List Chunk) → Stands self.old cs → IfOk result (λ d. given cs chunk ≡ delivered_items d) }
        // The bodies are not joined: the parts are the non-empty bodies of the chunks, in order.
        ensures parts { (cs : List Chunk) → Stands self.old cs
            → IfOk result (λ d. HasParts d (bodies (gathered cs chunk))) }
        ensures stands { (cs : List Chunk) → Stands self.old cs → OnOk result (Stands self.new (cs ++ chunk ∷ [])) }
        ensures last { OnOk result (last_number self.new ≡ Some chunk.sequence) }
        ensures limits { SameLimits self.old self.new }

        // A fault is the first reason that applies. After a fault nothing is taken, and nothing
        // changes.
        ensures faults { (cs : List Chunk) → Stands self.old cs →
            let reason = chunk_refusal (octet_limit self.old) (chunk_limit self.old) (last_number self.old) cs chunk in
            MatchResult result (λ _. reason ≡ None) (IsFor reason) }
        ensures failed { (cs : List Chunk) → Stands self.old cs → OnErr result (IsClosed self.new) }
        ensures closed { IsClosed self.old → (result ≡ Err AssembleFault.Closed) × IsClosed self.new }
        ensures unchanged { IsClosed self.old → self.new ≡ self.old }
    {
        let _chunks = self.chunks;
        if self.takes_alone(&chunk) {
            self.last = Some(chunk.sequence);
            return Ok(Some(Delivered::Whole(chunk.request, Message::with_body(chunk.body))));
        }
        self.accept_among(chunk)
    }

    /// Takes the SequenceNumber of a frame that is not part of a message: an OPN or a CLO.
    pub fn step(&mut self, sequence: u32) -> Result<(), AssembleFault>
        ensures stands { (cs : List Chunk) → Stands self.old cs → OnOk result (Stands self.new cs) }
        ensures last { OnOk result (last_number self.new ≡ Some sequence) }
        ensures limits { SameLimits self.old self.new }
        ensures follows { (cs : List Chunk) → Stands self.old cs →
            MatchResult result (λ _. IsTrue (may_follow (last_number self.old) sequence))
            (λ fault. (fault ≡ AssembleFault.Sequence) × IsFalse (may_follow (last_number self.old) sequence)) }
        ensures failed { (cs : List Chunk) → Stands self.old cs → OnErr result (IsClosed self.new) }
        ensures closed { IsClosed self.old → (result ≡ Err AssembleFault.Closed) × IsClosed self.new }
        ensures unchanged { IsClosed self.old → self.new ≡ self.old }
    {
        if self.closed {
            return Err(AssembleFault::Closed);
        }
        if !follows(self.last, sequence) {
            self.close();
            return Err(AssembleFault::Sequence);
        }
        self.last = Some(sequence);
        Ok(())
    }

    fn close(&mut self)
        ensures closed { IsClosed self.new }
        ensures limits { SameLimits self.old self.new }
    {
        self.closed = true;
        self.pending.clear();
    }

    /// The number of bytes held of unfinished messages.
    #[inline]
    pub fn held(&self) -> usize
        ensures held { (cs : List Chunk) → Stands self.now cs → result ≡ open_octets cs }
        ensures bound { (cs : List Chunk) → Stands self.now cs → 0 < octet_limit self.now
            → result ≤ 4 * octet_limit self.now }
        ensures closed { IsClosed self.now → result ≡ 0 }
    {
        self.pending.held()
    }

    /// The number of unfinished messages.
    #[inline]
    pub fn open_count(&self) -> usize
        ensures count { (cs : List Chunk) → Stands self.now cs → result ≡ length (open_ids cs) }
        ensures closed { IsClosed self.now → result ≡ 0 }
    {
        self.pending.len()
    }
}
