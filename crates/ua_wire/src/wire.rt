//! Types with a binary encoding.

ghost use Rattle.std.specs.Prelude.{◌≡◌, ◌≤◌, ◌+◌, ◌++◌, ℕ, List, length, IsTrue, IsFalse};
ghost use Rattle.std.specs.Prelude.{OnOk, OnErr, IfOk, IfErr, IsOk, IsErrOf, ◌↔◌};
ghost use Rattle.ua_wire.specs.Exact.{Begins};
ghost use Rattle.ua_wire.specs.Format.{Format, IsLawful, most_levels, Gives, Behind, StaysBehind, Extends, IsWhole};
ghost use Rattle.ua_wire.specs.declared.fault.ReadFault.TheVariants.{NoValue};
ghost use Rattle.ua_wire.specs.declared.fault.WriteFault.TheVariants.{NotWritable};

use crate::fault::{ReadFault, WriteFault};
use crate::source::{Octets, Source};
use std::alloc::{AllocError, Global};

/// The greatest nesting depth of a value that is decoded or encoded: each Variant, DataValue or
/// DiagnosticInfo inside another adds one (OPC 10000-6, 5.2.2.12 and 5.2.2.16).
pub const MOST_LEVELS: u32 = 100;

/// A type whose values have a binary encoding (OPC 10000-6, 5.2). Callers use `read` and `write`; a
/// type implements `lawful`, `read_value`, `is_encodable` and `append`.
pub trait Wire: Sized {
    /// Which bytes encode which value, the nesting depth of a value, and its canonical encoding.
    ghost format: { Format Self };

    /// Bytes whose first count exceeds what follows it: nothing is allocated for them.
    ghost overlong: { List ℕ → Type 0 } = { λ _. ⊥ };

    /// Decoding allocates nothing.
    ghost memoryless: { Type 0 } = { ⊥ };

    /// Shows that decoding finds exactly what is encoded, and that what is encoded is decoded.
    fn lawful()
        ensures { IsLawful format };

    /// Decodes the value at the start of the source, as decoding on lists does.
    fn read_value<S: Source>(alloc: Global, src: &mut S, depth: u32) -> Result<Self, ReadFault>
        requires levels { depth ≤ most_levels }
        ensures exact { Gives (format.decode depth) (S.octets src.old) (S.octets src.new) result }
        ensures behind { StaysBehind (S.octets src.old) (S.octets src.new) }
        ensures long { overlong (S.octets src.old) → IsErrOf result NoValue }
        ensures memory { memoryless → IfErr result (λ e. e ≡ NoValue) };

    /// Whether the value has a canonical encoding.
    fn is_encodable(&self) -> bool
        ensures { result ≡ format.encodable self.now };

    /// Appends the canonical encoding. After an error, part of it may have been appended.
    fn append(&self, out: &mut Vec<u8>) -> Result<(), AllocError>
        requires { IsTrue (format.encodable self.now) }
        ensures ok { OnOk result (out.new.items ≡ out.old.items ++ format.canonical self.now) }
        ensures err { OnErr result (Extends out.old.items out.new.items) };

    /// Decodes the value at the start of the source, of at most nesting depth `depth`, and consumes
    /// exactly its bytes. After an error, discard the source.
    #[inline]
    #[tactic(auto, using(crate::proofs::Behind::behind_is))]
    final fn read<S: Source>(alloc: Global, src: &mut S, depth: u32) -> Result<Self, ReadFault>
        requires levels { depth ≤ most_levels }
        ensures found { IfOk result (λ v. Begins format.encodes (S.octets src.old) v (S.octets src.new)) }
        ensures levels { IfOk result (λ v. format.depth v ≤ depth) }
        ensures counted { IfOk result (λ v. format.count v + length (S.octets src.new) ≤ length (S.octets src.old)) }
        ensures none { IsErrOf result NoValue → (v : Self) (front rest : List ℕ) → S.octets src.old ≡ front ++ rest
            → format.depth v ≤ depth → ¬ (format.encodes v front) }
        ensures behind { Behind (S.octets src.old) (S.octets src.new) }
        ensures long { overlong (S.octets src.old) → IsErrOf result NoValue }
        ensures memory { memoryless → IfErr result (λ e. e ≡ NoValue) }
    {
        Self::lawful();
        Self::read_value(alloc, src, depth)
    }

    /// The value that exactly these bytes encode, with nothing after it, or `None` if they encode
    /// none of at most [`MOST_LEVELS`] nesting depth.
    final fn read_whole(alloc: Global, octets: &[u8]) -> Result<Option<Self>, AllocError>
    where
        Self: Drop,
        ensures read { IfOk result (λ read. IsWhole format octets.now read) }
        ensures long { overlong octets.now → IsOk result }
        ensures memory { memoryless → IsOk result }
    {
        Self::lawful();
        let mut src = Octets::new(octets);
        match Self::read(alloc, &mut src, MOST_LEVELS) {
            Ok(value) if src.left() == 0 => Ok(Some(value)),
            Ok(_) => Ok(None),
            Err(ReadFault::NoValue) => Ok(None),
            Err(ReadFault::OutOfMemory) => Err(AllocError),
        }
    }

    /// Appends the canonical encoding. On an error the vector is unchanged.
    final fn write(&self, out: &mut Vec<u8>) -> Result<(), WriteFault>
        ensures ok { OnOk result (out.new.items ≡ out.old.items ++ format.canonical self.now) }
        ensures err { OnErr result (out.new.items ≡ out.old.items) }
        ensures refused { IsErrOf result NotWritable ↔ IsFalse (format.encodable self.now) }
    {
        if !self.is_encodable() {
            return Err(WriteFault::NotWritable);
        }
        let len = out.len();
        if self.append(out).is_err() {
            out.truncate(len);
            return Err(WriteFault::OutOfMemory);
        }
        Ok(())
    }
}
