//! Values as texts that denote them.

ghost use Rattle.std.specs.Prelude.{◌≡◌, ◌⊎◌, ◌++◌, ◌∷◌, IfErr, IfOk, MatchOption, Ok, false, true, string_bytes};
ghost use Rattle.ua_variant.specs.View.{variant_of};
ghost use Rattle.ua_c.specs.Spelled.{EncodesBy, HasNoSpace, IsBack, IsNotBack, IsSpelled};
ghost use Rattle.ua_c.specs.Spelled.{IsSpelling, IsSpellingOf, LacksSpelling, SpellsTo, is_plain};
ghost use Rattle.ua_c.specs.Status.{no_memory, no_text};

use crate::status::{BAD_OCTETS, NO_MEMORY, NO_TEXT, TEXT_VALUE};
use crate::texts::{encoding_of, put, value_by};
use std::alloc::{AllocError, Global};
use ua_builtin::Wire;
use ua_texts::{push_plain_variant, push_variant};
use ua_variant::Variant;

/// A type and a text with a space between, and how many bytes the type has.
#[derive(Drop)]
struct Spelling {
    text: String,
    kind: usize,
}

/// The type and the text of a value, in human-readable form if this is wanted.
fn spell(alloc: Global, value: &Variant, plain: bool) -> Result<String, AllocError>
    ensures { IfOk result (λ text. IsSpelled plain (variant_of value.now) (string_bytes text)) }
{
    let mut text = String::new(alloc);
    if plain {
        push_plain_variant(alloc, &mut text, value, false)?;
    } else {
        push_variant(alloc, &mut text, value)?;
    }
    Ok(text)
}

/// Whether a type and a text denote the value with this canonical encoding.
#[tactic(auto, using(crate::proofs::Spelling::not_named, crate::proofs::Spelling::not_same, crate::proofs::Spelling::not_encoded))]
fn is_back(
    alloc: Global,
    kind: &[u8],
    text: &[u8],
    plain: bool,
    canonical: &[u8],
) -> Result<bool, u32>
    ensures back { result ≡ Ok true → IsBack plain kind.now text.now canonical.now }
    ensures not_back { result ≡ Ok false → ¬ (IsBack plain kind.now text.now canonical.now) }
    ensures fault { IfErr result (λ status. status ≡ no_memory) }
{
    let value = match value_by(alloc, kind, text, plain) {
        Ok(value) => value,
        Err(bad) if bad.status == NO_MEMORY => return Err(NO_MEMORY),
        Err(_) => return Ok(false),
    };
    let encoding = encoding_of(alloc, &value);
    drop(value);
    match encoding {
        Ok(octets) => Ok(octets.as_slice() == canonical),
        Err(NO_MEMORY) => Err(NO_MEMORY),
        Err(_) => Ok(false),
    }
}

/// What comes before the first space, and what after it.
fn part(text: &str) -> Option<(&str, &str)>
    ensures { MatchOption result (HasNoSpace text.now) (λ x. (text.now ≡ x.0.now ++ 32 ∷ x.1.now)
        × HasNoSpace x.0.now) }
{
    text.split_once(' ')
}

/// The type and the text of a value with this canonical encoding, where they denote it.
#[tactic(auto, using(crate::proofs::Spelling::without_space, crate::proofs::Spelling::not_parts))]
fn spell_back(
    alloc: Global,
    value: &Variant,
    plain: bool,
    canonical: &[u8],
) -> Result<Spelling, u32>
    ensures spelling { IfOk result (λ made. IsSpellingOf plain canonical.now (string_bytes made.text) made.kind) }
    ensures printed { IfOk result (λ made. IsSpelled plain (variant_of value.now) (string_bytes made.text)) }
    ensures fault { IfErr result (λ status. (status ≡ no_memory)
        ⊎ ((status ≡ no_text) × IsNotBack plain (variant_of value.now) canonical.now)) }
{
    let Ok(text) = spell(alloc, value, plain) else {
        return Err(NO_MEMORY);
    };
    let Some((kind, rest)) = part(&text) else {
        return Err(NO_TEXT);
    };
    let back = is_back(alloc, kind.as_bytes(), rest.as_bytes(), plain, canonical);
    let kind = kind.len();
    match back {
        Ok(true) => Ok(Spelling { text, kind }),
        Ok(false) => Err(NO_TEXT),
        Err(status) => Err(status),
    }
}

/// The type and the text of the value that bytes encode, where they denote it.
#[tactic(auto, using(crate::proofs::Spelling::not_written))]
fn spelling_of(alloc: Global, octets: &[u8], plain: bool) -> Result<Spelling, u32>
    ensures spelling { IfOk result (λ made. IsSpelling plain octets.now (string_bytes made.text) made.kind) }
    ensures fault { IfErr result (λ status. LacksSpelling plain octets.now status) }
{
    let value = match Variant::read_whole(alloc, octets) {
        Ok(Some(value)) => value,
        Ok(None) => return Err(BAD_OCTETS),
        Err(_) => return Err(NO_MEMORY),
    };
    let made = match encoding_of(alloc, &value) {
        Ok(canonical) => spell_back(alloc, &value, plain, canonical.as_slice()),
        Err(NO_MEMORY) => Err(NO_MEMORY),
        Err(_) => Err(NO_TEXT),
    };
    drop(value);
    made
}

/// The type and the text, with a space between, of the value that bytes encode, where they denote
/// just this value; in human-readable form where `plain` is not 0.
#[unsafe(no_mangle)]
pub extern "C" fn ua_value_text(
    alloc: Global,
    octets: &[u8],
    plain: u32,
    buffer: &mut [u8],
    needed: &mut usize,
    name_size: &mut usize,
) -> u32
    ensures { SpellsTo (is_plain plain) octets.now buffer.old buffer.new needed.new name_size.new result }
{
    *needed = 0;
    *name_size = 0;
    match spelling_of(alloc, octets, plain != 0) {
        Ok(Spelling { text, kind }) => {
            *name_size = kind;
            put(text.as_bytes(), buffer, needed)
        }
        Err(status) => status,
    }
}

/// The canonical encoding of the value that a type and a text denote, in human-readable form where
/// `plain` is not 0.
#[unsafe(no_mangle)]
pub extern "C" fn ua_text_value(
    alloc: Global,
    kind: &[u8],
    text: &[u8],
    plain: u32,
    buffer: &mut [u8],
    needed: &mut usize,
    reason: &mut u32,
) -> u32
    ensures { EncodesBy (is_plain plain) kind.now text.now buffer.old buffer.new needed.new reason.new result }
{
    *needed = 0;
    *reason = 0;
    let value = match value_by(alloc, kind, text, plain != 0) {
        Ok(value) => value,
        Err(bad) => {
            *reason = bad.text;
            return bad.status;
        }
    };
    let encoding = encoding_of(alloc, &value);
    drop(value);
    match encoding {
        Ok(octets) => put(octets.as_slice(), buffer, needed),
        Err(status) => {
            *reason = TEXT_VALUE;
            status
        }
    }
}
