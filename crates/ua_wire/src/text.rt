//! String.

use crate::counted::{FIRST_NEGATIVE, NULL_COUNT, take_octets, text_of};
use crate::fault::ReadFault;
use crate::short_text::{SHORT, ShortText};
use crate::source::Source;
use crate::wire::Wire;
use std::alloc::{AllocError, Global};
use std::fmt;
use std::hash::{Hash, Hasher};
use std::marker::Model;

/// A String: a text, or null, which differs from the empty text (OPC 10000-6, 5.2.2.4). A text of
/// at most 30 bytes that was decoded, copied or made by [`UaString::from_str`] is stored in the
/// value itself, without an allocation.
pub struct UaString {
    held: Held,
}

/// Where the text stands.
#[derive(Drop)]
enum Held {
    Null,
    Short(ShortText),
    Long(String),
}

// By hand, not derived: a derived drop is spelled out, field by field, in each function of each
// crate that lets a value go without a call, and its lifetimes with it; this one is called.
impl Drop for UaString {
    fn drop(self) {
        let UaString { held } = self;
        drop(held);
    }
}

impl Model for UaString {
    ghost use Rattle.std.specs.Prelude.{Option, List, ℕ};
    ghost use Rattle.ua_wire.specs.Held.{held_text};

    ghost Value = { Option (List ℕ) };

    ghost view = { λ s. held_text s.held };
}

impl UaString {
    ghost use Rattle.std.specs.Prelude.{◌≡◌, option_map, is_some, string_bytes, None, Some, IfOk, IsTrue};
    ghost use Rattle.ua_wire.specs.Counted.{is_text};

    /// Makes a String of this text, or the null one for `None`.
    #[inline]
    pub fn new(text: Option<String>) -> UaString
        ensures { result ≡ option_map string_bytes text }
    {
        let held = match text {
            Some(text) => Held::Long(text),
            None => Held::Null,
        };
        UaString { held }
    }

    /// The null String.
    #[inline]
    pub fn null() -> UaString
        ensures { result ≡ None }
    {
        UaString { held: Held::Null }
    }

    /// Makes a String with a copy of this text.
    pub fn from_str(alloc: Global, text: &str) -> Result<UaString, AllocError>
        ensures { IfOk result (λ s. s ≡ Some text.now) }
    {
        let held = match ShortText::of(text) {
            Some(text) => Held::Short(text),
            None => Held::Long(String::from_str(alloc, text)?),
        };
        Ok(UaString { held })
    }

    /// The text, or `None` for null. It is valid UTF-8, whatever the String was made from.
    #[inline]
    #[tactic(auto, using(crate::proofs::FrontsRead::is_utf8_string))]
    pub fn as_str(&self) -> Option<&str>
        ensures text { option_map (λ t. t.now) result ≡ self.now }
        ensures utf8 { IsTrue (is_text self.now) }
    {
        match &self.held {
            Held::Null => None,
            Held::Short(text) => Some(text.as_str()),
            Held::Long(text) => Some(text.as_str()),
        }
    }

    /// Whether the String is not null.
    #[inline]
    pub fn is_some(&self) -> bool
        ensures { result ≡ is_some self.now }
    {
        !matches!(self.held, Held::Null)
    }

    /// Returns the text by value; allocates if it is stored in the value itself.
    pub fn into_string(self, alloc: Global) -> Result<Option<String>, AllocError>
        ensures { IfOk result (λ text. option_map string_bytes text ≡ self) }
    {
        let UaString { held } = self;
        match held {
            Held::Null => Ok(None),
            Held::Short(text) => Ok(Some(String::from_str(alloc, text.as_str())?)),
            Held::Long(text) => Ok(Some(text)),
        }
    }

    /// Returns an owned copy, equal to this value.
    pub fn try_clone(&self) -> Result<UaString, AllocError>
        ensures { IfOk result (λ v. v ≡ self.now) }
    {
        let held = match &self.held {
            Held::Null => Held::Null,
            Held::Short(text) => Held::Short(text.copy()),
            Held::Long(text) => match ShortText::of(text.as_str()) {
                Some(text) => Held::Short(text),
                None => Held::Long(text.clone()?),
            },
        };
        Ok(UaString { held })
    }
}

impl fmt::Debug for UaString {
    fn fmt<W: fmt::Write>(&self, f: &mut fmt::Formatter<W>) -> fmt::Result {
        f.debug_struct("UaString")
            .field("text", &self.as_str())
            .finish()
    }
}

impl PartialEq for UaString {
    ghost use Rattle.std.specs.Cmp.{partial_equiv_from_equiv};
    ghost use Rattle.ua_wire.specs.Same.{is_same};
    ghost use Rattle.ua_wire.specs.SameLaws.{is_same_equivalence};

    ghost eq = { is_same };

    ghost laws = { partial_equiv_from_equiv is_same_equivalence };

    #[tactic(auto, using(crate::proofs::Seen::seen))]
    fn eq(&self, other: &UaString) -> bool {
        self.as_str() == other.as_str()
    }
}

impl Eq for UaString {
    ghost use Rattle.ua_wire.specs.SameLaws.{is_same_equivalence};

    ghost laws = { is_same_equivalence };
}

impl Hash for UaString {
    ghost use Rattle.ua_wire.specs.Same.{text_hashed};
    ghost use Rattle.ua_wire.specs.SameLaws.{text_alike};

    ghost hash_input = { text_hashed };

    ghost respects_eq = { text_alike };

    #[tactic(auto, using(crate::proofs::Seen::seen))]
    fn hash<H: Hasher>(&self, state: &mut H) {
        self.as_str().hash(state);
    }
}

impl Wire for UaString {
    ghost use Rattle.ua_wire.specs.Counted.{text, IsOverlong};
    ghost use Rattle.ua_wire.specs.Format.{flat};

    ghost format = { flat text };

    ghost overlong = { IsOverlong };

    #[inline]
    #[tactic(auto, using(crate::proofs::CountedLawful::lawful_text))]
    fn lawful() {}

    #[inline]
    #[tactic(auto, unfolding(crate::specs::Counted::text, crate::specs::Counted::counted))]
    fn read_value<S: Source>(
        alloc: Global,
        src: &mut S,
        depth: u32,
    ) -> Result<UaString, ReadFault> {
        let count = u32::read_value(alloc, src, depth)?;
        if count >= FIRST_NEGATIVE {
            return Ok(UaString::null());
        }
        if count as usize <= SHORT {
            let text = ShortText::read(src, count as usize)?;
            return Ok(UaString {
                held: Held::Short(text),
            });
        }
        let octets = take_octets(alloc, src, count as usize)?;
        match text_of(octets) {
            Some(text) => Ok(UaString {
                held: Held::Long(text),
            }),
            None => Err(ReadFault::NoValue),
        }
    }

    #[tactic(auto, unfolding(crate::specs::Counted::text, crate::specs::Counted::counted))]
    fn is_encodable(&self) -> bool {
        match self.as_str() {
            None => true,
            Some(text) => text.len() < FIRST_NEGATIVE as usize,
        }
    }

    #[inline(always)]
    #[tactic(auto, unfolding(crate::specs::Counted::text, crate::specs::Counted::counted))]
    fn append(&self, out: &mut Vec<u8>) -> Result<(), AllocError> {
        match &self.held {
            Held::Null => NULL_COUNT.append(out)?,
            Held::Short(text) => text.append(out)?,
            Held::Long(text) => {
                (text.len() as u32).append(out)?;
                out.extend_from_slice(text.as_bytes())?;
            }
        }
        Ok(())
    }
}
