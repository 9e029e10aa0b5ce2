//! ByteString.

ghost use Rattle.std.specs.Prelude.{◌≡◌};

use crate::counted::{FIRST_NEGATIVE, NULL_COUNT, take_octets};
use crate::fault::ReadFault;
use crate::source::Source;
use crate::wire::Wire;
use std::alloc::{AllocError, Global};
use std::hash::{Hash, Hasher};
use std::marker::Model;

/// A ByteString: bytes, or null, which differs from a ByteString of no bytes (OPC 10000-6,
/// 5.2.2.7).
#[derive(Debug)]
pub struct UaBytes {
    octets: Option<Vec<u8>>,
}

// By hand, as that of `UaString`.
impl Drop for UaBytes {
    fn drop(self) {
        let UaBytes { octets } = self;
        drop(octets);
    }
}

impl Model for UaBytes {
    ghost use Rattle.std.specs.Prelude.{Option, option_map, List, ℕ};

    ghost Value = { Option (List ℕ) };

    ghost view = { λ b. option_map (λ v. v.items) b.octets };
}

impl UaBytes {
    ghost use Rattle.std.specs.Prelude.{◌≡◌, option_map, None, IfOk};

    /// Makes a ByteString of these bytes, or the null one for `None`.
    #[inline]
    pub fn new(octets: Option<Vec<u8>>) -> UaBytes
        ensures { result ≡ option_map (λ v. v.items) octets }
    {
        UaBytes { octets }
    }

    /// The null ByteString.
    #[inline]
    pub fn null() -> UaBytes
        ensures { result ≡ None }
    {
        UaBytes { octets: None }
    }

    /// The bytes, or `None` for a null ByteString.
    #[inline]
    pub fn as_octets(&self) -> Option<&[u8]>
        ensures { option_map (λ o. o.now) result ≡ self.now }
    {
        match &self.octets {
            Some(octets) => Some(octets.as_slice()),
            None => None,
        }
    }

    /// Returns the bytes by value, or `None` for a null ByteString.
    #[inline]
    pub fn into_octets(self) -> Option<Vec<u8>>
        ensures { option_map (λ v. v.items) result ≡ self }
    {
        let UaBytes { octets } = self;
        octets
    }

    /// Returns an owned copy, equal to this value.
    pub fn try_clone(&self) -> Result<UaBytes, AllocError>
        ensures { IfOk result (λ v. v ≡ self.now) }
    {
        let octets = match &self.octets {
            Some(octets) => Some(octets.clone()?),
            None => None,
        };
        Ok(UaBytes { octets })
    }
}

impl PartialEq for UaBytes {
    ghost use Rattle.std.specs.Cmp.{partial_equiv_from_equiv};
    ghost use Rattle.ua_wire.specs.Same.{is_same};
    ghost use Rattle.ua_wire.specs.SameLaws.{is_same_equivalence};

    ghost eq = { is_same };

    ghost laws = { partial_equiv_from_equiv is_same_equivalence };

    #[tactic(auto, using(crate::proofs::Seen::seen))]
    fn eq(&self, other: &UaBytes) -> bool {
        self.octets == other.octets
    }
}

impl Eq for UaBytes {
    ghost use Rattle.ua_wire.specs.SameLaws.{is_same_equivalence};

    ghost laws = { is_same_equivalence };
}

impl Hash for UaBytes {
    ghost use Rattle.ua_wire.specs.Same.{octets_hashed};
    ghost use Rattle.ua_wire.specs.SameLaws.{octets_alike};

    ghost hash_input = { octets_hashed };

    ghost respects_eq = { octets_alike };

    #[tactic(auto, using(crate::proofs::Seen::seen))]
    fn hash<H: Hasher>(&self, state: &mut H) {
        self.octets.hash(state);
    }
}

impl Wire for UaBytes {
    ghost use Rattle.ua_wire.specs.Counted.{counted, IsOverlong};
    ghost use Rattle.ua_wire.specs.Format.{flat};

    ghost format = { flat counted };

    ghost overlong = { IsOverlong };

    #[inline]
    #[tactic(auto, using(crate::proofs::CountedLawful::lawful_counted))]
    fn lawful() {}

    #[inline]
    #[tactic(auto, unfolding(crate::specs::Counted::counted))]
    fn read_value<S: Source>(alloc: Global, src: &mut S, depth: u32) -> Result<UaBytes, ReadFault> {
        let count = u32::read_value(alloc, src, depth)?;
        if count >= FIRST_NEGATIVE {
            return Ok(UaBytes { octets: None });
        }
        let octets = take_octets(alloc, src, count as usize)?;
        Ok(UaBytes {
            octets: Some(octets),
        })
    }

    #[tactic(auto, unfolding(crate::specs::Counted::counted))]
    fn is_encodable(&self) -> bool {
        match &self.octets {
            None => true,
            Some(octets) => octets.len() < FIRST_NEGATIVE as usize,
        }
    }

    #[tactic(auto, unfolding(crate::specs::Counted::counted))]
    fn append(&self, out: &mut Vec<u8>) -> Result<(), AllocError> {
        match &self.octets {
            None => NULL_COUNT.append(out)?,
            Some(octets) => {
                (octets.len() as u32).append(out)?;
                out.extend_from_slice(octets)?;
            }
        }
        Ok(())
    }
}
