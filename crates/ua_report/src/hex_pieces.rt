//! Bytes that arrive as hexadecimal digits, in fragments.

ghost use Rattle.std.specs.Prelude.{Ok, ◌≡◌, ◌%◌, ◌++◌, ◌⊎◌, ℕ, List, length, is_none, IfOk, IfErr, option_to_list};
ghost use Rattle.hex.specs.Hex.{decode_of};
ghost use Rattle.ua_report.specs.Digits.{digits_in, HexSoFar, IsNeverHex};
ghost use Rattle.ua_report.specs.declared.fault.Fault.TheVariants.{NoMemory, NotHexadecimal};

use crate::fault::Fault;
use hex::FromHexError;
use std::alloc::{AllocError, Global};

/// Hexadecimal digits that arrive in any fragments, among white space; two of them are a byte.
#[derive(Clone, Copy, Debug)]
pub struct HexPieces {
    /// A digit whose pair has not arrived.
    pub half: Option<u8>,
}

/// The bytes without ASCII white space.
fn without_white_space(alloc: Global, octets: &[u8]) -> Result<Vec<u8>, AllocError>
    ensures { IfOk result (λ digits. digits.items ≡ digits_in octets.now) }
{
    octets
        .iter()
        .copied()
        .filter(|octet| !octet.is_ascii_whitespace())
        .collect(alloc)
}

/// Takes the last digit off where it has no pair.
fn split_half(digits: &mut Vec<u8>) -> Option<u8>
    ensures parts { digits.old.items ≡ digits.new.items ++ option_to_list result }
    ensures pairs { length digits.new.items % 2 ≡ 0 }
{
    if digits.len() % 2 == 1 {
        digits.pop()
    } else {
        None
    }
}

/// The bytes that the digits of a file denote.
fn decode_digits<'a>(alloc: Global, file: &'a str, digits: &[u8]) -> Result<Vec<u8>, Fault<'a>>
    ensures octets { IfOk result (λ octets. decode_of digits.now ≡ Ok octets.items) }
    ensures faults { IfErr result (λ fault. (fault ≡ NoMemory)
        ⊎ ((fault ≡ NotHexadecimal file.entry) × ((octets : List ℕ) → ¬ (decode_of digits.now ≡ Ok octets)))) }
{
    match hex::decode(alloc, digits) {
        Ok(octets) => Ok(octets),
        Err(FromHexError::OutOfMemory) => Err(Fault::NoMemory),
        Err(_) => Err(Fault::NotHexadecimal(file)),
    }
}

impl HexPieces {
    /// Nothing has arrived.
    pub fn new() -> HexPieces
        ensures { result.half ≡ None }
    {
        HexPieces { half: None }
    }

    /// Whether each digit has its pair.
    pub fn is_whole(&self) -> bool
        ensures { result ≡ is_none self.now.half }
    {
        self.half.is_none()
    }

    /// The digit that is left, and after it those of a fragment.
    fn digits(&self, alloc: Global, piece: &[u8]) -> Result<Vec<u8>, AllocError>
        ensures { IfOk result (λ digits. digits.items ≡ option_to_list self.now.half ++ digits_in piece.now) }
    {
        let mut digits = Vec::new(alloc);
        if let Some(half) = self.half {
            digits.push(half)?;
        }
        let fresh = without_white_space(alloc, piece)?;
        digits.extend_from_slice(fresh.as_slice())?;
        Ok(digits)
    }

    /// The bytes of the pairs of digits that are complete with a fragment.
    pub fn take<'a>(
        &mut self,
        alloc: Global,
        file: &'a str,
        piece: &[u8],
    ) -> Result<Vec<u8>, Fault<'a>>
        ensures octets { (content octets : List ℕ) → HexSoFar self.old.half content octets
            → IfOk result (λ more. HexSoFar self.new.half (content ++ piece.now) (octets ++ more.items)) }
        ensures faults { (content octets : List ℕ) → HexSoFar self.old.half content octets
            → IfErr result
            (λ fault. (fault ≡ NoMemory)
            ⊎ ((fault ≡ NotHexadecimal file.entry) × IsNeverHex (content ++ piece.now))) }
    {
        let mut digits = self.digits(alloc, piece)?;
        self.half = split_half(&mut digits);
        decode_digits(alloc, file, digits.as_slice())
    }
}
