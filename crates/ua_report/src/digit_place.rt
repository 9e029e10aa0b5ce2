//! Where a file stops being hexadecimal.

ghost use Rattle.std.specs.Prelude.{◌≡◌, ◌++◌, [], ℕ, List, true, false};
ghost use Rattle.std.specs.List.{position};
ghost use Rattle.ua_report.specs.Digits.{digits_before, is_no_digit, GoesOnHexadecimal, IsPlaceIn};
ghost use Rattle.ua_report.specs.declared.reason.Reason.TheVariants.{HalfPair, NoDigit};

use crate::reason::Reason;

/// Whether a byte is neither a hexadecimal digit nor white space.
fn is_no_digit(octet: u8) -> bool
    ensures { result ≡ is_no_digit octet }
{
    !octet.is_ascii_hexdigit() && !octet.is_ascii_whitespace()
}

/// The place of the first byte of a piece that is neither.
fn no_digit_in(piece: &[u8]) -> Option<usize>
    ensures { result ≡ position is_no_digit piece.now }
{
    piece.iter().position(|octet| is_no_digit(*octet))
}

/// How many bytes of a piece stand before the first that is neither; all where none is.
#[tactic(auto, using(crate::proofs::Places::first_or_all))]
fn digits_before(piece: &[u8]) -> usize
    ensures { result ≡ digits_before piece.now }
{
    no_digit_in(piece).unwrap_or(piece.len())
}

/// How many bytes of a file come before the first that is neither a digit nor white space; or
/// how many came, if none of them is such.
#[derive(Clone, Copy, Debug)]
pub struct DigitPlace {
    /// How many, up to 18446744073709551615.
    pub count: u64,
    /// Whether such a byte came.
    pub found: bool,
}

impl DigitPlace {
    /// Nothing has come.
    pub fn new() -> DigitPlace
        ensures { IsPlaceIn [] result }
    {
        DigitPlace {
            count: 0,
            found: false,
        }
    }

    /// Why a source with these bytes is not hexadecimal: such a byte, or else a digit without its
    /// pair.
    pub fn reason(self) -> Reason
        ensures place { self.found ≡ true → result ≡ NoDigit self.count }
        ensures half { self.found ≡ false → result ≡ HalfPair }
    {
        if self.found {
            Reason::NoDigit(self.count)
        } else {
            Reason::HalfPair
        }
    }

    /// Goes on by a piece.
    fn advance(&mut self, piece: &[u8])
        ensures kept { self.old.found ≡ true → self.new ≡ self.old }
        ensures next { self.old.found ≡ false → GoesOnHexadecimal self.old.count piece.now self.new }
    {
        if !self.found {
            let before = digits_before(piece);
            self.found = before < piece.len();
            self.count = self.count.saturating_add(before as u64);
        }
    }

    /// Takes the next bytes of a file: the place is then that in all of them.
    pub fn take(&mut self, piece: &[u8])
        ensures { (text : List ℕ) → IsPlaceIn text self.old → IsPlaceIn (text ++ piece.now) self.new }
    {
        self.advance(piece);
    }
}
