//! Numbers in texts.

ghost use Rattle.std.specs.Prelude.{◌≡◌, ◌<◌, ◌≤◌, ◌^◌, ℕ, List, Option, Result, None, IfSome, slice_index, ◌≢◌};
ghost use Rattle.std.specs.Result.{result_ok};
ghost use Rattle.ua_nodes.specs.ValueText.{pattern_denoted};

use std::str::FromStr;

/// A whole number, as texts denote it: decimal digits, with a `-` before them below zero.
pub trait WholeNumber: FromStr {
    /// The number that a text denotes.
    ghost denoted: { List ℕ → Option Self };

    /// Shows that parsing gives just that number where no `+` stands in front, and that no number
    /// begins with `+`.
    fn lawful()
        ensures exact { (text : List ℕ) (r : Result Self Self.Err) → Self.from_str_gives text r
            → slice_index text 0 ≢ 43 → result_ok r ≡ denoted text }
        ensures plus { (text : List ℕ) → slice_index text 0 ≡ 43 → denoted text ≡ None };

    /// The number that the text denotes.
    final fn from_text(text: &str) -> Option<Self>
    where
        Self::Err: Drop,
        ensures { result ≡ denoted text.now }
    {
        Self::lawful();
        if text.starts_with('+') {
            return None;
        }
        Self::from_str(text).ok()
    }
}

impl WholeNumber for u8 {
    ghost use Rattle.ua_nodes.specs.ValueText.{unsigned_denoted};

    ghost denoted = { unsigned_denoted 8 };

    #[inline]
    #[tactic(auto, using(crate::proofs::Parsed::unsigned_plus))]
    fn lawful() {}
}

impl WholeNumber for u16 {
    ghost use Rattle.ua_nodes.specs.ValueText.{unsigned_denoted};

    ghost denoted = { unsigned_denoted 16 };

    #[inline]
    #[tactic(auto, using(crate::proofs::Parsed::unsigned_plus))]
    fn lawful() {}
}

impl WholeNumber for u32 {
    ghost use Rattle.ua_nodes.specs.ValueText.{unsigned_denoted};

    ghost denoted = { unsigned_denoted 32 };

    #[inline]
    #[tactic(auto, using(crate::proofs::Parsed::unsigned_plus))]
    fn lawful() {}
}

impl WholeNumber for u64 {
    ghost use Rattle.ua_nodes.specs.ValueText.{unsigned_denoted};

    ghost denoted = { unsigned_denoted 64 };

    #[inline]
    #[tactic(auto, using(crate::proofs::Parsed::unsigned_plus))]
    fn lawful() {}
}

impl WholeNumber for i8 {
    ghost use Rattle.ua_nodes.specs.ValueText.{signed_denoted};

    ghost denoted = { signed_denoted 7 };

    #[inline]
    #[tactic(auto, using(crate::proofs::Parsed::signed_plus))]
    fn lawful() {}
}

impl WholeNumber for i16 {
    ghost use Rattle.ua_nodes.specs.ValueText.{signed_denoted};

    ghost denoted = { signed_denoted 15 };

    #[inline]
    #[tactic(auto, using(crate::proofs::Parsed::signed_plus))]
    fn lawful() {}
}

impl WholeNumber for i32 {
    ghost use Rattle.ua_nodes.specs.ValueText.{signed_denoted};

    ghost denoted = { signed_denoted 31 };

    #[inline]
    #[tactic(auto, using(crate::proofs::Parsed::signed_plus))]
    fn lawful() {}
}

impl WholeNumber for i64 {
    ghost use Rattle.ua_nodes.specs.ValueText.{signed_denoted};

    ghost denoted = { signed_denoted 63 };

    #[inline]
    #[tactic(auto, using(crate::proofs::Parsed::signed_plus))]
    fn lawful() {}
}
