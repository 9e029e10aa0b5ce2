//! Index ranges (OPC 10000-4, 7.27).

ghost use Rattle.std.specs.Prelude.{◌≡◌, ◌+◌, ◌-◌, is_some};
ghost use Rattle.ua_nodes.specs.Range.{range, single_index, between, asked_range};

use crate::number::WholeNumber;
use ua_builtin::UaString;

/// The places of an array from the first to the last, counted from 0.
#[derive(Clone, Copy)]
pub(crate) struct IndexRange {
    pub(crate) first: u32,
    /// Within the range.
    pub(crate) last: u32,
}

impl IndexRange {
    /// How many places there are.
    pub(crate) fn len(self) -> usize
        ensures { result ≡ self.last + 1 - self.first }
    {
        (self.last as usize + 1).saturating_sub(self.first as usize)
    }

    /// The range that a text names, if there is a text and it names one.
    pub(crate) fn asked(text: &UaString) -> Option<IndexRange>
        ensures { result ≡ asked_range text.now }
    {
        IndexRange::parse(text.as_str()?)
    }

    /// Parses `n` as the position n, and `n:m` as the positions from n to m.
    fn parse(text: &str) -> Option<IndexRange>
        ensures { result ≡ range text.now }
    {
        match text.split_once(':') {
            Some((first, last)) => IndexRange::between(first, last),
            None => IndexRange::single(text),
        }
    }

    fn single(text: &str) -> Option<IndexRange>
        ensures { result ≡ single_index text.now }
    {
        let place = u32::from_text(text)?;
        Some(IndexRange {
            first: place,
            last: place,
        })
    }

    fn between(first: &str, last: &str) -> Option<IndexRange>
        ensures { result ≡ between first.now last.now }
    {
        let first = u32::from_text(first)?;
        let last = u32::from_text(last)?;
        if first < last {
            Some(IndexRange { first, last })
        } else {
            None
        }
    }
}

/// Whether a text is a NumericRange as the items of Read and Write may have: `n` or `n:m`
/// (OPC 10000-4, 7.27).
pub fn is_range(text: &str) -> bool
    ensures { result ≡ is_some (range text.now) }
{
    IndexRange::parse(text).is_some()
}
