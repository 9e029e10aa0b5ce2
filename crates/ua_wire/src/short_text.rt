//! Short texts, which stand in their own value.

ghost use Rattle.std.specs.Prelude.{◌≡◌, ◌<◌, ◌≤◌, ◌++◌, length, true, IfSome, IsErrOf, OnOk, OnErr};
ghost use Rattle.std.specs.Str.{is_utf8};
ghost use Rattle.ua_wire.specs.Counted.{octets_at};
ghost use Rattle.ua_wire.specs.Exact.{such_read};
ghost use Rattle.ua_wire.specs.Format.{Gives, StaysBehind, Extends};
ghost use Rattle.ua_wire.specs.Number.{number_octets};
ghost use Rattle.ua_wire.specs.declared.fault.ReadFault.TheVariants.{NoValue};

use crate::counted::fill_octets;
use crate::fault::ReadFault;
use crate::source::Source;
use byteorder::{ByteOrder, LittleEndian};
use std::alloc::AllocError;
use std::marker::Model;

/// The most bytes of a short text. With its length and the mark that it is short, it takes the room
/// in which a longer text, which stands elsewhere, is named.
pub(crate) const SHORT: usize = 30;

/// The bytes of a count.
const COUNT: usize = 4;

/// A text of at most 30 bytes.
#[derive(Drop)]
pub(crate) struct ShortText {
    len: u8,
    octets: [u8; SHORT],
}

impl Model for ShortText {
    ghost use Rattle.std.specs.Prelude.{◌≡◌, ◌≤◌, ℕ, List, take, true};
    ghost use Rattle.std.specs.Str.{is_utf8};

    ghost Value = { List ℕ };

    ghost view = { λ t. take t.len t.octets };

    ghost invariant = { λ t. (t.len ≤ 30) × (is_utf8 (take t.len t.octets) ≡ true) };
}

impl ShortText {
    /// The text, if it is short.
    #[inline]
    pub(crate) fn of(text: &str) -> Option<ShortText>
        ensures { IfSome result (λ t. t ≡ text.now) }
    {
        if text.len() > SHORT {
            return None;
        }
        let mut octets = [0; SHORT];
        octets[..text.len()].copy_from_slice(text.as_bytes());
        Some(ShortText {
            len: text.len() as u8,
            octets,
        })
    }

    /// Reads a text of that many bytes.
    #[inline]
    pub(crate) fn read<S: Source>(src: &mut S, count: usize) -> Result<ShortText, ReadFault>
        requires { count ≤ 30 }
        ensures exact { Gives (such_read is_utf8 (octets_at count)) (S.octets src.old) (S.octets src.new) result }
        ensures behind { StaysBehind (S.octets src.old) (S.octets src.new) }
        ensures long { length (S.octets src.old) < count → IsErrOf result NoValue }
    {
        let mut octets = [0; SHORT];
        fill_octets(src, &mut octets[..count])?;
        if !simdutf8::is_utf8(&octets[..count]) {
            return Err(ReadFault::NoValue);
        }
        Ok(ShortText {
            len: count as u8,
            octets,
        })
    }

    /// The text.
    #[inline]
    pub(crate) fn as_str(&self) -> &str
        ensures text { result.now ≡ self.now }
        ensures utf8 { is_utf8 self.now ≡ true }
    {
        // Its bytes are UTF-8, as those of each short text.
        unsafe { std::str::from_utf8_unchecked(&self.octets[..self.len as usize]) }
    }

    /// The same text.
    #[inline]
    pub(crate) fn copy(&self) -> ShortText
        ensures { result ≡ self.now }
    {
        ShortText {
            len: self.len,
            octets: self.octets,
        }
    }
    /// Appends its bytes after their count, by one copy.
    #[inline]
    pub(crate) fn append(&self, out: &mut Vec<u8>) -> Result<(), AllocError>
        ensures ok { OnOk result (out.new.items ≡ out.old.items ++ (number_octets 4 (length self.now) ++ self.now)) }
        ensures err { OnErr result (Extends out.old.items out.new.items) }
    {
        let mut octets = [0; COUNT + SHORT];
        LittleEndian::write_u32(&mut octets[..COUNT], u32::from(self.len));
        octets[COUNT..].copy_from_slice(&self.octets);
        out.extend_from_slice(&octets[..COUNT + self.len as usize])?;
        Ok(())
    }
}
