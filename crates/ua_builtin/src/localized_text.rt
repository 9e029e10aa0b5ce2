//! LocalizedText.

use crate::flags;
use std::alloc::{AllocError, Global};
use ua_wire::{ReadFault, Source, UaString, Wire};

/// A text for people and its locale; either may be null (OPC 10000-6, 5.2.2.14; OPC 10000-3, 8.5).
#[derive(PartialEq, Eq, Debug, Drop)]
pub struct LocalizedText {
    pub locale: UaString,
    pub text: UaString,
}

const LOCALE: u8 = 0x01;

const TEXT: u8 = 0x02;

impl LocalizedText {
    ghost use Rattle.std.specs.Prelude.{◌≡◌, IfOk};

    /// Returns an owned copy, equal to this value.
    pub fn try_clone(&self) -> Result<LocalizedText, AllocError>
        ensures { IfOk result (λ v. v ≡ self.now) }
    {
        Ok(LocalizedText {
            locale: self.locale.try_clone()?,
            text: self.text.try_clone()?,
        })
    }
}

impl Wire for LocalizedText {
    ghost use Rattle.ua_wire.specs.Format.{flat};
    ghost use Rattle.ua_builtin.specs.LocalizedText.{localized_text};

    ghost format = { flat localized_text };

    #[inline]
    #[tactic(auto, using(crate::proofs::LocalizedTextLawful::lawful_localized_text))]
    fn lawful() {}

    #[tactic(auto, unfolding(crate::specs::LocalizedText::localized_text))]
    fn read_value<S: Source>(
        alloc: Global,
        src: &mut S,
        depth: u32,
    ) -> Result<LocalizedText, ReadFault> {
        let mask = u8::read_value(alloc, src, depth)?;
        if mask > LOCALE + TEXT {
            return Err(ReadFault::NoValue);
        }
        let locale = flags::read_flagged(alloc, src, depth, mask & LOCALE != 0)?;
        let text = flags::read_flagged(alloc, src, depth, mask & TEXT != 0)?;
        Ok(LocalizedText { locale, text })
    }

    #[tactic(auto, unfolding(crate::specs::LocalizedText::localized_text))]
    fn is_encodable(&self) -> bool {
        flags::is_flagged_encodable(&self.locale) && flags::is_flagged_encodable(&self.text)
    }

    #[tactic(auto, unfolding(crate::specs::LocalizedText::localized_text))]
    fn append(&self, out: &mut Vec<u8>) -> Result<(), AllocError> {
        let locale = flags::flag_of(LOCALE, self.locale.is_some());
        let text = flags::flag_of(TEXT, self.text.is_some());
        (locale + text).append(out)?;
        flags::append_flagged(&self.locale, out)?;
        flags::append_flagged(&self.text, out)
    }
}
