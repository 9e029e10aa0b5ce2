//! Numbers among the words.

ghost use Rattle.std.specs.Prelude.{◌≤◌, ℕ, IfNone, IfSome};
ghost use Rattle.ua_words.specs.Words.{IsAttributeNumber, IsPlaces, WritesNumber};

/// The number of the last attribute (OPC 10000-6, A.1).
const LAST_ATTRIBUTE: u16 = 27;

/// The most connections that are served at a time.
const MOST_PLACES: u16 = 1024;

/// The number from 1 to 65535 that decimal digits write.
pub(crate) fn parse_number(text: &str) -> Option<u16>
    ensures number { IfSome result (WritesNumber text.now) }
    ensures within { IfSome result (λ number. 1 ≤ number) }
    ensures none { IfNone result ((number : ℕ) → WritesNumber text.now number → number ≤ 65535 → ⊥) }
{
    u16::try_from(parse_size(text)?).ok()
}

/// The number of an attribute that decimal digits write.
pub(crate) fn parse_attribute(text: &str) -> Option<u32>
    ensures number { IfSome result (WritesNumber text.now) }
    ensures within { IfSome result IsAttributeNumber }
    ensures none { IfNone result ((number : ℕ) → WritesNumber text.now number → IsAttributeNumber number → ⊥) }
{
    let number = parse_number(text)?;
    if number > LAST_ATTRIBUTE {
        return None;
    }
    Some(u32::from(number))
}

/// The size in bytes that decimal digits write, from 1 to 4294967295.
pub fn parse_size(text: &str) -> Option<u32>
    ensures number { IfSome result (WritesNumber text.now) }
    ensures within { IfSome result (λ size. 1 ≤ size) }
    ensures none { IfNone result ((size : ℕ) → WritesNumber text.now size → size ≤ 4294967295 → ⊥) }
{
    if text.starts_with('+') {
        return None;
    }
    match text.parse::<u32>() {
        Ok(0) | Err(_) => None,
        Ok(size) => Some(size),
    }
}

/// The number of connections at a time that decimal digits write.
pub(crate) fn parse_places(text: &str) -> Option<u16>
    ensures number { IfSome result (WritesNumber text.now) }
    ensures within { IfSome result IsPlaces }
    ensures none { IfNone result ((number : ℕ) → WritesNumber text.now number → IsPlaces number → ⊥) }
{
    let number = parse_number(text)?;
    if number > MOST_PLACES {
        return None;
    }
    Some(number)
}
