//! Paths of fields and elements.

ghost use Rattle.std.specs.Prelude.{◌≡◌, ◌≤◌, ◌+◌, length, string_bytes, IfOk};
ghost use Rattle.ua_fields.specs.Paths.{path_octets};
ghost use Rattle.ua_fields.specs.Tree.{element_path, field_path};

use arrayvec::ArrayString;
use itoa::Buffer;
use std::alloc::{AllocError, Global};

/// The most bytes of a path that is kept without an allocation.
const MOST_SHORT: usize = 96;

/// The most bytes of an index in brackets.
const INDEX_LEN: usize = 22;

/// A path, which is short in nearly every message.
#[derive(Drop)]
pub(crate) enum PathText {
    Short(ArrayString<MOST_SHORT>),
    Long(String),
}

impl PathText {
    ghost use Rattle.std.specs.Prelude.{◌≡◌};
    ghost use Rattle.ua_fields.specs.Paths.{path_octets};

    /// The path as a text.
    #[inline]
    pub(crate) fn as_str(&self) -> &str
        ensures { result.now ≡ path_octets self.now }
    {
        match self {
            PathText::Short(text) => text.as_str(),
            PathText::Long(text) => text.as_str(),
        }
    }
}

/// The path of a field, where it is short.
#[inline(always)]
fn short_field(path: &str, name: &str) -> ArrayString<MOST_SHORT>
    requires { length path.now + length name.now + 1 ≤ 96 }
    ensures { result.bytes ≡ field_path path.now name.now }
{
    let mut text = ArrayString::new();
    text.push_str(path);
    if !path.is_empty() {
        text.push_str(".");
    }
    text.push_str(name);
    text
}

/// The path of a field, on the heap.
#[inline(never)]
fn long_field(alloc: Global, path: &str, name: &str) -> Result<String, AllocError>
    ensures { IfOk result (λ inner. string_bytes inner ≡ field_path path.now name.now) }
{
    let room = path.len().saturating_add(name.len()).saturating_add(1);
    let mut inner = String::with_capacity(alloc, room)?;
    inner.push_str(path)?;
    if !path.is_empty() {
        inner.push_str(".")?;
    }
    inner.push_str(name)?;
    Ok(inner)
}

/// The path of a field.
pub(crate) fn path_of_field(alloc: Global, path: &str, name: &str) -> Result<PathText, AllocError>
    ensures { IfOk result (λ inner. path_octets inner ≡ field_path path.now name.now) }
{
    if path.len() < MOST_SHORT && name.len() < MOST_SHORT - path.len() {
        return Ok(PathText::Short(short_field(path, name)));
    }
    Ok(PathText::Long(long_field(alloc, path, name)?))
}

/// The path of an element, where it is short.
#[inline(always)]
fn short_element(path: &str, index: usize) -> ArrayString<MOST_SHORT>
    requires { length path.now + 22 ≤ 96 }
    ensures { result.bytes ≡ element_path path.now index }
{
    let mut text = ArrayString::new();
    text.push_str(path);
    text.push_str("[");
    text.push_str(Buffer::new().format(index as u64));
    text.push_str("]");
    text
}

/// The path of an element, on the heap.
#[inline(never)]
fn long_element(alloc: Global, path: &str, index: usize) -> Result<String, AllocError>
    ensures { IfOk result (λ inner. string_bytes inner ≡ element_path path.now index) }
{
    let mut inner = String::with_capacity(alloc, path.len().saturating_add(INDEX_LEN))?;
    inner.push_str(path)?;
    inner.push_str("[")?;
    inner.push_str(Buffer::new().format(index as u64))?;
    inner.push_str("]")?;
    Ok(inner)
}

/// The path of an element.
pub(crate) fn path_of_element(
    alloc: Global,
    path: &str,
    index: usize,
) -> Result<PathText, AllocError>
    ensures { IfOk result (λ inner. path_octets inner ≡ element_path path.now index) }
{
    if path.len() <= MOST_SHORT - INDEX_LEN {
        return Ok(PathText::Short(short_element(path, index)));
    }
    Ok(PathText::Long(long_element(alloc, path, index)?))
}
