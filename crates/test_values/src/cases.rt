//! What the cases of a table go through.

use std::alloc::Global;
use std::process::Abort;
use std::test::Fail;
use ua_builtin::{Wire, WriteFault};

/// The bytes that words of hexadecimal digits name; `99*40` is 40 ninety-nine times.
pub fn octets(alloc: Global, words: &str) -> Result<Vec<u8>, Fail> {
    let mut octets = Vec::new(alloc);
    for word in words.split_whitespace() {
        match word.split_once('*') {
            None => push_times(alloc, 1, word, &mut octets)?,
            Some((times, word)) => push_times(alloc, times.parse()?, word, &mut octets)?,
        }
    }
    Ok(octets)
}

fn push_times(alloc: Global, times: u32, digits: &str, octets: &mut Vec<u8>) -> Result<(), Fail> {
    let part = hex::decode(alloc, digits)?;
    for _ in 0..times {
        octets.extend_from_slice(part.as_slice())?;
    }
    Ok(())
}

/// The value that bytes are decoded as, with nothing after it.
pub fn value<T: Wire + Drop>(alloc: Global, words: &str) -> Result<T, Fail> {
    let octets = octets(alloc, words)?;
    match T::read_whole(alloc, octets.as_slice())? {
        Some(value) => Ok(value),
        None => Err(Fail::new("the bytes are no value")),
    }
}

/// Asserts what is written for a value: these bytes, or where they are `unwritable` nothing. A write
/// that lacked memory has appended nothing, and is tried again.
pub fn writes<T: Wire>(
    rt: &(impl Abort + AllocGlobal),
    value: &T,
    expected: &str,
) -> Result<(), Fail> {
    let mut out = [1, 2].to_vec(rt.alloc())?;
    let mut answer = value.write(&mut out);
    if answer == Err(WriteFault::OutOfMemory) {
        assert_eq!(rt; out.as_slice(), [1, 2].as_slice());
        answer = value.write(&mut out);
    }
    let mut wanted = [1, 2].to_vec(rt.alloc())?;
    if expected == "unwritable" {
        assert_eq!(rt; answer, Err(WriteFault::NotWritable));
    } else {
        wanted.extend_from_slice(octets(rt.alloc(), expected)?.as_slice())?;
        assert_eq!(rt; answer, Ok(()), "{expected}");
    }
    assert_eq!(rt; out.as_slice(), wanted.as_slice());
    Ok(())
}

/// Asserts that bytes are decoded as a value, for which the `same` or other bytes are written, or
/// that is `unwritable`; or as `none`.
pub fn check<T: Wire + Drop>(
    rt: &(impl Abort + AllocGlobal),
    words: &str,
    expected: &str,
) -> Result<(), Fail> {
    let octets = octets(rt.alloc(), words)?;
    match T::read_whole(rt.alloc(), octets.as_slice())? {
        None => assert_eq!(rt; expected, "none", "{words}"),
        Some(value) => {
            let expected = if expected == "same" { words } else { expected };
            let answer = writes(rt, &value, expected);
            drop(value);
            answer?;
        }
    }
    Ok(())
}

/// A text to print into. It says nothing of being empty: a proof that knew it would unfold all that
/// is printed.
pub fn page(alloc: Global) -> String {
    String::new(alloc)
}
