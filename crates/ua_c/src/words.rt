//! The library's version, and words for its numbers and those of the standard.

ghost use Rattle.std.specs.Prelude.{◌≡◌, option_map};
ghost use Rattle.ua_c.specs.Words.{PutsWord, text_of_status, version};
ghost use Rattle.ua_texts.specs.Names.{name_of_code};

use crate::status::{
    BAD_LIMITS, BAD_NODES, BAD_OCTETS, BAD_READING, BAD_SIDE, BAD_TEXT, CLOSED, EMPTY, ENDED,
    EXHAUSTED, FETCH_FIRST, MISMATCH, NO_HANDLE, NO_MEMORY, NO_MORE, NO_POLICY, NO_TEXT, NOT_OPEN,
    OK, OTHER_HANDLE, REFUSED, RENEW_PENDING, SERVICE, TOO_LARGE, TOO_MANY_PENDING,
    TOO_MANY_TOKENS, TOO_SMALL, UNKNOWN,
};
use crate::texts::put;
use ua_builtin::StatusCode;
use ua_texts::code_name;

/// The version 0.1.0: 65536 times the first number, 256 times the second, and the third.
const VERSION: u32 = 0x000100;

/// The version of the library.
#[unsafe(no_mangle)]
pub extern "C" fn ua_version() -> u32
    ensures { result ≡ version }
{
    VERSION
}

/// A text for a status.
fn text_of_status(status: u32) -> Option<&'static str>
    ensures { option_map (λ text. text.now) result ≡ text_of_status status }
{
    match status {
        OK => Some("the call did what it is for"),
        NO_MEMORY => Some("memory was refused"),
        BAD_LIMITS => Some("the limits are below the least"),
        BAD_NODES => Some("a line of the node file is none"),
        NO_HANDLE => Some("the handle holds nothing"),
        CLOSED => Some("the connection ended or failed before"),
        REFUSED => Some("the connection was refused"),
        ENDED => Some("the client closed the connection"),
        FETCH_FIRST => Some("octets wait to be fetched"),
        BAD_TEXT => Some("a text is none of those that the call takes"),
        OTHER_HANDLE => Some("the handle holds a machine of the other kind"),
        NOT_OPEN => Some("the channel is not open"),
        TOO_MANY_PENDING => Some("64 calls are unanswered"),
        RENEW_PENDING => Some("a renewal is unanswered"),
        TOO_MANY_TOKENS => Some("16 tokens are held"),
        EXHAUSTED => Some("all request ids were used"),
        TOO_LARGE => Some("the server takes no message of so many octets or chunks"),
        EMPTY => Some("the body of a call is empty"),
        TOO_SMALL => Some("the buffer is too small"),
        BAD_SIDE => Some("there is no such side"),
        BAD_OCTETS => Some("the octets encode nothing that the call takes"),
        SERVICE => Some("the service failed"),
        UNKNOWN => Some("the response is that of another request, or nothing has this number"),
        MISMATCH => Some("the node takes no value of this type"),
        BAD_READING => Some("the reading has no value within the octets, or no source time"),
        NO_MORE => Some("nothing more is there"),
        NO_POLICY => Some("no endpoint has a token policy that fits"),
        NO_TEXT => Some("the value has no text that denotes it"),
        _ => None,
    }
}

/// Puts a text into a buffer, if there is one.
fn put_word(text: Option<&'static str>, buffer: &mut [u8], needed: &mut usize) -> u32
    ensures { PutsWord (option_map (λ word. word.now) text.entry) buffer.old buffer.new needed.new result }
{
    match text {
        Some(text) => put(text.as_bytes(), buffer, needed),
        None => {
            *needed = 0;
            UNKNOWN
        }
    }
}

/// What a status means, in a few words.
#[unsafe(no_mangle)]
pub extern "C" fn ua_status_text(status: u32, buffer: &mut [u8], needed: &mut usize) -> u32
    ensures { PutsWord (text_of_status status) buffer.old buffer.new needed.new result }
{
    let text = text_of_status(status);
    put_word(text, buffer, needed)
}

/// The standard's name of a StatusCode (OPC 10000-6, A.2).
#[unsafe(no_mangle)]
pub extern "C" fn ua_code_name(code: u32, buffer: &mut [u8], needed: &mut usize) -> u32
    ensures { PutsWord (name_of_code code) buffer.old buffer.new needed.new result }
{
    let name = code_name(StatusCode { code });
    put_word(name, buffer, needed)
}
