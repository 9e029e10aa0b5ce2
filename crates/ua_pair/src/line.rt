//! Lines of UA TCP messages and of messages.

ghost use Rattle.std.specs.Fmt.{decimal};
ghost use Rattle.std.specs.Prelude.{◌≡◌, ◌≤◌, ◌+◌, ◌++◌, codes, length, string_bytes, OnOk};
ghost use Rattle.arrayvec.specs.ArrayString.{array_string_len};
ghost use Rattle.ua_pair.specs.Lines.{numbers_text, flag_text, opening_line, chunk_line, message_line};
ghost use Rattle.ua_pair.specs.Lines.{aborted_line, left_out, rest_line, refused_line, chunk_head};

use arrayvec::ArrayString;
use itoa::Buffer;
use std::alloc::AllocError;
use ua_builtin::{StatusCode, Wire};
use ua_chunk::{Chunk, Flag, OpenChunk};
use ua_frame::{Ack, ErrorFrame, Hello};
use ua_texts::{push_code_as, push_string};

/// The most bytes of numbers and words that are gathered before they are appended: a number has at
/// most 20 digits.
const MOST_GATHERED: usize = 192;

/// A message that is printed as a line: the body of a HEL, an ACK or an ERR.
pub trait GreetingLine: Wire + Drop {
    ghost use Rattle.std.specs.Prelude.{◌≡◌, ◌++◌, ℕ, Bool, List, Option, string_bytes, OnOk};
    ghost use Rattle.ua_builtin.specs.Format.{Flat, IsWhole};
    ghost use Rattle.ua_frame.specs.Whole.{whole_of};

    /// The encoding of the message.
    ghost message: { Flat Self };

    /// The line of the message in a UA TCP message at this offset, of this size, with or without
    /// the names of StatusCodes.
    ghost line: { Bool → ℕ → ℕ → Self → List ℕ };

    /// Appends the line of the message in a UA TCP message at this offset, of this size.
    fn push_line(
        &self,
        lines: &mut String,
        names: bool,
        place: usize,
        size: usize,
    ) -> Result<(), AllocError>
        ensures { OnOk result (string_bytes lines.new ≡ string_bytes lines.old ++ line names place size self.now) };

    /// What all of the bytes are decoded as is what they encode.
    ghost reads: { (octets : List ℕ) (read : Option Self) → IsWhole Self.format octets read
        → whole_of message octets ≡ read };
}

impl GreetingLine for Hello {
    ghost use Rattle.ua_frame.specs.Messages.{hello};
    ghost use Rattle.ua_frame.proofs.MessagesLawful.{sound_hello};
    ghost use Rattle.ua_frame.proofs.Wholes.{whole_read};
    ghost use Rattle.ua_pair.specs.Lines.{hello_line};

    ghost message = { hello };

    ghost line = { λ names. hello_line };

    ghost reads = { whole_read hello sound_hello };

    fn push_line(
        &self,
        lines: &mut String,
        _names: bool,
        place: usize,
        size: usize,
    ) -> Result<(), AllocError> {
        push_number(lines, "", place as u64)?;
        push_number(lines, " HEL ", size as u64)?;
        push_numbers(
            lines,
            self.protocol_version,
            self.receive_buffer_size,
            self.send_buffer_size,
            self.max_message_size,
            self.max_chunk_count,
        )?;
        lines.push_str(" url ")?;
        push_string(lines, &self.endpoint_url)?;
        push_newline(lines)
    }
}

impl GreetingLine for Ack {
    ghost use Rattle.ua_frame.specs.Messages.{ack};
    ghost use Rattle.ua_frame.proofs.MessagesLawful.{sound_ack};
    ghost use Rattle.ua_frame.proofs.Wholes.{whole_read};
    ghost use Rattle.ua_pair.specs.Lines.{ack_line};

    ghost message = { ack };

    ghost line = { λ names. ack_line };

    ghost reads = { whole_read ack sound_ack };

    fn push_line(
        &self,
        lines: &mut String,
        _names: bool,
        place: usize,
        size: usize,
    ) -> Result<(), AllocError> {
        push_number(lines, "", place as u64)?;
        push_number(lines, " ACK ", size as u64)?;
        push_numbers(
            lines,
            self.protocol_version,
            self.receive_buffer_size,
            self.send_buffer_size,
            self.max_message_size,
            self.max_chunk_count,
        )?;
        push_newline(lines)
    }
}

impl GreetingLine for ErrorFrame {
    ghost use Rattle.ua_frame.specs.Messages.{error};
    ghost use Rattle.ua_frame.proofs.MessagesLawful.{sound_error};
    ghost use Rattle.ua_frame.proofs.Wholes.{whole_read};
    ghost use Rattle.ua_pair.specs.Lines.{error_line};

    ghost message = { error };

    ghost line = { error_line };

    ghost reads = { whole_read error sound_error };

    fn push_line(
        &self,
        lines: &mut String,
        names: bool,
        place: usize,
        size: usize,
    ) -> Result<(), AllocError> {
        push_number(lines, "", place as u64)?;
        push_number(lines, " ERR ", size as u64)?;
        lines.push_str(" code ")?;
        push_code_as(lines, self.error, names)?;
        lines.push_str(" reason ")?;
        push_string(lines, &self.reason)?;
        push_newline(lines)
    }
}

/// Appends the numbers that a HEL and an ACK have.
fn push_numbers(
    lines: &mut String,
    version: u32,
    receive: u32,
    send: u32,
    message: u32,
    chunks: u32,
) -> Result<(), AllocError>
    ensures { OnOk result (string_bytes lines.new ≡ string_bytes lines.old ++ numbers_text version receive send message
        chunks) }
{
    push_number(lines, " version ", version as u64)?;
    push_number(lines, " receive ", receive as u64)?;
    push_number(lines, " send ", send as u64)?;
    push_number(lines, " message ", message as u64)?;
    push_number(lines, " chunks ", chunks as u64)
}

/// Appends a word and the decimal digits of a number.
fn push_number(lines: &mut String, word: &str, number: u64) -> Result<(), AllocError>
    ensures { OnOk result (string_bytes lines.new ≡ string_bytes lines.old ++ (word.now ++ decimal number)) }
{
    lines.push_str(word)?;
    lines.push_str(Buffer::new().format(number))
}

/// Appends a word, the decimal digits of a number, and the end of the line.
fn push_ended(lines: &mut String, word: &str, number: u64) -> Result<(), AllocError>
    ensures { OnOk result
        (string_bytes lines.new ≡ string_bytes lines.old ++ (word.now ++ (decimal number ++ codes "\n"))) }
{
    push_number(lines, word, number)?;
    push_newline(lines)
}

/// Ends a line.
#[inline]
pub(crate) fn push_newline(lines: &mut String) -> Result<(), AllocError>
    ensures { OnOk result (string_bytes lines.new ≡ string_bytes lines.old ++ codes "\n") }
{
    lines.push_str("\n")
}

/// The letter of a flag.
fn flag_letter(flag: Flag) -> &'static str
    ensures { result.now ≡ flag_text flag }
{
    match flag {
        Flag::F => "F",
        Flag::C => "C",
        Flag::A => "A",
    }
}

/// Appends the line of an OPN at this offset, of this size.
pub(crate) fn push_opening_line(
    lines: &mut String,
    place: usize,
    size: usize,
    chunk: &OpenChunk,
) -> Result<(), AllocError>
    ensures { OnOk result (string_bytes lines.new ≡ string_bytes lines.old ++ opening_line place size chunk.now) }
{
    push_number(lines, "", place as u64)?;
    push_number(lines, " OPN F ", size as u64)?;
    push_number(lines, " channel ", chunk.channel as u64)?;
    push_number(lines, " sequence ", chunk.sequence as u64)?;
    push_number(lines, " request ", chunk.request as u64)?;
    push_newline(lines)
}

/// Adds a word and the decimal digits of a number to a text that has room for them.
#[inline(always)]
fn gather_number(text: &mut ArrayString<MOST_GATHERED>, word: &str, number: u64)
    requires room { array_string_len text.old + (length word.now + 20) ≤ 192 }
    ensures bytes { text.new.bytes ≡ text.old.bytes ++ (word.now ++ decimal number) }
    ensures long { array_string_len text.new ≤ array_string_len text.old + (length word.now + 20) }
{
    text.push_str(word);
    text.push_str(Buffer::new().format(number));
}

/// Appends what is gathered.
#[inline(always)]
fn push_gathered(lines: &mut String, text: &ArrayString<MOST_GATHERED>) -> Result<(), AllocError>
    ensures { OnOk result (string_bytes lines.new ≡ string_bytes lines.old ++ text.now.bytes) }
{
    lines.push_str(text.as_str())
}

/// The offset, the name, the flag and the size of a MSG or a CLO.
#[inline(always)]
fn chunk_start(name: &str, place: usize, size: usize, flag: Flag) -> ArrayString<MOST_GATHERED>
    requires { length name.now ≤ 3 }
    ensures bytes { result.bytes ≡ chunk_head name.now place size flag }
    ensures long { array_string_len result ≤ 47 }
{
    let mut text = ArrayString::new();
    gather_number(&mut text, "", place as u64);
    text.push_str(" ");
    text.push_str(name);
    text.push_str(" ");
    text.push_str(flag_letter(flag));
    gather_number(&mut text, " ", size as u64);
    text
}

/// Appends the line of a MSG or a CLO, by its name, at this offset, of this size.
// A text on the stack costs a third of what a String does that is appended to as often.
pub(crate) fn push_chunk_line(
    lines: &mut String,
    name: &str,
    place: usize,
    size: usize,
    chunk: &Chunk,
) -> Result<(), AllocError>
    requires { length name.now ≤ 3 }
    ensures { OnOk result
        (string_bytes lines.new ≡ string_bytes lines.old ++ chunk_line name.now place size chunk.now) }
{
    let mut text = chunk_start(name, place, size, chunk.flag);
    gather_number(&mut text, " channel ", chunk.channel as u64);
    gather_number(&mut text, " token ", chunk.token as u64);
    gather_number(&mut text, " sequence ", chunk.sequence as u64);
    gather_number(&mut text, " request ", chunk.request as u64);
    text.push_str("\n");
    push_gathered(lines, &text)
}

/// Appends the line of a message of this many bytes, with its RequestId, up to its name.
pub(crate) fn push_message_start(
    lines: &mut String,
    request: u32,
    size: usize,
    name: &str,
) -> Result<(), AllocError>
    ensures { OnOk result (string_bytes lines.new ≡ string_bytes lines.old
        ++ (codes "message " ++ decimal request ++ codes " octets " ++ decimal size ++ codes " " ++ name.now)) }
{
    let mut text = ArrayString::new();
    gather_number(&mut text, "message ", request as u64);
    gather_number(&mut text, " octets ", size as u64);
    text.push_str(" ");
    push_gathered(lines, &text)?;
    lines.push_str(name)
}

/// Appends the line of a message of this many bytes, with its RequestId.
pub(crate) fn push_message_line(
    lines: &mut String,
    request: u32,
    size: usize,
    name: &str,
) -> Result<(), AllocError>
    ensures { OnOk result (string_bytes lines.new ≡ string_bytes lines.old ++ message_line request size name.now) }
{
    push_message_start(lines, request, size, name)?;
    push_newline(lines)
}

/// Appends the line of a message that its sender aborted.
pub(crate) fn push_aborted_line(
    lines: &mut String,
    names: bool,
    request: u32,
    code: StatusCode,
) -> Result<(), AllocError>
    ensures { OnOk result (string_bytes lines.new ≡ string_bytes lines.old ++ aborted_line names request code) }
{
    push_number(lines, "message ", request as u64)?;
    lines.push_str(" aborted ")?;
    push_code_as(lines, code, names)?;
    push_newline(lines)
}

/// Appends the line that stands for the fields of a body of more bytes than this.
#[tactic(auto, unfolding(crate::specs::Lines::left_out))]
pub(crate) fn push_left_out(lines: &mut String, largest: usize) -> Result<(), AllocError>
    ensures { OnOk result (string_bytes lines.new ≡ string_bytes lines.old ++ left_out largest) }
{
    push_number(
        lines,
        "  fields left out: the body has more than ",
        largest as u64,
    )?;
    lines.push_str(" bytes\n")
}

/// Appends the last line, if the UA TCP messages end at this offset and this many bytes are left.
pub(crate) fn push_rest_line(
    lines: &mut String,
    place: usize,
    left: usize,
) -> Result<(), AllocError>
    ensures { OnOk result (string_bytes lines.new ≡ string_bytes lines.old ++ rest_line place left) }
{
    if left == 0 {
        push_ended(lines, "end ", place as u64)
    } else {
        push_ended(lines, "rest ", left as u64)
    }
}

/// Appends the last line, if the UA TCP message at this offset is rejected.
pub(crate) fn push_refused_line(
    lines: &mut String,
    names: bool,
    place: usize,
    code: StatusCode,
) -> Result<(), AllocError>
    ensures { OnOk result (string_bytes lines.new ≡ string_bytes lines.old ++ refused_line names place code.code) }
{
    lines.push_str("refused ")?;
    push_code_as(lines, code, names)?;
    push_ended(lines, " at ", place as u64)
}
