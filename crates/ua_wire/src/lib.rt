//! Bytes and the values that they encode (OPC 10000-6, 5.2): sources of bytes, the trait of types
//! with a binary encoding, and the encodings of Booleans, numbers, Strings, ByteStrings and pairs,
//! from which all others are made.
//!
//! The contract is that of [`Wire`]: `read` consumes exactly the prefix that encodes a value,
//! returns `NoValue` only if no prefix encodes one, and `write` appends the one canonical encoding.
//!
//! ```
//! let mut src = Octets::new(&octets);
//! let name = UaString::read(alloc, &mut src, MOST_LEVELS)?; // consumes exactly its bytes
//! let size = u32::read(alloc, &mut src, MOST_LEVELS)?; // what follows it
//! if src.left() != 0 {
//!     return Err(ReadFault::NoValue); // more than these two: the caller refuses it
//! }
//! let mut out = Vec::new(alloc);
//! name.write(&mut out)?; // appends its one canonical encoding
//! size.write(&mut out)?;
//! let again = <(UaString, u32)>::read_whole(alloc, &out)?; // `Some` of the two
//! ```
#![tactic(auto)]

mod append;
mod boolean;
mod byte_string;
mod counted;
mod double_bits;
mod fault;
mod float_bits;
mod fronts;
pub mod laws;
mod numbers;
mod pairs;
mod parts;
mod short_text;
mod signed;
mod skip;
mod source;
mod text;
mod wire;

pub use append::{append_three, append_two};
pub use byte_string::UaBytes;
pub use counted::{FIRST_NEGATIVE, NULL_COUNT, fill_octets};
pub use double_bits::DoubleBits;
pub use fault::{ReadFault, WriteFault};
pub use float_bits::FloatBits;
pub use fronts::{front_number, is_text, split_counted, split_number};
pub use parts::Parts;
pub use skip::Skip;
pub use source::{Octets, Source};
pub use text::UaString;
pub use wire::{MOST_LEVELS, Wire};
