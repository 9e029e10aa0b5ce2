//! The texts of values that the program `ua` prints, exact or in human-readable form, and the
//! names of StatusCodes.
//!
//! The contract: an exact text is a function of the value. In a human-readable one each Float and
//! Double that is a number is a decimal that is parsed back as it, and all else is as defined.
//!
//! ```
//! let mut out = String::new(alloc);
//! push_variant(alloc, &mut out, &value)?; // `Double 0x4035800000000000`
//! push_plain_variant(alloc, &mut out, &value, false)?; // `Double 21.5`
//! push_code_as(&mut out, status, true)?; // `80340000 BadNodeIdUnknown`
//! ```
#![tactic(auto)]

mod marks;
mod names;
mod plain;
mod plain_diagnostic;
mod plain_leaf;
mod plain_parts;
mod status_codes;
mod text;
mod value;

pub use marks::Marks;
pub use names::{code_name, push_code_as};
pub use plain::{push_plain_scalar, push_plain_variant};
pub use plain_diagnostic::push_diagnostic;
pub use plain_leaf::{push_double, push_float, push_moment, push_plain_localized, push_plain_name};
pub use text::{
    push_base64, push_code, push_encoded, push_escaped, push_escaped_string, push_guid,
    push_pattern, push_string, push_wide_pattern,
};
pub use value::{push_scalar, push_variant, type_name};
