//! The parts of values that hold values, decoded and encoded: fields that an encoding mask
//! announces, the dimensions of arrays, and DiagnosticInfo (OPC 10000-6, 5.2.2.12).
//!
//! The contract is that of `Wire` and of `Skip` for DiagnosticInfo, over the relation
//! `EncodesDiagnostic`, with exact `depth`, `count`, `writable` and `try_clone`; `Dimensions` and
//! the functions of `field` are for the crate above, which uses them to decode and encode Variants
//! and DataValues.
//!
//! ```
//! let mut src = Octets::new(&octets);
//! let info = DiagnosticInfo::read(alloc, &mut src, MOST_LEVELS)?;
//! let levels = info.depth(); // one more than that of the inner DiagnosticInfo
//! let copy = info.try_clone(alloc)?;
//! if copy.writable() {
//!     copy.write(&mut out)?; // the encoding mask, and the fields that are present
//! }
//! let sizes = Dimensions::none(alloc); // of an array without dimensions
//! ```
#![tactic(auto)]

mod diagnostic_info;
mod diagnostic_wire;
mod dimensions;
pub mod field;

pub use diagnostic_info::{BoxedDiagnostic, DiagnosticInfo};
pub use diagnostic_wire::{append_boxed_diagnostic, read_diagnostic, skip_diagnostic};
pub use dimensions::{
    Dimensions, append_dims, dims_fit, is_counted, read_dims, read_no_dims, skip_dims,
};
