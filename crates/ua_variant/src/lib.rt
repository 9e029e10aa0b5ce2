//! The types of OPC UA Binary whose values hold values, decoded and encoded: Variant, DataValue and
//! DiagnosticInfo (OPC 10000-6, 5.2.2.12, 5.2.2.16 and 5.2.2.17).
//!
//! The contract is that of `Wire` and of `Skip` for the three, over the relations `EncodesVariant`,
//! `EncodesDataValue` and `EncodesDiagnostic`, with exact `depth`, `count`, `writable` and
//! `try_clone`. In contracts, values have no pointers or capacities, so `≡` is equality of values.
//!
//! ```
//! let five = Variant::One(Scalar::Int32(5));
//! let answer = DataValue {
//!     value: Some(HeldVariant::new(five)),
//!     status: None,
//!     source_timestamp: None,
//!     source_picoseconds: None,
//!     server_timestamp: None,
//!     server_picoseconds: None,
//! };
//! answer.write(&mut out)?; // 01 06 05 00 00 00
//! let read = DataValue::read(alloc, &mut Octets::new(out.as_slice()), MOST_LEVELS)?;
//! let levels = read.depth(); // 2: the DataValue and its Variant
//! ```
#![tactic(auto)]

mod blocks;
mod boxed;
mod clone;
mod encodable;
mod fields;
mod fixed_width;
pub mod laws;
mod leaf;
mod least;
pub mod masks;
mod measure;
mod onto;
mod packed;
mod read;
mod records;
mod skip;
mod values;
mod wire;
mod write;

pub use boxed::Boxed;
pub use packed::{Pack, Packed};
pub use ua_diagnostic::{BoxedDiagnostic, DiagnosticInfo, Dimensions};
pub use values::{
    BoxedDataValue, BoxedVariant, DataValue, Elements, HeldVariant, Scalar, Scalars, Variant,
};
