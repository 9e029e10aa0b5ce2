//! The built-in types of OPC UA Binary, decoded and encoded (OPC 10000-6, 5.2.2).
//!
//! The contract is that of [`Wire`]: `read` consumes exactly the prefix that encodes a value,
//! returns `NoValue` only if no prefix encodes one, and `write` appends the one canonical encoding.
//!
//! ```
//! let pump = NodeId::parse_text(alloc, "ns=1;s=Pump")?;
//! let mut out = Vec::new(alloc);
//! pump.write(&mut out)?; // 03 01 00 04 00 00 00 and `Pump`
//! let mut src = Octets::new(out.as_slice());
//! let same = NodeId::read(alloc, &mut src, MOST_LEVELS)?;
//! let equal = same == pump; // true: they identify the same node
//! let text = same.to_text(alloc)?; // `ns=1;s=Pump` again
//! let now = DateTime { ticks: 116_444_736_000_000_000 }; // 1970-01-01
//! now.write(&mut out)?;
//! ```
#![tactic(auto)]

mod built_in_type;
mod date_time;
mod expanded_node_id;
mod extension_object;
mod fault;
pub mod flags;
mod guid;
pub mod laws;
mod localized_text;
mod node_id;
mod node_text;
mod qualified_name;
mod status_code;
mod xml_element;

pub use built_in_type::BuiltInType;
pub use date_time::DateTime;
pub use expanded_node_id::ExpandedNodeId;
pub use extension_object::{ExtensionBody, ExtensionObject};
pub use fault::TextFault;
pub use guid::Guid;
pub use localized_text::LocalizedText;
pub use node_id::{Identifier, NodeId};
pub use qualified_name::QualifiedName;
pub use status_code::StatusCode;
pub use ua_wire::{
    DoubleBits, FIRST_NEGATIVE, FloatBits, MOST_LEVELS, NULL_COUNT, Octets, Parts, ReadFault, Skip,
    Source, UaBytes, UaString, Wire, WriteFault,
};
pub use xml_element::XmlElement;
