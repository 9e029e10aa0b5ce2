//! The bits of the encoding masks of DataValues and Variants.

// DataValue (OPC 10000-6, 5.2.2.17).

/// A DataValue has a value.
pub const VALUE: u8 = 0x01;

/// A DataValue has a status.
pub const STATUS: u8 = 0x02;

/// A DataValue has a SourceTimestamp.
pub const SOURCE_TIMESTAMP: u8 = 0x04;

/// A DataValue has a ServerTimestamp.
pub const SERVER_TIMESTAMP: u8 = 0x08;

/// A DataValue has an addition to the SourceTimestamp.
pub const SOURCE_PICOSECONDS: u8 = 0x10;

/// A DataValue has an addition to the ServerTimestamp.
pub const SERVER_PICOSECONDS: u8 = 0x20;

/// The bits that the encoding mask of a DataValue may have.
pub const KNOWN_FLAGS: u8 = 0x3F;

// Variant (OPC 10000-6, 5.2.2.16).

/// The bits of the type id in the first byte of an array.
pub const TYPE_ID: u8 = 0x3F;

/// An array has dimensions.
pub const DIMENSIONS: u8 = 0x40;

/// A Variant is an array.
pub const ARRAY: u8 = 0x80;
