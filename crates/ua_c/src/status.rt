//! The statuses of calls, as numbers.

/// The call did what it is for.
pub const OK: u32 = 0;
/// An allocation failed.
pub const NO_MEMORY: u32 = 1;
/// The limits are below the least.
pub const BAD_LIMITS: u32 = 2;
/// A line of the node file is malformed.
pub const BAD_NODES: u32 = 3;
/// The handle holds nothing.
pub const NO_HANDLE: u32 = 4;
/// The connection ended, or failed, before.
pub const CLOSED: u32 = 5;
/// The connection was rejected.
pub const REFUSED: u32 = 6;
/// The peer closed the connection.
pub const ENDED: u32 = 7;
/// Bytes wait to be fetched.
pub const FETCH_FIRST: u32 = 8;
/// A text is none of those that the call takes.
pub const BAD_TEXT: u32 = 9;
/// The handle is of another kind.
pub const OTHER_HANDLE: u32 = 10;
/// The channel of a client is not open.
pub const NOT_OPEN: u32 = 11;
/// 64 calls are unanswered.
pub const TOO_MANY_PENDING: u32 = 12;
/// A renewal is unanswered.
pub const RENEW_PENDING: u32 = 13;
/// 16 tokens are held.
pub const TOO_MANY_TOKENS: u32 = 14;
/// All RequestIds were used.
pub const EXHAUSTED: u32 = 15;
/// The server takes no message of this many bytes or chunks.
pub const TOO_LARGE: u32 = 16;
/// The body of a call is empty.
pub const EMPTY: u32 = 17;
/// The buffer is too small.
pub const TOO_SMALL: u32 = 18;
/// There is no such side.
pub const BAD_SIDE: u32 = 19;
/// The bytes do not encode what the call takes.
pub const BAD_OCTETS: u32 = 20;
/// The service failed.
pub const SERVICE: u32 = 21;
/// The response belongs to another request.
pub const UNKNOWN: u32 = 22;
/// The node takes no value of this type.
pub const MISMATCH: u32 = 23;
/// A reading has no value within the bytes, or no source timestamp.
pub const BAD_READING: u32 = 24;
/// Nothing more is there.
pub const NO_MORE: u32 = 25;
/// No endpoint has a token policy that fits.
pub const NO_POLICY: u32 = 26;
/// The value has no text that denotes it.
pub const NO_TEXT: u32 = 27;

/// The text of nodes: the node file, or the lines of a request.
pub const TEXT_NODES: u32 = 1;
/// The text of the URL.
pub const TEXT_URL: u32 = 2;
/// The text of the ApplicationUri.
pub const TEXT_APPLICATION_URI: u32 = 3;
/// The text of the application's name.
pub const TEXT_NAME: u32 = 4;
/// The text of the token.
pub const TEXT_TOKEN: u32 = 5;
/// The text of the PolicyId.
pub const TEXT_POLICY: u32 = 6;
/// The text of a node, of several the one at the index that is told.
pub const TEXT_NODE: u32 = 7;
/// The text of the index range.
pub const TEXT_RANGE: u32 = 8;
/// The text of the type.
pub const TEXT_TYPE: u32 = 9;
/// The text of the value.
pub const TEXT_VALUE: u32 = 10;
