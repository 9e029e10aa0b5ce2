//! StatusCode.

ghost use Rattle.std.specs.Prelude.{◌≡◌};

use std::alloc::{AllocError, Global};
use ua_wire::{ReadFault, Source, Wire};

/// A StatusCode as a 32-bit number: the top bit is set if its severity is Bad
/// (OPC 10000-6, 5.2.2.11; OPC 10000-4, 7.39).
#[derive(Clone, Copy, PartialEq, Eq, Debug)]
pub struct StatusCode {
    pub code: u32,
}

/// The least number whose top bit is set.
const FIRST_BAD: u32 = 0x8000_0000;

impl StatusCode {
    ghost use Rattle.ua_builtin.specs.Status.{is_bad};

    /// Whether the operation failed, and what came with the code is not to be used: its top bit is
    /// set (OPC 10000-4, 7.39). A code that is not bad is good or uncertain.
    #[inline]
    pub fn is_bad(self) -> bool
        ensures { result ≡ is_bad self }
    {
        self.code >= FIRST_BAD
    }

    /// The operation succeeded.
    pub const GOOD: StatusCode = StatusCode { code: 0 };

    /// A value cannot be encoded.
    pub const BAD_ENCODING_ERROR: StatusCode = StatusCode { code: 0x8006_0000 };

    /// Bytes cannot be decoded.
    pub const BAD_DECODING_ERROR: StatusCode = StatusCode { code: 0x8007_0000 };

    /// A response is not of a type that answers its request.
    pub const BAD_UNKNOWN_RESPONSE: StatusCode = StatusCode { code: 0x8009_0000 };

    /// The server does not have the service that a request asks for.
    pub const BAD_SERVICE_UNSUPPORTED: StatusCode = StatusCode { code: 0x800B_0000 };

    /// A request has no operations.
    pub const BAD_NOTHING_TO_DO: StatusCode = StatusCode { code: 0x800F_0000 };

    /// A request has more operations than the server processes in one request.
    pub const BAD_TOO_MANY_OPERATIONS: StatusCode = StatusCode { code: 0x8010_0000 };

    /// The server rejects the user identity token.
    pub const BAD_IDENTITY_TOKEN_REJECTED: StatusCode = StatusCode { code: 0x8021_0000 };

    /// No session has the authentication token of a request.
    pub const BAD_SESSION_ID_INVALID: StatusCode = StatusCode { code: 0x8025_0000 };

    /// The session of a request is not activated yet.
    pub const BAD_SESSION_NOT_ACTIVATED: StatusCode = StatusCode { code: 0x8027_0000 };

    /// The TimestampsToReturn of a request is no value of that enumeration.
    pub const BAD_TIMESTAMPS_TO_RETURN_INVALID: StatusCode = StatusCode { code: 0x802B_0000 };

    /// No node has the NodeId.
    pub const BAD_NODE_ID_UNKNOWN: StatusCode = StatusCode { code: 0x8034_0000 };

    /// The node does not have the attribute.
    pub const BAD_ATTRIBUTE_ID_INVALID: StatusCode = StatusCode { code: 0x8035_0000 };

    /// The text is no index range.
    pub const BAD_INDEX_RANGE_INVALID: StatusCode = StatusCode { code: 0x8036_0000 };

    /// No data exists within the index range.
    pub const BAD_INDEX_RANGE_NO_DATA: StatusCode = StatusCode { code: 0x8037_0000 };

    /// The data encoding is not a known one.
    pub const BAD_DATA_ENCODING_INVALID: StatusCode = StatusCode { code: 0x8038_0000 };

    /// The access level does not allow reading.
    pub const BAD_NOT_READABLE: StatusCode = StatusCode { code: 0x803A_0000 };

    /// The access level does not allow writing.
    pub const BAD_NOT_WRITABLE: StatusCode = StatusCode { code: 0x803B_0000 };

    /// The request type of an OpenSecureChannel is no value of its enumeration.
    pub const BAD_REQUEST_TYPE_INVALID: StatusCode = StatusCode { code: 0x8053_0000 };

    /// The server does not accept the security mode.
    pub const BAD_SECURITY_MODE_REJECTED: StatusCode = StatusCode { code: 0x8054_0000 };

    /// The server does not accept the security policy.
    pub const BAD_SECURITY_POLICY_REJECTED: StatusCode = StatusCode { code: 0x8055_0000 };

    /// The server has reached its maximum number of sessions.
    pub const BAD_TOO_MANY_SESSIONS: StatusCode = StatusCode { code: 0x8056_0000 };

    /// The maximum age of a value is negative or NaN.
    pub const BAD_MAX_AGE_INVALID: StatusCode = StatusCode { code: 0x8070_0000 };

    /// The server does not support writing this combination of value, status and timestamps.
    pub const BAD_WRITE_NOT_SUPPORTED: StatusCode = StatusCode { code: 0x8073_0000 };

    /// A value is not of the attribute's type.
    pub const BAD_TYPE_MISMATCH: StatusCode = StatusCode { code: 0x8074_0000 };

    /// The MessageType of a UA TCP message is unknown, or out of place.
    pub const BAD_TCP_MESSAGE_TYPE_INVALID: StatusCode = StatusCode { code: 0x807E_0000 };

    /// The SecureChannelId is unknown.
    pub const BAD_TCP_SECURE_CHANNEL_UNKNOWN: StatusCode = StatusCode { code: 0x807F_0000 };

    /// The MessageSize in a header exceeds the limit.
    pub const BAD_TCP_MESSAGE_TOO_LARGE: StatusCode = StatusCode { code: 0x8080_0000 };

    /// There are not enough resources for a request.
    pub const BAD_TCP_NOT_ENOUGH_RESOURCES: StatusCode = StatusCode { code: 0x8081_0000 };

    /// The EndpointUrl is not one of the server's.
    pub const BAD_TCP_ENDPOINT_URL_INVALID: StatusCode = StatusCode { code: 0x8083_0000 };

    /// The TokenId is unknown.
    pub const BAD_SECURE_CHANNEL_TOKEN_UNKNOWN: StatusCode = StatusCode { code: 0x8087_0000 };

    /// A SequenceNumber does not follow the previous one.
    pub const BAD_SEQUENCE_NUMBER_INVALID: StatusCode = StatusCode { code: 0x8088_0000 };

    /// A request exceeds the limits of the server.
    pub const BAD_REQUEST_TOO_LARGE: StatusCode = StatusCode { code: 0x80B8_0000 };

    /// A response exceeds the limits of the client.
    pub const BAD_RESPONSE_TOO_LARGE: StatusCode = StatusCode { code: 0x80B9_0000 };
}

impl Wire for StatusCode {
    ghost use Rattle.ua_wire.specs.Format.{flat};
    ghost use Rattle.ua_builtin.specs.Status.{status_code};

    ghost format = { flat status_code };

    ghost memoryless = { Unit {0} };

    #[inline]
    #[tactic(auto, using(crate::proofs::PlainLawful::lawful_status_code))]
    fn lawful() {}

    #[inline]
    #[tactic(auto, unfolding(crate::specs::Status::status_code))]
    fn read_value<S: Source>(
        alloc: Global,
        src: &mut S,
        depth: u32,
    ) -> Result<StatusCode, ReadFault> {
        let code = u32::read_value(alloc, src, depth)?;
        Ok(StatusCode { code })
    }

    #[inline]
    #[tactic(auto, unfolding(crate::specs::Status::status_code))]
    fn is_encodable(&self) -> bool {
        self.code.is_encodable()
    }

    #[inline]
    #[tactic(auto, unfolding(crate::specs::Status::status_code))]
    fn append(&self, out: &mut Vec<u8>) -> Result<(), AllocError> {
        self.code.append(out)?;
        Ok(())
    }
}
