//! The kinds of frames.

ghost use Rattle.std.specs.Prelude.{◌≡◌};

/// The MessageType of a frame (OPC 10000-6, 7.1.2.2 and 6.7.2.2).
#[derive(Clone, Copy, PartialEq, Eq, Debug)]
pub enum Kind {
    /// Hello: a client asks for a connection.
    Hel,
    /// Acknowledge: a server agrees to it.
    Ack,
    /// Error: a server ends a connection.
    Err,
    /// A chunk of a message on a SecureChannel.
    Msg,
    /// Opens a SecureChannel, or renews its token.
    Opn,
    /// Closes a SecureChannel.
    Clo,
}

impl Kind {
    ghost use Rattle.ua_frame.specs.Kinds.{has_flag, kind_octets, least_size};

    /// The three ASCII bytes of this MessageType.
    #[inline]
    pub fn octets(self) -> [u8; 3]
        ensures { result ≡ kind_octets self }
    {
        match self {
            Kind::Hel => *b"HEL",
            Kind::Ack => *b"ACK",
            Kind::Err => *b"ERR",
            Kind::Msg => *b"MSG",
            Kind::Opn => *b"OPN",
            Kind::Clo => *b"CLO",
        }
    }

    /// The minimum size of a frame of this kind, in bytes with its header.
    #[inline]
    pub(crate) fn least_size(self) -> u32
        ensures { result ≡ least_size self }
    {
        match self {
            Kind::Hel | Kind::Opn => 32,
            Kind::Ack => 28,
            Kind::Err => 16,
            Kind::Msg | Kind::Clo => 24,
        }
    }

    /// Whether a frame of this kind may have this fourth byte, in a MessageChunk its IsFinal (OPC
    /// 10000-6, 6.7.2.2).
    #[inline]
    pub fn has_flag(self, flag: u8) -> bool
        ensures { result ≡ has_flag self flag }
    {
        match self {
            Kind::Hel | Kind::Ack | Kind::Err => true,
            Kind::Msg => flag == b'F' || flag == b'C' || flag == b'A',
            Kind::Opn | Kind::Clo => flag == b'F',
        }
    }
}
