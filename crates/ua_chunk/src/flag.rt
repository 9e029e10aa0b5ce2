//! The IsFinal flags of chunks.

/// The IsFinal flag: the position of a chunk in its message (OPC 10000-6, 6.7.2.2).
#[derive(Clone, Copy, PartialEq, Eq, Debug)]
pub enum Flag {
    /// The last chunk of its message.
    F,
    /// A chunk after which more chunks of its message follow.
    C,
    /// The end of a message that its sender aborts.
    A,
}

impl Flag {
    ghost use Rattle.std.specs.Prelude.{◌≡◌, IsTrue};
    ghost use Rattle.ua_frame.specs.Kinds.{has_flag};
    ghost use Rattle.ua_frame.specs.declared.kind.Kind.TheVariants.{Msg};
    ghost use Rattle.ua_chunk.specs.Flag.{is_more_flag, is_abort_flag, flag_octet};

    /// The flag of this byte.
    #[inline]
    pub(crate) fn from_octet(octet: u8) -> Flag
        requires { IsTrue (has_flag Msg octet) }
        ensures { octet ≡ flag_octet result }
    {
        match octet {
            b'C' => Flag::C,
            b'A' => Flag::A,
            _ => Flag::F,
        }
    }

    /// The byte of the flag.
    #[inline]
    pub fn octet(self) -> u8
        ensures { result ≡ flag_octet self }
    {
        match self {
            Flag::F => b'F',
            Flag::C => b'C',
            Flag::A => b'A',
        }
    }

    /// Whether more chunks of the message follow.
    #[inline]
    pub fn is_more(self) -> bool
        ensures { result ≡ is_more_flag self }
    {
        match self {
            Flag::C => true,
            Flag::F | Flag::A => false,
        }
    }

    /// Whether the message is aborted.
    #[inline]
    pub fn is_abort(self) -> bool
        ensures { result ≡ is_abort_flag self }
    {
        match self {
            Flag::A => true,
            Flag::F | Flag::C => false,
        }
    }
}
