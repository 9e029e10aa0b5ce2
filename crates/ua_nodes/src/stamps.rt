//! The timestamps that a Read asks for.

/// The timestamps that the results of a Read have (OPC 10000-4, 7.40).
#[derive(Clone, Copy, PartialEq, Eq, Debug)]
pub enum Stamps {
    Source,
    Server,
    Both,
    Neither,
}

impl Stamps {
    ghost use Rattle.std.specs.Prelude.{◌≡◌};
    ghost use Rattle.ua_nodes.specs.Read.{gives_source, gives_server, stamps_numbered};

    /// The TimestampsToReturn of this number in a Read request: 0 for Source, 1 for Server, 2 for
    /// Both and 3 for Neither.
    #[inline]
    pub fn from_number(number: i32) -> Option<Stamps>
        ensures { result ≡ stamps_numbered number }
    {
        match number {
            0 => Some(Stamps::Source),
            1 => Some(Stamps::Server),
            2 => Some(Stamps::Both),
            3 => Some(Stamps::Neither),
            _ => None,
        }
    }

    #[inline]
    pub(crate) fn gives_source(self) -> bool
        ensures { result ≡ gives_source self }
    {
        match self {
            Stamps::Source | Stamps::Both => true,
            Stamps::Server | Stamps::Neither => false,
        }
    }

    #[inline]
    pub(crate) fn gives_server(self) -> bool
        ensures { result ≡ gives_server self }
    {
        match self {
            Stamps::Server | Stamps::Both => true,
            Stamps::Source | Stamps::Neither => false,
        }
    }
}
