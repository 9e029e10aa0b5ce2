//! A filter of frames.

ghost use Rattle.std.specs.Prelude.{◌≡◌};

use crate::kind::Kind;

/// A frame filter: the kinds of frames that are accepted, and the maximum size of a frame, in bytes
/// with its header.
#[derive(Clone, Copy, PartialEq, Eq, Debug)]
pub struct Gate {
    pub hel: bool,
    pub ack: bool,
    pub err: bool,
    pub msg: bool,
    pub opn: bool,
    pub clo: bool,
    pub largest: u32,
}

impl Gate {
    ghost use Rattle.ua_frame.specs.Kinds.{closed_gate, gate_with, lets_in};

    /// A filter that accepts no kind, with the maximum size for those that are added.
    pub fn new(largest: u32) -> Gate
        ensures { result ≡ closed_gate largest }
    {
        Gate {
            hel: false,
            ack: false,
            err: false,
            msg: false,
            opn: false,
            clo: false,
            largest,
        }
    }

    /// This filter, with one more kind accepted.
    #[must_use]
    pub fn taking(self, kind: Kind) -> Gate
        ensures { result ≡ gate_with self kind }
    {
        match kind {
            Kind::Hel => Gate { hel: true, ..self },
            Kind::Ack => Gate { ack: true, ..self },
            Kind::Err => Gate { err: true, ..self },
            Kind::Msg => Gate { msg: true, ..self },
            Kind::Opn => Gate { opn: true, ..self },
            Kind::Clo => Gate { clo: true, ..self },
        }
    }

    /// Whether the filter accepts a kind.
    #[inline]
    pub fn takes(&self, kind: Kind) -> bool
        ensures { result ≡ lets_in self.now kind }
    {
        match kind {
            Kind::Hel => self.hel,
            Kind::Ack => self.ack,
            Kind::Err => self.err,
            Kind::Msg => self.msg,
            Kind::Opn => self.opn,
            Kind::Clo => self.clo,
        }
    }
}
