//! The names of the faults of a client.

use std::fmt;
use ua_builtin::StatusCode;
use ua_client::ClientFault;

/// The name of a client's fault and, after a space, its StatusCode, if it has one.
#[derive(Clone, Copy, Debug)]
pub struct FaultName(pub ClientFault);

impl FaultName {
    ghost use Rattle.std.specs.Prelude.{◌≡◌};
    ghost use Rattle.ua_session.specs.FaultText.{code_in, name_of};

    /// The name of the fault's variant.
    fn name(self) -> &'static str
        ensures { result.now ≡ name_of self.0 }
    {
        match self.0 {
            ClientFault::Read => "Read",
            ClientFault::Write => "Write",
            ClientFault::Ended => "Ended",
            ClientFault::Peer(_) => "Peer",
            ClientFault::Refused(_) => "Refused",
            ClientFault::UnknownResponse => "UnknownResponse",
            ClientFault::Service(_) => "Service",
            ClientFault::TooLarge => "TooLarge",
            ClientFault::NotWritable => "NotWritable",
            ClientFault::Exhausted => "Exhausted",
            ClientFault::Closed => "Closed",
            ClientFault::OutOfMemory => "OutOfMemory",
            ClientFault::TooLong => "TooLong",
            ClientFault::TooManyTokens => "TooManyTokens",
        }
    }

    /// The StatusCode of the fault.
    fn code(self) -> Option<StatusCode>
        ensures { result ≡ code_in self.0 }
    {
        match self.0 {
            ClientFault::Peer(code) | ClientFault::Refused(code) | ClientFault::Service(code) => {
                Some(code)
            }
            _ => None,
        }
    }
}

impl fmt::Display for FaultName {
    fn fmt<W: fmt::Write>(&self, f: &mut fmt::Formatter<W>) -> fmt::Result {
        let name = self.name();
        match self.code() {
            Some(code) => {
                let code = code.code;
                write!(f, "{name} {code:08X}")
            }
            None => f.write_str(name),
        }
    }
}
