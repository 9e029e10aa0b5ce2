//! Verdicts on what a side sent.

use ua_builtin::StatusCode;
use ua_channel::AskFault;

/// The verdict on the bytes of one side of a connection.
#[derive(Clone, Copy, Debug)]
pub enum Verdict {
    /// It kept the protocol, as far as its bytes go.
    Keeps,
    /// It closed the channel by a CLO that ends here, having kept the protocol.
    Closes { end: usize },
    /// It broke the protocol: the other end refuses with this StatusCode the frame that ends here,
    /// or the header.
    Breaks { end: usize, code: StatusCode },
    /// It refused the other side, by an ERR that ends here, having kept the protocol.
    Refuses { end: usize, code: StatusCode },
    /// It kept the protocol up to here; our end cannot send the other side's next request.
    Stops { end: usize, fault: AskFault },
}
