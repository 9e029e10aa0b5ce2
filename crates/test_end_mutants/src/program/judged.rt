//! Verdicts on a side of a connection.

ghost use Rattle.std.specs.Prelude.{IfOk};
ghost use Rattle.ua_judge.specs.Verdicts.{IsServerVerdict};

use std::alloc::{AllocError, Global};
use ua_builtin::StatusCode;
use ua_frame::Limits;
use ua_judge::{Named, Verdict, judge_server};

/// The verdict of a client, which sent these requests, on the bytes of a server.
pub fn judge_a_server(
    alloc: Global,
    limits: Limits,
    requests: &[Named],
    octets: &[u8],
) -> Result<Verdict, AllocError>
    ensures { IfOk result (IsServerVerdict limits requests.now octets.now) }
{
    judge_server(alloc, limits, requests, octets)
}
