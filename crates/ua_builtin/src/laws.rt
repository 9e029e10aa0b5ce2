//! Laws for callers, each the contract of a function that does nothing at run time: of the built-in
//! types and, re-exported from `ua_wire`, of every type
//! with an encoding.

ghost use Rattle.std.specs.Prelude.{IsTrue};
ghost use Rattle.ua_builtin.specs.DateTime.{date_time};
ghost use Rattle.ua_builtin.specs.Status.{status_code};

use crate::date_time::DateTime;
use crate::status_code::StatusCode;
pub use ua_wire::laws::{canonical_encodes, encodes_in_octets, encodes_once, reads_back};

/// Every DateTime can be encoded.
#[inline]
#[tactic(auto, unfolding(crate::specs::DateTime::date_time))]
pub fn moment_is_encodable(moment: &DateTime)
    ensures { IsTrue (date_time.encodable moment.now) }
{
    let _ticks = moment.ticks;
}

/// Every StatusCode can be encoded.
#[inline]
#[tactic(auto, unfolding(crate::specs::Status::status_code))]
pub fn status_is_encodable(status: &StatusCode)
    ensures { IsTrue (status_code.encodable status.now) }
{
    let _code = status.code;
}
