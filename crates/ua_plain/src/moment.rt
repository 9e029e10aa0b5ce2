//! DateTimes as RFC 3339 timestamps in UTC.

ghost use Rattle.std.specs.Prelude.{◌≡◌, ◌↔◌, IfSome, IsSome, Some};
ghost use Rattle.ua_plain.specs.Moment.{IsInCalendar, IsMomentText, moment_denoted};
ghost use Rattle.ua_plain.specs.Word.{IsWord};

use arrayvec::ArrayString;
use jiff_core::Timestamp;
use jiff_fmt::temporal::{self, DateTimePrinter};
use ua_builtin::DateTime;

/// The text of a DateTime, at most 33 bytes.
pub type MomentText = ArrayString<33>;

/// The nanoseconds from 1601-01-01T00:00:00Z to 1970-01-01T00:00:00Z.
const NANOS_TO_1970: i128 = 11_644_473_600_000_000_000;

/// The nanoseconds of a unit of DateTime.
const NANOS_IN_TICK: i128 = 100;

/// 0000-01-01T00:00:00Z.
const FIRST: i64 = -505_227_456_000_000_000;

/// 9999-12-30T22:00:00.9999999Z.
const LAST: i64 = 2_650_466_808_009_999_999;

/// Prints a DateTime as a timestamp in UTC, such as `2026-11-27T08:00:00.1234567Z`, with as many
/// fractional digits as it needs. Returns `None` for 0, which is no time (OPC 10000-6, 5.2.2.5),
/// and before the year 0 and after 9999-12-30T22:00:00.9999999Z, where the calendar ends.
pub fn moment_text(moment: DateTime) -> Option<MomentText>
    ensures some { IsSome result ↔ IsInCalendar moment.ticks }
    ensures form { IfSome result (λ text. IsMomentText moment.ticks text.bytes) }
    ensures reads { IfSome result (λ text. moment_denoted text.bytes ≡ Some moment) }
    ensures word { IfSome result (λ text. IsWord text.bytes) }
{
    if moment.ticks == 0 || moment.ticks < FIRST || LAST < moment.ticks {
        return None;
    }
    match Timestamp::from_nanosecond(i128::from(moment.ticks) * NANOS_IN_TICK - NANOS_TO_1970) {
        Ok(time) => Some(DateTimePrinter::new().timestamp_text(time)),
        Err(_) => unreachable!(),
    }
}

/// Parses an RFC 3339 timestamp, with `Z` or an offset at its end. Returns `None` if the text is
/// none, or if its time is no whole number of 100 ns units.
#[tactic(auto, unfolding(crate::specs::Moment::moment_denoted))]
pub fn parse_moment(text: &str) -> Option<DateTime>
    ensures { result ≡ moment_denoted text.now }
{
    let time = temporal::parse_timestamp(text.as_bytes()).ok()?;
    let nanos = time.nanosecond + NANOS_TO_1970;
    if nanos.rem_euclid(NANOS_IN_TICK) != 0 {
        return None;
    }
    Some(DateTime {
        ticks: nanos.div_euclid(NANOS_IN_TICK) as i64,
    })
}
