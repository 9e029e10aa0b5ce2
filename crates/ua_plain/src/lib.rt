//! Numbers and times as people write them: Float and Double as decimals, DateTime as an RFC 3339
//! timestamp in UTC, printed and parsed.
//!
//! The contract: what is printed parses to the same pattern, or the same time; what is parsed is
//! the number nearest to the decimal, or exactly the time. A value without such a text gives
//! `None`: a NaN pattern other than the standard's, and a DateTime that is no time or outside the
//! calendar.
//!
//! ```
//! double_text(DoubleBits { bits: 0x4035_8000_0000_0000 }) // `21.5`
//! parse_double("1e-05") // the Double nearest to 0.00001
//! moment_text(DateTime { ticks: 134_402_400_001_234_567 }) // `2026-11-27T08:00:00.1234567Z`
//! parse_moment("2026-11-27T09:00:00+01:00") // the same time as `2026-11-27T08:00:00Z`
//! ```
#![tactic(auto)]

mod decimal;
mod moment;

pub use decimal::{DecimalText, double_text, float_text, parse_double, parse_float};
pub use moment::{MomentText, moment_text, parse_moment};
