//! The stack for C, as a static library: a server and a client that take and give bytes, and calls
//! that need no handle. `include/ua.h` declares each call, and states the rules that C has to keep.
//!
//! A call does what the library's call does, and its contract states so: it has that call's clauses
//! over what the handle owns. The crate has no logic of its own.
#![tactic(auto)]

mod asking;
mod bad_text;
mod choosing;
mod connecting;
mod fetching;
mod handle;
mod holding;
mod limits;
mod loose;
mod making;
mod readings;
mod report;
mod requests;
mod responses;
mod serving;
mod shared;
mod spelled;
mod station;
mod status;
mod telling;
mod texts;
mod told;
mod untold;
mod views;
mod waiting;
mod words;

pub use handle::{UaConnection, UaHandle, UaNodes};
pub use limits::UaLimits;
pub use readings::UaReading;
