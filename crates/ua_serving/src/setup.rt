//! What a server is run with.

use ua_report::Telling;
use ua_words::Serve;

/// What `ua serve` is asked, and how it prints faults.
#[derive(Clone, Copy, Debug)]
pub struct Setup<'a> {
    /// Its words.
    pub asked: Serve<'a>,
    pub telling: Telling,
}
