//! Faults on standard error.

ghost use Rattle.std.specs.Prelude.{◌≡◌, ◌≢◌, ◌⊎◌, false, OnOk};
ghost use Rattle.std.specs.Io.KnownBytes.{Appends};

use crate::fault::Fault;
use crate::output::{Stop, write_text};
use crate::reason::{Reason, push_known};
use std::alloc::{AllocError, Global};
use std::io::Write;

/// How faults are printed.
#[derive(Clone, Copy, Debug)]
pub struct Telling {
    pub alloc: Global,
    /// Whether the reason that is known of a fault is printed after it.
    pub why: bool,
    /// Whether a command prints a fault after which it goes on.
    pub aloud: bool,
}

impl Telling {
    /// Prints why a command stopped, and with `why` the reason that is known of it. The status is
    /// 1.
    pub fn tell<E: Write>(self, stop: &Stop<'_>, err: &mut E) -> u8
        ensures { result ≡ 1 }
    {
        match stop {
            Stop::Because(fault, reason) if self.why => self.tell_why(fault, Some(reason), err),
            Stop::Fault(fault) if self.why => self.tell_why(fault, None, err),
            Stop::Fault(fault) | Stop::Because(fault, _) => self.tell_fault(fault, err),
            Stop::Output(_) => self.tell_fault(&Fault::CannotWrite, err),
        }
    }

    /// Prints a fault after which a command goes on, if such faults are printed.
    pub fn tell_on<E: Write>(self, stop: &Stop<'_>, err: &mut E)
        ensures quiet { self.aloud ≡ false → err.new ≡ err.old }
    {
        if self.aloud {
            // Where it cannot be printed the command goes on, too.
            let _ = self.tell(stop, err);
        }
    }

    /// Prints a fault. The status is 1.
    fn tell_fault<E: Write>(self, fault: &Fault<'_>, err: &mut E) -> u8
        ensures { result ≡ 1 }
    {
        match format!(in self.alloc; "ua: {fault}\n") {
            Ok(text) => print(err, text.as_str(), 1),
            Err(_) => print(err, "ua: no memory\n", 1),
        }
    }

    /// Prints a fault, and what is known of it after it. The status is 1.
    pub fn tell_why<E: Write>(self, fault: &Fault<'_>, reason: Option<&Reason>, err: &mut E) -> u8
        ensures { result ≡ 1 }
    {
        match fault_text(self.alloc, fault, reason) {
            Ok(text) => print(err, text.as_str(), 1),
            Err(AllocError) => print(err, "ua: no memory\n", 1),
        }
    }
}

/// The text of a fault and of what is known of it.
fn fault_text(
    alloc: Global,
    fault: &Fault<'_>,
    reason: Option<&Reason>,
) -> Result<String, AllocError> {
    let mut text = format!(in alloc; "ua: {fault}\n")?;
    push_known(&mut text, fault, reason)?;
    Ok(text)
}

/// Writes a text: returns the given status, or 1 where the writer fails.
pub fn print<W: Write>(to: &mut W, text: &str, status: u8) -> u8
    ensures status { (result ≡ status) ⊎ (result ≡ 1) }
    ensures printed { result ≢ 1 → Appends (W.contents to.old) (W.contents to.new) text.now }
{
    match write_text(to, text) {
        Ok(()) => status,
        Err(_) => 1,
    }
}
