//! The output of a command as it runs.

ghost use Rattle.std.specs.Prelude.{◌≡◌, [], IfErr, OnOk};
ghost use Rattle.std.specs.Io.KnownBytes.{Appends};
ghost use Rattle.ua_report.specs.Reasons.{StopsWriting, is_starved};

use crate::fault::Fault;
use crate::loop_fault::LoopFault;
use crate::reason::Reason;
use std::alloc::AllocError;
use std::io;
use std::io::Write;

/// Why a command stops.
#[derive(Drop, Debug)]
pub enum Stop<'a> {
    /// A fault, which is printed.
    Fault(Fault<'a>),
    /// A fault, which is printed, and what more is known of it.
    Because(Fault<'a>, Reason),
    /// The output cannot be written, and why.
    Output(io::Error),
}

impl Stop<'_> {
    /// Whether an allocation failed.
    pub fn is_starved(&self) -> bool
        ensures { result ≡ is_starved self.now }
    {
        match self {
            Stop::Fault(Fault::NoMemory) | Stop::Because(Fault::NoMemory, _) => true,
            _ => false,
        }
    }
}

impl<'a> From<Fault<'a>> for Stop<'a> {
    ghost use Rattle.std.specs.Prelude.{◌≡◌};
    ghost use Rattle.ua_report.specs.declared.output.Stop.TheVariants as stop;

    ghost from_gives = { λ fault stopped. stopped ≡ stop.Fault fault };

    fn from(fault: Fault<'a>) -> Self {
        Stop::Fault(fault)
    }
}

impl From<AllocError> for Stop<'_> {
    ghost use Rattle.std.specs.Prelude.{◌≡◌};
    ghost use Rattle.ua_report.specs.declared.fault.Fault.TheVariants.{NoMemory};
    ghost use Rattle.ua_report.specs.declared.output.Stop.TheVariants as stop;

    ghost from_gives = { λ _ stopped. stopped ≡ stop.Fault NoMemory };

    fn from(_: AllocError) -> Self {
        Stop::Fault(Fault::NoMemory)
    }
}

impl From<LoopFault> for Stop<'_> {
    ghost use Rattle.std.specs.Prelude.{◌≡◌};
    ghost use Rattle.ua_report.specs.declared.fault.Fault.TheVariants.{Looping};
    ghost use Rattle.ua_report.specs.declared.output.Stop.TheVariants as stop;

    ghost from_gives = { λ fault stopped. stopped ≡ stop.Fault (Looping fault) };

    fn from(fault: LoopFault) -> Self {
        Stop::Fault(Fault::Looping(fault))
    }
}

/// Prints a text completely.
pub fn say<'a, O: Write>(out: &mut O, text: &str) -> Result<(), Stop<'a>>
    ensures said { OnOk result (Appends (O.contents out.old) (O.contents out.new) text.now) }
    ensures failed { IfErr result (λ stop. StopsWriting stop) }
{
    match write_text(out, text) {
        Ok(()) => Ok(()),
        Err(error) => Err(Stop::Output(error)),
    }
}

/// Prints lines, and leaves the writer alone where there are none.
pub fn say_lines<'a, O: Write>(out: &mut O, lines: &str) -> Result<(), Stop<'a>>
    ensures said { OnOk result (Appends (O.contents out.old) (O.contents out.new) lines.now) }
    ensures none { lines.now ≡ [] → out.new ≡ out.old }
    ensures failed { IfErr result (λ stop. StopsWriting stop) }
{
    if lines.is_empty() {
        return Ok(());
    }
    say(out, lines)
}

/// Writes a text and flushes it.
pub fn write_text<W: Write>(to: &mut W, text: &str) -> io::Result<()>
    ensures { OnOk result (Appends (W.contents to.old) (W.contents to.new) text.now) }
{
    to.write_all(text.as_bytes())?;
    to.flush()
}
