//! `--record`: files of the bytes that went over a connection.

ghost use Rattle.std.specs.Prelude.{IfErr};
ghost use Rattle.ua_report.specs.Reasons.{StopsForFault, StopsRecording};

use crate::fault::Fault;
use crate::output::Stop;
use crate::reason::cannot_record;
use std::fs;
use std::rt::Files;
use ua_tcp::RecordedLine;

/// Writes the bytes that a transport kept to two files: those written to it to the file of this
/// name with `.up` appended, those read from it to that with `.down`. An existing file is
/// overwritten.
pub fn write_record<'a, R: Files + AllocGlobal, L>(
    rt: &R,
    name: &'a str,
    line: &RecordedLine<L>,
) -> Result<(), Stop<'a>>
    ensures { IfErr result (λ stop. StopsRecording name.entry stop) }
{
    let up = format!(in rt.alloc(); "{name}.up")?;
    write_octets(rt, &up, line.octets_written(), Fault::CannotWriteUp(name))?;
    let down = format!(in rt.alloc(); "{name}.down")?;
    write_octets(rt, &down, line.octets_read(), Fault::CannotWriteDown(name))?;
    Ok(())
}

/// Writes bytes to a file; returns the fault where that fails.
fn write_octets<'a, R: Files + AllocGlobal>(
    rt: &R,
    file: &str,
    octets: &[u8],
    fault: Fault<'a>,
) -> Result<(), Stop<'a>>
    ensures { IfErr result (λ stop. StopsForFault fault.entry stop) }
{
    match fs::write(rt, file, octets) {
        Ok(()) => Ok(()),
        Err(error) => Err(cannot_record(fault, error)),
    }
}
