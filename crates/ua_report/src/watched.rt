//! Sources whose failures are kept, and where they stop being hexadecimal.

ghost use Rattle.std.specs.Prelude.{◌≡◌};
ghost use Rattle.ua_report.specs.Reasons.{StopsForFault};

use crate::digit_place::DigitPlace;
use crate::fault::Fault;
use crate::output::Stop;
use crate::reason::Reason;
use std::io;
use std::io::Read;

/// A source, the error of its last read, if that failed, and where its digits end, if it is to have
/// such.
#[derive(Debug, Drop)]
pub struct Watched<I> {
    source: I,
    failed: Option<io::Error>,
    digits: Option<DigitPlace>,
}

impl<I> Watched<I> {
    /// The source, of which no read failed, and whether it is to have digits.
    pub fn new(source: I, hex: bool) -> Watched<I> {
        let digits = if hex { Some(DigitPlace::new()) } else { None };
        Watched {
            source,
            failed: None,
            digits,
        }
    }

    /// The fault, with the system's error of the last read where the fault is that the source
    /// cannot be read, or with the place where its digits end where it is not hexadecimal.
    pub fn blame<'a>(&self, fault: Fault<'a>) -> Stop<'a>
        ensures { StopsForFault fault.entry result }
    {
        match (fault, self.failed) {
            (Fault::CannotRead(_), Some(error)) => Stop::Because(fault, Reason::System(error)),
            (Fault::NotHexadecimal(_), _) => match self.digits {
                Some(place) => Stop::Because(fault, place.reason()),
                None => Stop::Fault(fault),
            },
            _ => Stop::Fault(fault),
        }
    }
}

impl<I> Watched<I> {
    /// Goes on by bytes that came.
    fn note_digits(&mut self, piece: &[u8])
        ensures { self.new.source ≡ self.old.source }
    {
        if let Some(place) = &mut self.digits {
            place.take(piece);
        }
    }
}

impl<I: Read> Read for Watched<I> {
    ghost remaining = { λ watched. I.remaining watched.source };

    fn read(&mut self, buffer: &mut [u8]) -> io::Result<usize> {
        let read = self.source.read(buffer);
        self.failed = read.err();
        if let Ok(n) = read {
            self.note_digits(&buffer[..n]);
        }
        read
    }
}
