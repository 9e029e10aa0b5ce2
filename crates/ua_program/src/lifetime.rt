//! The lifetime of the tokens of a SecureChannel.

ghost use Rattle.std.specs.Prelude.{◌≡◌, ◌⊎◌, IfSome};
ghost use Rattle.ua_program.specs.Lifetime.{GivesLifetime, is_due};

use std::alloc::Global;
use ua_builtin::Octets;
use ua_channel::{Line, LineFault};
use ua_chunk::read_open;
use ua_frame::{Frame, FrameReader, Gate, Kind};
use ua_opening::{OpenAnswer, read_open_response};

/// The lifetime in milliseconds that the client asks for: an hour.
const HOUR: u32 = 3_600_000;

/// The ticks in three quarters of a millisecond.
const TICKS: u64 = 7500;

/// The largest frame that the program's client takes.
const LARGEST: u32 = 65535;

/// Whether a token is to be renewed that was asked for at a time, with this lifetime in
/// milliseconds: three quarters of it have passed, or the clock was set back. Times are in ticks of
/// 100 ns.
pub fn is_due(moment: u64, asked_at: u64, lifetime: u32) -> bool
    ensures { result ≡ is_due moment asked_at lifetime }
{
    moment < asked_at || moment - asked_at >= u64::from(lifetime) * TICKS
}

/// The lifetime that an OPN frame gives a token, if it does and memory allows to read it.
fn lifetime_in(alloc: Global, frame: Frame) -> Option<u32>
    ensures { IfSome result (GivesLifetime frame) }
{
    let Ok(opening) = read_open(frame) else {
        return None;
    };
    let mut src = Octets::new(&opening.body);
    match read_open_response(alloc, &mut src) {
        Ok(OpenAnswer::Open(response)) => Some(response.revised_lifetime),
        _ => None,
    }
}

/// Reads the frames that a server sends, and keeps the lifetime of the last token that it gave. It
/// reads no further after a frame that no client takes, or after a failed allocation.
#[derive(Debug, Drop)]
struct Lifetimes {
    alloc: Global,
    /// The frames, unless no more are read.
    frames: Option<FrameReader>,
    /// The lifetime in milliseconds, that of an hour before a token came.
    lifetime: u32,
}

impl Lifetimes {
    fn new(alloc: Global) -> Lifetimes {
        let gate = Gate::new(LARGEST)
            .taking(Kind::Ack)
            .taking(Kind::Err)
            .taking(Kind::Opn)
            .taking(Kind::Msg)
            .taking(Kind::Clo);
        Lifetimes {
            alloc,
            frames: Some(FrameReader::new(alloc, gate)),
            lifetime: HOUR,
        }
    }

    /// Keeps the lifetime that a frame gives a token.
    fn note(&mut self, frame: Frame)
        ensures { (self.new.lifetime ≡ self.old.lifetime) ⊎ GivesLifetime frame self.new.lifetime }
    {
        if frame.kind != Kind::Opn {
            return;
        }
        if let Some(lifetime) = lifetime_in(self.alloc, frame) {
            self.lifetime = lifetime;
        }
    }

    /// Takes bytes up to the end of a frame, and returns how many; none where no more are read.
    fn take_next(&mut self, piece: &[u8]) -> Option<usize> {
        let Some(frames) = &mut self.frames else {
            return None;
        };
        match frames.take(piece) {
            Ok((taken, Some(frame))) => {
                self.note(frame);
                Some(taken)
            }
            Ok((taken, None)) => Some(taken),
            Err(_) => {
                self.frames = None;
                None
            }
        }
    }

    /// Takes the next bytes that arrived.
    fn take(&mut self, piece: &[u8]) {
        let mut rest = piece;
        // Each turn takes a byte at least, so these are enough.
        for _turns in 0..piece.len() {
            let Some(taken) = self.take_next(rest) else {
                return;
            };
            rest = rest.get(taken..).unwrap_or(&[]);
        }
    }
}

/// A transport that keeps the lifetime of the last token that came over the one beneath it. Its
/// traffic and its failures are those of the transport beneath.
#[derive(Debug, Drop)]
pub struct LifetimeLine<L> {
    line: L,
    lifetimes: Lifetimes,
}

impl<L> LifetimeLine<L> {
    /// A transport over this one, over which no token came.
    pub fn new(alloc: Global, line: L) -> LifetimeLine<L> {
        LifetimeLine {
            line,
            lifetimes: Lifetimes::new(alloc),
        }
    }

    /// The lifetime of the last token in milliseconds; an hour before one came.
    pub fn lifetime(&self) -> u32
        ensures { result ≡ self.now.lifetimes.lifetime }
    {
        self.lifetimes.lifetime
    }

    /// The transport beneath.
    pub fn beneath(&self) -> &L
        ensures { result.now ≡ self.now.line }
    {
        &self.line
    }
}

impl<L: Line> Line for LifetimeLine<L> {
    ghost traffic = { λ l. L.traffic l.line };

    ghost failures = { λ l. L.failures l.line };

    fn read(&mut self, buffer: &mut [u8]) -> Result<usize, LineFault> {
        let read = self.line.read(buffer);
        if let Ok(n) = read {
            self.lifetimes.take(&buffer[..n]);
        }
        read
    }

    fn write(&mut self, octets: &[u8]) -> Result<usize, LineFault> {
        self.line.write(octets)
    }
}
