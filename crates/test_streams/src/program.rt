//! Parts of the program `ua` that no run of it shows: how writes are gathered, the clock, texts of faults, and defaults
//! of words.

use crate::transports::line_of;
use crate::vectors::row_of;
use std::alloc::Global;
use std::io;
use std::test::Fail;
use std::time::{Clock, Duration};
use ua_channel::{Line, LineFault, Moments};
use ua_client::ClientFault;
use ua_report::{Fault, LoopFault};
use ua_session::QuestionFault;
use ua_tcp::{ClockMoments, GatheringLine};
use ua_words::{Task, parse};

#[test]
fn gathers_writes(rt: HostRuntime) -> Result<(), Fail> {
    let mut line = GatheringLine::new(
        rt.alloc(),
        line_of(rt.alloc(), "all all!1", Vec::new(rt.alloc()))?,
    );
    assert_eq!(rt; (line.write(b"Pu"), line.write(b"mp")), (Ok(2), Ok(2)));
    assert_eq!(rt; line.beneath().written().len(), 0);
    assert_eq!(rt; line.read(&mut [0; 8]), Err(LineFault::Failed));
    assert_eq!(rt; line.read(&mut [0; 8]), Ok(0));
    assert_eq!(rt; line.beneath().written(), b"Pump".as_slice());
    let mut long = Vec::new(rt.alloc());
    long.resize(16384, 7)?;
    assert_eq!(rt; line.write(long.as_slice()), Ok(16384));
    assert_eq!(rt; line.beneath().written().len(), 4);
    assert_eq!(rt; line.write(b"!"), Ok(1));
    assert_eq!(rt; line.beneath().written().len(), 16388);
    assert_eq!(rt; line.flush(), Ok(()));
    assert_eq!(rt; line.beneath().written().len(), 16389);
    Ok(())
}

/// A clock that is so many nanoseconds after 1970-01-01, or fails.
#[derive(Drop)]
struct Stopped(Option<u64>);

impl Clock for Stopped {
    fn monotonic(&self) -> io::Result<Duration> {
        self.since_1970()
    }

    fn since_1970(&self) -> io::Result<Duration> {
        match self.0 {
            Some(nanoseconds) => Ok(Duration::from_nanos(nanoseconds)),
            None => Err(io::Error::from(io::ErrorKind::Other)),
        }
    }
}

#[test]
fn tells_the_time_in_ticks(rt: HostRuntime) {
    for (time, ticks) in [
        (None, 116_444_736_000_000_000),
        (Some(99), 116_444_736_000_000_000),
        (Some(1_500_000_199), 116_444_736_015_000_001),
    ] {
        let clock = Stopped(time);
        assert_eq!(rt; ClockMoments::new(&clock).next(), ticks);
    }
}

#[test]
fn names_faults(rt: HostRuntime) -> Result<(), Fail> {
    for (fault, want) in [
        (ClientFault::Write, "connection Write"),
        (ClientFault::TooLarge, "connection TooLarge"),
        (ClientFault::NotWritable, "connection NotWritable"),
        (ClientFault::Exhausted, "connection Exhausted"),
        (ClientFault::Closed, "connection Closed"),
        (ClientFault::OutOfMemory, "no memory"),
        (ClientFault::TooLong, "connection TooLong"),
        (ClientFault::TooManyTokens, "connection TooManyTokens"),
    ] {
        let found = format!(in rt.alloc(); "{}", Fault::Asking(QuestionFault::from(fault)))?;
        assert_eq!(rt; found.as_str(), want);
    }
    for (fault, want) in [
        (LoopFault::Exhausted, "connection Exhausted"),
        (LoopFault::UnknownResponse, "connection UnknownResponse"),
        (LoopFault::NoMemory, "no memory"),
    ] {
        assert_eq!(rt; format!(in rt.alloc(); "{fault}")?.as_str(), want);
    }
    Ok(())
}

/// Words after `ua serve nodes.txt 7`, and what they ask for: connections, places, bytes of an answer and of values.
const SERVED: &str = "\
--requests = 1 None 0 None
--standard = 1 None 16777216 None
--at-once 1024 = 1 Some(1024) 16777216 None
--connections all --at-once=016 = 4294967295 Some(16) 16777216 None
--standard --answers=1 = 1 None 1 None
--kept = 1 None 0 Some(67108864)
--kept=1 = 1 None 0 Some(1)
--live = 1 Some(1) 16777216 None
--live --at-once 3 --writes = 1 Some(3) 16777216 None
";

/// What the program is asked for by such words.
fn asked(alloc: Global, given: &str) -> Result<String, Fail> {
    let mut words = Vec::new(alloc);
    for word in "ua serve nodes.txt 7".split(' ').chain(given.split(' ')) {
        words.push(String::from_str(alloc, word)?)?;
    }
    match parse(alloc, &words)?.task {
        Ok(Task::Serve(it)) => Ok(format!(in alloc;
            "{} {:?} {} {:?}",
            it.connections, it.at_once, it.answers, it.kept
        )?),
        _ => Err(Fail::from("no server")),
    }
}

#[test]
fn takes_defaults_of_words(rt: HostRuntime) -> Result<(), Fail> {
    for row in SERVED.lines() {
        let (given, want) = row_of(row).ok_or("no row")?;
        assert_eq!(rt; asked(rt.alloc(), given)?.as_str(), want, "{row}");
    }
    Ok(())
}
