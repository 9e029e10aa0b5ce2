//! Does one fragment of work on a message many times over, so that its instructions can be counted:
//! `bench_messages WORK FILE TIMES [BESIDE]`, where FILE holds the bytes of one value, or those
//! that one side of a connection sends, and BESIDE the nodes of a server or the request of a
//! client. docs/PERFORMANCE.md says how, and what came of it.
#![tactic(auto)]

mod bodies;
mod calls;
mod fault;
mod given;
mod nodes;
mod streams;
mod work;

use crate::fault::Fault;
use crate::given::Given;
use crate::work::Work;
use std::process::ExitCode;
use std::{env, fs, io};

fn main(rt: HostRuntime) -> ExitCode {
    match run(&rt) {
        Ok(octets) => match println!(rt; "{octets}") {
            Ok(()) => ExitCode::from(0),
            Err(_) => ExitCode::from(1),
        },
        Err(fault) => {
            let _ = eprintln!(rt; "bench_messages: {fault}");
            ExitCode::from(1)
        }
    }
}

/// Does the work that the words of the command line name; how many bytes it went over.
fn run(rt: &HostRuntime) -> Result<u64, Fault> {
    let words = words_of(rt).map_err(|_| Fault::Words)?;
    let (Some(work), Some(file), Some(times)) = (words.get(1), words.get(2), words.get(3)) else {
        return Err(Fault::Words);
    };
    let work = Work::named(work.as_str()).ok_or(Fault::Words)?;
    let times = u32::from_str_radix(times.as_str(), 10).map_err(|_| Fault::Words)?;
    let octets = fs::read(rt, file.as_str()).map_err(|_| Fault::File)?;
    let beside = match words.get(4) {
        Some(beside) => fs::read(rt, beside.as_str()).map_err(|_| Fault::File)?,
        None => Vec::new(rt.alloc()),
    };
    work.repeat(rt.alloc(), &Given::new(octets, beside), times)
}

/// The words of the command line, of which the first is the program's name.
fn words_of(rt: &HostRuntime) -> io::Result<Vec<String>> {
    Ok(env::args(rt)?.collect(rt.alloc())?)
}
