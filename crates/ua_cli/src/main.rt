//! The program `ua`: OPC UA Binary on the command line. `main` gives its words and streams to
//! [`ua_program::run`]; `rows/program.rows` has what it then prints, asks and answers.
#![tactic(auto)]

use std::process::ExitCode;
use std::{env, io};
use ua_program::{refuse_words, run};

fn main(rt: HostRuntime) -> ExitCode {
    let mut err = rt.stderr();
    let status = match words_of(&rt) {
        Ok(words) => {
            let mut input = rt.reader();
            run(
                &rt,
                words.as_slice(),
                &mut input,
                &mut rt.stdout(),
                &mut err,
            )
        }
        Err(error) => refuse_words(&error, &mut err),
    };
    ExitCode::from(status)
}

/// The words of the command line, of which the first is the program's name.
fn words_of(rt: &HostRuntime) -> io::Result<Vec<String>> {
    Ok(env::args(rt)?.collect(rt.alloc())?)
}
