//! Answers rows: each line of the input names a kind of question and what it is about, and is
//! printed again with its answer after it. A line that begins with `#`, or is of no kind, is printed
//! as it is.
//!
//! `stdout` beside this folder is the table of rows and answers, written from the tables of
//! OPC 10000-4 and OPC 10000-6 and the rules of the node file; `stdin` is its left column. The
//! program sees no answer but its own.
#![tactic(auto)]

mod values;

use std::alloc::{AllocError, Global};
use std::io;
use std::io::{BufRead, BufReader};

fn main(rt: HostRuntime) -> io::Result<()> {
    for line in BufReader::new(rt.alloc(), rt.reader())?.lines(rt.alloc()) {
        let text = row(rt.alloc(), line?.as_str())?;
        println!(rt; "{text}")?;
    }
    Ok(())
}

/// A line with its answer after it, if it is a row.
fn row(alloc: Global, line: &str) -> Result<String, AllocError> {
    match values::answered(alloc, line)? {
        Some(answer) => format!(in alloc; "{line} = {answer}"),
        None => String::from_str(alloc, line),
    }
}
