//! The words of `ua ask`.

ghost use Rattle.std.specs.Prelude.{◌≡◌, ◌≤◌, IfOk};

use crate::arguments::{Address, BadWord, ReadNodes, number_of, server_of, style_of, text_of};
use crate::number::parse_size;
use clap::ArgMatches;
use ua_answers::AnswerStyle;

/// The number of the attribute Value (OPC 10000-6, A.1).
const VALUE: u32 = 13;

/// The words of `ua ask`.
#[derive(Debug, Drop)]
pub struct AskServer<'a> {
    /// The server.
    pub server: Address<'a>,
    /// What it is asked.
    pub what: Asked<'a>,
    /// The PolicyId of a token policy, or `auto`.
    pub policy: &'a str,
    /// How the answers are printed.
    pub style: AnswerStyle,
    /// Whether a bad StatusCode has a status of its own.
    pub strict: bool,
    /// The name of the files that keep the bytes in each direction, if they are kept.
    pub record: Option<&'a str>,
}

/// What a server is asked in one session.
#[derive(Debug, Drop)]
pub enum Asked<'a> {
    /// The lines of a file, or of standard input where it is named `-`.
    Script(&'a str),
    /// The Values of nodes, again and again.
    Rounds(Rounds<'a>),
}

/// Reads of the same nodes.
#[derive(Debug, Drop)]
pub struct Rounds<'a> {
    /// The nodes.
    pub nodes: ReadNodes<'a>,
    /// The milliseconds between two reads.
    pub every: u32,
    /// How many reads there are; no number where there is no limit.
    pub count: Option<u16>,
}

/// How many reads there are, if that is said.
fn count_of<'a>(matches: &ArgMatches<'a>) -> Result<Option<u16>, BadWord<'a>> {
    match matches.get_str("count") {
        Some(_) => Ok(Some(number_of(matches, "count")?)),
        None => Ok(None),
    }
}

/// The words for reads of the same nodes.
fn rounds_of<'a>(
    server: Address<'a>,
    nodes: Vec<&'a str>,
    every: &'a str,
    matches: &ArgMatches<'a>,
) -> Result<Asked<'a>, BadWord<'a>> {
    let every = parse_size(every).ok_or(BadWord::Milliseconds(every))?;
    if nodes.is_empty() {
        return Err(BadWord::Script("--every"));
    }
    let nodes = ReadNodes {
        server,
        nodes,
        attribute: VALUE,
        range: None,
        policy: text_of(matches, "policy"),
        style: style_of(matches),
        strict: matches.get_flag("strict"),
        record: matches.get_str("record"),
    };
    Ok(Asked::Rounds(Rounds {
        nodes,
        every,
        count: count_of(matches)?,
    }))
}

/// What a server is asked: the lines of a script, or with `--every` the Values of nodes.
fn asked_of<'a>(
    server: Address<'a>,
    words: Vec<&'a str>,
    matches: &ArgMatches<'a>,
) -> Result<Asked<'a>, BadWord<'a>> {
    if let Some(every) = matches.get_str("every") {
        return rounds_of(server, words, every, matches);
    }
    match words.as_slice() {
        [] => Ok(Asked::Script("-")),
        [file] => Ok(Asked::Script(file)),
        [_, second, ..] => Err(BadWord::Script(second)),
    }
}

/// What `ua ask` is asked for.
pub(crate) fn ask_of<'a>(
    words: Vec<&'a str>,
    matches: &ArgMatches<'a>,
) -> Result<AskServer<'a>, BadWord<'a>>
    ensures { IfOk result (λ asked. 1 ≤ asked.server.port) }
{
    let server = server_of(matches)?;
    Ok(AskServer {
        server,
        what: asked_of(server, words, matches)?,
        policy: text_of(matches, "policy"),
        style: style_of(matches),
        strict: matches.get_flag("strict"),
        record: matches.get_str("record"),
    })
}
