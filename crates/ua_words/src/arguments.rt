//! The command line.

ghost use Rattle.std.specs.Prelude.{◌≤◌, IfOk, IfSome};
ghost use Rattle.ua_words.specs.Words.{CountsFromOne, IsAttributeNumber, IsLimited, IsPlaces};

use crate::ask_words::{AskServer, ask_of};
use crate::commands;
use crate::number::{parse_attribute, parse_number, parse_places, parse_size};
use clap::{ArgMatches, Error};
use std::alloc::{AllocError, Global};
use std::convert::AsStr;
use ua_answers::{AnswerStyle, EndpointStyle, LineStyle};
use ua_pair::{DissectOptions, Side};

/// The task that the words ask for.
#[derive(Debug, Drop)]
pub enum Task<'a> {
    /// Print the UA TCP messages of a file, and the messages that their chunks carry.
    Dissect(Dissect<'a>),
    /// Judge both sides of a connection.
    Judge(JudgeRecord<'a>),
    /// Serve connections, one after the other or many at a time.
    Serve(Serve<'a>),
    /// Print the endpoints of a server.
    Endpoints(ListEndpoints<'a>),
    /// Read an attribute of nodes.
    Read(ReadNodes<'a>),
    /// Write the value of a node.
    Write(WriteNode<'a>),
    /// Ask in one session what lines ask for as they come.
    Ask(AskServer<'a>),
    /// Run a script over nodes, both ends within this process.
    Loop(Loop<'a>),
    /// Print the version.
    Version,
}

/// A word that is not valid at its place; its text stands after `ua: ` on standard error.
#[derive(Clone, Copy, PartialEq, Eq, Debug, thiserror::Error)]
pub enum BadWord<'a> {
    /// A port, a count or a fragment size.
    #[error("a number is not from 1 to 65535")]
    Number(&'a str),
    /// The number of an attribute.
    #[error("an attribute is not from 1 to 27")]
    Attribute(&'a str),
    /// The path of a server.
    #[error("a path does not begin with /")]
    Path(&'a str),
    /// The URL of a server, or the path that makes it too long (OPC 10000-6, 7.1.2.3).
    #[error("a URL has more than 4095 bytes")]
    Url(&'a str),
    /// How many connections are served at a time.
    #[error("a number of connections at once is not from 1 to 1024")]
    AtOnce(&'a str),
    /// The most bytes of a response.
    #[error("a size of responses is not from 1 to 4294967295")]
    Answers(&'a str),
    /// The most bytes of memory of the values that Writes store.
    #[error("a size of stored values is not from 1 to 4294967295")]
    Kept(&'a str),
    /// The most bytes of a body whose fields are printed.
    #[error("a size of bodies is not from 1 to 4294967295")]
    Largest(&'a str),
    /// The milliseconds between two reads.
    #[error("a number of milliseconds is not from 1 to 4294967295")]
    Milliseconds(&'a str),
    /// A second script, or no node beside `--every`.
    #[error("there is one script, or --every and nodes")]
    Script(&'a str),
    /// What is to be read again when it changes.
    #[error("standard input is not read again")]
    Live(&'a str),
}

impl<'a> BadWord<'a> {
    /// The word.
    pub fn word(self) -> &'a str {
        match self {
            BadWord::Number(word)
            | BadWord::Attribute(word)
            | BadWord::Path(word)
            | BadWord::Url(word)
            | BadWord::AtOnce(word)
            | BadWord::Answers(word)
            | BadWord::Kept(word)
            | BadWord::Largest(word)
            | BadWord::Milliseconds(word)
            | BadWord::Script(word)
            | BadWord::Live(word) => word,
        }
    }
}

/// The content of words that parse.
#[derive(Debug, Drop)]
pub struct Parsed<'a> {
    /// The task, unless a word is not valid at its place.
    pub task: Result<Task<'a>, BadWord<'a>>,
    /// Whether the reasons of faults are printed.
    pub why: bool,
}

/// The words of `ua dissect`.
#[derive(Clone, Copy, Debug)]
pub struct Dissect<'a> {
    /// The file of bytes, or of their hexadecimal digits.
    pub file: &'a str,
    /// Whether the file holds hexadecimal digits.
    pub hex: bool,
    /// Which side sent the bytes, and what is printed of them.
    pub options: DissectOptions,
    /// Whether a frame that is refused has a status of its own.
    pub strict: bool,
}

/// The words of `ua judge`.
#[derive(Clone, Copy, Debug)]
pub struct JudgeRecord<'a> {
    /// The file of the bytes that a client sent, or that of the lines of both sides.
    pub up: &'a str,
    /// The file of the bytes that a server sent.
    pub down: Option<&'a str>,
    /// Whether the fields of a message follow its line.
    pub fields: bool,
    /// Whether the standard name of a StatusCode follows it.
    pub names: bool,
    /// Whether the fields are as people write them.
    pub plain: bool,
    /// Whether a broken protocol has a status of its own.
    pub strict: bool,
}

/// The number of connections that have numbers of their own: a SecureChannelId is the number of its
/// connection.
pub const ALL_CONNECTIONS: u32 = u32::MAX;

/// The words of `ua serve`.
#[derive(Clone, Copy, Debug)]
pub struct Serve<'a> {
    /// The node file.
    pub nodes: &'a str,
    /// A TCP port of this machine.
    pub port: u16,
    /// The number of connections that are served; [`ALL_CONNECTIONS`] where there is no limit.
    pub connections: u32,
    /// Whether the server goes on after a failed allocation at a connection, and after an error of
    /// its listener.
    pub goes_on: bool,
    /// Whether a line is printed of each request as it is answered.
    pub requests: bool,
    /// Whether the node file has decimals and times as people write them.
    pub plain: bool,
    /// Whether the standard nodes that clients ask for first are added, and CurrentTime is kept.
    pub standard: bool,
    /// How many connections are served at a time; `None` where one is served after the other.
    pub at_once: Option<u16>,
    /// The most bytes of a response's body; 0 is no limit but the client's.
    pub answers: u32,
    /// The most bytes of memory that Writes may make the values of the nodes take; `None` is no
    /// limit.
    pub kept: Option<u32>,
    /// Whether the node file is read again when it changes.
    pub live: bool,
    /// Whether a line is printed of each item that a client's Write stored, before its response.
    pub writes: bool,
}

/// A server that is asked, on this machine.
#[derive(Clone, Copy, Debug)]
pub struct Address<'a> {
    /// Its port.
    pub port: u16,
    /// The URL by which it is asked, where that is not `opc.tcp://localhost:` and its port.
    pub url: Option<&'a str>,
    /// The path after the URL: nothing, or a path that begins with `/`.
    pub path: &'a str,
}

/// The words of `ua endpoints`.
#[derive(Clone, Copy, Debug)]
pub struct ListEndpoints<'a> {
    /// The server.
    pub server: Address<'a>,
    /// How the endpoints are printed.
    pub style: EndpointStyle,
    /// The name of the files that keep the bytes in each direction, if they are kept.
    pub record: Option<&'a str>,
}

/// The words of `ua read`.
#[derive(Debug, Drop)]
pub struct ReadNodes<'a> {
    /// The server.
    pub server: Address<'a>,
    /// The texts of NodeIds.
    pub nodes: Vec<&'a str>,
    /// The number of the attribute that is read.
    pub attribute: u32,
    /// The text of the index range for all nodes, if there is one.
    pub range: Option<&'a str>,
    /// The PolicyId of a token policy, or `auto`.
    pub policy: &'a str,
    /// How the answers are printed.
    pub style: AnswerStyle,
    /// Whether a bad StatusCode has a status of its own.
    pub strict: bool,
    /// The name of the files that keep the bytes in each direction, if they are kept.
    pub record: Option<&'a str>,
}

/// The words of `ua write`.
#[derive(Clone, Copy, Debug)]
pub struct WriteNode<'a> {
    /// The server.
    pub server: Address<'a>,
    /// The text of a NodeId.
    pub node: &'a str,
    /// The name of a type.
    pub kind: &'a str,
    /// The text of a value of that type.
    pub value: &'a str,
    /// The PolicyId of a token policy, or `auto`.
    pub policy: &'a str,
    /// How the answer is printed.
    pub style: AnswerStyle,
    /// Whether a bad StatusCode has a status of its own.
    pub strict: bool,
    /// The name of the files that keep the bytes in each direction, if they are kept.
    pub record: Option<&'a str>,
}

/// The words of `ua loop`.
#[derive(Clone, Copy, Debug)]
pub struct Loop<'a> {
    /// The node file.
    pub nodes: &'a str,
    /// The script.
    pub script: &'a str,
    /// The maximum number of bytes that each end takes at once.
    pub cut: u16,
    /// Whether the bytes go over a TCP connection, too.
    pub tcp: bool,
    /// Whether the names of StatusCodes are printed.
    pub names: bool,
    /// Whether values are written as people write them.
    pub plain: bool,
    /// Whether a bad StatusCode has a status of its own.
    pub strict: bool,
}

fn side_of(matches: &ArgMatches<'_>) -> Side {
    if matches.get_flag("server") {
        Side::Server
    } else {
        Side::Client
    }
}

/// A word that is needed, or has a default.
pub fn text_of<'a>(matches: &ArgMatches<'a>, name: &str) -> &'a str {
    // Never: `clap` refuses words without it.
    matches.get_str(name).unwrap_or("")
}

/// The number from 1 to 65535 that a word is.
pub fn number_of<'a>(matches: &ArgMatches<'a>, name: &str) -> Result<u16, BadWord<'a>>
    ensures { IfOk result (λ number. 1 ≤ number) }
{
    let word = text_of(matches, name);
    parse_number(word).ok_or(BadWord::Number(word))
}

/// The number of an attribute that a word is.
fn attribute_of<'a>(matches: &ArgMatches<'a>) -> Result<u32, BadWord<'a>>
    ensures { IfOk result IsAttributeNumber }
{
    let word = text_of(matches, "attribute");
    parse_attribute(word).ok_or(BadWord::Attribute(word))
}

/// How answers are printed. Only `ua read` has timestamps.
pub fn style_of(matches: &ArgMatches<'_>) -> AnswerStyle {
    let lines = LineStyle {
        names: matches.get_flag("names"),
        times: matches.get_flag("times"),
        json: matches.get_flag("json"),
    };
    AnswerStyle {
        lines,
        plain: matches.get_flag("plain"),
    }
}

/// Whether all connections are to be served.
fn serves_all(matches: &ArgMatches<'_>) -> bool {
    text_of(matches, "connections") == "all"
}

/// How many connections are to be served: a number from 1 to 65535, or `all`.
fn connections_of<'a>(matches: &ArgMatches<'a>) -> Result<u32, BadWord<'a>>
    ensures { IfOk result (λ connections. 1 ≤ connections) }
{
    if serves_all(matches) {
        return Ok(ALL_CONNECTIONS);
    }
    Ok(u32::from(number_of(matches, "connections")?))
}

/// The maximum length of a URL in bytes (OPC 10000-6, 7.1.2.3).
const MOST_URL: usize = 4095;

/// The maximum length in bytes of `opc.tcp://localhost:` and a port.
const LOCAL_URL: usize = 25;

/// The server that is asked.
pub(crate) fn server_of<'a>(matches: &ArgMatches<'a>) -> Result<Address<'a>, BadWord<'a>>
    ensures { IfOk result (λ server. 1 ≤ server.port) }
{
    let port = number_of(matches, "PORT")?;
    let (url, path) = (matches.get_str("url"), text_of(matches, "path"));
    if !path.is_empty() && !path.starts_with('/') {
        return Err(BadWord::Path(path));
    }
    let room = MOST_URL - path.len().min(MOST_URL);
    match url {
        Some(text) if text.len() > room => Err(BadWord::Url(text)),
        None if LOCAL_URL > room => Err(BadWord::Url(path)),
        _ => Ok(Address { port, url, path }),
    }
}

/// How many connections are to be served at a time, a number from 1 to 1024, if that is said.
fn at_once_of<'a>(matches: &ArgMatches<'a>) -> Result<Option<u16>, BadWord<'a>>
    ensures { IfOk result (λ at_once. IfSome at_once IsPlaces) }
{
    let Some(word) = matches.get_str("at-once") else {
        return Ok(None);
    };
    match parse_places(word) {
        Some(places) => Ok(Some(places)),
        None => Err(BadWord::AtOnce(word)),
    }
}

/// How many connections are served at a time: what is said, else 1 where the node file is followed
/// or stored items are printed, since the loop that serves many does that.
fn places_of(said: Option<u16>, beside: bool) -> Option<u16>
    ensures { IfSome said IsPlaces → IfSome result IsPlaces }
{
    match said {
        None if beside => Some(1),
        _ => said,
    }
}

/// Whether the node file is followed; standard input cannot be.
fn live_of<'a>(matches: &ArgMatches<'a>) -> Result<bool, BadWord<'a>> {
    let nodes = text_of(matches, "NODES");
    match matches.get_flag("live") {
        true if nodes == "-" => Err(BadWord::Live(nodes)),
        live => Ok(live),
    }
}

/// The most bytes of a response's body, where nothing is said and a server is to last.
const MOST_ANSWER: u32 = 16_777_216;

/// The most bytes of a response's body: the number that is said, else [`MOST_ANSWER`] where the
/// server is to last, else 0, which is no limit.
fn answers_of<'a>(matches: &ArgMatches<'a>, lasts: bool) -> Result<u32, BadWord<'a>>
    ensures { IfOk result (IsLimited lasts) }
{
    match matches.get_str("answers") {
        Some(word) => parse_size(word).ok_or(BadWord::Answers(word)),
        None if lasts => Ok(MOST_ANSWER),
        None => Ok(0),
    }
}

/// The most bytes of memory of stored values, if a limit is asked for.
fn kept_of<'a>(matches: &ArgMatches<'a>) -> Result<Option<u32>, BadWord<'a>> {
    let Some(word) = matches.get_str("kept") else {
        return Ok(None);
    };
    match parse_size(word) {
        Some(most) => Ok(Some(most)),
        None => Err(BadWord::Kept(word)),
    }
}

fn endpoints_of<'a>(matches: &ArgMatches<'a>) -> Result<Task<'a>, BadWord<'a>>
    ensures { IfOk result CountsFromOne }
{
    let style = EndpointStyle {
        policies: matches.get_flag("policies"),
        json: matches.get_flag("json"),
    };
    let server = server_of(matches)?;
    Ok(Task::Endpoints(ListEndpoints {
        server,
        style,
        record: matches.get_str("record"),
    }))
}

/// The most bytes of a body whose fields are printed.
fn largest_of<'a>(matches: &ArgMatches<'a>) -> Result<usize, BadWord<'a>> {
    let word = text_of(matches, "largest");
    match parse_size(word) {
        Some(most) => Ok(most as usize),
        None => Err(BadWord::Largest(word)),
    }
}

fn dissect_of<'a>(matches: &ArgMatches<'a>) -> Result<Task<'a>, BadWord<'a>>
    ensures { IfOk result CountsFromOne }
{
    let options = DissectOptions {
        side: side_of(matches),
        fields: matches.get_flag("fields"),
        names: matches.get_flag("names"),
        plain: matches.get_flag("plain"),
        largest: largest_of(matches)?,
    };
    Ok(Task::Dissect(Dissect {
        file: text_of(matches, "FILE"),
        hex: matches.get_flag("hex"),
        options,
        strict: matches.get_flag("strict"),
    }))
}

fn judge_of<'a>(matches: &ArgMatches<'a>) -> Task<'a>
    ensures { CountsFromOne result }
{
    Task::Judge(JudgeRecord {
        up: text_of(matches, "UP"),
        down: matches.get_str("DOWN"),
        fields: matches.get_flag("fields"),
        names: matches.get_flag("names"),
        plain: matches.get_flag("plain"),
        strict: matches.get_flag("strict"),
    })
}

fn serve_of<'a>(matches: &ArgMatches<'a>) -> Result<Task<'a>, BadWord<'a>>
    ensures { IfOk result CountsFromOne }
{
    let port = number_of(matches, "PORT")?;
    let connections = connections_of(matches)?;
    let live = live_of(matches)?;
    let writes = matches.get_flag("writes");
    let at_once = places_of(at_once_of(matches)?, live || writes);
    let standard = matches.get_flag("standard");
    let answers = answers_of(matches, standard || at_once.is_some())?;
    let kept = kept_of(matches)?;
    Ok(Task::Serve(Serve {
        nodes: text_of(matches, "NODES"),
        port,
        connections,
        goes_on: serves_all(matches),
        requests: matches.get_flag("requests"),
        plain: matches.get_flag("plain"),
        standard,
        at_once,
        answers,
        kept,
        live,
        writes,
    }))
}

fn write_of<'a>(matches: &ArgMatches<'a>) -> Result<Task<'a>, BadWord<'a>>
    ensures { IfOk result CountsFromOne }
{
    let server = server_of(matches)?;
    Ok(Task::Write(WriteNode {
        server,
        node: text_of(matches, "NODE"),
        kind: text_of(matches, "TYPE"),
        value: text_of(matches, "VALUE"),
        policy: text_of(matches, "policy"),
        style: style_of(matches),
        strict: matches.get_flag("strict"),
        record: matches.get_str("record"),
    }))
}

fn loop_of<'a>(matches: &ArgMatches<'a>) -> Result<Task<'a>, BadWord<'a>>
    ensures { IfOk result CountsFromOne }
{
    let cut = number_of(matches, "cut")?;
    Ok(Task::Loop(Loop {
        nodes: text_of(matches, "NODES"),
        script: text_of(matches, "SCRIPT"),
        cut,
        tcp: matches.get_flag("tcp"),
        names: matches.get_flag("names"),
        plain: matches.get_flag("plain"),
        strict: matches.get_flag("strict"),
    }))
}

/// The words for nodes, or those for a script.
fn nodes_of<'a>(alloc: Global, matches: &ArgMatches<'a>) -> Result<Vec<&'a str>, AllocError> {
    let words = matches
        .get_strs("NODE")
        .or_else(|| matches.get_strs("SCRIPT"));
    words.unwrap_or(&[]).to_vec(alloc)
}

fn asking_of<'a>(words: Vec<&'a str>, matches: &ArgMatches<'a>) -> Result<Task<'a>, BadWord<'a>>
    ensures { IfOk result CountsFromOne }
{
    Ok(Task::Ask(ask_of(words, matches)?))
}

fn read_of<'a>(nodes: Vec<&'a str>, matches: &ArgMatches<'a>) -> Result<Task<'a>, BadWord<'a>>
    ensures { IfOk result CountsFromOne }
{
    let server = server_of(matches)?;
    let attribute = attribute_of(matches)?;
    Ok(Task::Read(ReadNodes {
        server,
        nodes,
        attribute,
        range: matches.get_str("range"),
        policy: text_of(matches, "policy"),
        style: style_of(matches),
        strict: matches.get_flag("strict"),
        record: matches.get_str("record"),
    }))
}

/// The commands, by their names.
#[derive(Clone, Copy)]
enum Name {
    Dissect,
    Judge,
    Serve,
    Endpoints,
    Read,
    Write,
    Ask,
    Loop,
    Version,
}

/// The command of this name.
fn name_of(command: &str) -> Name {
    match command {
        "dissect" => Name::Dissect,
        "judge" => Name::Judge,
        "serve" => Name::Serve,
        "endpoints" => Name::Endpoints,
        "read" => Name::Read,
        "write" => Name::Write,
        "ask" => Name::Ask,
        "loop" => Name::Loop,
        // `clap` takes no other name.
        _ => Name::Version,
    }
}

/// The task in the words of a command. Those for nodes are given beside them.
fn task_of<'a>(
    command: Name,
    nodes: Vec<&'a str>,
    matches: &ArgMatches<'a>,
) -> Result<Task<'a>, BadWord<'a>>
    ensures { IfOk result CountsFromOne }
{
    match command {
        Name::Dissect => dissect_of(matches),
        Name::Judge => Ok(judge_of(matches)),
        Name::Serve => serve_of(matches),
        Name::Endpoints => endpoints_of(matches),
        Name::Read => read_of(nodes, matches),
        Name::Write => write_of(matches),
        Name::Ask => asking_of(nodes, matches),
        Name::Loop => loop_of(matches),
        Name::Version => Ok(Task::Version),
    }
}

/// The content of the command among the words.
fn parsed_of<'a>(alloc: Global, matches: &ArgMatches<'a>) -> Result<Parsed<'a>, AllocError>
    ensures { IfOk result (λ parsed. IfOk parsed.task CountsFromOne) }
{
    let Some((command, found)) = matches.subcommand() else {
        // Never: a command is needed.
        return Ok(Parsed {
            task: Ok(Task::Version),
            why: false,
        });
    };
    let nodes = nodes_of(alloc, found)?;
    Ok(Parsed {
        task: task_of(name_of(command), nodes, found),
        why: found.get_flag("why"),
    })
}

/// What `clap` finds among the words.
fn matches_of<'a, S: AsStr>(alloc: Global, words: &'a [S]) -> Result<ArgMatches<'a>, Error> {
    commands::program(alloc)?.try_get_matches_from(words)
}

/// Whether `--version` is the one word after the program's name.
fn asks_version<S: AsStr>(words: &[S]) -> bool {
    words.len() == 2 && words[1].as_str() == "--version"
}

/// Parses the words, of which the first is the program's name.
pub fn parse<'a, S: AsStr>(alloc: Global, words: &'a [S]) -> Result<Parsed<'a>, Error>
    ensures { IfOk result (λ parsed. IfOk parsed.task CountsFromOne) }
{
    if asks_version(words) {
        return Ok(Parsed {
            task: Ok(Task::Version),
            why: false,
        });
    }
    let matches = matches_of(alloc, words)?;
    let parsed = parsed_of(alloc, &matches);
    drop(matches);
    Ok(parsed?)
}
