//! The commands and their words, as `clap` takes them.

use clap::{Arg, ArgAction, Command};
use std::alloc::{AllocError, Global};

/// What a word of a command line is.
#[derive(Clone, Copy)]
enum Kind {
    /// One that the command needs, by its place.
    Needed,
    /// A number that the command needs, by its place.
    Number,
    /// One that may be left out, by its place.
    Optional,
    /// One or more at the last place.
    Several,
    /// None or more at the last place.
    Any,
    /// A flag, as `--hex`.
    Flag,
    /// A text, as `--range 1:2`; the help names it so.
    Text(&'static str),
    /// The same, with this default, as `--policy auto`.
    TextOr(&'static str, &'static str),
    /// A number with this default, as `--cut 7`; the help names it N.
    NumberOr(&'static str),
    /// A number that may be left out, which is then this one, as `--kept`; the help names it N.
    NumberOrNone(&'static str),
    /// A number that does not stand beside this flag, as `--at-once 16`; the help names it N.
    NumberWithout(&'static str),
    /// A number that stands beside this option alone, as `--count 3`; the help names it N.
    NumberWith(&'static str),
    /// A flag that does not stand beside this one.
    FlagWithout(&'static str),
}

/// A word of a command: its name, what it is, and its help.
#[derive(Clone, Copy)]
struct Word {
    name: &'static str,
    kind: Kind,
    help: &'static str,
}

/// A command: its name, its help, and its words.
#[derive(Clone, Copy)]
struct Words {
    name: &'static str,
    help: &'static str,
    words: &'static [Word],
}

const PORT: Word = Word {
    name: "PORT",
    kind: Kind::Number,
    help: "a port of this machine, from 1 to 65535",
};

const NODE_FILE: Word = Word {
    name: "NODES",
    kind: Kind::Needed,
    help: "the node file, or - for standard input",
};

const NAMES: Word = Word {
    name: "names",
    kind: Kind::Flag,
    help: "the standard's name stands behind each status code that has one",
};

const TIMES: Word = Word {
    name: "times",
    kind: Kind::Flag,
    help: "the source's and the server's timestamps stand behind each value",
};

const JSON: Word = Word {
    name: "json",
    kind: Kind::Flag,
    help: "each line is an object of JSON",
};

const PLAIN: Word = Word {
    name: "plain",
    kind: Kind::Flag,
    help: "numbers and times are as people write them",
};

const POLICY: Word = Word {
    name: "policy",
    kind: Kind::TextOr("ID", "anonymous"),
    help: "the id of the server's anonymous token policy, or auto to ask the server for it",
};

const PATH: Word = Word {
    name: "path",
    kind: Kind::TextOr("/P", ""),
    help: "the path of the server's URL, as /UA/Server",
};

const URL: Word = Word {
    name: "url",
    kind: Kind::Text("URL"),
    help: "the server's URL up to the path, in place of opc.tcp://localhost:PORT",
};

const RECORD: Word = Word {
    name: "record",
    kind: Kind::Text("NAME"),
    help: "the bytes each way go to two files of this name, with .up and .down behind it",
};

const STRICT: Word = Word {
    name: "strict",
    kind: Kind::Flag,
    help: "the status is 3 where a status code of an answer is bad",
};

const WHY: Word = Word {
    name: "why",
    kind: Kind::Flag,
    help: "behind a fault stands what is known of its reason",
};

const DISSECT: &[Word] = &[
    Word {
        name: "FILE",
        kind: Kind::Needed,
        help: "the file of bytes, or - for standard input",
    },
    Word {
        name: "hex",
        kind: Kind::Flag,
        help: "the file holds hexadecimal digits; white space is dropped",
    },
    Word {
        name: "server",
        kind: Kind::Flag,
        help: "the bytes are those that a server sent",
    },
    Word {
        name: "fields",
        kind: Kind::Flag,
        help: "the fields of each message stand behind its line",
    },
    Word {
        name: "largest",
        kind: Kind::TextOr("BYTES", "131072"),
        help: "the most bytes of a body whose fields are printed",
    },
    Word {
        name: "names",
        kind: Kind::Flag,
        help: "each status code has its standard name behind it",
    },
    PLAIN,
    Word {
        name: "strict",
        kind: Kind::Flag,
        help: "the status is 3 where a frame is refused",
    },
    WHY,
];

const JUDGE: &[Word] = &[
    Word {
        name: "UP",
        kind: Kind::Needed,
        help: "the file of bytes that the client sent; alone, the lines > HEX and < HEX of both sides, or - for standard input",
    },
    Word {
        name: "DOWN",
        kind: Kind::Optional,
        help: "the file of bytes that the server sent",
    },
    Word {
        name: "fields",
        kind: Kind::Flag,
        help: "the fields of each message stand behind its line",
    },
    Word {
        name: "names",
        kind: Kind::Flag,
        help: "each status code has its standard name behind it",
    },
    PLAIN,
    Word {
        name: "strict",
        kind: Kind::Flag,
        help: "the status is 3 where a side breaks the protocol",
    },
    WHY,
];

const SERVE: &[Word] = &[
    NODE_FILE,
    PORT,
    Word {
        name: "connections",
        kind: Kind::NumberOr("1"),
        help: "how many connections are served, from 1 to 65535, or all",
    },
    Word {
        name: "at-once",
        kind: Kind::NumberWithout("requests"),
        help: "how many connections are served at a time, from 1 to 1024, and not one after the other",
    },
    Word {
        name: "answers",
        kind: Kind::Text("N"),
        help: "the most bytes of a response; 16777216 beside --at-once, --live, --standard or --writes, else only the client's limit",
    },
    Word {
        name: "kept",
        kind: Kind::NumberOrNone("67108864"),
        help: "the most bytes of memory that Writes may make all values take; N is 67108864 if left out",
    },
    Word {
        name: "requests",
        kind: Kind::Flag,
        help: "each request has a line as it is answered",
    },
    PLAIN,
    Word {
        name: "standard",
        kind: Kind::Flag,
        help: "the nodes of the standard that clients ask first are added",
    },
    Word {
        name: "live",
        kind: Kind::FlagWithout("requests"),
        help: "the node file is read again when it changes, while it is served",
    },
    Word {
        name: "writes",
        kind: Kind::FlagWithout("requests"),
        help: "each item that a client's Write stored has a line, before the response",
    },
    WHY,
];

const ENDPOINTS: &[Word] = &[
    PORT,
    Word {
        name: "policies",
        kind: Kind::Flag,
        help: "the token policies of each endpoint stand behind it",
    },
    JSON,
    PATH,
    URL,
    RECORD,
    WHY,
];

const READ: &[Word] = &[
    PORT,
    Word {
        name: "NODE",
        kind: Kind::Several,
        help: "a NodeId, as ns=1;s=Pump",
    },
    Word {
        name: "attribute",
        kind: Kind::NumberOr("13"),
        help: "the number of the attribute that is read, from 1 to 27",
    },
    Word {
        name: "range",
        kind: Kind::Text("R"),
        help: "the elements of arrays that are read, as 2 or 1:9",
    },
    NAMES,
    TIMES,
    JSON,
    PLAIN,
    POLICY,
    PATH,
    URL,
    RECORD,
    STRICT,
    WHY,
];

const WRITE: &[Word] = &[
    PORT,
    Word {
        name: "NODE",
        kind: Kind::Needed,
        help: "a NodeId, as ns=1;s=Pump",
    },
    Word {
        name: "TYPE",
        kind: Kind::Needed,
        help: "a type, as Int32 or Int32[]",
    },
    Word {
        name: "VALUE",
        kind: Kind::Needed,
        help: "a value of the type; one that begins with - stands behind the word --",
    },
    NAMES,
    JSON,
    PLAIN,
    POLICY,
    PATH,
    URL,
    RECORD,
    STRICT,
    WHY,
];

const ASK: &[Word] = &[
    PORT,
    Word {
        name: "SCRIPT",
        kind: Kind::Any,
        help: "the script, or - for standard input, as where nothing is said; with --every the nodes",
    },
    Word {
        name: "every",
        kind: Kind::Text("MS"),
        help: "nodes are read again and again, so many milliseconds after each answer",
    },
    Word {
        name: "count",
        kind: Kind::NumberWith("every"),
        help: "how many times they are read, from 1 to 65535; else until it is stopped",
    },
    NAMES,
    TIMES,
    JSON,
    PLAIN,
    POLICY,
    PATH,
    URL,
    RECORD,
    STRICT,
    WHY,
];

const LOOP: &[Word] = &[
    NODE_FILE,
    Word {
        name: "SCRIPT",
        kind: Kind::Needed,
        help: "the script: lines that read, write and renew",
    },
    Word {
        name: "cut",
        kind: Kind::NumberOr("65535"),
        help: "how many bytes each end takes at once, from 1 to 65535",
    },
    Word {
        name: "tcp",
        kind: Kind::Flag,
        help: "the same bytes go over a connection within this process, too",
    },
    NAMES,
    PLAIN,
    STRICT,
    WHY,
];

/// `ua dissect`.
fn dissect() -> Words {
    Words {
        name: "dissect",
        help: "prints the frames and messages of a file of bytes",
        words: DISSECT,
    }
}

/// `ua judge`.
fn judge() -> Words {
    Words {
        name: "judge",
        help: "prints both sides of a connection, and which of them breaks the protocol",
        words: JUDGE,
    }
}

/// `ua serve`.
fn serve() -> Words {
    Words {
        name: "serve",
        help: "serves connections on a port, one after the other or many at a time",
        words: SERVE,
    }
}

/// `ua endpoints`.
fn endpoints() -> Words {
    Words {
        name: "endpoints",
        help: "prints the endpoints of a server",
        words: ENDPOINTS,
    }
}

/// `ua read`.
fn read() -> Words {
    Words {
        name: "read",
        help: "reads the values of nodes",
        words: READ,
    }
}

/// `ua write`.
fn write() -> Words {
    Words {
        name: "write",
        help: "writes the value of a node",
        words: WRITE,
    }
}

/// `ua ask`.
fn ask() -> Words {
    Words {
        name: "ask",
        help: "answers lines in one session as they come, or reads nodes again and again",
        words: ASK,
    }
}

/// `ua loop`.
fn loop_script() -> Words {
    Words {
        name: "loop",
        help: "runs a script over nodes, with both ends within this process",
        words: LOOP,
    }
}

/// `ua version`.
fn version() -> Words {
    Words {
        name: "version",
        help: "prints the version, and the kit that it is proved with",
        words: &[],
    }
}

/// The commands, in the order of the help.
// Each has a function of its own, since what a function names is written out at each of its steps.
fn commands() -> [Words; 9] {
    [
        dissect(),
        judge(),
        serve(),
        endpoints(),
        read(),
        write(),
        ask(),
        loop_script(),
        version(),
    ]
}

/// A word as `clap` takes it.
fn arg<'a>(alloc: Global, word: &Word) -> Result<Arg<'a>, AllocError> {
    let arg = Arg::new(alloc, word.name).help(word.help);
    Ok(match word.kind {
        Kind::Needed => arg.required(true),
        // A negative number is a word that is no number of those that are taken, and not an option.
        Kind::Number => arg.required(true).allow_negative_numbers(true),
        Kind::Optional => arg,
        Kind::Several => arg
            .required(true)
            .action(ArgAction::Set)
            .num_args(1..=usize::MAX),
        Kind::Any => arg.action(ArgAction::Set).num_args(0..=usize::MAX),
        Kind::Flag => arg.long(word.name).action(ArgAction::SetTrue),
        Kind::Text(named) => arg.long(word.name).value_name(named),
        Kind::TextOr(named, text) => arg.long(word.name).value_name(named).default_value(text),
        Kind::NumberOr(text) => arg
            .long(word.name)
            .value_name("N")
            .default_value(text)
            .allow_negative_numbers(true),
        Kind::NumberOrNone(text) => arg
            .long(word.name)
            .value_name("N")
            .num_args(0..=1)
            .default_missing_value(text)
            .allow_negative_numbers(true),
        Kind::NumberWithout(flag) => arg
            .long(word.name)
            .value_name("N")
            .allow_negative_numbers(true)
            .conflicts_with(flag)?,
        Kind::NumberWith(other) => arg
            .long(word.name)
            .value_name("N")
            .allow_negative_numbers(true)
            .requires_arg(other)?,
        Kind::FlagWithout(flag) => arg
            .long(word.name)
            .action(ArgAction::SetTrue)
            .conflicts_with(flag)?,
    })
}

/// A command as `clap` takes it.
fn command<'a>(alloc: Global, words: &Words) -> Result<Command<'a>, AllocError> {
    let mut command = Command::new(alloc, words.name).about(words.help);
    for word in words.words {
        match command.arg(arg(alloc, word)?) {
            Ok(longer) => command = longer,
            Err(error) => return Err(error),
        }
    }
    Ok(command)
}

/// Adds a command to the program.
fn with_command<'a>(
    alloc: Global,
    program: Command<'a>,
    words: &Words,
) -> Result<Command<'a>, AllocError> {
    match command(alloc, words) {
        Ok(command) => program.subcommand(command),
        Err(error) => {
            drop(program);
            Err(error)
        }
    }
}

/// The program's command line.
pub fn program<'a>(alloc: Global) -> Result<Command<'a>, AllocError> {
    let mut program = Command::new(alloc, "ua")
        .about("OPC UA Binary over UA TCP")
        .subcommand_required(true);
    for words in &commands() {
        match with_command(alloc, program, words) {
            Ok(longer) => program = longer,
            Err(error) => return Err(error),
        }
    }
    Ok(program)
}
