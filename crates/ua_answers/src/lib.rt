//! The lines and JSON objects of answers that the program `ua` prints, the lines of its scripts,
//! and values that it reads in human-readable form.
//!
//! The contract: each line of an answer that is printed exactly is a function of the answer, and
//! each line of a script is at most one step.
//!
//! ```
//! let steps = parse_script(alloc, "write\tns=1;s=Pump\tInt32\t6\nread\tns=1;s=Pump\n")?;
//! let mut out = String::new(alloc);
//! // `ns=1;s=Pump 00000000 Int32 6`
//! push_read_line(alloc, &mut out, &node, &answer, LineStyle::plain(false))?;
//! ```
#![tactic(auto)]

mod answer;
mod fault;
mod object;
mod object_parts;
mod plain_answer;
mod plain_lines;
mod plain_object;
mod plain_read;
mod plain_reply;
mod reply;
mod script;
mod style;

pub use answer::{push_endpoint_line, push_read_line, push_write_line};
pub use fault::{AnswerFault, ScriptFault};
pub use plain_lines::{exact_lines, exact_typed};
pub use plain_read::parse_plain_value;
pub use plain_reply::push_read_answers_as;
pub use reply::{has_bad_code, push_endpoints, push_read_answers, push_write_answers};
pub use script::{ScriptLine, Step, parse_script};
pub use style::{AnswerStyle, EndpointStyle, LineStyle};
