//! The commands that ask a server. `ua endpoints`, `ua read` and `ua write` ask a server over a
//! transport, and write the lines of the answers.
//!
//! The main contracts are those of [`endpoints_over`] and [`ask_over`]: what a client does at each
//! step, how often its transport fails, which lines are written of the replies, and which fault is
//! returned.
//!
//! ```
//! let question = Question::parse_read(alloc, &["ns=1;s=Pump"], 13, None)?;
//! let style = AnswerStyle::exact(LineStyle::plain(false));
//! let policy = TokenPolicy::Auto;
//! let opening = Opening { alloc, limits, url: &url };
//! let inquiry = Inquiry { opening, question: &question, policy: &policy, style };
//! ask_over(&mut line, &inquiry, &mut moments, &mut out)?;
//! // `ns=1;s=Pump 00000000 Int32 6` is written to `out`
//! ```
//!
//! A [`ClientSession`] is kept for one question after the other:
//!
//! ```
//! let mut session = ClientSession::begin(alloc, &mut line, limits, url, &policy, &mut moments)?;
//! session.ask(&mut line, &question, style, moment, &mut out)?;
//! session.end(&mut line, &mut moments)?;
//! ```
#![tactic(auto)]

mod answer;
mod client_session;
mod endpoints;
mod fault;
mod fault_name;
mod inquiry;
mod policy;
mod question;
mod session;
mod step;
mod verdict;
mod words;

pub use answer::is_bad_response;
pub use client_session::ClientSession;
pub use endpoints::endpoints_over;
pub use fault::{NotBegun, QuestionFault, WordFault};
pub use inquiry::{Inquiry, Opening};
pub use policy::TokenPolicy;
pub use question::Question;
pub use session::ask_over;
pub use verdict::Verdict;
