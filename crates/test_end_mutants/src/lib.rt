//! What is promised of the calls of a server and a client, and of those that the program makes for
//! what it prints, each in a function that makes the call alone: its contract follows from that of
//! the call, so a body that this contract rejects that one rejects too.
#![tactic(auto)]

mod answers;
mod calls;
mod exchanged;
mod program;
mod served;
mod serving;
mod steps;

pub use answers::{answer_behind_set, answer_both, reply_to};
pub use calls::{begin_by, call_behind, call_each, close_channel, open_over, renew_token};
pub use exchanged::exchange_over;
pub use program::{ask_server, judge_a_server, tell_piece};
pub use served::{converse_over, renew_in_talk};
pub use serving::{serve_begun, serve_beside};
pub use steps::{server_holds, step_once};
