//! The headline: a server gets just what a client sent whole, and a client gets just the answers to
//! that, at any point of their conversation.
//!
//! The law is the contract of [`laws::the_headline`], a function that only looks. `specs/Talk.antt`
//! defines its terms, on top of those of the layers.
#![tactic(auto)]

pub mod answering_laws;
pub mod calling_laws;
pub mod laws;
pub mod question_laws;
mod records;
pub mod reply_laws;
pub mod short_law;
