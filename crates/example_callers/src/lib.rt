//! Uses of the stack, as its callers write them, each with a contract of its own: a conversation
//! over a transport, and what a program does beside connections.
#![tactic(auto)]

mod application;
mod talk;

pub use application::{
    Pulse, SensorFault, SetpointFault, serve_pulse, set_and_step, step_both, take_setpoints,
};
pub use talk::write_and_read;
