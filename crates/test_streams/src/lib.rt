//! Tests of streams of bytes: frames, chunks, the channels of both ends, a server, a client over a
//! transport, both ends of a connection, the dissector, and parts of the program `ua`. Each shows what
//! no clause says: that a call succeeds, that definitions are the standard's in worked cases, and which
//! texts are printed.
#![tactic(auto)]

#[cfg(test)]
mod both_ends;
#[cfg(test)]
mod channels;
#[cfg(test)]
mod chunks;
#[cfg(test)]
mod client;
#[cfg(test)]
mod dissector;
#[cfg(test)]
mod program;
#[cfg(test)]
mod services;
#[cfg(test)]
mod serving;
#[cfg(test)]
mod transports;
#[cfg(test)]
mod vectors;
