//! Tests of the libraries of values, messages and nodes, a module for each of them.
#![tactic(auto)]

#[cfg(test)]
mod cases;
#[cfg(test)]
mod diagnostic;
#[cfg(test)]
mod fields;
#[cfg(test)]
mod messages;
#[cfg(test)]
mod nodes;
#[cfg(test)]
mod services;
#[cfg(test)]
mod structures;
#[cfg(test)]
mod texts;
#[cfg(test)]
mod variant;
#[cfg(test)]
mod wire;
