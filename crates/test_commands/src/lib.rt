//! Tests of devices and heaps that fail, and of laws, which plain Rust lacks.
//!
//! - `devices`: subcommands of `battle_tool` on devices that fail
//! - `heaps`: what is read and printed where memory is refused
//! - `laws`: each law once
#![tactic(auto)]

#[cfg(test)]
mod devices;
#[cfg(test)]
mod heaps;
#[cfg(test)]
mod laws;
