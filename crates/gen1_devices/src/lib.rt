//! Sinks and sources: what bytes are written to and read from. They say whether they have failed (docs/PROGRAM.md,
//! "Faults and statuses").
//!
//! - `io`: sinks and sources, also over std's writers and readers; writing all of some bytes, and reading a whole input
#![tactic(auto)]

mod io;

pub use io::{Device, DeviceFault, InputFault, Sink, Source, read_whole, send, send_all};
