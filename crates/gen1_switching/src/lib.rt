//! Members that come out, falls, and the end of an update (docs/MECHANICS.md, "Switching in", "Falls and requests",
//! "Turn limit").
//!
//! - `switching_in`: a member that comes out, and updates in which members come out and none acts
//! - `falls`: the end of an update
#![tactic(auto)]

mod falls;
mod switching_in;

pub use falls::{close, close_uncut};
pub use switching_in::{replace, send_both_first, send_out, start};
