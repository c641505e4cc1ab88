//! The subcommands of `battle_tool` (docs/PROGRAM.md). Each reads an input, prints what it asks for, and returns its error.
//!
//! - `commands`: the command line: which subcommand runs on what, its help, and the exit status
//! - `input`: an input, opened by name and read completely, and its battle
//! - `battles`: `run`, `log`, `room` and `print`
//! - `calc`: `calc`, the damage between two members, just sent out, and its 39 numbers
//! - `fault`: the errors, with their statuses and lines, and what is written after the line of an error
#![tactic(auto)]

mod battles;
mod calc;
mod commands;
mod fault;
mod input;

pub use battles::{play, play_log, play_print, play_room, text_of};
pub use calc::play_calc;
pub use commands::{COMMAND_LINE_REFUSED, report, tool};
pub use fault::ToolFault;
pub use input::{Disk, Folder, INPUT_LIMIT};
