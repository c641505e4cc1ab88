//! Teams written as text: the export text of Pokemon Showdown's team builder, and its packed lines (docs/TEAM_TEXT.md, "Writing").
//!
//! - `export`: members and teams as export text
//! - `numbers`: EVs and IVs, and bytes that are put together
//! - `packed`: members and teams as packed lines
//! - `written`: teams as text, or why there is none
#![tactic(auto)]

mod export;
mod numbers;
mod packed;
mod written;

pub use written::{WriteFault, team_to_packed, team_to_text};
