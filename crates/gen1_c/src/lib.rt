//! The engine for C (include/gen1.h, CALLING.md). A battle is 384 bytes that the caller keeps. Each function accepts every number
//! that the C types allow.
//!
//! - `battle`: battles made of two teams, or read from bytes; the state that the bytes represent, as plain structs, and
//!   back; other numbers to draw
//! - `teams`: teams as plain structs, random teams, and the sample teams
//! - `update`: updates and the result
//! - `choices`: offered choices as bytes and as a mask; choices taken apart, and in words
//! - `many_battles`: many battles in one call, their random steps, and battles played by random choices
//! - `outcomes`: all battles that an update can lead to, and each way of an update
//! - `team_text`: teams read from text, and written
//! - `events`: the events of a log, and the bytes of an event
//! - `lines`: the lines and sentences of a log's events, and writing to the beginning of a caller's memory
//! - `codes`: the codes that functions return, and codes in words
//! - `names`: names of species, moves and types, their rows of the tables, a member's stats, and the numbers of effects
//! - `odds`: the damage of a hit, and the odds of a use of a move
//! - `rooms`: rooms of two players
//! - `hosts`: hosts of two players and an audience
//! - `spectators`: what a spectator knows
//! - `players`: what a player knows, what it is told, and a battle that fits this
//! - `the_theorem`: all calls that play a battle, and their contract as one
#![tactic(auto)]

pub mod battle;
pub mod choices;
pub mod codes;
pub mod events;
pub mod hosts;
pub mod lines;
pub mod many_battles;
pub mod names;
pub mod odds;
pub mod outcomes;
pub mod players;
pub mod rooms;
pub mod spectators;
pub mod team_text;
pub mod teams;
pub mod the_theorem;
pub mod update;

pub use battle::StateFaultForm;
pub use events::EventFields;
pub use gen1_playouts::Playouts;
pub use gen1_states::{ActiveState, BattleState, MemberState, SideState};
pub use hosts::RowForm;
pub use many_battles::{BatchUpdate, PlayoutForm};
pub use names::{BaseForm, MoveForm};
pub use outcomes::{OutcomeForm, OutcomeList, WayForm};
pub use team_text::TextFaultForm;
pub use teams::{MemberForm, TeamForm};
