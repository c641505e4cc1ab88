//! The state of a battle as plain structs, read from its 384 bytes and made into them (docs/LAYOUT.md).
//!
//! - `plain`: the structs
//! - `reading`: [`state_of`], the plain state of a battle
//! - `writing`: [`from_state`], a battle of a plain state, the first field that is wrong, and the fields of the whole
//!   battle
//! - `stats`: current stats that are left to be computed, and the tests of the others
//! - `bytes`: the 384 bytes of a plain state
//! - `fault`: what is wrong with a plain state, and where
//! - `member_tests`: the members
//! - `active_tests`: the active members
//! - `request_tests`: turn, outcome, requests and living members together
//! - `laws`: what holds for all states
#![tactic(auto)]

mod active_tests;
mod bytes;
mod fault;
pub mod laws;
mod member_tests;
mod plain;
mod reading;
mod request_tests;
mod stats;
mod writing;

pub use fault::{StateFault, StateField};
pub use plain::{ActiveState, BattleState, MemberState, SideState};
pub use reading::state_of;
pub use stats::completed;
pub use writing::from_state;
