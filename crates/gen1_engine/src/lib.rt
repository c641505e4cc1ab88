//! A battle that is played update by update: the choices of both sides, its log, and its 384 bytes (docs/MECHANICS.md,
//! docs/LAYOUT.md).
//!
//! - `battle`: [`Battle`], whose bytes are always valid between two calls
//! - `packed`: updates of a `Packed` that a caller keeps, and the offered choices, as a number
//! - `update`: an update, by what the sides are asked, and other numbers to draw
//! - `choice_bytes`: an update, by the bytes of choices, and many updates, one after the other
//! - `result`: what an update returns, and its log bytes
//! - `laws`: what holds for any calls
#![tactic(auto)]

mod battle;
mod choice_bytes;
pub mod laws;
pub mod packed;
mod result;
mod update;

pub use battle::Battle;
pub use choice_bytes::ReplayFault;
pub use gen1_layout::LoadFault;
pub use gen1_offers::Choices;
pub use result::{BattleResult, Refusal, write_log};
