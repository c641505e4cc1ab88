//! Rooms: two players submit their choices for a battle separately.
//!
//! - `room`: [`Room`], for its players
//! - `submission`: a submission and the reply to it, a battle that comes into a room, and what a room holds
//! - `plain`: a room as a plain struct that its caller keeps
//! - `laws`: what holds for all rooms
#![tactic(auto)]

mod laws;
pub mod plain;
mod room;
mod submission;

pub use laws::{pairs_are_answered, replies_hide_choices};
pub use room::Room;
pub use submission::{Reply, RoomRefusal, Submitted, choice_by_byte};
