//! Two players of a battle who submit their choices separately, in a room.
mod choice;
mod restored_room;

pub use choice::{Next, Player, choose, look};
pub use restored_room::restored;
