//! A replay viewer: the log of a battle comes in pieces, each event is printed as soon as it is complete, and a view holds what it
//! shows.
mod lines;
mod pieces;
mod shown;

pub use lines::show_event;
pub use pieces::show_piece;
pub use shown::{Shown, show_log, what_shows};
