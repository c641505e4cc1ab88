//! What a spectator who sees only the events of a battle knows of it.
//!
//! - `view`: [`View`], of a whole battle
//! - `side_view`: what one side shows
//! - `shown`: what a member shows, and the stages of the active member
//! - `plain`: a view as a plain struct that its caller keeps
//! - `laws`: what holds for all views
#![tactic(auto)]

mod laws;
pub mod plain;
mod shown;
mod side_view;
mod view;

pub use laws::{followers_agree, watchers_agree};
pub use view::View;
