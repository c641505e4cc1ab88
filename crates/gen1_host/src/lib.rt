//! Hosts: two players at a table, each of whom learns what it may know, and an audience (docs/MECHANICS.md, "Hosts").
//!
//! - `host`: [`Host`], a table that its caller keeps, what it reads of its room, and what the sender of a row learns
//! - `submission`: choices: submitted, taken back, and made when time has run out; forfeits and draws; [`Row`], what is
//!   written down
//! - `message`: what each side and the audience are sent
//! - `loading`: a table from bytes
//! - `laws`: what no message and no reply reveals
#![tactic(auto)]

mod host;
mod laws;
mod loading;
mod message;
mod submission;

pub use host::{
    Host, HostRefusal, HostReply, HouseRules, Replied, awaited, begin, is_closed, number, result,
};
pub use laws::{keeps_secrets, keeps_secrets_from_all};
pub use loading::{HostFault, load};
pub use message::{Message, Notice, message_to, notice_to_all};
pub use submission::{Row, apply, cancel, expire, forfeit, offer_draw, run, submit};
