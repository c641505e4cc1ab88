//! Teams, and the stats of their members.
//!
//! - `team`: [`Team`], one to six members, and why a list of members isn't one
//! - `member`: a member of a team at the beginning of a battle, its stats, moves and status
//! - `member_spec`: the specification of a member
#![tactic(auto)]

mod member;
mod member_spec;
mod team;

pub use member::{KnownMove, Member, Status, hp_stat, stat};
pub use member_spec::MemberSpec;
pub use team::{Team, TeamRefusal};
