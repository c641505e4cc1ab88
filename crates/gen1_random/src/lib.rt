//! Random teams, and the sample teams (docs/MECHANICS.md, "Random teams").
//!
//! - `sample_rows`: the members of the sample teams
//! - `teams`: [`random_members`] and [`sample_members`], and what members and moves are drawn from
#![tactic(auto)]

mod sample_rows;
mod teams;

pub use teams::{DrawnFrom, SAMPLE_TEAMS, random_members, sample_members};
