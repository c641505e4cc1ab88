//! Teams from text: the export text of Pokemon Showdown's team builder, and its packed lines (docs/TEAM_TEXT.md).
//!
//! - `cuts`: parts of a text
//! - `fault`: why a text is not a team
//! - `ids`: species and moves by their names
//! - `packed`: teams from packed lines, and the fields of a member in one
//! - `spread`: EVs and IVs, and whole numbers in a text
//! - `text`: teams from the export text, and a member by its lines
#![tactic(auto)]

mod cuts;
mod fault;
mod ids;
mod packed;
mod spread;
mod text;

pub use fault::{MemberFault, PackedFault, TextFault};
pub use ids::{first_letter, has_same_id, move_called, rest_after, species_called};
pub use packed::{members_in_packed, team_in_packed};
pub use text::{members_in_text, team_in_text};
