//! Callers that know contracts alone, of operations that draw from any generator. A third generator, with its own
//! stream, meets the clauses of each.
//!
//! - `draws`: a count drawn from any generator
//! - `countdown`: the third generator
//! - `any`: operations that draw, with any generator
//! - `at_countdown`: operations that draw, with a countdown
#![tactic(auto)]

mod any;
mod at_countdown;
mod countdown;
mod draws;

pub use any::{critical_by, factor_by, gate_by, hit_test_by};
pub use at_countdown::{critical_at, factor_at, gate_at, hit_test_at, own_stream};
pub use countdown::Countdown;
pub use draws::{count, index_after};
