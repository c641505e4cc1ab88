//! Moves that last several turns, and moves with special damage rules (docs/MECHANICS.md, "Fixed damage and
//! one-hit moves", "Going on", "Charging", "Counter").
pub mod bide;
pub mod charging;
pub mod going_on;
pub mod special_damage;
