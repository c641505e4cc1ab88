//! The places of the condition bits that have a number beside them or belong to the current move (docs/LAYOUT.md, "Condition bits").

/// The bit of Bide.
pub const BIDE: u32 = 0;

/// The bit of Thrash and Petal Dance.
pub const THRASH: u32 = 1;

/// The bit of trapping moves.
pub const TRAPPING: u32 = 2;

/// The bit of charging.
pub const CHARGING: u32 = 4;

/// The bit of confusion.
pub const CONFUSED: u32 = 6;

/// The bit of a substitute.
pub const SUBSTITUTE: u32 = 9;

/// The bit of recharging.
pub const RECHARGE: u32 = 10;

/// The bit of Rage.
pub const RAGE: u32 = 11;

/// The bit of bad poison.
pub const BAD_POISON: u32 = 13;

/// The bit of a disabled move.
pub const DISABLED: u32 = 16;
