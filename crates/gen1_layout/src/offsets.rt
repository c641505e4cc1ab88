//! The offsets of the fields in their part (docs/LAYOUT.md): the header, a member or an active block.
//!
//! A field of several bytes begins at its offset, with its low byte.

// The header

/// The version, 3.
pub const VERSION: usize = 0;

/// The turn, u16.
pub const TURN: usize = 1;

/// The last damage, u16.
pub const LAST_DAMAGE: usize = 3;

/// The index of the next number of the generator.
pub const INDEX: usize = 5;

/// The ten numbers of the generator.
pub const NUMBERS: usize = 6;

/// The outcome.
pub const OUTCOME: usize = 16;

/// What side 1 is asked for.
pub const REQUEST_ONE: usize = 17;

/// What side 2 is asked for.
pub const REQUEST_TWO: usize = 18;

/// The clauses.
pub const RULES: usize = 19;

/// The turn limit, u16.
pub const LIMIT: usize = 20;

// A member

/// The species.
pub const SPECIES: usize = 0;

/// The level.
pub const LEVEL: usize = 1;

/// The maximum HP, u16.
pub const MAX_HP: usize = 2;

/// The HP, u16.
pub const HP: usize = 4;

/// The member's own Attack, u16.
pub const ATTACK: usize = 6;

/// The member's own Defense, u16.
pub const DEFENSE: usize = 8;

/// The member's own Speed, u16.
pub const SPEED: usize = 10;

/// The member's own Special, u16.
pub const SPECIAL: usize = 12;

/// The status.
pub const STATUS: usize = 14;

/// The moves of slots 1 to 4.
pub const MOVES: usize = 15;

/// The PP of slots 1 to 4.
pub const PP: usize = 19;

/// The byte before the moves: that of slot k is k bytes after it.
pub const BEFORE_MOVES: usize = MOVES - 1;

/// The byte before the PP, in the same way.
pub const BEFORE_PP: usize = PP - 1;

/// The mark of a sleep that the sleep clause counts.
pub const MARK: usize = 23;

// An active block

/// The place of the member that is out.
pub const PLACE: usize = 0;

/// The place of the member that is out, in the 180 bytes of a side.
pub const PLACE_IN_SIDE: usize = 144 + PLACE;

/// The first type.
pub const FIRST_TYPE: usize = 1;

/// The second type.
pub const SECOND_TYPE: usize = 2;

/// The stage of Attack.
pub const ATTACK_STAGE: usize = 3;

/// The stage of Defense.
pub const DEFENSE_STAGE: usize = 4;

/// The stage of Speed.
pub const SPEED_STAGE: usize = 5;

/// The stage of Special.
pub const SPECIAL_STAGE: usize = 6;

/// The stage of accuracy.
pub const ACCURACY_STAGE: usize = 7;

/// The stage of evasion.
pub const EVASION_STAGE: usize = 8;

/// The current Attack, u16.
pub const CURRENT_ATTACK: usize = 9;

/// The current Defense, u16.
pub const CURRENT_DEFENSE: usize = 11;

/// The current Speed, u16.
pub const CURRENT_SPEED: usize = 13;

/// The current Special, u16.
pub const CURRENT_SPECIAL: usize = 15;

/// The condition bits, u32.
pub const CONDITIONS: usize = 17;

/// The HP of the Substitute.
pub const SUBSTITUTE: usize = 21;

/// The turns of confusion.
pub const CONFUSED: usize = 22;

/// The slot that Disable bars.
pub const DISABLED_SLOT: usize = 23;

/// The turns of Disable.
pub const DISABLED_TURNS: usize = 24;

/// The counter of bad poison.
pub const BAD_POISON: usize = 25;

/// The turns of Bide, thrashing or trapping.
pub const TURNS: usize = 26;

/// The energy of Bide, u16.
pub const ENERGY: usize = 27;

/// The move that was used last.
pub const CURRENT_MOVE: usize = 29;

/// The move that was picked last.
pub const PICKED_MOVE: usize = 30;

/// The kept accuracy byte.
pub const KEPT_ACCURACY: usize = 31;
