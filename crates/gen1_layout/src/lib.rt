//! The 384 bytes of a battle (docs/LAYOUT.md), changed in place.
//!
//! - `offsets`: where the fields are in their parts
//! - `packed`: [`Packed`], the bytes, and the parts that can be borrowed from it
//! - `header`: the fields of the header
//! - `member`: the fields of a member
//! - `active`: the fields of an active block, without its conditions
//! - `condition_bits`: the places of bits among the conditions
//! - `condition_fields`: the conditions, with their numbers
//! - `conditions`: the conditions as a set of bits
//! - `codes`: the bytes of an outcome, a status, a type and the like
//! - `event_fields`: what events report, read from the bytes
//! - `first_state`: a battle before its first update
//! - `loading`: reading a battle from bytes
#![tactic(auto)]

// Numbers of 16 bits and of 32 bits in a part, by their offsets.
macro_rules! word {
    ($part:expr, $at:expr) => {
        LittleEndian::read_u16(&$part[$at..$at + 2])
    };
}

macro_rules! put_word {
    ($part:expr, $at:expr, $number:expr) => {
        LittleEndian::write_u16(&mut $part[$at..$at + 2], $number)
    };
}

macro_rules! long {
    ($part:expr, $at:expr) => {
        LittleEndian::read_u32(&$part[$at..$at + 4])
    };
}

macro_rules! put_long {
    ($part:expr, $at:expr, $number:expr) => {
        LittleEndian::write_u32(&mut $part[$at..$at + 4], $number)
    };
}

mod active;
mod codes;
pub mod condition_bits;
mod condition_fields;
mod conditions;
mod event_fields;
mod first_state;
mod header;
mod loading;
mod member;
pub mod offsets;
mod packed;

pub use codes::{byte_of_outcome, byte_of_request, number_of_status};
pub use conditions::Conditions;
pub use loading::{LoadFault, laws};
pub use packed::{Packed, copy_of, in_two};
