//! The public types of a link battle: its events, choices, terms and outcomes. The crate also has two of the battle's
//! numbers as plain functions, and re-exports the sinks and sources of gen1_devices.
//!
//! - `event`: what happens in a battle, and the member, HP and status that it reports
//! - `side`: the two sides, what each chooses, and what this becomes in a turn
//! - `ranges`: numbers that keep to a range
//! - `terms`: outcomes, requests, rules and the turn limit
//! - `formulas`: a link number, and a stat at its stage
//! - `laws`: what holds for every battle
#![tactic(auto)]

mod event;
mod formulas;
pub mod laws;
mod ranges;
mod side;
mod terms;

pub use event::{
    CantReason, DamageSource, Event, EventList, Health, Kind, Volatile, Who, stat_from_number,
    stat_number,
};
pub use formulas::{link, now};
pub use gen1_devices::{Device, DeviceFault, InputFault, Sink, Source, read_whole, send, send_all};
pub use ranges::{FaultCode, HitCount, Level, MoveSlot, Place, Ranged, StageCount, TurnNumber};
pub use side::{Choice, DisabledSlot, Pick, Side, UsedMove};
pub use terms::{Outcome, Request, Rules, TurnLimit};
