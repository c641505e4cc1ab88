//! Requests to the programs, as JSON (docs/PROGRAM.md): battles with what is done in them, and calculations. Only their shape is
//! tested here; the rules of teams are not.
//!
//! - `sheet`: battles, with pairs of choices or submissions to a room, and calculations
//! - `no_json`: where bytes are not JSON
//! - `fault`: why a sheet can't be read: where a value is not as expected, and what is expected there
#![tactic(auto)]

mod fault;
mod no_json;
mod sheet;

pub use fault::{
    EXPECTED_LENGTH, Expected, JsonFault, Key, Misfit, PATH_LENGTH, Path, SheetFault, Step,
};
pub use sheet::{
    BattleSheet, CalcSheet, Item, Sheet, read_battle, read_calc_sheet, read_sheet, value_in,
};
