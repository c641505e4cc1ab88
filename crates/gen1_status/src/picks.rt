//! What a side's choice becomes as the turn begins, the number of its move, and whether a move continues
//! (docs/MECHANICS.md, "Picks", "Going on").
ghost use Rattle.std.specs.Prelude.{◌≡◌, ◌≤◌};
ghost use Rattle.gen1_layout.specs.Words.{Field, IsBetween, Reads, Setting, Within, active_in, length, member_in, underway_in, zero, ℕ};
ghost use Rattle.gen1_machine.specs.Action.{keeps_going};
ghost use Rattle.gen1_machine.specs.Picks.{must_continue, number_in, pick_in, used_by};
ghost use Rattle.gen1_machine.specs.Valid.{IsUsedMove};

use gen1_layout::{Conditions, Packed};
use gen1_machine::{Choice, Pick, Side, UsedMove};
use gen1_tables::STRUGGLE;

/// What a choice of a move becomes (docs/MECHANICS.md, "Picks").
///
/// Slots 1 to 4 are picked as they are. The meaning of slot 0 depends on the conditions and the status. A choice that
/// isn't a move has no pick, and returns the same as slot 0.
pub fn pick(battle: &Packed, side: Side, choice: Choice) -> Pick
    ensures stands { (slot : ℕ) → choice ≡ Choice.Move slot
        → Reads battle.now result (pick_in slot side) }
{
    match choice {
        Choice::Move(slot) => pick_of(battle, side, slot.number()),
        Choice::Pass => pick_without_slot(battle, side),
        Choice::Switch(_) => pick_without_slot(battle, side),
    }
}

fn pick_of(battle: &Packed, side: Side, slot: u8) -> Pick
    ensures stands { Reads battle.now result (pick_in slot side) }
{
    if slot == 0 {
        return pick_without_slot(battle, side);
    }
    Pick::Use(UsedMove::Slot(slot))
}

fn pick_without_slot(battle: &Packed, side: Side) -> Pick
    ensures stands { Reads battle.now result (pick_in zero side) }
{
    if must_continue(battle, side) {
        return Pick::Continue;
    }
    if battle.status(side).sleeps_or_freezes() {
        return Pick::Idle;
    }
    if battle.is_on(side.other(), Conditions::TRAPPING) {
        return Pick::Held;
    }
    Pick::Use(UsedMove::Struggle)
}

/// The move that a pick of `side` uses: the picked move, or otherwise the current one (docs/MECHANICS.md, "Picks").
pub fn used_by(battle: &Packed, side: Side, pick: Pick) -> UsedMove
    ensures stands { Reads battle.now result λ f. used_by pick (active_in side f).current_move }
{
    match pick {
        Pick::Use(used) => used,
        Pick::Continue => battle.current_move(side),
        Pick::Idle => battle.current_move(side),
        Pick::Held => battle.current_move(side),
    }
}

// Whether something keeps the member at its current move.
fn must_continue(battle: &Packed, side: Side) -> bool
    ensures stands { Reads battle.now result λ f. must_continue (underway_in side f) }
{
    battle.has_any(side, Conditions::CONTINUES)
}

/// Whether the member of `side` that is out continues with its move: by thrashing, trapping or Rage (docs/MECHANICS.md,
/// "Going on").
#[inline(always)] // docs/SPEED.md, "Hints on inlining"
pub fn keeps_going(battle: &Packed, side: Side) -> bool
    ensures stands { Reads battle.now result λ f. keeps_going (underway_in side f) }
{
    if battle.is_on(side, Conditions::THRASH) {
        return true;
    }
    if battle.is_on(side, Conditions::TRAPPING) {
        return true;
    }
    battle.is_on(side, Conditions::RAGE)
}

/// The number of a move of `side`, by where it comes from, 1 to 165, or 0 for none (docs/MECHANICS.md, "Picks").
///
/// A slot is one of the member that is out.
pub fn number_of(battle: &Packed, side: Side, used: UsedMove) -> u8
    ensures stands { (g : Setting) (f : Field) → Within g battle.now f
        → IsUsedMove (length (member_in side f).moves) used
        → result ≡ number_in used (member_in side f).moves }
{
    match used {
        UsedMove::Nothing => 0,
        UsedMove::Slot(slot) => battle.move_in(side, among_slots(slot)),
        UsedMove::Struggle => STRUGGLE,
    }
}

/// Returns a slot from 1 to 4 as it is, and one of these for any other byte.
pub fn among_slots(slot: u8) -> u8
    ensures low { 1 ≤ result }
    ensures high { result ≤ 4 }
    ensures same { IsBetween 1 4 slot → result ≡ slot }
{
    slot.wrapping_sub(1) % 4 + 1
}
