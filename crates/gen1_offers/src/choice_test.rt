//! Whether a side may make a choice, from the few bytes that this depends on and without the list of its choices
//! (docs/MECHANICS.md, "Offered choices").
ghost use Rattle.std.specs.Prelude.{nat_lt, not, ◌&&◌, ◌==◌, ◌||◌, ◌≡◌, ◌≤◌};
ghost use Rattle.gen1_layout.specs.Words.{Field, Reads, Setting, Within, active_in, conditions_in, status_in, underway_in};
ghost use Rattle.gen1_layout.specs.Shows.{Stands};
ghost use Rattle.gen1_machine.specs.Layout.{status_byte};
ghost use Rattle.gen1_machine.specs.OfferedChoices.{bars_slot, has_no_slot_in, is_committed, offered_for, switches_offered};
ghost use Rattle.gen1_machine.specs.State.{State};
ghost use Rattle.gen1_machine.specs.Step.{is_among, offers};
ghost use Rattle.gen1_machine.specs.declared.side.Choice.TheVariants as choices;
ghost use Rattle.gen1_machine.specs.declared.terms.Request.TheVariants as requests;

use crate::bench::lives;
use crate::masks::{SLEEPS_OR_FREEZES, asked, usable};
use crate::offered_choices::{has_no_slot, is_committed, is_disabled};
use gen1_layout::offsets::{PLACE, STATUS};
use gen1_layout::{Conditions, Packed};
use gen1_machine::{Choice, Side};

/// Whether a choice is one of those that [`offered`](crate::offered) lists for the side (docs/MECHANICS.md, "Offered
/// choices").
///
/// It doesn't make the list, so it takes a fraction of the time.
#[inline(always)] // docs/SPEED.md, "Hints on inlining"
pub fn is_offered(battle: &Packed, side: Side, choice: &Choice) -> bool
    ensures { (s : State) → Stands battle.now s → result ≡ offers s side choice.now }
{
    // The compiler knows the side in each arm, so each address is a constant.
    match side {
        Side::One => fits(battle, Side::One, choice),
        Side::Two => fits(battle, Side::Two, choice),
    }
}

#[inline(always)]
fn fits(battle: &Packed, side: Side, choice: &Choice) -> bool
    ensures { (s : State) → Stands battle.now s → result ≡ offers s side choice.now }
{
    match choice {
        Choice::Move(slot) => fits_move(battle, side, slot.number()),
        Choice::Switch(place) => fits_switch(battle, side, place.number()),
        Choice::Pass => fits_pass(battle, side),
    }
}

// A battle that asks a side for something continues. So the outcome is tested only if nothing is asked.
#[inline(always)]
fn fits_pass(battle: &Packed, side: Side) -> bool
    ensures { (s : State) → Stands battle.now s → result ≡ offers s side choices.Pass }
{
    if asked(battle, side) != 0 {
        return false;
    }
    !battle.outcome().is_over()
}

#[inline(always)]
fn fits_move(battle: &Packed, side: Side, slot: u8) -> bool
    requires { slot ≤ 4 }
    ensures { (s : State) → Stands battle.now s → result ≡ offers s side (choices.Move slot) }
{
    if asked(battle, side) != 1 {
        return false;
    }
    may_use(battle, side, slot)
}

#[inline(always)]
fn fits_switch(battle: &Packed, side: Side, place: u8) -> bool
    requires low { 1 ≤ place }
    requires high { place ≤ 6 }
    ensures stands { (s : State) → Stands battle.now s
        → result ≡ offers s side (choices.Switch place) }
{
    let request = asked(battle, side);
    if request == 1 {
        return may_switch_out(battle, side, place);
    }
    if request == 2 {
        return may_switch(battle, side, place);
    }
    false
}

// A move is asked for: a slot, or slot 0 if no slot can be chosen.
#[inline(always)]
fn may_use(battle: &Packed, side: Side, slot: u8) -> bool
    requires { slot ≤ 4 }
    ensures { Reads battle.now result λ f. is_among (choices.Move slot)
        (offered_for requests.Move side f) }
{
    if slot == 0 {
        return picks_nothing(battle, side);
    }
    if has_no_pick(battle, side, battle.member_out(side)[STATUS]) {
        return false;
    }
    has_use(battle, side, slot, battle.pp(side, slot))
}

// Whether a slot with these PP is usable.
#[inline(always)]
fn has_use(battle: &Packed, side: Side, slot: u8, pp: u8) -> bool
    ensures { Reads battle.now result λ f. nat_lt 0 pp && not
        (bars_slot (conditions_in side f).disabled slot) }
{
    pp > 0 && !is_disabled(battle, side, slot)
}

// Slot 0 is offered to a member that is committed, to one that can pick no slot, and if no slot is usable.
#[inline(always)] // docs/SPEED.md, "Hints on inlining"
fn picks_nothing(battle: &Packed, side: Side) -> bool
    ensures { Reads battle.now result λ f. is_among (choices.Move 0)
        (offered_for requests.Move side f) }
{
    if is_committed(battle, side) {
        return true;
    }
    if has_no_slot(battle, side) {
        return true;
    }
    usable(battle, side, battle.member_out(side)) == 0
}

// Whether no slot from 1 on can be chosen, by the byte of the member's status. One test of the condition bits covers
// all that is underway.
#[inline(always)]
fn has_no_pick(battle: &Packed, side: Side, status: u8) -> bool
    ensures { (g : Setting) (f : Field) → Within g battle.now f
        → status ≡ status_byte (status_in side f)
        → result ≡ (is_committed (underway_in side f) || has_no_slot_in side f) }
{
    if battle.has_any(side, Conditions::CONTINUES) {
        return true;
    }
    if status & SLEEPS_OR_FREEZES != 0 {
        return true;
    }
    battle.is_on(side.other(), Conditions::TRAPPING)
}

// A switch, instead of a move.
#[inline(always)]
#[tactic(auto, using(crate::proofs::OfferedSet::switches_out))]
fn may_switch_out(battle: &Packed, side: Side, place: u8) -> bool
    requires low { 1 ≤ place }
    requires high { place ≤ 6 }
    ensures stands { Reads battle.now result λ f. is_among (choices.Switch place)
        (offered_for requests.Move side f) }
{
    if is_committed(battle, side) {
        return false;
    }
    may_switch(battle, side, place)
}

#[inline(always)]
#[tactic(auto, using(crate::proofs::MaskDigits::out_already, crate::proofs::MaskDigits::out_yet))]
fn may_switch(battle: &Packed, side: Side, place: u8) -> bool
    requires low { 1 ≤ place }
    requires high { place ≤ 6 }
    ensures stands { Reads battle.now result λ f. is_among (choices.Switch place)
        (switches_offered side f) }
{
    if is_out(battle, side, place) {
        return false;
    }
    lives(battle, side, place)
}

// Whether the member at a place is out, by the byte of the active place.
#[inline(always)]
fn is_out(battle: &Packed, side: Side, place: u8) -> bool
    ensures { Reads battle.now result λ f. place == (active_in side f).place }
{
    place == battle.active(side)[PLACE]
}
