//! What each side may choose (docs/MECHANICS.md, "Offered choices").
ghost use Rattle.std.specs.Prelude.{IsTrue, [], false, if◌then◌else◌, nat_lt, not, ◌&&◌, ◌++◌, ◌<◌, ◌==◌, ◌≡◌, ◌≢◌, ◌≤◌, ◌∷◌};
ghost use Rattle.arrayvec.specs.ArrayVec.{array_vec_len};
ghost use Rattle.gen1_layout.specs.Words.{Field, Reads, conditions_in, is_living, known_in, member_at, member_in, party, request_of, underway_in};
ghost use Rattle.gen1_machine.specs.State.{State, is_over};
ghost use Rattle.gen1_machine.specs.OfferedChoices.{bars_slot, has_no_slot_in, is_committed, moves_offered, offered, offered_for, switches_offered, usable_from};
ghost use Rattle.gen1_machine.specs.declared.terms.Request.TheVariants as requests;
ghost use Rattle.gen1_layout.specs.Shows.{Setting, Stands, Within};

use arrayvec::ArrayVec;
use bitflags::Flags;
use gen1_layout::{Conditions, Packed};
use gen1_machine::{Choice, MoveSlot, Outcome, Place, Request, Side};

/// The choices that a side is offered: at most four moves and five switches.
pub type Choices = ArrayVec<Choice, 9>;

/// What a side may choose, by rising bytes (docs/MECHANICS.md, "Offered choices").
///
/// The list is empty once the battle is over. Before the first update, while no member is out, it holds only Pass.
pub fn offered(battle: &Packed, side: Side) -> Choices
    ensures { (s : State) → Stands battle.now s → result.items ≡ offered side s.field }
{
    match battle.outcome() {
        Outcome::Ongoing => offered_now(battle, side),
        _ => Choices::new(),
    }
}

// The choices while the battle continues.
fn offered_now(battle: &Packed, side: Side) -> Choices
    ensures { (s : State) → Stands battle.now s → is_over s.field.outcome ≡ false
        → result.items ≡ offered_for (request_of side s.field) side s.field }
{
    match battle.request(side) {
        Request::Pass => only(Choice::Pass),
        Request::Move => offered_to_move(battle, side),
        Request::Switch => offered_to_switch(battle, side),
    }
}

fn only(choice: Choice) -> Choices
    ensures items { result.items ≡ choice ∷ [] }
{
    let mut choices = Choices::new();
    choices.push(choice);
    choices
}

fn offered_to_switch(battle: &Packed, side: Side) -> Choices
    ensures { Reads battle.now result.items (offered_for requests.Switch side) }
{
    let mut choices = Choices::new();
    add_switches(battle, side, &mut choices);
    choices
}

fn offered_to_move(battle: &Packed, side: Side) -> Choices
    ensures { Reads battle.now result.items (offered_for requests.Move side) }
{
    if is_committed(battle, side) {
        return only(move_in_slot(0));
    }
    let mut choices = moves_offered(battle, side);
    add_switches(battle, side, &mut choices);
    choices
}

// The moves, without the switches.
#[tactic(auto, using(crate::proofs::OfferedSet::no_struggle))]
fn moves_offered(battle: &Packed, side: Side) -> Choices
    ensures few { array_vec_len result ≤ 4 }
    ensures stands { Reads battle.now result.items (moves_offered side) }
{
    if has_no_slot(battle, side) {
        return only(move_in_slot(0));
    }
    let choices = usable_moves(battle, side);
    if choices.is_empty() {
        return only(move_in_slot(0));
    }
    choices
}

// The moves of slots that have PP and aren't disabled.
fn usable_moves(battle: &Packed, side: Side) -> Choices
    ensures few { array_vec_len result ≤ 4 }
    ensures stands { Reads battle.now result.items λ f. usable_from 1
        (conditions_in side f).disabled (member_in side f).moves }
{
    let mut choices = Choices::new();
    for slot in 1..5_u8 {
        add_if(
            is_usable(battle, side, slot),
            move_in_slot(slot),
            &mut choices,
        );
    }
    choices
}

fn is_usable(battle: &Packed, side: Side, slot: u8) -> bool
    requires low { 1 ≤ slot }
    requires high { slot ≤ 4 }
    ensures stands { Reads battle.now result λ f. nat_lt 0
        (known_in slot (member_in side f).moves).pp && not
        (bars_slot (conditions_in side f).disabled slot) }
{
    battle.pp(side, slot) > 0 && !is_disabled(battle, side, slot)
}

#[inline(always)]
pub(crate) fn is_disabled(battle: &Packed, side: Side, slot: u8) -> bool
    ensures { Reads battle.now result λ f. bars_slot (conditions_in side f).disabled slot }
{
    match battle.disabled(side) {
        Some(disabled) => disabled.slot == slot,
        None => false,
    }
}

// Appends the switches to living members that aren't out.
fn add_switches(battle: &Packed, side: Side, choices: &mut Choices)
    requires room { array_vec_len choices.old ≤ 4 }
    ensures { (g : Setting) (f : Field) → Within g battle.now f
        → choices.new.items ≡ choices.old.items ++ switches_offered side f }
{
    let out = battle.place(side);
    for place in 1..7_u8 {
        add_if(
            may_come_out(battle, side, place, out),
            switch_to(place),
            choices,
        );
    }
}

fn may_come_out(battle: &Packed, side: Side, place: u8, out: u8) -> bool
    requires low { 1 ≤ place }
    requires high { place ≤ 6 }
    ensures apart { IsTrue result → place ≢ out }
    ensures stands { Reads battle.now result λ f. is_living (member_at place (party side f)) && not
        (place == out) }
{
    battle.hp_at(side, place) > 0 && place != out
}

fn add_if(holds: bool, choice: Choice, choices: &mut Choices)
    requires room { IsTrue holds → array_vec_len choices.old < 9 }
    ensures items { choices.new.items ≡ choices.old.items ++ (if holds then choice ∷ [] else []) }
{
    if holds {
        choices.push(choice);
    }
}

fn move_in_slot(slot: u8) -> Choice
    requires { slot ≤ 4 }
    ensures { result ≡ Choice.Move slot }
{
    match MoveSlot::new(slot) {
        Some(slot) => Choice::Move(slot),
        // 0 to 4 are slots.
        None => unreachable!(),
    }
}

fn switch_to(place: u8) -> Choice
    requires low { 1 ≤ place }
    requires high { place ≤ 6 }
    ensures value { result ≡ Choice.Switch place }
{
    match Place::new(place) {
        Some(place) => Choice::Switch(place),
        // 1 to 6 are places.
        None => unreachable!(),
    }
}

// Whether the member has no choice but to continue.
pub(crate) fn is_committed(battle: &Packed, side: Side) -> bool
    ensures { Reads battle.now result λ f. is_committed (underway_in side f) }
{
    let commits = Conditions::RECHARGE
        .union(Conditions::RAGE)
        .union(Conditions::THRASH)
        .union(Conditions::CHARGING);
    battle.has_any(side, commits)
}

// Whether no slot can be chosen, while the member may still be switched.
pub(crate) fn has_no_slot(battle: &Packed, side: Side) -> bool
    ensures { Reads battle.now result (has_no_slot_in side) }
{
    let sleeps = battle.status(side).sleeps_or_freezes();
    let bides_or_traps = battle.has_any(side, Conditions::BIDE.union(Conditions::TRAPPING));
    let is_held = battle.is_on(side.other(), Conditions::TRAPPING);
    // All three are read, so that no branch depends on which holds.
    sleeps | bides_or_traps | is_held
}
