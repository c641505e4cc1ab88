//! What a side may choose, as a number of twelve binary digits, read straight from the bytes; how many choices such a
//! number has, and which is at a place (docs/MECHANICS.md, "Offered choices"). Digits are gathered from the highest down,
//! and each is one comparison with memory.
ghost use Rattle.std.specs.Prelude.{IfSome, List, false, length, slice_index_or, ◌<◌, ◌∷◌, ◌≡◌, ◌≤◌};
ghost use Rattle.gen1_machine.specs.Layout.{member_block, number_of_bits, request_byte, status_byte};
ghost use Rattle.gen1_machine.specs.OfferedChoices.{has_no_slot_in, moves_offered, offered, offered_for};
ghost use Rattle.gen1_machine.specs.State.{State};
ghost use Rattle.gen1_machine.specs.declared.terms.Request.TheVariants as requests;
ghost use Rattle.gen1_machine.specs.Valid.{IsState};
ghost use Rattle.gen1_machine.specs.declared.side.Choice.{Choice};
ghost use Rattle.gen1_machine.specs.declared.side.Choice.TheVariants as choices;
ghost use Rattle.gen1_machine.specs.declared.side.Side.{Side};
ghost use Rattle.gen1_layout.specs.Words.{Field, Packs, Setting, Within, member_in, request_of, status_in};
ghost use Rattle.gen1_layout.specs.Shows.{Stands};
ghost use Rattle.gen1_offers.specs.OfferedChoices.{AreDigitsOf, IsBench, IsInRange, choices_in, chosen_by, digits_of, mask_of, moves_and_pass, offered_mask, switches, usable_of};

use crate::bench::{Bench, bench_or};
use crate::offered_choices::is_committed;
use bitflags::Flags;
use gen1_layout::offsets::{PP, REQUEST_ONE, REQUEST_TWO, STATUS};
use gen1_layout::{Conditions, Packed};
use gen1_machine::{Choice, MoveSlot, Outcome, Place, Side};

// The status bytes of sleeping and frozen members have one of these bits. No other status byte has.
pub(crate) const SLEEPS_OR_FREEZES: u8 = 0x27;

/// What a side may choose, as a number of twelve binary digits (docs/MECHANICS.md, "Offered choices").
///
/// Each digit says whether a choice is offered, by rising bytes and from the lowest digit. Pass is digit 0. Move with
/// slots 0 to 4 is digits 1 to 5, and Switch to places 1 to 6 is digits 6 to 11. The number is 0 once the battle is
/// over.
#[inline(always)] // docs/SPEED.md, "Hints on inlining"
pub fn offered_mask(battle: &Packed, side: Side) -> u16
    ensures stands { (s : State) → Stands battle.now s → result ≡ offered_mask s side }
    ensures twelve { result < 4096 }
{
    // The compiler knows the side in each arm, so each address is a constant.
    match side {
        Side::One => mask(battle, Side::One, None) as u16,
        Side::Two => mask(battle, Side::Two, None) as u16,
    }
}

// The mask of offered choices, where the bench may be known.
#[inline(always)]
pub(crate) fn mask(battle: &Packed, side: Side, known: Option<Bench>) -> u32
    requires { IfSome known (λ b. IsInRange b) }
    ensures stands { (s : State) → Stands battle.now s → IfSome known (λ b. IsBench side s.field b)
        → result ≡ offered_mask s side }
    ensures twelve { result < 4096 }
{
    let request = asked(battle, side);
    if request == 1 {
        return mask_to_move(battle, side, known);
    }
    if request == 2 {
        return mask_to_switch(battle, side, known);
    }
    mask_to_pass(battle)
}

// The byte of a side's request.
#[inline(always)]
pub(crate) fn asked(battle: &Packed, side: Side) -> u8
    ensures packs { (g : Setting) (f : Field) → Packs g battle.now f
        → result ≡ request_byte (request_of side f) }
{
    match side {
        Side::One => battle.header()[REQUEST_ONE],
        Side::Two => battle.header()[REQUEST_TWO],
    }
}

// When nothing is asked for.
#[inline(always)]
fn mask_to_pass(battle: &Packed) -> u32
    ensures stands { (s : State) (side : Side) → Stands battle.now s
        → request_of side s.field ≡ requests.Pass → result ≡ offered_mask s side }
    ensures twelve { result ≤ 1 }
{
    match battle.outcome() {
        Outcome::Ongoing => 1,
        _ => 0,
    }
}

#[inline(always)]
fn mask_to_switch(battle: &Packed, side: Side, known: Option<Bench>) -> u32
    requires { IfSome known (λ b. IsInRange b) }
    ensures stands { (g : Setting) (f : Field) → Within g battle.now f
        → IfSome known (λ b. IsBench side f b)
        → result ≡ mask_of (offered_for requests.Switch side f) }
    ensures twelve { result < 4096 }
{
    64 * bench_or(battle, side, known).digits
}

#[inline(always)]
fn mask_to_move(battle: &Packed, side: Side, known: Option<Bench>) -> u32
    requires { IfSome known (λ b. IsInRange b) }
    ensures stands { (g : Setting) (f : Field) → Within g battle.now f
        → IfSome known (λ b. IsBench side f b)
        → result ≡ mask_of (offered_for requests.Move side f) }
    ensures twelve { result < 4096 }
{
    if is_committed(battle, side) {
        return 2;
    }
    let bench = bench_or(battle, side, known);
    moves(battle, side, battle.member(side, bench.out)) + 64 * bench.digits
}

// Whether Pass and each move is offered, below the digits of switches, by the bytes of the member that is out.
#[inline(always)]
fn moves(battle: &Packed, side: Side, member: &[u8]) -> u32
    requires { length member.now ≡ 24 }
    ensures stands { (g : Setting) (f : Field) → Within g battle.now f
        → member.now ≡ member_block (member_in side f)
        → result ≡ number_of_bits (digits_of moves_and_pass (moves_offered side f)) }
    ensures six { result < 64 }
{
    if picks_none(battle, side, member[STATUS]) {
        return 2;
    }
    let usable = usable(battle, side, member);
    if usable == 0 { 2 } else { 2 * usable }
}

// Whether no slot can be chosen, by the byte of the member's status.
#[inline(always)]
fn picks_none(battle: &Packed, side: Side, status: u8) -> bool
    ensures stands { (g : Setting) (f : Field) → Within g battle.now f
        → status ≡ status_byte (status_in side f) → result ≡ has_no_slot_in side f }
{
    if status & SLEEPS_OR_FREEZES != 0 {
        return true;
    }
    if battle.has_any(side, Conditions::BIDE.union(Conditions::TRAPPING)) {
        return true;
    }
    battle.is_on(side.other(), Conditions::TRAPPING)
}

// For each slot, whether it has PP and isn't disabled, above one digit that is 0.
#[inline(always)]
pub(crate) fn usable(battle: &Packed, side: Side, member: &[u8]) -> u32
    requires { length member.now ≡ 24 }
    ensures stands { (g : Setting) (f : Field) → Within g battle.now f
        → member.now ≡ member_block (member_in side f)
        → result ≡ number_of_bits (false ∷ usable_of side f) }
    ensures five { result < 32 }
{
    let all = 2 * some_of_four(member[PP], member[PP + 1], member[PP + 2], member[PP + 3]);
    match battle.disabled(side) {
        Some(disabled) => all & !(1_u32 << (disabled.slot % 32) as u32),
        None => all,
    }
}

// For each of four bytes of at most 63, whether it is above 0. Its sum with 127 then has its highest bit, and a
// product brings the four highest bits together.
#[inline(always)]
fn some_of_four(a: u8, b: u8, c: u8, d: u8) -> u32
    ensures digits { AreDigitsOf a b c d result }
    ensures four { result < 16 }
{
    let four = u32::from_le_bytes([a, b, c, d]);
    (four.wrapping_add(0x7f7f_7f7f) & 0x8080_8080).wrapping_mul(0x0020_4081) >> 28
}

// One row for each number of six binary digits. Its hexadecimal digits, from the lowest on, are the places of the digits
// that are 1. Its highest digit is how many there are.
static ONES: [u32; 64] = [
    0x00000000, 0x10000000, 0x10000001, 0x20000010, 0x10000002, 0x20000020, 0x20000021, 0x30000210,
    0x10000003, 0x20000030, 0x20000031, 0x30000310, 0x20000032, 0x30000320, 0x30000321, 0x40003210,
    0x10000004, 0x20000040, 0x20000041, 0x30000410, 0x20000042, 0x30000420, 0x30000421, 0x40004210,
    0x20000043, 0x30000430, 0x30000431, 0x40004310, 0x30000432, 0x40004320, 0x40004321, 0x50043210,
    0x10000005, 0x20000050, 0x20000051, 0x30000510, 0x20000052, 0x30000520, 0x30000521, 0x40005210,
    0x20000053, 0x30000530, 0x30000531, 0x40005310, 0x30000532, 0x40005320, 0x40005321, 0x50053210,
    0x20000054, 0x30000540, 0x30000541, 0x40005410, 0x30000542, 0x40005420, 0x40005421, 0x50054210,
    0x30000543, 0x40005430, 0x40005431, 0x50054310, 0x40005432, 0x50054320, 0x50054321, 0x60543210,
];

/// The number of choices of a mask of [`offered_mask`](crate::offered_mask), which is below 4,096 (docs/MECHANICS.md,
/// "Offered choices"). It is 0 once the battle is over.
#[inline(always)]
pub fn count_of(mask: u16) -> u8
    requires twelve { mask < 4096 }
    ensures value { result ≡ length (choices_in mask) }
    ensures offers { (s : State) (side : Side) → IsState s → mask ≡ offered_mask s side
        → result ≡ length (offered side s.field) }
{
    count_in(mask % 64) + count_in(mask / 64)
}

/// The choice at a place of a mask below 4,096, counted from 0 by rising bytes (docs/MECHANICS.md, "Offered
/// choices").
///
/// The place must be below the number of choices. The result is the choice at that place of
/// [`offered`](crate::offered).
#[inline(always)]
pub fn choice_at(mask: u16, place: u8) -> Choice
    requires twelve { mask < 4096 }
    requires inside { place < length (choices_in mask) }
    ensures value { result ≡ slice_index_or (choices_in mask) place choices.Pass }
    ensures offers { (s : State) (side : Side) → IsState s → mask ≡ offered_mask s side
        → result ≡ slice_index_or (offered side s.field) place choices.Pass }
{
    let count = count_in(mask % 64);
    if place < count {
        move_of_digit(digit_in(mask % 64, place))
    } else {
        switch_of_digit(digit_in(mask / 64, place - count))
    }
}

// How many of six digits are 1.
#[inline(always)]
fn count_in(six: u16) -> u8
    requires { six < 64 }
    ensures count { (cs : List Choice) → length cs ≡ 6 → result ≡ length (chosen_by six cs) }
    ensures bound { result ≤ 6 }
{
    (ONES[(six % 64) as usize] >> 28) as u8
}

// The digit that is at a place among those of six that are 1.
#[inline(always)]
fn digit_in(six: u16, place: u8) -> u8
    requires six { six < 64 }
    requires inside { place < length (chosen_by six switches) }
    ensures at { (cs : List Choice) → length cs ≡ 6
        → slice_index_or (chosen_by six cs) place choices.Pass ≡ slice_index_or cs result choices.Pass }
    ensures bound { result < 16 }
{
    ((ONES[(six % 64) as usize] >> (4 * place as u32)) % 16) as u8
}

// Pass, or the move that a digit represents.
#[inline(always)]
fn move_of_digit(digit: u8) -> Choice
    ensures { result ≡ slice_index_or moves_and_pass digit choices.Pass }
{
    if digit == 0 {
        return Choice::Pass;
    }
    match MoveSlot::new(digit - 1) {
        Some(slot) => Choice::Move(slot),
        None => Choice::Pass,
    }
}

// The switch that a digit represents, above those of moves.
#[inline(always)]
fn switch_of_digit(digit: u8) -> Choice
    requires { digit < 16 }
    ensures { result ≡ slice_index_or switches digit choices.Pass }
{
    match Place::new(digit + 1) {
        Some(place) => Choice::Switch(place),
        None => Choice::Pass,
    }
}
