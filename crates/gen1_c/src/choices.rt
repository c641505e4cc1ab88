//! The offered choices, as bytes and as a mask, and choices taken apart and in words (include/gen1.h, "playing",
//! "looking"; docs/MECHANICS.md, "Offered choices").
ghost use Rattle.std.specs.Prelude.{IfErr, List, Ok, Some, [], drop, if◌then◌else◌, length, map, true, ℕ, ◌++◌, ◌+◌, ◌<◌, ◌∷◌, ◌≡◌, ◌≢◌, ◌≤◌};
ghost use Rattle.gen1_machine.specs.Choices.{byte_of_choice, choice_at};
ghost use Rattle.gen1_machine.specs.Numbers.{side_number};
ghost use Rattle.gen1_machine.specs.OfferedChoices.{offered};
ghost use Rattle.gen1_machine.specs.State.{State};
ghost use Rattle.gen1_machine.specs.declared.side.Choice.{Choice};
ghost use Rattle.gen1_machine.specs.declared.side.Side.{Side};
ghost use Rattle.gen1_machine.specs.Step.{offers};
ghost use Rattle.gen1_layout.specs.Shows.{Stands};
ghost use Rattle.gen1_offers.specs.OfferedChoices.{all_choices, choices_in, chosen_by};
ghost use Rattle.gen1_engine.specs.Update.{offered_mask};
ghost use Rattle.gen1_c.specs.Battle.{IsNoSide, IsWritten, Offers, byte_read, kind_of_choice, move_words, slot_of_choice, switch_words, words_due};
ghost use Rattle.gen1_c.specs.Codes.{Writes, over_front};
ghost use Rattle.gen1_c.specs.Names.{Tells};

use crate::codes::{AMBIGUOUS, CHOICE, NOBODY, NOT_OFFERED, SIDE, SMALL_TEXT, WORDS};
use crate::lines::{put_front, write_text};
use gen1_engine::packed::offered_mask;
use gen1_layout::Packed;
use gen1_machine::{Choice, MoveSlot, Place, Side};
use gen1_tables::{MoveId, Species};
use gen1_words::{WordsFault, choice_from_words};

// The bytes of all choices, in the order of the bits of a mask.
const BYTES: [u8; 12] = [
    0x00, 0x10, 0x11, 0x12, 0x13, 0x14, 0x21, 0x22, 0x23, 0x24, 0x25, 0x26,
];

/// Lists the choices that a side is offered: writes their bytes, in rising order, to the beginning of the array, and returns their
/// number; 0 if the side does not exist.
#[unsafe(no_mangle)]
pub extern "C" fn gen1_choices(battle: &Packed, side: u8, choices: &mut [u8; 9]) -> u8
    ensures offers { (s : State) (which : Side) → Stands battle.now s → side ≡ side_number which
        → Offers (offered which s.field) choices.old choices.new result }
    ensures no_side { IsNoSide side → (result ≡ 0) × (choices.new ≡ choices.old) }
    // For any bytes of the battle, valid or not.
    ensures few { result ≤ 9 }
    ensures rest { drop result choices.new ≡ drop result choices.old }
{
    match Side::from_number(side) {
        Some(side) => put_offered(battle, side, choices),
        None => 0,
    }
}

#[inline(always)]
fn put_offered(battle: &Packed, side: Side, choices: &mut [u8; 9]) -> u8
    ensures offers { (s : State) → Stands battle.now s
        → Offers (offered side s.field) choices.old choices.new result }
    ensures few { result ≤ 9 }
    ensures rest { drop result choices.new ≡ drop result choices.old }
{
    put_choices(offered_mask(battle, side), choices)
}

// Writes the choices of a mask. A battle never offers more than nine.
#[inline(always)]
fn put_choices(mask: u16, choices: &mut [u8; 9]) -> u8
    ensures offers { length (choices_in mask) ≤ 9
        → Offers (choices_in mask) choices.old choices.new result }
    ensures few { result ≤ 9 }
    ensures rest { drop result choices.new ≡ drop result choices.old }
{
    // Usually all four moves can be chosen, and take one write.
    if mask % 64 == 0x3c {
        choices[0] = 0x11;
        choices[1] = 0x12;
        choices[2] = 0x13;
        choices[3] = 0x14;
        return put_digits(mask / 64, 6, 4, choices) as u8;
    }
    put_digits(mask, 0, 0, choices) as u8
}

// Writes the choices of the bits from one on, after those that are written already.
#[inline(always)]
fn put_digits(mask: u16, from: usize, before: usize, choices: &mut [u8; 9]) -> usize
    requires from { from ≤ 12 }
    requires before { before ≤ 9 }
    ensures few { result ≤ 9 }
    ensures grows { before ≤ result }
    ensures rest { drop result choices.new ≡ drop result choices.old }
    ensures written { (base : List ℕ) (done : List Choice)
        → IsWritten (map byte_of_choice done) base choices.old before → length base ≡ 9
        → length (done ++ chosen_by mask (drop from all_choices)) ≤ 9
        → IsWritten (map byte_of_choice (done ++ chosen_by mask (drop from all_choices))) base
        choices.new result }
{
    let mut rest = mask;
    let mut count = before;
    for digit in from..12 {
        count = put_if(rest % 2 == 1, BYTES[digit], count, choices);
        rest /= 2;
    }
    count
}

#[inline(always)]
fn put_if(holds: bool, byte: u8, count: usize, choices: &mut [u8; 9]) -> usize
    requires { count ≤ 9 }
    ensures few { result ≤ 9 }
    ensures grows { count ≤ result }
    ensures rest { drop result choices.new ≡ drop result choices.old }
    ensures written { (base done : List ℕ) → IsWritten done base choices.old count
        → length base ≡ 9 → length (done ++ (if holds then byte ∷ [] else [])) ≤ 9
        → IsWritten (done ++ (if holds then byte ∷ [] else [])) base choices.new result }
{
    if holds {
        return put_one(byte, count, choices);
    }
    count
}

// Nothing is written after the ninth.
#[inline(always)]
fn put_one(byte: u8, count: usize, choices: &mut [u8; 9]) -> usize
    requires { count ≤ 9 }
    ensures few { result ≤ 9 }
    ensures grows { count ≤ result }
    ensures rest { drop result choices.new ≡ drop result choices.old }
    ensures written { (base done : List ℕ) → IsWritten done base choices.old count
        → length base ≡ 9 → length done < 9
        → IsWritten (done ++ (byte ∷ [])) base choices.new result }
{
    if count < 9 {
        choices[count] = byte;
        return count + 1;
    }
    count
}

/// Returns the choices that a side is offered as a mask, whose bits are from the lowest on: Pass, Move 0 to 4, Switch 1 to 6.
/// Returns 0 if the side does not exist.
#[unsafe(no_mangle)]
pub extern "C" fn gen1_offered(battle: &Packed, side: u8) -> u16
    ensures offers { (s : State) (which : Side) → Stands battle.now s → side ≡ side_number which
        → result ≡ offered_mask s which }
    ensures no_side { IsNoSide side → result ≡ 0 }
    // For any bytes of the battle, valid or not.
    ensures twelve { result < 4096 }
{
    match Side::from_number(side) {
        Some(side) => offered_mask(battle, side),
        None => 0,
    }
}

/// Returns the kind of a choice: 1 Pass, 2 Move, 3 Switch; 0 if the byte is not a choice.
#[unsafe(no_mangle)]
pub extern "C" fn gen1_choice_kind(byte: u8) -> u8
    ensures { result ≡ kind_of_choice (choice_at byte) }
{
    match Choice::from_byte(byte) {
        Some(Choice::Pass) => 1,
        Some(Choice::Move(_)) => 2,
        Some(Choice::Switch(_)) => 3,
        None => 0,
    }
}

/// Returns the slot of a move or the place of a switch; 0 for Pass, and for a byte that is not a choice.
#[unsafe(no_mangle)]
pub extern "C" fn gen1_choice_slot(byte: u8) -> u8
    ensures { result ≡ slot_of_choice (choice_at byte) }
{
    let Some(choice) = Choice::from_byte(byte) else {
        return 0;
    };
    match choice {
        Choice::Pass => 0,
        Choice::Move(slot) => number_of_slot(slot),
        Choice::Switch(place) => number_of_place(place),
    }
}

fn number_of_slot(slot: MoveSlot) -> u8
    ensures value { result ≡ slot }
    ensures high { result ≤ 4 }
{
    slot.number()
}

fn number_of_place(place: Place) -> u8
    ensures value { result ≡ place }
    ensures low { 1 ≤ result }
    ensures high { result ≤ 6 }
{
    place.number()
}

/// Writes a choice of a side in words, with the names of the battle, to the beginning of the text, and their number of bytes.
/// Returns 0, or the code of the side, the choice, a move or member that does not exist, or a text that is too small; then nothing
/// has changed.
#[unsafe(no_mangle)]
pub extern "C" fn gen1_choice_words(
    battle: &Packed,
    side: u8,
    byte: u8,
    text: &mut [u8],
    written: &mut usize,
) -> u8
    ensures writes { (s : State) (which : Side) → Stands battle.now s → side ≡ side_number which
        → Writes (words_due which (choice_at byte) s.field)
        (record { bytes = text.old; count = written.old })
        (record { bytes = text.new; count = written.new }) result }
    ensures no_side { IsNoSide side → result ≡ 40 }
    // For any bytes, valid or not.
    ensures kept { result ≢ 0 → (text.new ≡ text.old) × (written.new ≡ written.old) }
    ensures within { result ≡ 0 → written.new < length text.old }
    ensures code { result ≢ 0 → (40 ≤ result) × (result ≤ 44) × (result ≢ 42) }
    ensures short { result ≡ 0 → written.new ≤ 21 }
{
    let Some(side) = Side::from_number(side) else {
        return SIDE;
    };
    let Some(choice) = Choice::from_byte(byte) else {
        return CHOICE;
    };
    match choice {
        Choice::Pass => write_text(b"pass", text, written),
        Choice::Move(slot) => write_move(battle, side, number_of_slot(slot), text, written),
        Choice::Switch(place) => write_switch(battle, side, number_of_place(place), text, written),
    }
}

/// Reads the choice of a side from words. A number is read as it is; a name is looked for among the offered choices.
/// Returns 0, or the code of the side, of words that say no choice, of a name that no offered choice has, or of one that two have;
/// then nothing has changed.
#[unsafe(no_mangle)]
pub extern "C" fn gen1_choice_from_words(
    battle: &Packed,
    side: u8,
    text: &[u8],
    choice: &mut u8,
) -> u8
    ensures reads { (s : State) (which : Side) → Stands battle.now s → side ≡ side_number which
        → Tells (byte_read which s.field text.now) choice.old choice.new result }
    // The words of an offered choice are read as this choice.
    ensures own { (s : State) (which : Side) (byte : ℕ) (it : Choice) → Stands battle.now s
        → side ≡ side_number which → choice_at byte ≡ Some it → offers s which it ≡ true
        → words_due which (Some it) s.field ≡ Ok text.now → (result ≡ 0) × (choice.new ≡ byte) }
    ensures no_side { IsNoSide side → result ≡ 40 }
    // For any bytes, valid or not.
    ensures kept { result ≢ 0 → choice.new ≡ choice.old }
    ensures code { result ≢ 0 → result ≢ 40 → (54 ≤ result) × (result ≤ 59) }
{
    let Some(side) = Side::from_number(side) else {
        return SIDE;
    };
    match byte_of_words(battle, side, text) {
        Ok(byte) => {
            *choice = byte;
            0
        }
        Err(code) => code,
    }
}

// The byte of the choice that a text says, or the code of what is wrong with it.
fn byte_of_words(battle: &Packed, side: Side, text: &[u8]) -> Result<u8, u8>
    ensures due { (s : State) → Stands battle.now s → result ≡ byte_read side s.field text.now }
    ensures code { IfErr result (λ code. (54 ≤ code) × (code ≤ 59)) }
{
    match choice_from_words(battle, side, text) {
        Ok(found) => Ok(found.byte()),
        Err(WordsFault::Unknown) => Err(WORDS),
        Err(WordsFault::NotOffered) => Err(NOT_OFFERED),
        Err(WordsFault::Ambiguous) => Err(AMBIGUOUS),
    }
}

// "move 2 Body Slam"; "move 0" where no slot can be chosen.
fn write_move(battle: &Packed, side: Side, slot: u8, text: &mut [u8], written: &mut usize) -> u8
    requires { slot ≤ 4 }
    ensures writes { (s : State) → Stands battle.now s → Writes (move_words side slot s.field)
        (record { bytes = text.old; count = written.old })
        (record { bytes = text.new; count = written.new }) result }
    ensures kept { result ≢ 0 → (text.new ≡ text.old) × (written.new ≡ written.old) }
    ensures within { result ≡ 0 → written.new < length text.old }
    ensures code { result ≢ 0 → (40 ≤ result) × (result ≤ 44) × (result ≢ 42) }
    ensures short { result ≡ 0 → written.new ≤ 21 }
{
    if slot == 0 {
        return write_text(b"move 0", text, written);
    }
    if battle.turn() == 0 {
        return NOBODY;
    }
    match MoveId::new(battle.move_in(side, slot)) {
        Some(id) => {
            let head = [b'm', b'o', b'v', b'e', b' ', 48 + slot, b' '];
            write_joined(&head, id.name().as_bytes(), text, written)
        }
        None => NOBODY,
    }
}

// "switch 3 Gengar".
fn write_switch(battle: &Packed, side: Side, place: u8, text: &mut [u8], written: &mut usize) -> u8
    requires low { 1 ≤ place }
    requires high { place ≤ 6 }
    ensures writes { (s : State) → Stands battle.now s → Writes (switch_words side place s.field)
        (record { bytes = text.old; count = written.old })
        (record { bytes = text.new; count = written.new }) result }
    ensures kept { result ≢ 0 → (text.new ≡ text.old) × (written.new ≡ written.old) }
    ensures within { result ≡ 0 → written.new < length text.old }
    ensures code { result ≢ 0 → (40 ≤ result) × (result ≤ 44) × (result ≢ 42) }
    ensures short { result ≡ 0 → written.new ≤ 21 }
{
    match Species::new(battle.species_at(side, place)) {
        Some(species) => {
            let head = [b's', b'w', b'i', b't', b'c', b'h', b' ', 48 + place, b' '];
            write_joined(&head, species.name().as_bytes(), text, written)
        }
        None => NOBODY,
    }
}

// Writes two texts one after the other, as `write_text` writes one.
fn write_joined(head: &[u8], name: &[u8], text: &mut [u8], written: &mut usize) -> u8
    requires { length head.now ≤ 9 }
    ensures writes { Writes (Ok (head.now ++ name.now)) (record { bytes = text.old; count = written.old })
        (record { bytes = text.new; count = written.new }) result }
    ensures within { result ≡ 0 → written.new < length text.old }
    ensures code { result ≢ 0 → (40 ≤ result) × (result ≤ 44) × (result ≢ 42) }
    ensures count { result ≡ 0 → written.new ≡ length head.now + length name.now }
{
    let count = head.len() + name.len();
    if text.len() <= count {
        return SMALL_TEXT;
    }
    put_both(head, name, text);
    text[count] = 0;
    *written = count;
    0
}

fn put_both(head: &[u8], name: &[u8], text: &mut [u8])
    requires { length head.now + length name.now ≤ length text.old }
    ensures { text.new ≡ over_front (head.now ++ name.now) text.old }
{
    put_front(head, text);
    put_front(name, &mut text[head.len()..]);
}
