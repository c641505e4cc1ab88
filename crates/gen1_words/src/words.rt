//! What a text says of a choice, without a battle, and the choice of a side that this is (docs/TEAM_TEXT.md, "Names";
//! docs/PROGRAM.md, "Text in place of JSON"; docs/MECHANICS.md, "Offered choices"). Only letters and digits count, in
//! either case.
ghost use Rattle.std.specs.Prelude.{MatchOption, [], filter, option_map, ◌&&◌, ◌∷◌, ◌≡◌, ◌≤◌};
ghost use Rattle.gen1_text.specs.Ids.{id_of, move_called};
ghost use Rattle.gen1_machine.specs.OfferedChoices.{offered};
ghost use Rattle.gen1_machine.specs.State.{State};
ghost use Rattle.gen1_machine.specs.Step.{is_among};
ghost use Rattle.gen1_layout.specs.Shows.{Stands, setting_of};
ghost use Rattle.gen1_layout.specs.Words.{Field, Reads, Setting, Within};
ghost use Rattle.gen1_words.specs.ChoiceWords.{choice_due, choice_of, fits, has_move, has_species, if_offered, knows, move_said, only, place_said, slot_said, switch_said, words_said};

use gen1_layout::Packed;
use gen1_machine::{Choice, MoveSlot, Place, Side};
use gen1_offers::{is_offered, offered};
use gen1_tables::{MoveId, Species};
use gen1_text::{first_letter, has_same_id, move_called, rest_after, species_called};

/// What a text says of a choice (docs/PROGRAM.md, "Text in place of JSON").
#[derive(Clone, Copy, Debug, PartialEq, Eq, Drop)]
pub enum ChoiceWords {
    /// The choice itself: "pass", "move 1", "switch 2".
    Exactly(Choice),
    /// A move by its name: "Body Slam", "move Body Slam".
    MoveCalled(MoveId),
    /// A slot with the name of its move: "move 1 Body Slam".
    SlotCalled(MoveSlot, MoveId),
    /// A switch to a species: "switch Gengar".
    SwitchTo(Species),
    /// A switch to a place with the name of its species: "switch 2 Gengar".
    PlaceCalled(Place, Species),
}

/// Returns what a text says of a choice; `None` if it doesn't say one, or names no move or species. Only letters and digits count,
/// in either case (docs/PROGRAM.md, "Text in place of JSON").
pub fn words_in_text(text: &[u8]) -> Option<ChoiceWords>
    ensures { result ≡ words_said (id_of text.now) }
{
    if has_same_id(b"pass", text) {
        return Some(ChoiceWords::Exactly(Choice::Pass));
    }
    if let Some(rest) = rest_after(b"move", text) {
        return move_said(rest);
    }
    match rest_after(b"switch", text) {
        Some(rest) => switch_said(rest),
        None => named_move(text),
    }
}

fn named_move(text: &[u8]) -> Option<ChoiceWords>
    ensures { result ≡ option_map ChoiceWords.MoveCalled (move_called (id_of text.now)) }
{
    move_called(text).map(ChoiceWords::MoveCalled)
}

// After "move": a slot, a slot with the name of its move, or a name.
fn move_said(rest: &[u8]) -> Option<ChoiceWords>
    ensures { result ≡ move_said (id_of rest.now) }
{
    let (letter, name) = first_letter(rest)?;
    match letter {
        b'0'..=b'4' => slot_said(letter - b'0', name),
        _ => named_move(rest),
    }
}

#[tactic(auto, using(crate::proofs::ChoiceLemmas::slot_named, crate::proofs::ChoiceLemmas::slot_unnamed))]
fn slot_said(slot: u8, name: &[u8]) -> Option<ChoiceWords>
    requires { slot ≤ 4 }
    ensures { result ≡ slot_said slot (id_of name.now) }
{
    let slot = MoveSlot::new(slot)?;
    let Some(_) = first_letter(name) else {
        return Some(ChoiceWords::Exactly(Choice::Move(slot)));
    };
    let id = move_called(name)?;
    Some(ChoiceWords::SlotCalled(slot, id))
}

// After "switch": a place, a place with the name of its species, or a name.
fn switch_said(rest: &[u8]) -> Option<ChoiceWords>
    ensures { result ≡ switch_said (id_of rest.now) }
{
    let (letter, name) = first_letter(rest)?;
    match letter {
        b'1'..=b'6' => place_said(letter - b'0', name),
        _ => species_called(rest).map(ChoiceWords::SwitchTo),
    }
}

#[tactic(auto, using(crate::proofs::ChoiceLemmas::place_named, crate::proofs::ChoiceLemmas::place_unnamed))]
fn place_said(place: u8, name: &[u8]) -> Option<ChoiceWords>
    requires low { 1 ≤ place }
    requires high { place ≤ 6 }
    ensures value { result ≡ place_said place (id_of name.now) }
{
    let place = Place::new(place)?;
    let Some(_) = first_letter(name) else {
        return Some(ChoiceWords::Exactly(Choice::Switch(place)));
    };
    let species = species_called(name)?;
    Some(ChoiceWords::PlaceCalled(place, species))
}

// The move of slot 0 if no slot can be chosen (docs/TABLES.md, "Moves").
const STRUGGLE: u8 = 165;

/// Why words don't name a choice of a side.
#[derive(Clone, Copy, Debug, PartialEq, Eq, Drop)]
pub enum WordsFault {
    /// The text doesn't say a choice, or doesn't name a move or species.
    Unknown,
    /// No choice that the side is offered has this name.
    NotOffered,
    /// Two or more choices that the side is offered have this name.
    Ambiguous,
}

/// Returns the choice of a side that a text says (docs/PROGRAM.md, "Text in place of JSON"; docs/MECHANICS.md, "Offered choices").
///
/// A choice by its number is returned whether it is offered or not. A name is looked for among the offered choices.
pub fn choice_from_words(battle: &Packed, side: Side, text: &[u8]) -> Result<Choice, WordsFault>
    ensures { (s : State) → Stands battle.now s → result ≡ choice_due side s.field text.now }
{
    match words_in_text(text) {
        Some(words) => choice_of_words(battle, side, &words),
        None => Err(WordsFault::Unknown),
    }
}

/// Returns the choice of a side that words say, as `choice_from_words` does. The error is never `Unknown`.
pub fn choice_of_words(
    battle: &Packed,
    side: Side,
    words: &ChoiceWords,
) -> Result<Choice, WordsFault>
    ensures { (s : State) → Stands battle.now s → result ≡ choice_of side s.field words.now }
{
    // Before the first update no member is out, and only Pass is offered.
    if battle.turn() == 0 {
        return match words {
            ChoiceWords::Exactly(choice) => Ok(*choice),
            _ => Err(WordsFault::NotOffered),
        };
    }
    match words {
        ChoiceWords::Exactly(choice) => Ok(*choice),
        ChoiceWords::SlotCalled(slot, id) => {
            let has_name = has_move(battle, side, *slot, *id);
            if_offered(battle, side, Choice::Move(*slot), has_name)
        }
        ChoiceWords::PlaceCalled(place, species) => {
            let has_name = has_species(battle, side, *place, *species);
            if_offered(battle, side, Choice::Switch(*place), has_name)
        }
        ChoiceWords::MoveCalled(_) => only(battle, side, words, &offered(battle, side)),
        ChoiceWords::SwitchTo(_) => only(battle, side, words, &offered(battle, side)),
    }
}

// A choice by its number and a name.
#[tactic(auto, using(crate::proofs::ChoiceLemmas::called, crate::proofs::ChoiceLemmas::not_offered, crate::proofs::ChoiceLemmas::not_named))]
fn if_offered(
    battle: &Packed,
    side: Side,
    choice: Choice,
    has_name: bool,
) -> Result<Choice, WordsFault>
    ensures { (s : State) → Stands battle.now s
        → result ≡ if_offered (is_among choice (offered side s.field) && has_name) choice }
{
    if has_name && is_offered(battle, side, &choice) {
        Ok(choice)
    } else {
        Err(WordsFault::NotOffered)
    }
}

// The only choice of a list that the words fit.
fn only(
    battle: &Packed,
    side: Side,
    words: &ChoiceWords,
    choices: &[Choice],
) -> Result<Choice, WordsFault>
    ensures { Reads battle.now result λ f. only (filter (fits side f words.now) choices.now) }
{
    let Some((choice, others)) = first_fitting(battle, side, words, choices) else {
        return Err(WordsFault::NotOffered);
    };
    if first_fitting(battle, side, words, others).is_some() {
        return Err(WordsFault::Ambiguous);
    }
    Ok(choice)
}

// The first choice that the words fit, and the choices after it.
fn first_fitting<'a>(
    battle: &Packed,
    side: Side,
    words: &ChoiceWords,
    choices: &'a [Choice],
) -> Option<(Choice, &'a [Choice])>
    ensures { (g : Setting) (f : Field) → Within g battle.now f → MatchOption result
        (filter (fits side f words.now) choices.now ≡ []) (λ found. filter (fits side f words.now) choices.now
        ≡ found.0 ∷ filter (fits side f words.now) found.1.now) }
{
    let mut rest = choices;
    while let Some((choice, others)) = rest.split_first() {
        if fits(battle, side, words, *choice) {
            return Some((*choice, others));
        }
        rest = others;
    }
    None
}

fn fits(battle: &Packed, side: Side, words: &ChoiceWords, choice: Choice) -> bool
    ensures { Reads battle.now result λ f. fits side f words.now choice }
{
    match words {
        ChoiceWords::MoveCalled(id) => match choice {
            Choice::Move(slot) => has_move(battle, side, slot, *id),
            Choice::Pass | Choice::Switch(_) => false,
        },
        ChoiceWords::SwitchTo(species) => match choice {
            Choice::Switch(place) => has_species(battle, side, place, *species),
            Choice::Pass | Choice::Move(_) => false,
        },
        ChoiceWords::Exactly(_) | ChoiceWords::SlotCalled(..) | ChoiceWords::PlaceCalled(..) =>
            false,
    }
}

fn has_species(battle: &Packed, side: Side, place: Place, species: Species) -> bool
    ensures { Reads battle.now result λ f. has_species side f place species }
{
    battle.species_at(side, place.number()) == species.number()
}

// Whether the slot has the move. Slot 0 has each move of the member, and Struggle.
fn has_move(battle: &Packed, side: Side, slot: MoveSlot, id: MoveId) -> bool
    ensures { Reads battle.now result λ f. has_move side f slot id }
{
    let (slot, id) = (slot.number(), id.number());
    if slot == 0 {
        return id == STRUGGLE || knows(battle, side, id);
    }
    battle.move_in(side, slot) == id
}

fn knows(battle: &Packed, side: Side, id: u8) -> bool
    ensures { Reads battle.now result (λ f. knows side f id) }
{
    battle.move_in(side, 1) == id
        || battle.move_in(side, 2) == id
        || battle.move_in(side, 3) == id
        || battle.move_in(side, 4) == id
}
