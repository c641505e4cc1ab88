//! Species and moves by their names, where only letters and digits count, in either case (docs/TEAM_TEXT.md, "Names").
ghost use Rattle.std.specs.Prelude.{ℕ, ◌≡◌, ◌≤◌, [], ◌∷◌, MatchOption, bytes_eq, option_map};
ghost use Rattle.gen1_text.specs.Ids.{id_of, move_called, place_called, species_called};
ghost use Rattle.gen1_text.specs.MemberLines.{text_after};
ghost use Rattle.gen1_tables.specs.Names.{move_name, move_names, species_name};

use gen1_tables::{MoveId, Species};

/// Returns the species that a text names; only letters and digits count, in either case (docs/TEAM_TEXT.md, "Names"). Each species
/// is found by its own name.
#[tactic(auto, using(crate::proofs::TextLemmas::species_by_letters, crate::proofs::TextLemmas::species_own))]
pub fn species_called(text: &[u8]) -> Option<Species>
    ensures value { result ≡ species_called text.now }
    ensures letters { result ≡ species_called (id_of text.now) }
    ensures own { (n : ℕ) → 1 ≤ n → n ≤ 151 → text.now ≡ species_name n → result ≡ Some n }
{
    species_with_id(text)
}

/// Returns the move that a text names; only letters and digits count, in either case (docs/TEAM_TEXT.md, "Names"). Each move is
/// found by its own name, and two also by their names in other generations.
#[tactic(auto, using(crate::proofs::TextLemmas::move_by_letters, crate::proofs::TextLemmas::move_own))]
pub fn move_called(text: &[u8]) -> Option<MoveId>
    ensures value { result ≡ move_called text.now }
    ensures letters { result ≡ move_called (id_of text.now) }
    ensures own { (n : ℕ) → 1 ≤ n → n ≤ 165 → text.now ≡ move_name n → result ≡ Some n }
{
    move_with_any_name(text)
}

fn species_with_id(text: &[u8]) -> Option<Species>
    ensures { result ≡ species_called text.now }
{
    for number in 1..152u8 {
        let species = Species::new(number)?;
        if has_same_id(species.name().as_bytes(), text) {
            return Some(species);
        }
    }
    None
}

#[tactic(auto, unfolding(crate::specs::Ids::move_called))]
fn move_with_any_name(text: &[u8]) -> Option<MoveId>
    ensures { result ≡ move_called text.now }
{
    if let Some(id) = move_with_id(text) {
        Some(id)
    } else if has_same_id(b"Vise Grip", text) {
        MoveId::new(11)
    } else if has_same_id(b"Hi Jump Kick", text) {
        MoveId::new(136)
    } else {
        None
    }
}

fn move_with_id(text: &[u8]) -> Option<MoveId>
    ensures { result ≡ place_called move_names text.now }
{
    for number in 1..166u8 {
        let id = MoveId::new(number)?;
        if has_same_id(id.name().as_bytes(), text) {
            return Some(id);
        }
    }
    None
}

/// Returns whether a name and a text have the same letters and digits, in either case (docs/TEAM_TEXT.md, "Names").
pub fn has_same_id(name: &[u8], text: &[u8]) -> bool
    ensures { result ≡ bytes_eq (id_of name.now) (id_of text.now) }
{
    let mut names = name;
    let mut texts = text;
    while let Some((letter, names_left)) = first_letter(names) {
        let Some((other, texts_left)) = first_letter(texts) else {
            return false;
        };
        if letter != other {
            return false;
        }
        names = names_left;
        texts = texts_left;
    }
    first_letter(texts).is_none()
}

/// Returns what follows a word, if the text begins with it; only letters and digits count, in either case.
#[tactic(auto, unfolding(crate::specs::MemberLines::text_after))]
pub fn rest_after<'a>(word: &[u8], text: &'a [u8]) -> Option<&'a [u8]>
    ensures { option_map (λ rest. id_of rest.now) result ≡ text_after (id_of word.now) (id_of text.now) }
{
    let mut words = word;
    let mut texts = text;
    while let Some((letter, words_left)) = first_letter(words) {
        let Some((other, texts_left)) = first_letter(texts) else {
            return None;
        };
        if letter != other {
            return None;
        }
        words = words_left;
        texts = texts_left;
    }
    Some(texts)
}

/// Returns the first letter or digit of a text, in lower case, and the text after it; `None` if it has none.
pub fn first_letter(text: &[u8]) -> Option<(u8, &[u8])>
    ensures { MatchOption result (id_of text.now ≡ [])
        (λ letter. id_of text.now ≡ letter.0 ∷ id_of letter.1.now) }
{
    let mut rest = text;
    while let Some((first, others)) = rest.split_first() {
        if first.is_ascii_alphanumeric() {
            return Some((first.to_ascii_lowercase(), others));
        }
        rest = others;
    }
    None
}
