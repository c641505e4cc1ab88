//! EVs and IVs, and whole numbers in a text (docs/TEAM_TEXT.md, "EVs and experience", "IVs and DVs", "Export text",
//! "Packed line").
ghost use Rattle.std.specs.Prelude.{IfSome, bytes_eq, ◌<◌, ◌≡◌};
ghost use Rattle.gen1_text.specs.MemberLines.{dvs_of_ivs, exp_of_evs, experience, nothing_said, part_of, stat_named, with_parts, number_of, pieces_of};

use crate::cuts::{Pieces, text_before, text_behind};
use crate::fault::MemberFault;

// The numbers of HP, Atk, Def, SpA, SpD and Spe, if given.
pub(crate) type Spread = [Option<u8>; 6];

// What parts between slashes say, each a number of at most `most` and a stat.
#[tactic(auto, using(crate::proofs::TextLemmas::parts_stop, crate::proofs::TextLemmas::parts_go, crate::proofs::TextLemmas::parts_end))]
pub(crate) fn spread_in(text: &[u8], most: u8) -> Option<Spread>
    ensures { result ≡ with_parts most nothing_said (pieces_of 47 text.now) }
{
    let mut spread = [None; 6];
    for part in Pieces::new(text, b'/') {
        let (stat, number) = part_in(part, most)?;
        spread[stat] = Some(number);
    }
    Some(spread)
}

// What a part says: a stat, and its number.
#[tactic(auto, unfolding(crate::specs::MemberLines::part_of))]
fn part_in(part: &[u8], most: u8) -> Option<(usize, u8)>
    ensures value { result ≡ part_of most part.now }
    ensures bound { IfSome result (λ said. said.0 < 6) }
{
    let number = number_in(text_before(part, b' '), most)?;
    let stat = stat_named(text_behind(part, b' '))?;
    Some((stat, number))
}

// The place of a stat in a spread.
#[tactic(auto, unfolding(crate::specs::MemberLines::stat_named))]
fn stat_named(name: &[u8]) -> Option<usize>
    ensures value { result ≡ stat_named name.now }
    ensures bound { IfSome result (λ stat. stat < 6) }
{
    if is_text(name, b"HP") {
        Some(0)
    } else if is_text(name, b"Atk") {
        Some(1)
    } else if is_text(name, b"Def") {
        Some(2)
    } else if is_text(name, b"SpA") || is_text(name, b"Spc") {
        Some(3)
    } else if is_text(name, b"SpD") {
        Some(4)
    } else if is_text(name, b"Spe") {
        Some(5)
    } else {
        None
    }
}

pub(crate) fn is_text(text: &[u8], other: &[u8]) -> bool
    ensures { result ≡ bytes_eq text.now other.now }
{
    text == other
}

// The experience of HP, Attack, Defense, Speed and Special: each the square of its EV.
#[tactic(auto, unfolding(crate::specs::MemberLines::exp_of_evs))]
pub(crate) fn exp_of_evs(evs: Spread) -> Result<[u16; 5], MemberFault>
    ensures { result ≡ exp_of_evs evs }
{
    let [hp, attack, defense, special, special_defense, speed] = evs;
    let special = special.unwrap_or(0);
    if special_defense.unwrap_or(special) != special {
        return Err(MemberFault::SpecialEvs);
    }
    Ok([
        square(hp.unwrap_or(0)),
        square(attack.unwrap_or(0)),
        square(defense.unwrap_or(0)),
        square(speed.unwrap_or(0)),
        square(special),
    ])
}

fn square(ev: u8) -> u16
    ensures { result ≡ experience ev }
{
    u16::from(ev) * u16::from(ev)
}

// The DVs of Attack, Defense, Speed and Special: each half its IV.
#[tactic(auto, unfolding(crate::specs::MemberLines::dvs_of_ivs))]
pub(crate) fn dvs_of_ivs(ivs: Spread) -> Result<[u8; 4], MemberFault>
    ensures { result ≡ dvs_of_ivs ivs }
{
    let [hp, attack, defense, special, special_defense, speed] = ivs;
    let special_iv = special.unwrap_or(31);
    let dvs = [
        attack.unwrap_or(31) / 2,
        defense.unwrap_or(31) / 2,
        speed.unwrap_or(31) / 2,
        special_iv / 2,
    ];
    if special_defense.unwrap_or(special_iv) / 2 != dvs[3] {
        return Err(MemberFault::SpecialIvs);
    }
    let hp_dv = 8 * (dvs[0] % 2) + 4 * (dvs[1] % 2) + 2 * (dvs[2] % 2) + dvs[3] % 2;
    if hp.unwrap_or(2 * hp_dv) / 2 != hp_dv {
        return Err(MemberFault::HpIv);
    }
    Ok(dvs)
}

// The whole number that a text represents, if it is at most `most`.
pub(crate) fn number_in(text: &[u8], most: u8) -> Option<u8>
    ensures { result ≡ number_of most text.now }
{
    if text.is_empty() {
        return None;
    }
    let most = u32::from(most);
    let mut number = 0;
    for digit in text {
        if !digit.is_ascii_digit() {
            return None;
        }
        number = number * 10 + u32::from(*digit - b'0');
        if number > most {
            return None;
        }
    }
    Some(number as u8)
}
