//! Members and teams as packed lines (docs/TEAM_TEXT.md, "Writing").
ghost use Rattle.std.specs.Prelude.{All, length, ◌++◌, ◌+◌, ◌≡◌, ◌≤◌};
ghost use Rattle.arrayvec.specs.ArrayVec.{array_vec_len};
ghost use Rattle.gen1_tables.specs.Names.{move_name};
ghost use Rattle.gen1_text.specs.Ids.{id_of};
ghost use Rattle.gen1_writer.specs.Export.{HasDvs, iv_place, packed_evs, packed_ivs, packed_level, packed_member, packed_moves, packed_of};

use crate::numbers::{add, add_next, add_number, are_all, evs_of, ivs_of};
use arrayvec::ArrayVec;
use gen1_stats::MemberSpec;
use gen1_tables::MoveId;
use gen1_text::first_letter;

// The members, with `]` between them, and a line feed.
pub(crate) fn packed_of(specs: &[MemberSpec]) -> ArrayVec<u8, 800>
    requires few { length specs.now ≤ 6 }
    requires allowed { All HasDvs specs.now }
    ensures { result.items ≡ packed_of specs.now }
{
    let mut text = ArrayVec::new();
    for (index, spec) in specs.iter().enumerate() {
        add_next(index, b']', packed_member(spec).as_slice(), &mut text);
    }
    add(b"\n", &mut text);
    text
}

// The twelve fields of a member.
#[tactic(auto, using(crate::proofs::Parts::species_short))]
fn packed_member(spec: &MemberSpec) -> ArrayVec<u8, 132>
    requires { HasDvs spec.now }
    ensures { result.items ≡ packed_member spec.now }
{
    let mut text = ArrayVec::new();
    add(spec.species.name().as_bytes(), &mut text);
    add(b"||||", &mut text);
    add(packed_moves(spec.moves.as_slice()).as_slice(), &mut text);
    add(b"||", &mut text);
    add(packed_evs(&evs_of(spec)).as_slice(), &mut text);
    add(b"||", &mut text);
    add(packed_ivs(&ivs_of(spec)).as_slice(), &mut text);
    add(b"||", &mut text);
    add(packed_level(spec.level).as_slice(), &mut text);
    add(b"|", &mut text);
    text
}

fn packed_level(level: u8) -> ArrayVec<u8, 3>
    ensures { result.items ≡ packed_level level }
{
    let mut text = ArrayVec::new();
    if level != 100 {
        add_number(level, &mut text);
    }
    text
}

#[tactic(auto, using(crate::proofs::Parts::move_within))]
fn packed_moves(moves: &[(MoveId, u8)]) -> ArrayVec<u8, 60>
    requires { length moves.now ≤ 4 }
    ensures { result.items ≡ packed_moves moves.now }
{
    let mut text = ArrayVec::new();
    for (index, known) in moves.iter().enumerate() {
        add_next(
            index,
            b',',
            letters(known.0.name().as_bytes()).as_slice(),
            &mut text,
        );
    }
    text
}

// The letters and digits of a name, in lower case.
#[tactic(auto, using(crate::proofs::Parts::id_short))]
fn letters(name: &[u8]) -> ArrayVec<u8, 14>
    requires { length name.now ≤ 14 }
    ensures { result.items ≡ id_of name.now }
{
    let mut text = ArrayVec::new();
    let mut rest = name;
    while let Some((letter, others)) = first_letter(rest) {
        add(&[letter], &mut text);
        rest = others;
    }
    text
}

fn packed_evs(evs: &[u8; 6]) -> ArrayVec<u8, 23>
    ensures { result.items ≡ packed_evs evs.now }
{
    let mut text = ArrayVec::new();
    if are_all(evs, 252) {
        return text;
    }
    if are_all(evs, 0) {
        add(b"0", &mut text);
        return text;
    }
    add_number(evs[0], &mut text);
    add(b",", &mut text);
    add_number(evs[1], &mut text);
    add(b",", &mut text);
    add_number(evs[2], &mut text);
    add(b",", &mut text);
    add_number(evs[3], &mut text);
    add(b",", &mut text);
    add_number(evs[4], &mut text);
    add(b",", &mut text);
    add_number(evs[5], &mut text);
    text
}

fn packed_ivs(ivs: &[u8; 6]) -> ArrayVec<u8, 23>
    ensures { result.items ≡ packed_ivs ivs.now }
{
    let mut text = ArrayVec::new();
    if are_all(ivs, 31) {
        return text;
    }
    add_iv(ivs[0], &mut text);
    add(b",", &mut text);
    add_iv(ivs[1], &mut text);
    add(b",", &mut text);
    add_iv(ivs[2], &mut text);
    add(b",", &mut text);
    add_iv(ivs[3], &mut text);
    add(b",", &mut text);
    add_iv(ivs[4], &mut text);
    add(b",", &mut text);
    add_iv(ivs[5], &mut text);
    text
}

// The digits of an IV; nothing for 31.
fn add_iv(iv: u8, text: &mut ArrayVec<u8, 23>)
    requires { array_vec_len text.old ≤ 20 }
    ensures items { text.new.items ≡ text.old.items ++ iv_place iv }
    ensures len { array_vec_len text.new ≤ array_vec_len text.old + 3 }
{
    if iv != 31 {
        add_number(iv, text);
    }
}
