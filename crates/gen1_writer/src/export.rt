//! Members and teams as export text (docs/TEAM_TEXT.md, "Writing").
ghost use Rattle.std.specs.Prelude.{All, length, map, ◌++◌, ◌+◌, ◌≡◌, ◌≤◌};
ghost use Rattle.arrayvec.specs.ArrayVec.{array_vec_len};
ghost use Rattle.gen1_writer.specs.Export.{HasDvs, block, ended, ev_lines, iv_lines, iv_part, iv_parts, level_lines, move_line, part, text_of};

use crate::numbers::{add, add_next, add_number, are_all, evs_of, ivs_of};
use arrayvec::ArrayVec;
use gen1_stats::MemberSpec;
use gen1_tables::MoveId;

// A block of lines for each member, with an empty line between two.
pub(crate) fn text_of(specs: &[MemberSpec]) -> ArrayVec<u8, 1356>
    requires few { length specs.now ≤ 6 }
    requires allowed { All HasDvs specs.now }
    ensures { result.items ≡ text_of specs.now }
{
    let mut text = ArrayVec::new();
    for (index, spec) in specs.iter().enumerate() {
        add_next(index, b'\n', block(spec).as_slice(), &mut text);
    }
    text
}

// The lines of a member.
#[tactic(auto, using(crate::proofs::Parts::species_short))]
fn block(spec: &MemberSpec) -> ArrayVec<u8, 225>
    requires { HasDvs spec.now }
    ensures { result.items ≡ block spec.now }
{
    let mut text = ArrayVec::new();
    add(spec.species.name().as_bytes(), &mut text);
    add(b"\n", &mut text);
    add(level_lines(spec.level).as_slice(), &mut text);
    add(ev_lines(&evs_of(spec)).as_slice(), &mut text);
    add(iv_lines(&ivs_of(spec)).as_slice(), &mut text);
    add(move_lines(spec.moves.as_slice()).as_slice(), &mut text);
    text
}

fn level_lines(level: u8) -> ArrayVec<u8, 11>
    ensures { result.items ≡ ended (level_lines level) }
{
    let mut line = ArrayVec::new();
    if level != 100 {
        add(b"Level: ", &mut line);
        add_number(level, &mut line);
        add(b"\n", &mut line);
    }
    line
}

fn ev_lines(evs: &[u8; 6]) -> ArrayVec<u8, 64>
    ensures { result.items ≡ ended (ev_lines evs.now) }
{
    let mut line = ArrayVec::new();
    if !are_all(evs, 252) {
        add(b"EVs: ", &mut line);
        add_part(evs[0], b"HP", &mut line);
        add(b" / ", &mut line);
        add_part(evs[1], b"Atk", &mut line);
        add(b" / ", &mut line);
        add_part(evs[2], b"Def", &mut line);
        add(b" / ", &mut line);
        add_part(evs[3], b"SpA", &mut line);
        add(b" / ", &mut line);
        add_part(evs[4], b"SpD", &mut line);
        add(b" / ", &mut line);
        add_part(evs[5], b"Spe", &mut line);
        add(b"\n", &mut line);
    }
    line
}

// A number with its stat.
fn add_part<const SIZE: usize>(number: u8, stat: &[u8], text: &mut ArrayVec<u8, SIZE>)
    requires short { length stat.now ≤ 3 }
    requires room { array_vec_len text.old + 7 ≤ SIZE }
    ensures items { text.new.items ≡ text.old.items ++ part number stat.now }
    ensures len { array_vec_len text.new ≤ array_vec_len text.old + 7 }
{
    add_number(number, text);
    add(b" ", text);
    add(stat, text);
}

// The IVs other than 31, without the first slash.
fn iv_lines(ivs: &[u8; 6]) -> ArrayVec<u8, 64>
    ensures { result.items ≡ ended (iv_lines ivs.now) }
{
    let parts = iv_parts(ivs);
    let mut line = ArrayVec::new();
    if parts.len() >= 2 {
        add(b"IVs:", &mut line);
        add(&parts.as_slice()[2..], &mut line);
        add(b"\n", &mut line);
    }
    line
}

// An IV with its stat, after a slash; nothing for 31.
fn add_iv(iv: u8, stat: &[u8], parts: &mut ArrayVec<u8, 60>)
    requires short { length stat.now ≤ 3 }
    requires room { array_vec_len parts.old ≤ 50 }
    ensures items { parts.new.items ≡ parts.old.items ++ iv_part iv stat.now }
    ensures len { array_vec_len parts.new ≤ array_vec_len parts.old + 10 }
{
    if iv != 31 {
        add(b" / ", parts);
        add_part(iv, stat, parts);
    }
}

fn iv_parts(ivs: &[u8; 6]) -> ArrayVec<u8, 60>
    ensures { result.items ≡ iv_parts ivs.now }
{
    let mut parts = ArrayVec::new();
    add_iv(ivs[0], b"HP", &mut parts);
    add_iv(ivs[1], b"Atk", &mut parts);
    add_iv(ivs[2], b"Def", &mut parts);
    add_iv(ivs[3], b"SpA", &mut parts);
    add_iv(ivs[4], b"SpD", &mut parts);
    add_iv(ivs[5], b"Spe", &mut parts);
    parts
}

#[tactic(auto, using(crate::proofs::Parts::move_within))]
fn move_lines(moves: &[(MoveId, u8)]) -> ArrayVec<u8, 68>
    requires { length moves.now ≤ 4 }
    ensures { result.items ≡ ended (map move_line moves.now) }
{
    let mut lines = ArrayVec::new();
    for (id, _) in moves {
        add(b"- ", &mut lines);
        add(id.name().as_bytes(), &mut lines);
        add(b"\n", &mut lines);
    }
    lines
}
