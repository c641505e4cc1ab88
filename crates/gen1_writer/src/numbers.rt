//! Numbers and bytes that are put together: EVs and IVs as they are written (docs/TEAM_TEXT.md, "EVs and experience",
//! "IVs and DVs", "Writing").
ghost use Rattle.std.specs.Prelude.{[], decimal, length, ◌++◌, ◌+◌, ◌==◌, ◌∷◌, ◌≡◌, ◌≤◌};
ghost use Rattle.std.specs.List.{list_all};
ghost use Rattle.gen1_writer.specs.Export.{HasDvs, ev, evs_of, iv, ivs_of};
ghost use Rattle.arrayvec.specs.ArrayVec.{array_vec_len};

use arrayvec::ArrayVec;
use gen1_stats::MemberSpec;
use itoa::Buffer;

// The EVs of HP, Atk, Def, SpA, SpD and Spe.
pub(crate) fn evs_of(spec: &MemberSpec) -> [u8; 6]
    ensures { result ≡ evs_of spec.now }
{
    let [hp, attack, defense, speed, special] = spec.exp;
    [
        ev(hp),
        ev(attack),
        ev(defense),
        ev(special),
        ev(special),
        ev(speed),
    ]
}

// The root of an experience, at most 252: higher EVs give the same stats.
fn ev(exp: u16) -> u8
    ensures { result ≡ ev exp }
{
    for ev in 0..252u8 {
        if exp <= u16::from(ev) * u16::from(ev) {
            return ev;
        }
    }
    252
}

// The IVs of HP, Atk, Def, SpA, SpD and Spe.
pub(crate) fn ivs_of(spec: &MemberSpec) -> [u8; 6]
    requires { HasDvs spec.now }
    ensures { result ≡ ivs_of spec.now }
{
    let [attack, defense, speed, special] = spec.dvs;
    let hp = 8 * (attack % 2) + 4 * (defense % 2) + 2 * (speed % 2) + special % 2;
    [
        iv(hp),
        iv(attack),
        iv(defense),
        iv(special),
        iv(special),
        iv(speed),
    ]
}

fn iv(dv: u8) -> u8
    requires { dv ≤ 15 }
    ensures { result ≡ iv dv }
{
    if dv == 15 { 31 } else { 2 * dv }
}

// Whether all of six numbers are this one.
pub(crate) fn are_all(numbers: &[u8; 6], number: u8) -> bool
    ensures { result ≡ list_all (λ n. n == number) numbers.now }
{
    numbers.iter().all(|n| *n == number)
}

// Appends bytes. There must be room.
pub(crate) fn add<const SIZE: usize>(more: &[u8], text: &mut ArrayVec<u8, SIZE>)
    requires { array_vec_len text.old + length more.now ≤ SIZE }
    ensures items { text.new.items ≡ text.old.items ++ more.now }
    ensures len { array_vec_len text.new ≡ array_vec_len text.old + length more.now }
{
    let _fits = text.try_extend_from_slice(more);
}

// Appends the digits of a number. There must be room for three.
pub(crate) fn add_number<const SIZE: usize>(number: u8, text: &mut ArrayVec<u8, SIZE>)
    requires { array_vec_len text.old + 3 ≤ SIZE }
    ensures items { text.new.items ≡ text.old.items ++ decimal number }
    ensures len { array_vec_len text.new ≤ array_vec_len text.old + 3 }
{
    let mut digits = Buffer::new();
    add(digits.format(number).as_bytes(), text);
}

// Appends a part, after a separator if it is not the first. There must be room for both.
pub(crate) fn add_next<const SIZE: usize>(
    index: usize,
    separator: u8,
    part: &[u8],
    text: &mut ArrayVec<u8, SIZE>,
)
    requires { array_vec_len text.old + 1 + length part.now ≤ SIZE }
    ensures first { index ≡ 0 → text.new.items ≡ text.old.items ++ part.now }
    ensures later { 1 ≤ index → text.new.items ≡ text.old.items ++ separator ∷ [] ++ part.now }
    ensures len { array_vec_len text.new ≤ array_vec_len text.old + 1 + length part.now }
{
    if index == 0 {
        add(part, text);
    } else {
        add(&[separator], text);
        add(part, text);
    }
}
