//! The tests of the version and the header (docs/LAYOUT.md, "Header", "Versions 1 and 2").
ghost use Rattle.std.specs.Prelude.{◌≡◌, ◌↔◌, IsTrue, length};
ghost use Rattle.gen1_stats.specs.Members.{IsBetween};
ghost use Rattle.gen1_layout.specs.Loading.{header_of, version_three, PassesHeader, PassesVersion};

use crate::loading::word;
use crate::offsets::{INDEX, LIMIT, OUTCOME, REQUEST_ONE, REQUEST_TWO, RULES, TURN, VERSION};

// Whether the version exists.
pub(crate) fn has_version(version: u8) -> bool
    ensures { IsTrue result ↔ IsBetween 1 3 version }
{
    (1..=3).contains(&version)
}

// Whether the bytes keep to their version, and the header of their form of version 3 to its ranges.
pub(crate) fn pass(bytes: &[u8], form: &[u8]) -> bool
    requires bytes { length bytes.now ≡ 384 }
    requires form { length form.now ≡ 384 }
    ensures passes { IsTrue result ↔ (PassesVersion bytes.now × PassesHeader (header_of form.now)) }
{
    keeps_version(bytes) && is_header(&form[..24])
}

// Whether bytes that a version doesn't use are zeros.
fn keeps_version(bytes: &[u8]) -> bool
    requires { length bytes.now ≡ 384 }
    ensures { IsTrue result ↔ PassesVersion bytes.now }
{
    match bytes[VERSION] {
        1 => bytes[RULES] == 0 && word(bytes, LIMIT) == 0,
        0 | 2 => word(bytes, LIMIT) == 0,
        _ => true,
    }
}

// The bytes in the form of version 3. A battle of an older version has a limit of 1,000 turns.
pub(crate) fn version_three(bytes: &[u8]) -> [u8; 384]
    requires { length bytes.now ≡ 384 }
    ensures { result ≡ version_three bytes.now }
{
    let mut form = [0; 384];
    form.copy_from_slice(bytes);
    if form[VERSION] != 3 {
        form[VERSION] = 3;
        let [low, high] = 1000u16.to_le_bytes();
        form[LIMIT] = low;
        form[LIMIT + 1] = high;
    }
    form
}

// Whether the fields of a header are in their ranges.
fn is_header(header: &[u8]) -> bool
    requires { length header.now ≡ 24 }
    ensures { IsTrue result ↔ PassesHeader header.now }
{
    let limit = word(header, LIMIT);
    (1..=9999).contains(&limit)
        && word(header, TURN) <= limit
        && header[INDEX] <= 8
        && header[OUTCOME] <= 5
        && header[REQUEST_ONE] <= 2
        && header[REQUEST_TWO] <= 2
        && header[RULES] <= 3
        && word(header, LIMIT + 2) == 0
}
