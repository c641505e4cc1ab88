//! Reading a battle from bytes (docs/LAYOUT.md, "Loading", "The 384 bytes of a battle").
ghost use Rattle.std.specs.Prelude.{All, IfOk, IsOk, IsTrue, Some, length, ◌+◌, ◌↔◌, ◌≡◌, ◌≤◌};
ghost use Rattle.gen1_layout.specs.Loading.{IsLoadedAs, IsReadAs, active_bytes, long, member_bytes, number_of, word, words_of};
ghost use Rattle.gen1_layout.specs.LoadingLaws.{IsBattle, StandsForSome};

mod active;
mod header;
pub mod laws;
mod member;
mod requests;
mod stats;

use crate::Packed;
use crate::offsets::VERSION;
use byteorder::{ByteOrder, LittleEndian};
use std::error::Error;
use std::fmt;

/// Why bytes don't represent a battle (docs/LAYOUT.md, "Loading"): the first of the seven tests that fails.
#[derive(Clone, Copy, Debug, PartialEq, Eq)]
pub enum LoadFault {
    /// There aren't exactly 384 bytes.
    Length,
    /// The version of the layout isn't 1, 2 or 3.
    Version,
    /// A field of the header is out of its range.
    Header,
    /// A place for a member holds neither a member nor zeros, or a member comes after an empty place.
    Member,
    /// A field of an active block is out of its range.
    Active,
    /// A current stat doesn't come from the member's own stat and its stage.
    Stat,
    /// Turn, outcome, requests and living members don't fit together.
    Request,
}

impl LoadFault {
    /// The number of the test that failed, 1 to 7.
    pub fn number(self) -> u8
        ensures { result ≡ number_of self }
    {
        match self {
            LoadFault::Length => 1,
            LoadFault::Version => 2,
            LoadFault::Header => 3,
            LoadFault::Member => 4,
            LoadFault::Active => 5,
            LoadFault::Stat => 6,
            LoadFault::Request => 7,
        }
    }
}

impl fmt::Display for LoadFault {
    ghost output = { λ fault. Some (words_of fault) };

    fn fmt<W: fmt::Write>(&self, f: &mut fmt::Formatter<W>) -> fmt::Result {
        match self {
            LoadFault::Length => write!(f, "a battle has 384 bytes"),
            LoadFault::Version => write!(f, "the layout version is not 1, 2 or 3"),
            LoadFault::Header => write!(f, "a field of the header is out of its range"),
            LoadFault::Member => write!(f, "a place holds no valid member"),
            LoadFault::Active => write!(f, "a field of an active block is out of its range"),
            LoadFault::Stat => write!(f, "a current stat does not come from its stage"),
            LoadFault::Request => write!(
                f,
                "turn, outcome, requests and living members do not fit together"
            ),
        }
    }
}

impl Error for LoadFault {}

impl Packed {
    /// Reads a battle from bytes of any of the three versions (docs/LAYOUT.md, "Loading"). The result is in the form
    /// of version 3.
    ///
    /// # Errors
    ///
    /// The first of the seven tests that the bytes fail. They pass all of them exactly if they represent a valid
    /// state.
    pub fn read(bytes: &[u8]) -> Result<Packed, LoadFault>
        ensures tests { IsLoadedAs result bytes.now }
        ensures battle { IsOk result ↔ IsBattle bytes.now }
        ensures stands { IfOk result (λ loaded. StandsForSome loaded) }
    {
        Ok(Packed::of_bytes(form_of(bytes)?))
    }
}

// The form of version 3 of bytes that represent a valid state, or the first test that they fail.
#[tactic(auto, using(crate::proofs::LoadingForms::read_stands))]
fn form_of(bytes: &[u8]) -> Result<[u8; 384], LoadFault>
    ensures tests { IsReadAs result bytes.now }
    ensures battle { IsOk result ↔ IsBattle bytes.now }
{
    tested(bytes)
}

// The seven tests in order.
fn tested(bytes: &[u8]) -> Result<[u8; 384], LoadFault>
    ensures { IsReadAs result bytes.now }
{
    if bytes.len() != 384 {
        return Err(LoadFault::Length);
    }
    if !header::has_version(bytes[VERSION]) {
        return Err(LoadFault::Version);
    }
    let form = header::version_three(bytes);
    if !header::pass(bytes, &form) {
        return Err(LoadFault::Header);
    }
    if !member::pass(&form) {
        return Err(LoadFault::Member);
    }
    if !active::pass(&form) {
        return Err(LoadFault::Active);
    }
    if !stats::pass(&form) {
        return Err(LoadFault::Stat);
    }
    if !requests::pass(&form) {
        return Err(LoadFault::Request);
    }
    Ok(form)
}

// The number of two bytes, the low one first.
pub(crate) fn word(bytes: &[u8], at: usize) -> u16
    requires { at + 2 ≤ length bytes.now }
    ensures { result ≡ word bytes.now at }
{
    LittleEndian::read_u16(&bytes[at..at + 2])
}

// The number of four bytes, the lowest first.
pub(crate) fn long(bytes: &[u8], at: usize) -> u32
    requires { at + 4 ≤ length bytes.now }
    ensures { result ≡ long bytes.now at }
{
    LittleEndian::read_u32(&bytes[at..at + 4])
}

// The bytes of the place for a member, 1 to 6.
pub(crate) fn member_bytes(side: &[u8], place: u8) -> &[u8]
    requires side { length side.now ≡ 180 }
    requires first { 1 ≤ place }
    requires last { place ≤ 6 }
    ensures value { result.now ≡ member_bytes place side.now }
    ensures len { length result.now ≡ 24 }
{
    let start = 24 * (place as usize - 1);
    &side[start..start + 24]
}

// The bytes of the active block.
pub(crate) fn active_bytes(side: &[u8]) -> &[u8]
    requires side { length side.now ≡ 180 }
    ensures value { result.now ≡ active_bytes side.now }
    ensures len { length result.now ≡ 36 }
{
    &side[144..180]
}

// Whether all bytes are 0.
pub(crate) fn are_zero(bytes: &[u8]) -> bool
    ensures { IsTrue result ↔ All (λ byte. byte ≡ 0) bytes.now }
{
    bytes.iter().all(|byte| *byte == 0)
}
