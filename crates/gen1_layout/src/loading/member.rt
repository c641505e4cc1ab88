//! The test of the places for members (docs/LAYOUT.md, "Member").
ghost use Rattle.std.specs.Prelude.{◌≡◌, ◌≢◌, ◌↔◌, ◌≤◌, All, IsTrue, length};
ghost use Rattle.gen1_stats.specs.Members.{IsBetween};
ghost use Rattle.gen1_layout.specs.Loading.{member_bytes, PassesOfMembers, may_be_known, status_fits, PassesMember, PassesMembers, PassesMoves, PassesNumbers, PassesOwnStats, PassesPlace, PassesSlot, PassesStatus};

use crate::loading::{are_zero, member_bytes, word};
use crate::offsets::{
    ATTACK, BEFORE_MOVES, BEFORE_PP, DEFENSE, HP, LEVEL, MARK, MAX_HP, MOVES, RULES, SPECIAL,
    SPECIES, SPEED, STATUS,
};
use gen1_tables::{Effect, MoveId};

// Whether both sides have valid members.
pub(crate) fn pass(form: &[u8]) -> bool
    requires { length form.now ≡ 384 }
    ensures { IsTrue result ↔ PassesOfMembers form.now }
{
    are_members(&form[24..204], form[RULES]) && are_members(&form[204..384], form[RULES])
}

// Whether the six places hold members first, and zeros after the last one.
fn are_members(side: &[u8], rules: u8) -> bool
    requires { length side.now ≡ 180 }
    ensures { IsTrue result ↔ PassesMembers rules side.now }
{
    if !is_member(member_bytes(side, 1), rules) {
        return false;
    }
    'places: for place in 2..7 {
        if !is_place(
            member_bytes(side, place - 1),
            member_bytes(side, place),
            rules,
        ) {
            return false;
        }
    }
    true
}

// Whether a place holds zeros, or a member whose place before holds a member too.
fn is_place(before: &[u8], block: &[u8], rules: u8) -> bool
    requires before { length before.now ≡ 24 }
    requires block { length block.now ≡ 24 }
    ensures passes { IsTrue result ↔ PassesPlace rules before.now block.now }
{
    are_zero(block) || before[SPECIES] != 0 && is_member(block, rules)
}

fn is_member(block: &[u8], rules: u8) -> bool
    requires { length block.now ≡ 24 }
    ensures { IsTrue result ↔ PassesMember rules block.now }
{
    has_numbers(block) && has_stats(block) && has_status(block, rules) && has_moves(block)
}

fn has_numbers(block: &[u8]) -> bool
    requires { length block.now ≡ 24 }
    ensures { IsTrue result ↔ PassesNumbers block.now }
{
    let max = word(block, MAX_HP);
    (1..=151).contains(&block[SPECIES])
        && (1..=100).contains(&block[LEVEL])
        && (11..=999).contains(&max)
        && word(block, HP) <= max
}

fn has_stats(block: &[u8]) -> bool
    requires { length block.now ≡ 24 }
    ensures { IsTrue result ↔ PassesOwnStats block.now }
{
    is_stat(word(block, ATTACK))
        && is_stat(word(block, DEFENSE))
        && is_stat(word(block, SPEED))
        && is_stat(word(block, SPECIAL))
}

fn is_stat(number: u16) -> bool
    ensures { IsTrue result ↔ IsBetween 5 999 number }
{
    (5..=999).contains(&number)
}

fn has_status(block: &[u8], rules: u8) -> bool
    requires { length block.now ≡ 24 }
    ensures { IsTrue result ↔ PassesStatus rules block.now }
{
    let status = block[STATUS];
    let may_be_marked = rules % 2 == 1 && (1..=7).contains(&status);
    is_status(status)
        && (word(block, HP) > 0 || status == 0)
        && (block[MARK] == 0 || block[MARK] == 1 && may_be_marked)
}

fn is_status(byte: u8) -> bool
    ensures { result ≡ status_fits byte }
{
    byte <= 8 || byte == 16 || byte == 32 || byte == 64
}

fn has_moves(block: &[u8]) -> bool
    requires { length block.now ≡ 24 }
    ensures { IsTrue result ↔ PassesMoves block.now }
{
    block[MOVES] != 0
        && is_slot(block, 1)
        && is_slot(block, 2)
        && is_slot(block, 3)
        && is_slot(block, 4)
}

// Whether a slot is empty, or holds a move after slots with other moves.
fn is_slot(block: &[u8], slot: u8) -> bool
    requires block { length block.now ≡ 24 }
    requires first { 1 ≤ slot }
    requires last { slot ≤ 4 }
    ensures passes { IsTrue result ↔ PassesSlot slot block.now }
{
    let slot = slot as usize;
    let (id, pp) = (block[BEFORE_MOVES + slot], block[BEFORE_PP + slot]);
    if id == 0 {
        return pp == 0;
    }
    may_be_known(id) && pp <= 63 && come_before(&block[MOVES..BEFORE_MOVES + slot], id)
}

// Whether all slots before hold a move, and none of them this one.
fn come_before(earlier: &[u8], id: u8) -> bool
    ensures { IsTrue result ↔ All (λ other. (other ≢ 0) × (other ≢ id)) earlier.now }
{
    earlier.iter().all(|other| *other != 0 && *other != id)
}

// Whether a member may know the move with a number.
fn may_be_known(id: u8) -> bool
    ensures { result ≡ may_be_known id }
{
    match MoveId::new(id) {
        Some(known) => id <= 164 && known.effect() != Effect::LeftOut,
        None => false,
    }
}
