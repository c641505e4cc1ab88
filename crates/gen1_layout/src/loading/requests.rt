//! The test of turn, outcome, requests and living members together (docs/LAYOUT.md, "Turn, outcome and requests").
ghost use Rattle.std.specs.Prelude.{◌≡◌, ◌↔◌, IsTrue, length, slice_index};
ghost use Rattle.gen1_stats.specs.Members.{IsBetween};
ghost use Rattle.gen1_layout.specs.Loading.{member_bytes, word, PassesOfActives, PassesOfRequests, out_bytes, any_lives, lives, Asks, PassesAsked, PassesLater, PassesStart, PassesTie};

use crate::loading::{member_bytes, word};
use crate::offsets::{HP, LIMIT, OUTCOME, PLACE_IN_SIDE, REQUEST_ONE, REQUEST_TWO, TURN};

// Whether a battle asks for what fits its turn, its outcome and its living members.
pub(crate) fn pass(form: &[u8]) -> bool
    requires form { length form.now ≡ 384 }
    requires active { PassesOfActives form.now }
    ensures passes { IsTrue result ↔ PassesOfRequests form.now }
{
    let header = &form[..24];
    let one = &form[24..204];
    let two = &form[204..384];
    if word(header, TURN) == 0 {
        is_start(header, one, two)
    } else {
        is_later(header, one, two)
    }
}

// Whether a battle that has not begun asks for nothing, and the first members live.
fn is_start(header: &[u8], one: &[u8], two: &[u8]) -> bool
    requires header { length header.now ≡ 24 }
    requires one { length one.now ≡ 180 }
    requires two { length two.now ≡ 180 }
    ensures passes { IsTrue result ↔ PassesStart header.now one.now two.now }
{
    header[OUTCOME] == 0
        && asks(header, 0, 0)
        && lives(member_bytes(one, 1))
        && lives(member_bytes(two, 1))
}

fn is_later(header: &[u8], one: &[u8], two: &[u8]) -> bool
    requires header { length header.now ≡ 24 }
    requires one { length one.now ≡ 180 }
    requires two { length two.now ≡ 180 }
    requires out_one { IsBetween 1 6 (slice_index one.now 144) }
    requires out_two { IsBetween 1 6 (slice_index two.now 144) }
    ensures passes { IsTrue result ↔ PassesLater header.now one.now two.now }
{
    let (any_one, any_two) = (any_lives(one), any_lives(two));
    match header[OUTCOME] {
        0 => any_one && any_two && is_asked(out_lives(one), out_lives(two), header),
        1 => asks(header, 0, 0) && any_one && !any_two,
        2 => asks(header, 0, 0) && !any_one && any_two,
        3 => asks(header, 0, 0) && is_tie(any_one, any_two, header),
        _ => asks(header, 0, 0),
    }
}

// Whether the requests fit a battle that continues, by whether the two members that are out live.
fn is_asked(one: bool, two: bool, header: &[u8]) -> bool
    requires { length header.now ≡ 24 }
    ensures { IsTrue result ↔ PassesAsked one two header.now }
{
    let may_replace = word(header, TURN) < word(header, LIMIT);
    match (one, two) {
        (true, true) => asks(header, 1, 1),
        (false, true) => asks(header, 2, 0) && may_replace,
        (true, false) => asks(header, 0, 2) && may_replace,
        (false, false) => asks(header, 2, 2) && may_replace,
    }
}

fn is_tie(one: bool, two: bool, header: &[u8]) -> bool
    requires { length header.now ≡ 24 }
    ensures { IsTrue result ↔ PassesTie one two header.now }
{
    !one && !two || word(header, TURN) == word(header, LIMIT) && one && two
}

// Whether the two requests are these.
fn asks(header: &[u8], one: u8, two: u8) -> bool
    requires { length header.now ≡ 24 }
    ensures { IsTrue result ↔ Asks header.now one two }
{
    header[REQUEST_ONE] == one && header[REQUEST_TWO] == two
}

fn lives(member: &[u8]) -> bool
    requires { length member.now ≡ 24 }
    ensures { result ≡ lives member.now }
{
    word(member, HP) > 0
}

fn any_lives(side: &[u8]) -> bool
    requires { length side.now ≡ 180 }
    ensures { result ≡ any_lives side.now }
{
    lives(member_bytes(side, 1))
        || lives(member_bytes(side, 2))
        || lives(member_bytes(side, 3))
        || lives(member_bytes(side, 4))
        || lives(member_bytes(side, 5))
        || lives(member_bytes(side, 6))
}

// Whether the member that is out lives.
fn out_lives(side: &[u8]) -> bool
    requires side { length side.now ≡ 180 }
    requires place { IsBetween 1 6 (slice_index side.now 144) }
    ensures value { result ≡ lives (out_bytes side.now) }
{
    lives(member_bytes(side, side[PLACE_IN_SIDE]))
}
