//! A guess of what a player can't know, whether it fits what the player knows, and why it does not (docs/MECHANICS.md, "A
//! battle that fits").
ghost use Rattle.std.specs.Prelude.{◌<◌, ◌≡◌};
ghost use Rattle.gen1_guesses.specs.Forks.{allows_max, at_index, id_in, knows, tested, tested_count, tested_going, tested_hp, tested_member, tested_members, tested_use, tested_uses};

use crate::members::{hp_of, member_at};
use gen1_machine::Health;
use gen1_player::{HpForm, Player, PublicSide, Seen};
use gen1_states::{MemberState, StateFault};
use gen1_stats::Team;

/// A guess of what a player can't know.
#[derive(Debug, Clone, PartialEq, Eq, Drop)]
pub struct Guess {
    /// The foe's team: first the members that have appeared, in the order in which they did, then the others.
    pub team: Team,
    /// The ten link numbers; the first of them is drawn next.
    pub numbers: [u8; 10],
}

/// Why a guess does not fit what a player knows.
#[derive(Clone, Copy, Debug, PartialEq, Eq)]
pub enum GuessFault {
    /// The battle has not begun, or it is over, or the player is of no side.
    NotGoingOn,
    /// The player knows that the foe has this many members, and the guess has another number of them.
    Count(u8),
    /// The member that appeared with this number, from 1, has another species or level in the guess, or is not in it.
    Member(u8),
    /// The member that appeared with this number can't have the reported HP, with the maximum HP of the guess.
    Hp(u8),
    /// The member that appeared with this number was seen to use the move with the second number, and doesn't know it in the guess.
    Move(u8, u8),
    /// The resulting state is not that of a battle.
    State(StateFault),
}

// The number of Struggle, which every member may use.
const STRUGGLE: u8 = 165;

/// The first fact that does not fit, of a guess with so many members, which are `fresh`.
#[tactic(auto, unfolding(crate::specs::Forks::tested))]
pub(crate) fn test(
    player: &Player,
    foe: &PublicSide,
    count: u8,
    fresh: &[MemberState; 6],
) -> Result<(), GuessFault>
    ensures { result ≡ tested player.now foe.now count fresh.now }
{
    test_going(player, foe)?;
    test_count(player.foes, count)?;
    test_members(player.hp_form, &foe.members, fresh)?;
    test_use(foe.place, foe.last_move, &member_at(foe.place, fresh))
}

// Both sides have a member out, and the battle is not over.
fn test_going(player: &Player, foe: &PublicSide) -> Result<(), GuessFault>
    ensures { result ≡ tested_going player.now foe.now }
{
    let is_out = player.own.place != 0 && foe.place != 0;
    let goes_on = player.own.outcome == 0 && player.public.outcome == 0;
    if is_out && goes_on {
        Ok(())
    } else {
        Err(GuessFault::NotGoingOn)
    }
}

// The foe has as many members as the player knows, if it does.
fn test_count(known: u8, count: u8) -> Result<(), GuessFault>
    ensures { result ≡ tested_count known count }
{
    if known == 0 || known == count {
        Ok(())
    } else {
        Err(GuessFault::Count(known))
    }
}

#[tactic(auto, unfolding(crate::specs::Forks::tested_members))]
fn test_members(form: u8, seen: &[Seen; 6], fresh: &[MemberState; 6]) -> Result<(), GuessFault>
    ensures { result ≡ tested_members form seen.now fresh.now }
{
    test_at(form, 0, seen, fresh, 1)?;
    test_at(form, 1, seen, fresh, 2)?;
    test_at(form, 2, seen, fresh, 3)?;
    test_at(form, 3, seen, fresh, 4)?;
    test_at(form, 4, seen, fresh, 5)?;
    test_at(form, 5, seen, fresh, 6)
}

fn test_at(
    form: u8,
    index: usize,
    seen: &[Seen; 6],
    fresh: &[MemberState; 6],
    number: u8,
) -> Result<(), GuessFault>
    requires { index < 6 }
    ensures { result ≡ at_index form index seen.now fresh.now number }
{
    test_member(form, number, &seen[index], &fresh[index])
}

// A member that has appeared is the one of the guess, which can have the reported HP.
fn test_member(form: u8, number: u8, seen: &Seen, fresh: &MemberState) -> Result<(), GuessFault>
    ensures { result ≡ tested_member form number seen.now fresh.now }
{
    if seen.species == 0 {
        Ok(())
    } else if seen.species == fresh.species && seen.level == fresh.level {
        test_hp(form, number, seen, fresh)?;
        test_uses(number, seen, fresh)
    } else {
        Err(GuessFault::Member(number))
    }
}

fn test_hp(form: u8, number: u8, seen: &Seen, fresh: &MemberState) -> Result<(), GuessFault>
    ensures { result ≡ tested_hp form number seen.now fresh.now }
{
    if allows_max(form, seen, fresh.max_hp) {
        Ok(())
    } else {
        Err(GuessFault::Hp(number))
    }
}

/// Returns whether the reported HP of a member, in the form with a number, allow a maximum: whether its HP in a battle that fits are reported
/// so. Where they are not, no HP of this maximum are (`forks_tell_hp`).
pub fn allows_max(form: u8, seen: &Seen, most: u16) -> bool
    ensures { result ≡ allows_max form seen.now most }
{
    match Health::new(hp_of(seen.hp, seen.max, most), most, None) {
        Some(health) => {
            let told = HpForm::of_number(form).tell(health);
            told.hp() == seen.hp && told.max() == seen.max
        }
        None => false,
    }
}

// It knows the moves that it was seen to prepare or to use.
#[tactic(auto, unfolding(crate::specs::Forks::tested_uses))]
fn test_uses(number: u8, seen: &Seen, fresh: &MemberState) -> Result<(), GuessFault>
    ensures { result ≡ tested_uses number seen.now fresh.now }
{
    test_use(number, id_in(0, seen), fresh)?;
    test_use(number, id_in(1, seen), fresh)?;
    test_use(number, id_in(2, seen), fresh)?;
    test_use(number, id_in(3, seen), fresh)?;
    test_use(number, id_in(4, seen), fresh)
}

fn id_in(index: usize, seen: &Seen) -> u8
    requires { index < 5 }
    ensures { result ≡ id_in index seen.now }
{
    seen.moves[index].id
}

fn test_use(number: u8, id: u8, fresh: &MemberState) -> Result<(), GuessFault>
    ensures { result ≡ tested_use number id fresh.now }
{
    if id == 0 || id == STRUGGLE || knows(id, fresh) {
        Ok(())
    } else {
        Err(GuessFault::Move(number, id))
    }
}

fn knows(id: u8, fresh: &MemberState) -> bool
    ensures { result ≡ knows id fresh.now }
{
    let ids = &fresh.moves;
    ids[0] == id || ids[1] == id || ids[2] == id || ids[3] == id
}
