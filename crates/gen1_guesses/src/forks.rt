//! The battle that fits what a player knows, and its state (docs/MECHANICS.md, "A battle that fits").
ghost use Rattle.std.specs.Prelude.{IfErr, IfOk, IsErr, IsOk, Err, Ok, length, ◌↔◌, ◌≡◌, ◌≤◌};
ghost use Rattle.gen1_layout.specs.LoadingLaws.{IsBattle, StandsForSome};
ghost use Rattle.gen1_layout.specs.Parts.{parts_of};
ghost use Rattle.gen1_states.specs.Plain.{bytes_of};
ghost use Rattle.gen1_states.specs.Tests.{completed, fault_of};
ghost use Rattle.gen1_guesses.specs.Forks.{ForksAgree, ForksTellHp, TrueHpFits, foe_part, foe_request, forked, guessed_for, guessed_state, in_order, own_part, side_of};
ghost use Rattle.gen1_guesses.specs.declared.guess.GuessFault.TheVariants as faults;

use crate::active::{active_state, foe_known, is_on, own_known};
use crate::guess::{Guess, GuessFault, test};
use crate::members::{fresh_members, member_at, members_of, own_members};
use gen1_layout::Packed;
use gen1_machine::Side;
use gen1_player::{OwnSide, Player, PublicSide};
use gen1_states::{BattleState, MemberState, SideState, from_state};

// What a side is asked for.
const NOTHING: u8 = 0;

const A_MOVE: u8 = 1;

const A_SWITCH: u8 = 2;

/// Makes a battle that fits what a player knows, with a guess of the rest (docs/MECHANICS.md, "A battle that fits"). It takes any
/// bytes of a player.
///
/// # Errors
///
/// The first [`GuessFault`] that applies.
pub fn from_player(player: &Player, guess: &Guess) -> Result<Packed, GuessFault>
    ensures battle { IfOk result (λ battle. StandsForSome battle) }
    ensures made { IfOk result (λ battle. IfOk (guessed_state player.now guess.now)
        (λ state. battle ≡ parts_of (bytes_of (completed state)))) }
    ensures accepts { IfOk (guessed_state player.now guess.now)
        (λ state. IsOk result ↔ IsBattle (bytes_of (completed state))) }
    ensures state { IfOk (guessed_state player.now guess.now)
        (λ state. IfErr result (λ fault. fault ≡ faults.State (fault_of (completed state)))) }
    ensures unfit { IfErr (guessed_state player.now guess.now) (λ fault. result ≡ Err fault) }
{
    let state = guessed_state(player, guess)?;
    match from_state(&state) {
        Ok(battle) => Ok(battle),
        Err(fault) => Err(GuessFault::State(fault)),
    }
}

/// The state of that battle, in which current stats of zeros are to be computed. It may be that of no battle.
///
/// # Errors
///
/// The first [`GuessFault`] that applies, but none of the state.
pub fn guessed_state(player: &Player, guess: &Guess) -> Result<BattleState, GuessFault>
    ensures { result ≡ guessed_state player.now guess.now }
{
    match side_of(player.side) {
        Some(side) => guessed_for(player, side, guess),
        None => Err(GuessFault::NotGoingOn),
    }
}

fn guessed_for(player: &Player, side: Side, guess: &Guess) -> Result<BattleState, GuessFault>
    ensures { result ≡ guessed_for side player.now guess.now }
{
    let members = guess.team.members();
    let fresh = fresh_members(members);
    let foe = player.public.side(side.other());
    match test(player, foe, members.len() as u8, &fresh) {
        Ok(()) => Ok(forked(player, side, guess, &fresh)),
        Err(fault) => Err(fault),
    }
}

fn side_of(number: u8) -> Option<Side>
    ensures { result ≡ side_of number }
{
    match number {
        1 => Some(Side::One),
        2 => Some(Side::Two),
        _ => None,
    }
}

// The state of a battle in which the foe's members are `fresh` where nothing is known of them.
fn forked(player: &Player, side: Side, guess: &Guess, fresh: &[MemberState; 6]) -> BattleState
    ensures { result ≡ forked side player.now guess.now fresh.now }
{
    let clause = player.rules % 2 == 1;
    let own = own_part(clause, &player.own, player.public.side(side));
    let foe = foe_part(
        clause,
        player.public.side(side.other()),
        is_on(player.own.held),
        fresh,
    );
    let asked = foe_request(player.own.request, &foe);
    let (sides, requests) = in_order(side, own, player.own.request, foe, asked);
    BattleState {
        sides,
        turn: player.own.turn,
        limit: player.limit,
        last_damage: 0,
        rules: player.rules,
        outcome: 0,
        requests,
        index: 0,
        numbers: guess.numbers,
    }
}

#[tactic(auto, unfolding(crate::specs::Forks::own_part))]
fn own_part(clause: bool, own: &OwnSide, public: &PublicSide) -> SideState
    ensures { result ≡ own_part clause own.now public.now }
{
    let members = own_members(clause, &public.members, &own.members);
    let known = own_known(own, public);
    let active = active_state(&known, &member_at(own.place, &members));
    SideState { members, active }
}

#[tactic(auto, unfolding(crate::specs::Forks::foe_part))]
fn foe_part(clause: bool, foe: &PublicSide, held: bool, fresh: &[MemberState; 6]) -> SideState
    ensures { result ≡ foe_part clause foe.now held fresh.now }
{
    let members = members_of(clause, &foe.members, fresh);
    let out = member_at(foe.place, &members);
    let active = active_state(&foe_known(foe, held, &out), &out);
    SideState { members, active }
}

// A side is asked for a move if the other is, and for a switch if its member has fallen.
#[tactic(auto, unfolding(crate::specs::Forks::foe_request))]
fn foe_request(request: u8, foe: &SideState) -> u8
    ensures { result ≡ foe_request request foe.now }
{
    if request == A_MOVE {
        A_MOVE
    } else if member_at(foe.active.place, &foe.members).hp == 0 {
        A_SWITCH
    } else {
        NOTHING
    }
}

// Both sides and their requests, that of side 1 first.
#[tactic(auto, unfolding(crate::specs::Forks::in_order))]
fn in_order(
    side: Side,
    own: SideState,
    request: u8,
    foe: SideState,
    asked: u8,
) -> ([SideState; 2], [u8; 2])
    ensures { result ≡ in_order side own request foe asked }
{
    match side {
        Side::One => ([own, foe], [request, asked]),
        Side::Two => ([foe, own], [asked, request]),
    }
}

/// In a battle that fits, the foe's HP have the numbers that the player learned, if any HP of the guess's maximum do.
#[tactic(auto, using(crate::proofs::KnownFoes::forks_tell_hp))]
pub fn forks_tell_hp()
    ensures { ForksTellHp }
{}

/// After any run from the start, no guess that has the true maximum HP of a member is refused for its HP.
#[tactic(auto, using(crate::proofs::Agreeing::true_hp_fits))]
pub fn true_hp_fits()
    ensures { TrueHpFits }
{}

/// After any run from the start, a battle that fits a side's player has the battle's rules and limit, and shows the side the same of itself;
/// what the player holds as public agrees with it, as the five `.._agree` of gen1_player say of a run.
pub fn forks_agree()
    ensures { ForksAgree }
{}
