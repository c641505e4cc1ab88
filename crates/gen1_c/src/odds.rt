//! The damage of a hit in the present state of a battle, the odds of a use of a move, and its chance to knock out
//! (include/gen1.h, "calculating"; docs/MECHANICS.md, "Critical hits" to "Hit test").
ghost use Rattle.std.specs.Prelude.{Err, IfErr, [], if◌then◌else◌, ◌∷◌, ◌≡◌, ◌≢◌, ◌≤◌};
ghost use Rattle.gen1_stats.specs.Teams.{team_of};
ghost use Rattle.gen1_machine.specs.Numbers.{side_number};
ghost use Rattle.gen1_machine.specs.State.{State};
ghost use Rattle.gen1_machine.specs.declared.side.Side.{Side};
ghost use Rattle.gen1_machine.specs.declared.side.Side.TheVariants.{One};
ghost use Rattle.gen1_layout.specs.Shows.{Stands};
ghost use Rattle.gen1_odds.specs.KnockOut.{AreChances, AreThree};
ghost use Rattle.gen1_odds.specs.Odds.{IsListed};
ghost use Rattle.gen1_c.specs.Odds.{Tells, TellsDamages, action_odds_due, between_fault, chances_due, damages_due, drained_due, facing, hit_test_due, odds_due, odds_of_state, recoil_due, three_chances_due, use_due};
ghost use Rattle.gen1_c.specs.Teams.{sheet_of};
ghost use Rattle.gen1_c.specs.Battle.{IsNoSide};

use crate::teams::{MemberForm, team_of_one};
use gen1_engine::packed::update_events;
use gen1_hits::{damage_list, has_usual_damage, numbers};
use gen1_layout::Packed;
use gen1_machine::{Choice, EventList, Side};
use gen1_odds::{
    ActionOdds, Between, Chances, Odds, ThreeChances, action_odds_of, drained, knock_out,
    knock_out_in_three, odds_of, recoil, takes_hit_test,
};
use gen1_stats::Team;
use gen1_tables::MoveId;

const NO_SIDE: u8 = 40;

const NO_MOVE: u8 = 11;

const NOBODY: u8 = 50;

const NO_SUCH_MOVE: u32 = 11;

const NOT_A_MOVE: u8 = 0;

/// Computes the odds of a move of a side, with both active members as they are now. Returns 0, or the first code that applies, as
/// `gen1_damage` returns it; then nothing has changed.
#[unsafe(no_mangle)]
pub extern "C" fn gen1_odds_now(battle: &Packed, side: u8, number: u8, odds: &mut Odds) -> u8
    ensures tells { (s : State) (which : Side) → Stands battle.now s → side ≡ side_number which
        → Tells (odds_due s.terms.rules which number s.field) odds.old odds.new result }
    ensures no_side { IsNoSide side → (result ≡ 40) × (odds.new ≡ odds.old) }
    // For any bytes, valid or not.
    ensures code { result ≢ 0 → result ≢ 11 → result ≢ 40 → result ≡ 50 }
    ensures kept { result ≢ 0 → odds.new ≡ odds.old }
    ensures within { result ≡ 0 → (odds.new.usual.count ≤ 39) × (odds.new.critical.count ≤ 39) }
    ensures draws { result ≡ 0 → (odds.new.critical_draws ≤ 255) × (odds.new.hit_draws ≤ 256) }
    ensures listed { result ≡ 0 → IsListed odds.new }
{
    match use_of(battle, side, number) {
        Ok(used) => {
            *odds = odds_of(battle, used.0, used.1);
            0
        }
        Err(code) => code,
    }
}

/// Computes the odds of the action by which a side uses a move in the turn that begins, with both active members as they are now.
/// Returns 0, or the first code that applies, as `gen1_damage` returns it; then nothing has changed.
#[unsafe(no_mangle)]
pub extern "C" fn gen1_action_odds_now(
    battle: &Packed,
    side: u8,
    number: u8,
    odds: &mut ActionOdds,
) -> u8
    ensures tells { (s : State) (which : Side) → Stands battle.now s → side ≡ side_number which
        → Tells (action_odds_due s.terms.rules which number s.field) odds.old odds.new result }
    ensures no_side { IsNoSide side → (result ≡ 40) × (odds.new ≡ odds.old) }
    // For any bytes, valid or not.
    ensures code { result ≢ 0 → result ≢ 11 → result ≢ 40 → result ≡ 50 }
    ensures kept { result ≢ 0 → odds.new ≡ odds.old }
    ensures counts { result ≡ 0 → (odds.new.acts ≤ odds.new.acts_of) × (odds.new.hits ≤ odds.new.hits_of) }
    ensures draws { result ≡ 0 → (odds.new.side_effect ≤ 256) × (odds.new.holds ≤ 256) }
{
    match use_of(battle, side, number) {
        Ok(used) => {
            *odds = action_odds_of(battle, used.0, used.1);
            0
        }
        Err(code) => code,
    }
}

/// Computes the chance that one use of a move of a side knocks out the foe's active member, or two uses in a row, with both as
/// they are now; against a substitute, the chance to break it. Returns 0, or the first code that applies, as `gen1_damage` returns
/// it; then nothing has changed.
#[unsafe(no_mangle)]
pub extern "C" fn gen1_knock_out(battle: &Packed, side: u8, number: u8, chances: &mut Chances) -> u8
    ensures tells { (s : State) (which : Side) → Stands battle.now s → side ≡ side_number which
        → Tells (chances_due s.terms.rules which number s.field) chances.old chances.new result }
    ensures no_side { IsNoSide side → (result ≡ 40) × (chances.new ≡ chances.old) }
    // For any bytes, valid or not.
    ensures code { result ≢ 0 → result ≢ 11 → result ≢ 40 → result ≡ 50 }
    ensures kept { result ≢ 0 → chances.new ≡ chances.old }
    ensures shape { result ≡ 0 → AreChances chances.new }
{
    match use_of(battle, side, number) {
        Ok(used) => {
            *chances = knock_out(battle, used.0, used.1);
            0
        }
        Err(code) => code,
    }
}

/// Computes the chance that one use of a move of a side knocks out the foe's active member, or two or three in a row, with both as
/// they are now and what happens to the foe's HP between the uses; against a substitute, the chance to break it. Returns 0, or the
/// first code that applies, as `gen1_damage` returns it; then nothing has changed.
#[unsafe(no_mangle)]
pub extern "C" fn gen1_knock_out_in_three(
    battle: &Packed,
    side: u8,
    number: u8,
    between: &Between,
    chances: &mut ThreeChances,
) -> u8
    ensures tells { (s : State) (which : Side) → Stands battle.now s → side ≡ side_number which
        → Tells (three_chances_due between.now s.terms.rules which number s.field) chances.old chances.new result }
    ensures no_side { IsNoSide side → (result ≡ 40) × (chances.new ≡ chances.old) }
    // For any bytes, valid or not.
    ensures code { result ≢ 0 → result ≢ 11 → result ≢ 40 → result ≡ 50 }
    ensures kept { result ≢ 0 → chances.new ≡ chances.old }
    ensures shape { result ≡ 0 → AreThree chances.new }
{
    match use_of(battle, side, number) {
        Ok(used) => {
            *chances = knock_out_in_three(battle, used.0, used.1, between);
            0
        }
        Err(code) => code,
    }
}

// The side and the move of a use; or the first code that applies.
fn use_of(battle: &Packed, side: u8, number: u8) -> Result<(Side, MoveId), u8>
    ensures due { (s : State) (which : Side) → Stands battle.now s → side ≡ side_number which
        → result ≡ use_due which number s.field }
    ensures no_side { IsNoSide side → result ≡ Err 40 }
    ensures some { IfErr result (λ code. code ≢ 0) }
    ensures listed { IfErr result (λ code. code ≢ 11 → code ≢ 40 → code ≡ 50) }
{
    let Some(side) = Side::from_number(side) else {
        return Err(NO_SIDE);
    };
    let Some(id) = MoveId::new(number) else {
        return Err(NO_MOVE);
    };
    if battle.turn() == 0 {
        return Err(NOBODY);
    }
    Ok((side, id))
}

/// Returns the HP that a damage of a move gives to its user (docs/MECHANICS.md, "Recoil, drain and explosion"): 0 if the move does
/// not drain, or if the number is not a move.
#[unsafe(no_mangle)]
pub extern "C" fn gen1_drained(number: u8, damage: u16) -> u16
    ensures { result ≡ drained_due number damage }
{
    match MoveId::new(number) {
        Some(id) => drained(id, damage),
        None => 0,
    }
}

/// Returns the HP that a damage of a move costs its user (docs/MECHANICS.md, "Recoil, drain and explosion"): 0 if the move has no
/// recoil, or if the number is not a move.
#[unsafe(no_mangle)]
pub extern "C" fn gen1_recoil(number: u8, damage: u16) -> u16
    ensures { result ≡ recoil_due number damage }
{
    match MoveId::new(number) {
        Some(id) => recoil(id, damage),
        None => 0,
    }
}

/// Computes the odds of a move of one member against another, both at full HP and just sent out. Returns 0, or an error as
/// `gen1_new` returns it for teams of one; for the move its code alone.
#[unsafe(no_mangle)]
pub extern "C" fn gen1_odds_between(
    user: &MemberForm,
    foe: &MemberForm,
    number: u8,
    odds: &mut Odds,
) -> u32
    ensures fault { result ≡ between_fault user.now foe.now number }
    ensures told { result ≡ 0 → odds.new ≡ odds_of_state One number
        (facing (team_of (sheet_of user.now ∷ [])) (team_of (sheet_of foe.now ∷ []))) }
    ensures kept { result ≢ 0 → odds.new ≡ odds.old }
{
    let Some(id) = MoveId::new(number) else {
        return NO_SUCH_MOVE;
    };
    let user = match team_of_one(user) {
        Ok(team) => team,
        Err(fault) => return 65536 + fault,
    };
    let foe = match team_of_one(foe) {
        Ok(team) => team,
        Err(fault) => return 131072 + fault,
    };
    *odds = odds_of(&sent_out(&user, &foe), Side::One, id);
    0
}

/// Returns whether a move takes the hit test (docs/MECHANICS.md, "Hit test"): 1 or 0; 0 if the number is not a move.
#[unsafe(no_mangle)]
pub extern "C" fn gen1_takes_hit_test(number: u8) -> u8
    ensures { result ≡ hit_test_due number }
{
    match MoveId::new(number) {
        Some(id) => flag_of(takes_hit_test(id)),
        None => NOT_A_MOVE,
    }
}

fn flag_of(holds: bool) -> u8
    ensures { result ≡ (if holds then 1 else 0) }
{
    if holds { 1 } else { 0 }
}

// A battle of two teams after its first update. That update draws nothing, so any seed will do.
fn sent_out(one: &Team, two: &Team) -> Packed
    ensures stands { Stands result (facing one.now two.now) }
    ensures out { (facing one.now two.now).field.turn ≢ 0 }
{
    let mut battle = Packed::new(one, two, [0; 10]);
    let mut events = EventList::new();
    // Both sides are offered Pass.
    let _result = update_events(&mut battle, Choice::Pass, Choice::Pass, &mut events);
    battle
}

const UNUSUAL: u8 = 48;

const DIVISOR: u8 = 49;

/// Computes the damage of a hit by a move of a side at each factor from 217 to 255, for both active members as they are now
/// (include/gen1.h, "calculating"; docs/MECHANICS.md, "Damage numbers" to "Factors"). Returns 0, or the first code that applies;
/// then the numbers have not changed.
#[unsafe(no_mangle)]
pub extern "C" fn gen1_damage(
    battle: &Packed,
    side: u8,
    number: u8,
    critical: bool,
    damages: &mut [u16; 39],
) -> u8
    ensures tells { (s : State) (which : Side) → Stands battle.now s → side ≡ side_number which
        → TellsDamages (damages_due which number critical s.field) damages.old damages.new result }
    ensures no_side { IsNoSide side → (result ≡ 40) × (damages.new ≡ damages.old) }
    // For any bytes, valid or not.
    ensures code { result ≢ 0 → result ≢ 11 → result ≢ 40 → (48 ≤ result) × (result ≤ 50) }
    ensures kept { result ≢ 0 → damages.new ≡ damages.old }
{
    let Some(side) = Side::from_number(side) else {
        return NO_SIDE;
    };
    let Some(id) = MoveId::new(number) else {
        return NO_MOVE;
    };
    if !has_usual_damage(id) {
        return UNUSUAL;
    }
    if battle.turn() == 0 {
        return NOBODY;
    }
    match damage_list(&numbers(battle, side, id, critical)) {
        Some(list) => {
            *damages = list;
            0
        }
        None => DIVISOR,
    }
}
