//! A turn up to its second action, and the rest of it; an update whose draws come from any generator (docs/MECHANICS.md,
//! "Order of a turn", "Falls and requests").
ghost use Rattle.std.specs.Prelude.{[], false, true, ◌≡◌};
ghost use Rattle.gen1_rolls.specs.Draws.{Steps, StepsTo};
ghost use Rattle.gen1_machine.specs.Falls.{close};
ghost use Rattle.gen1_machine.specs.Ruling.{ruling_of};
ghost use Rattle.gen1_machine.specs.Step.{close_update};
ghost use Rattle.gen1_machine.specs.Turn.{end_turn, is_cut, of_side};
ghost use Rattle.gen1_machine.specs.State.{State};
ghost use Rattle.gen1_layout.specs.Words.{AddsAtMost, Bool, Frame, HasRoom, Progress, Reads, ReadsPacked, Shows};
ghost use Rattle.gen1_layout.specs.Operations.{DoesAnyway, between, scene};
ghost use Rattle.gen1_layout.specs.Shows.{Stands};
ghost use Rattle.gen1_turn.specs.TwoParts.{RollsDamage};
ghost use Rattle.gen1_engine.specs.Update.{AreOffered};
ghost use Rattle.gen1_outcomes.specs.Listing.{PlaysRoll, untold};
ghost use Rattle.gen1_outcomes.specs.Beginning.{BeginsTurn, EndsUpdate, LeadsTo, asks_for_move, have_two_actions, is_move};
ghost use Rattle.gen1_outcomes.specs.Plain.{Plays};

use gen1_events::{EventSink, Silent};
use gen1_hits::Known;
use gen1_layout::Packed;
use gen1_machine::{Choice, Pick, Request, Side};
use gen1_rolls::Rolls;
use gen1_status::pick;
use gen1_switching::{close, close_uncut, replace, start};
use gen1_turn::{
    Acted, Roll, act_after_test, act_and_suffer_as, act_to_roll, end_flinch, end_turn, first_side,
    roll_damage_of, set_picked, test_hit, turn,
};

/// What the rest of an update from its second action on depends on besides the bytes of the battle and its draws.
#[derive(Clone, Copy, PartialEq, Eq, Debug, Drop)]
pub struct Rest {
    /// The side that acts second.
    pub second: Side,
    /// What it has picked.
    pub pick: Pick,
    /// Its action is skipped, because it was asleep or frozen when Haze was used.
    pub skips: bool,
    /// The update is closed: the turn was cut before its action, or the action was played.
    pub is_cut: bool,
}

/// What is left of an update at a position, besides the bytes of the battle.
#[derive(Clone, Copy, PartialEq, Eq, Debug, Drop)]
pub enum Left {
    /// The second action, and the close of the update.
    Second(Rest),
    /// The action of a side, the second one, from the roll of its damage on, and the close.
    Roll(Side, Roll),
}

/// Whether both sides use a move, so that the update has two actions.
pub(crate) fn have_two_actions(battle: &Packed, one: &Choice, two: &Choice) -> bool
    ensures packs { ReadsPacked battle.now result (have_two_actions one.now two.now) }
    ensures stands { Reads battle.now result (have_two_actions one.now two.now) }
{
    asks_for_move(battle.request(Side::One)) && is_move(one) && is_move(two)
}

fn asks_for_move(request: Request) -> bool
    ensures { result ≡ asks_for_move request }
{
    match request {
        Request::Move => true,
        _ => false,
    }
}

fn is_move(choice: &Choice) -> bool
    ensures { result ≡ is_move choice.now }
{
    match choice {
        Choice::Move(_) => true,
        _ => false,
    }
}

/// Plays a turn in which both sides use a move, up to the second action. If the turn is cut there, the update is closed.
pub(crate) fn begin<R: Rolls>(battle: &mut Packed, one: Choice, two: Choice, random: &mut R) -> Rest
    ensures begins { BeginsTurn R.drawing random battle one two result }
    ensures steps { Steps R.drawing random }
{
    end_flinch(battle, Side::One);
    end_flinch(battle, Side::Two);
    let mine = pick(battle, Side::One, one);
    let others = pick(battle, Side::Two, two);
    set_picked(battle, Side::One, mine);
    set_picked(battle, Side::Two, others);
    let mut known = Known::new();
    let first = first_side(battle, random);
    let picked = of_side(first, mine, others);
    let is_cut = act_and_suffer_as(battle, first, picked, &mut known, random, &mut Silent);
    close_if(is_cut, battle, known.side);
    let second = first.other();
    Rest {
        second,
        pick: of_side(second, mine, others),
        skips: known.skips,
        is_cut,
    }
}

// Closes an update whose turn is cut. `actor` acted last.
fn close_if(is_cut: bool, battle: &mut Packed, actor: Side)
    ensures closes { is_cut ≡ true → DoesAnyway (λ g p Then. g.action.side ≡ actor → Then)
        (between battle.old untold battle.new untold) (λ r p. close r p.field.outcome p) }
    ensures still { is_cut ≡ false → battle.new ≡ battle.old }
{
    if is_cut {
        close(battle, actor, &mut Silent);
    }
}

fn of_side(side: Side, one: Pick, two: Pick) -> Pick
    ensures { result ≡ of_side side one two }
{
    match side {
        Side::One => one,
        Side::Two => two,
    }
}

/// Plays the second action of an update up to the roll of its damage. If no damage of 2 or more is rolled, it plays the whole rest of the
/// update, and nothing is left.
pub(crate) fn lead<R: Rolls>(battle: &mut Packed, rest: Rest, random: &mut R) -> Left
    ensures leads { LeadsTo R.drawing random battle rest result }
    ensures steps { Steps R.drawing random }
{
    if rest.is_cut {
        return Left::Second(rest);
    }
    let mut known = Known {
        skips: rest.skips,
        ..Known::new()
    };
    let acted = act_to_roll(
        battle,
        rest.second,
        rest.pick,
        &mut known,
        random,
        &mut Silent,
    );
    match acted {
        Acted::Rolls(roll) => Left::Roll(rest.second, roll),
        Acted::Ended(falls) => {
            close_turn(battle, falls, known.side);
            Left::Second(Rest {
                is_cut: true,
                ..rest
            })
        }
    }
}

/// Plays the rest of an update from the roll of the damage of its second action on: this action, with its hit test before the roll, and the
/// close. A miss rolls no damage.
pub(crate) fn end_roll<R: Rolls>(battle: &mut Packed, side: Side, roll: Roll, random: &mut R)
    ensures plays { PlaysRoll R.drawing random.old random.new battle.old battle.new side roll }
    ensures steps { Steps R.drawing random }
{
    let id = roll.id;
    let tested = Roll {
        id,
        damage: roll.damage,
        going_on: roll.going_on,
        critical: roll.critical,
    };
    let mut known = Known::new();
    test_hit(battle, side, tested, &mut known, random);
    roll_unless_missed(known.missed, battle, side, roll, random);
    let falls = act_after_test(battle, side, id, &mut known, random, &mut Silent);
    close_turn(battle, falls, known.side);
}

// Rolls the damage of an action whose hit test was before, if it hit.
fn roll_unless_missed<R: Rolls>(
    missed: bool,
    battle: &mut Packed,
    side: Side,
    roll: Roll,
    random: &mut R,
)
    ensures rolls { missed ≡ false → RollsDamage R.drawing random side roll battle }
    ensures same { missed ≡ true → battle.new ≡ battle.old }
    ensures still { missed ≡ true → random.new ≡ random.old }
    ensures steps { Steps R.drawing random }
{
    if !missed {
        roll_damage_of(battle, side, roll, random);
    }
}

/// Plays the rest of an update from its second action on: this action, and the close. Nothing is left if the update is closed.
pub(crate) fn end_second<R: Rolls>(battle: &mut Packed, rest: Rest, random: &mut R)
    ensures ends { EndsUpdate R.drawing random battle rest }
    ensures steps { Steps R.drawing random }
{
    if rest.is_cut {
        return;
    }
    let mut known = Known {
        skips: rest.skips,
        ..Known::new()
    };
    let falls = act_and_suffer_as(
        battle,
        rest.second,
        rest.pick,
        &mut known,
        random,
        &mut Silent,
    );
    close_turn(battle, falls, known.side);
}

// The close of an update after its second action and the residual damage. If the rest of the turn isn't skipped, the turn ends before.
// `actor` acted last.
fn close_turn(battle: &mut Packed, falls: bool, actor: Side)
    ensures cut { falls ≡ true → (g : Frame) (p : Progress) (stopped : Bool)
        → g.action.side ≡ actor → Shows g battle.old untold stopped p
        → (ends : Bool) × Shows g battle.new untold ends
        (close_update (ruling_of g.setting.terms) p) }
    ensures whole { falls ≡ false → (g : Frame) (p : Progress) → is_cut p ≡ false
        → Shows g battle.old untold false p
        → (ends : Bool) × Shows g battle.new untold ends
        (close_update (ruling_of g.setting.terms) (end_turn p)) }
{
    if falls {
        close(battle, actor, &mut Silent);
        return;
    }
    end_turn(battle);
    close_uncut(battle, &mut Silent);
}

/// Plays one update by two offered choices, without testing that they are.
///
/// Draws come only from `random`, which is returned as they leave it. The index and the numbers in the bytes stay as
/// they are. The events go to a sink that is still empty. If a choice is not offered, the bytes may be anything
/// afterwards.
pub fn play<R: Rolls, S: EventSink>(
    battle: &mut Packed,
    one: Choice,
    two: Choice,
    random: R,
    events: &mut S,
) -> R
    requires empty { S.tells events.old [] }
    requires room { HasRoom S.room 51 events.old }
    ensures played { (s : State) → Stands battle.old s → AreOffered s one two
        → Plays R.drawing random result s one two (scene S.tells battle events) }
    ensures room { AddsAtMost S.room 51 events.old events.new }
    ensures steps { StepsTo R.drawing random result }
{
    match battle.request(Side::One) {
        Request::Move => turn(battle, one, two, random, events),
        _ => {
            if battle.turn() == 0 {
                start(battle, events);
                random
            } else {
                replace(battle, one, two, events);
                random
            }
        }
    }
}
