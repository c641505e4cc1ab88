//! Moves with special damage rules: fixed damage, Super Fang and Psywave; one-hit moves; and Counter, which deals twice
//! the last damage (docs/MECHANICS.md, "Fixed damage and one-hit moves", "Counter").
ghost use Rattle.std.specs.Prelude.{◌*◌, ◌/◌, ◌≡◌, ◌≤◌};
ghost use Rattle.gen1_tables.specs.declared.effect.Stat.TheVariants.{Speed};
ghost use Rattle.gen1_rolls.specs.declared.rolls.ByteTest.TheVariants.{PositiveBelow};
ghost use Rattle.gen1_rolls.specs.Draws.{Steps};
ghost use Rattle.gen1_machine.specs.FixedDamage.{deal_everything, deal_fixed, fixed_damage, half_hp, knock_out, knock_out_by_type, psywave};
ghost use Rattle.gen1_machine.specs.Damage.{is_factor};
ghost use Rattle.gen1_machine.specs.Progress.{draw_until};
ghost use Rattle.gen1_machine.specs.Counter.{can_be_countered, counter};
ghost use Rattle.gen1_layout.specs.Operations.{Draws, quiet};
ghost use Rattle.gen1_layout.specs.Words.{Event, List, Reads, false, member_in, move_at, nat_lt, now_in, other};
ghost use Rattle.gen1_layout.specs.Parts.{Parts};
ghost use Rattle.gen1_hits.specs.Knowing.{IsUncounted, aware};
ghost use Rattle.gen1_multiturn.specs.MoveHits.{DealsAs, can_counter_in, countered};

use gen1_hits::{Known, LEAST_FACTOR, critical, hit_or_miss, is_immune};
use gen1_layout::Packed;
use gen1_machine::{Outcome, Side};
use gen1_rolls::{ByteTest, Look, Rolls};
use gen1_status::number_of;
use gen1_tables::{COUNTER, Element, MoveId, Stat};

const SONIC_BOOM: u8 = 49;

const DRAGON_RAGE: u8 = 82;

const PSYWAVE: u8 = 149;

const SUPER_FANG: u8 = 162;

/// The damage of a move of `side` after it has hit (docs/MECHANICS.md, "Fixed damage and one-hit moves").
///
/// It is 20 for Sonic Boom, 40 for Dragon Rage, half of the foe's HP, at least 1, for Super Fang, and a drawn number
/// for Psywave. For Seismic Toss, Night Shade and every other move it is the user's level. `None` is the fault of
/// Psywave at level 1, which draws nothing.
pub fn fixed<R: Rolls>(battle: &Packed, side: Side, id: MoveId, random: &mut R) -> Option<u16>
    ensures deals { DealsAs R.drawing random battle.now result (deal_fixed side id) }
    ensures steps { Steps R.drawing random }
{
    let number = id.number();
    if number == SONIC_BOOM {
        return Some(20);
    }
    if number == DRAGON_RAGE {
        return Some(40);
    }
    if number == PSYWAVE {
        return psywave(battle.level(side), random);
    }
    if number == SUPER_FANG {
        return Some(half_hp(battle, side.other()));
    }
    Some(u16::from(battle.level(side)))
}

/// A move of fixed damage in an action of which something is known (docs/MECHANICS.md, "Fixed damage and one-hit
/// moves").
///
/// The hit test comes first. On a hit the damage becomes the last damage. Returns `true` if the battle ended with the
/// fault of Psywave at level 1, which leaves the last damage as it was. Afterwards `known` holds the byte that was
/// tested, and whether it missed.
pub fn fixed_knowing<R: Rolls>(
    battle: &mut Packed,
    side: Side,
    id: MoveId,
    known: &mut Known,
    random: &mut R,
) -> bool
    ensures shown { (told : List Event) → Draws R.drawing random (aware known (quiet told battle))
        result (fixed_damage side (move_at id)) }
    ensures counts { IsUncounted known.old → IsUncounted known.new }
    ensures steps { Steps R.drawing random }
{
    hit_or_miss(battle, side, id, known, random);
    if known.missed {
        return false;
    }
    match fixed(battle, side, id, random) {
        Some(damage) => {
            battle.put_last_damage(damage);
            false
        }
        None => {
            battle.put_outcome(Outcome::Fault(2));
            true
        }
    }
}

// A draw above 0 and below one and a half times the level.
fn psywave<R: Rolls>(level: u8, random: &mut R) -> Option<u16>
    ensures deals { (parts : Parts)
        → DealsAs R.drawing random parts result (psywave level) }
    ensures steps { Steps R.drawing random }
{
    if level <= 1 {
        return None;
    }
    match random.until_as(psywave_bytes(level), Look::Remainder(256)) {
        Some(byte) => Some(u16::from(byte)),
        None => unreachable!(),
    }
}

fn psywave_bytes(level: u8) -> ByteTest
    ensures { result ≡ PositiveBelow (level * 3 / 2) }
{
    ByteTest::PositiveBelow(u16::from(level) * 3 / 2)
}

fn half_hp(battle: &Packed, side: Side) -> u16
    ensures stands { Reads battle.now result λ f. half_hp (member_in side f) }
{
    (battle.hp(side) / 2).max(1)
}

/// A one-hit move of `side`, in an action of which something is known (docs/MECHANICS.md, "Fixed damage and one-hit
/// moves").
///
/// The last damage becomes 0, and the critical draw is taken. If the user is slower than its foe, it misses without
/// further draws. Otherwise a move with no effect on the foe misses, and any other takes the draws of a factor and
/// makes the last damage 65,535. In both of these cases the hit test follows.
///
/// Afterwards `known` holds whether the hit would be critical, the byte that was tested, and whether it missed.
pub fn knock_out<R: Rolls>(
    battle: &mut Packed,
    side: Side,
    id: MoveId,
    known: &mut Known,
    random: &mut R,
)
    ensures shown { (told : List Event) → Draws R.drawing random (aware known (quiet told battle))
        false (knock_out side (move_at id)) }
    ensures counts { IsUncounted known.old → IsUncounted known.new }
    ensures steps { Steps R.drawing random }
{
    battle.put_last_damage(0);
    known.critical = critical(battle, side, id, random);
    if is_slower(battle, side) {
        known.missed = true;
        return;
    }
    knock_out_by_type(battle, side, id, known, random);
    hit_or_miss(battle, side, id, known, random);
}

fn is_slower(battle: &Packed, side: Side) -> bool
    ensures stands { Reads battle.now result λ f. nat_lt (now_in Speed side f)
        (now_in Speed (other side) f) }
{
    battle.current_stat(side, Stat::Speed) < battle.current_stat(side.other(), Stat::Speed)
}

fn knock_out_by_type<R: Rolls>(
    battle: &mut Packed,
    side: Side,
    id: MoveId,
    known: &mut Known,
    random: &mut R,
)
    ensures shown { (told : List Event) → Draws R.drawing random (aware known (quiet told battle))
        false (knock_out_by_type side (move_at id)) }
    ensures counts { IsUncounted known.old → IsUncounted known.new }
    ensures steps { Steps R.drawing random }
{
    if is_immune(battle, side.other(), id.kind()) {
        known.missed = true;
        return;
    }
    deal_everything(battle, random);
}

// The draws of a factor, which isn't used.
fn deal_everything<R: Rolls>(battle: &mut Packed, random: &mut R)
    ensures shown { (told : List Event) → Draws R.drawing random (quiet told battle) false
        (draw_until is_factor deal_everything) }
    ensures steps { Steps R.drawing random }
{
    let Some(_) = random.until_as(ByteTest::RotatedAtLeast(LEAST_FACTOR), Look::Remainder(1)) else {
        // Each byte from 0 to 255 is drawn, and some of them are factors.
        unreachable!();
    };
    battle.put_last_damage(u16::MAX);
}

/// The damage of a Counter of `side` if it hits: twice the last damage, 2 to 65,535 (docs/MECHANICS.md, "Counter").
///
/// Returns `None` if it misses before its hit test. That is so if the last damage is 0, or if the foe has picked no
/// move, Counter, a move of power 0, or one that is neither Normal nor Fighting. The foe's picked move is looked up
/// in the member that is out now.
pub fn counter(battle: &Packed, side: Side) -> Option<u16>
    ensures stands { Reads battle.now result (countered side) }
{
    if !can_counter(battle, side) {
        return None;
    }
    Some(battle.last_damage().saturating_mul(2))
}

/// Counter, or a move with its effect, in an action of which something is known (docs/MECHANICS.md, "Counter").
///
/// The critical draw comes first. Then it misses and keeps the last damage, or the last damage becomes twice as much
/// and the hit test follows. Afterwards `known` holds whether the hit would be critical, the byte that was tested,
/// and whether it missed. Nothing else of the battle changes.
pub fn counter_knowing<R: Rolls>(
    battle: &mut Packed,
    side: Side,
    id: MoveId,
    known: &mut Known,
    random: &mut R,
)
    ensures shown { (told : List Event) → Draws R.drawing random (aware known (quiet told battle))
        false (counter side (move_at id)) }
    ensures counts { IsUncounted known.old → IsUncounted known.new }
    ensures steps { Steps R.drawing random }
{
    known.critical = critical(battle, side, id, random);
    let Some(damage) = counter(battle, side) else {
        known.missed = true;
        return;
    };
    battle.put_last_damage(damage);
    hit_or_miss(battle, side, id, known, random);
}

fn can_counter(battle: &Packed, side: Side) -> bool
    ensures stands { Reads battle.now result (can_counter_in side) }
{
    let foe = side.other();
    let picked = number_of(battle, foe, battle.picked_move(foe));
    let hurt = 0 < battle.last_damage();
    can_be_countered(picked) & hurt
}

// By the number of a move, or 0 for none.
fn can_be_countered(number: u8) -> bool
    ensures { number ≤ 165 → result ≡ can_be_countered (move_at number) }
{
    match MoveId::new(number) {
        Some(id) => is_answered(id),
        None => false,
    }
}

fn is_answered(id: MoveId) -> bool
    ensures { result ≡ can_be_countered (move_at id) }
{
    let another = id.number() != COUNTER;
    let strong = 0 < id.power();
    let direct = matches!(id.kind(), Element::Normal | Element::Fighting);
    another & (strong & direct)
}
