//! Where damage lands: on HP, or on a Substitute. HP that the member that is out loses and gains, with their events
//! (docs/MECHANICS.md, "Landing", "Order of events").
ghost use Rattle.std.specs.Prelude.{◌&&◌, ◌≡◌};
ghost use Rattle.gen1_machine.specs.Progress.{gain_hp, lose_hp, only};
ghost use Rattle.gen1_machine.specs.Landing.{breaks, land_damage, land_on_hp, land_on_substitute};
ghost use Rattle.gen1_layout.specs.Operations.{Does, DoesWhere, holding, learns, scene};
ghost use Rattle.gen1_layout.specs.Words.{AddsAtMost, Changes, Field, HasRoom, Reads, Setting, Some, Within, changed_member, conditions_in, false, healed_by, hurt_by, is_living, member_in, nat_lt, other};
ghost use Rattle.gen1_hits.specs.Knowing.{Sees, has_broken, landed_on, with_break};

use gen1_events::{EventSink, Seen, Untested};
use gen1_layout::Packed;
use gen1_machine::{DamageSource, Event, Side, Volatile};

/// Where damage landed (docs/MECHANICS.md, "Landing").
#[derive(Clone, Copy, Debug, PartialEq, Eq, Drop)]
pub enum Landed {
    /// On HP. Damage of 0 counts as this too.
    Hp,
    /// On a Substitute that holds, perhaps with 0 HP.
    Kept,
    /// On a Substitute, which broke.
    Broke,
}

/// Lands `damage` on the foe of `user`: on its Substitute if it has one, otherwise on its HP (docs/MECHANICS.md,
/// "Landing").
///
/// On HP the last damage becomes at most the HP that were there. Damage of 0 changes nothing. At most one event is
/// written, and it needs one free place in `events`.
pub fn land<S: EventSink>(battle: &mut Packed, user: Side, damage: u16, events: &mut S) -> Landed
    requires room { HasRoom S.room 1 events.old }
    ensures shown { Does (learns (with_break (has_broken result)) (scene S.tells battle events)) false
        (only (nat_lt 0 damage) (land_damage (other user) damage)) }
    ensures landed { Reads battle.old result λ f. landed_on damage
        (conditions_in (other user) f).substitute }
    ensures room { AddsAtMost S.room 1 events.old events.new }
{
    if damage == 0 {
        return Landed::Hp;
    }
    let target = user.other();
    match battle.substitute(target) {
        Some(hp) => {
            if land_on_substitute(battle, target, damage, hp, events) {
                Landed::Broke
            } else {
                Landed::Kept
            }
        }
        None => {
            land_on_hp(battle, target, DamageSource::Direct, damage, events);
            Landed::Hp
        }
    }
}

/// Lands `damage` on the Substitute of `target`, which has `hp` HP, and returns whether it broke (docs/MECHANICS.md,
/// "Landing").
///
/// Damage above its HP or above 255 breaks it, and `End` is written. Otherwise it keeps the rest, perhaps 0, and
/// `Activate` is written. It needs one free place in `events`. The last damage stays as it is.
pub fn land_on_substitute<S: EventSink>(
    battle: &mut Packed,
    target: Side,
    damage: u16,
    hp: u8,
    events: &mut S,
) -> bool
    requires room { HasRoom S.room 1 events.old }
    ensures shown { DoesWhere (holding λ p. (conditions_in target p.field).substitute ≡ Some hp)
        (learns (with_break result) (scene S.tells battle events)) false
        (λ r. land_on_substitute target damage hp) }
    ensures broken { result ≡ breaks damage hp }
    ensures room { AddsAtMost S.room 1 events.old events.new }
{
    if breaks(damage, hp) {
        battle.put_substitute(target, None);
        events.push(Event::End(battle.who(target), Volatile::Substitute));
        return true;
    }
    battle.put_substitute(target, Some(hp - damage as u8));
    events.push(Event::Activate(battle.who(target), Volatile::Substitute));
    false
}

fn breaks(damage: u16, hp: u8) -> bool
    ensures { result ≡ breaks damage hp }
{
    255 < damage || u16::from(hp) < damage
}

/// Lands `damage` on the HP of `target` (docs/MECHANICS.md, "Landing").
///
/// The last damage becomes what is taken: the damage, or all HP that there are. If that is more than 0, it writes
/// `Damage` with the source. It needs one free place in `events`.
#[inline(always)] // docs/SPEED.md, "Hints on inlining"
pub fn land_on_hp<S: EventSink>(
    battle: &mut Packed,
    target: Side,
    source: DamageSource,
    damage: u16,
    events: &mut S,
)
    requires room { HasRoom S.room 1 events.old }
    ensures shown { Does (scene S.tells battle events) false (land_on_hp target source damage) }
    ensures room { AddsAtMost S.room 1 events.old events.new }
{
    let taken = damage.min(battle.hp(target));
    battle.put_last_damage(taken);
    crate::lose_hp(battle, target, source, damage, events);
}

/// Takes `amount` HP from the member of `side` that is out, or all HP that it has (docs/MECHANICS.md, "Landing",
/// "Residual damage").
///
/// If any HP are lost, it writes `Damage` with the health after it and the source. It needs one free place in
/// `events`. Nothing else changes.
#[inline(always)] // docs/SPEED.md, "Hints on inlining"
pub fn lose_hp<S: EventSink>(
    battle: &mut Packed,
    side: Side,
    source: DamageSource,
    amount: u16,
    events: &mut S,
)
    requires room { HasRoom S.room 1 events.old }
    ensures shown { Does (scene S.tells battle events) false (lose_hp side source amount) }
    ensures room { AddsAtMost S.room 1 events.old events.new }
{
    if !loses(battle, side, amount) {
        return;
    }
    hurt(battle, side, amount);
    events.push_untested(Untested::Damage(seen(battle, side), source));
}

// Whether a loss of this many HP takes any HP.
fn loses(battle: &Packed, side: Side, amount: u16) -> bool
    ensures stands { Reads battle.now result λ f.
        (nat_lt 0 amount && is_living (member_in side f)) }
{
    0 < amount && 0 < battle.hp(side)
}

fn hurt(battle: &mut Packed, side: Side, amount: u16)
    ensures stands { Changes battle.old battle.new (changed_member side (hurt_by amount)) }
{
    let left = battle.hp(side).saturating_sub(amount);
    battle.put_hp(side, left);
}

/// Gives `amount` HP to the member of `side` that is out, or as many as it lacks (docs/MECHANICS.md, "Recoil, drain
/// and explosion", "Residual damage").
///
/// If any HP are gained, it writes `Heal` with the health after it. It needs one free place in `events`. Nothing else
/// changes.
pub fn gain_hp<S: EventSink>(battle: &mut Packed, side: Side, amount: u16, events: &mut S)
    requires room { HasRoom S.room 1 events.old }
    ensures shown { Does (scene S.tells battle events) false (gain_hp side amount) }
    ensures room { AddsAtMost S.room 1 events.old events.new }
{
    if !gains(battle, side, amount) {
        return;
    }
    heal(battle, side, amount);
    events.push_untested(Untested::Heal(seen(battle, side)));
}

// Whether a gain of this many HP gives any HP.
fn gains(battle: &Packed, side: Side, amount: u16) -> bool
    ensures stands { Reads battle.now result λ f.
        (nat_lt 0 amount && nat_lt (member_in side f).hp (member_in side f).max) }
{
    0 < amount && battle.hp(side) < battle.max_hp(side)
}

fn heal(battle: &mut Packed, side: Side, amount: u16)
    ensures stands { Changes battle.old battle.new (changed_member side (healed_by amount)) }
{
    let healed = battle.hp(side).saturating_add(amount);
    let most = battle.max_hp(side);
    battle.put_hp(side, healed.min(most));
}

// The member that is out, as an event reports it.
#[inline(always)] // docs/SPEED.md, "Hints on inlining"
fn seen(battle: &Packed, side: Side) -> Seen
    ensures stands { (g : Setting) (f : Field) → Within g battle.now f → Sees side f result }
{
    Seen {
        side,
        species: battle.species_number(side),
        hp: battle.hp(side),
        max: battle.max_hp(side),
        kind: battle.kind(side),
    }
}
