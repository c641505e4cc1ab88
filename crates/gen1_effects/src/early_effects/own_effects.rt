//! Moves with an effect on their user: Recover, Soft-Boiled and Rest; Mist, Focus Energy and the screens, which fail if
//! they are up already; Conversion; and Splash, which has none (docs/MECHANICS.md, "Early effects").
ghost use Rattle.std.specs.Prelude.{◌-◌, ◌<◌, ◌==◌, ◌^◌, ◌≡◌};
ghost use Rattle.gen1_machine.specs.EarlyEffects.{convert, heal, recover, resists_healing, rest_up, set_focus_energy, set_mist, set_screen, splash};
ghost use Rattle.gen1_machine.specs.Moves.{light_screen_move, rest};
ghost use Rattle.gen1_machine.specs.Layout.{condition_bits};
ghost use Rattle.gen1_machine.specs.Progress.{fails_if, starts};
ghost use Rattle.gen1_layout.specs.Operations.{Does, looking, scene};
ghost use Rattle.gen1_layout.specs.Words.{ActiveConditions, AddsAtMost, HasRoom, Reads, SameNumbers, conditions, false, member_in, move_at, slice_index_or, slice_set, stop, true, ℕ, ◌▸◌};

use gen1_events::EventSink;
use gen1_hits::gain_hp;
use gen1_layout::{Conditions, Packed};
use gen1_machine::{Event, Kind, Side, Volatile};
use gen1_stats::Status;
use gen1_status::fail;
use gen1_tables::MoveId;

#[inline(always)] // docs/SPEED.md, "Hints on inlining"
pub(super) fn heal<S: EventSink>(battle: &mut Packed, side: Side, id: MoveId, events: &mut S)
    requires room { HasRoom S.room 2 events.old }
    ensures shown { Does (scene S.tells battle events) true (heal side (move_at id) ▸ stop) }
    ensures room { AddsAtMost S.room 2 events.old events.new }
{
    if cannot_heal(battle, side) {
        fail(battle, side, events);
        return;
    }
    if is_rest(id) {
        rest_up(battle, side, events);
        return;
    }
    recover(battle, side, events);
}

// Healing fails at these losses, whatever the maximum is.
fn cannot_heal(battle: &Packed, side: Side) -> bool
    ensures stands { Reads battle.now result λ f. resists_healing
        ((member_in side f).max - (member_in side f).hp) }
{
    resists_healing(battle.max_hp(side).saturating_sub(battle.hp(side)))
}

fn resists_healing(lost: u16) -> bool
    ensures { result ≡ resists_healing lost }
{
    lost == 0 || lost == 255 || lost == 511
}

const REST: u8 = 156;

fn is_rest(id: MoveId) -> bool
    ensures { result ≡ ((move_at id).number == rest) }
{
    id.number() == REST
}

// The penalties of the status that sleep replaces stay.
fn rest_up<S: EventSink>(battle: &mut Packed, side: Side, events: &mut S)
    requires room { HasRoom S.room 2 events.old }
    ensures shown { Does (scene S.tells battle events) false (rest_up side) }
    ensures room { AddsAtMost S.room 2 events.old events.new }
{
    let asleep = Status::Asleep {
        turns: 2,
        marked: false,
    };
    battle.put_status(side, asleep);
    events.push(Event::Status(battle.who(side), Kind::Sleep));
    let most = battle.max_hp(side);
    gain_hp(battle, side, most, events);
}

fn recover<S: EventSink>(battle: &mut Packed, side: Side, events: &mut S)
    requires room { HasRoom S.room 1 events.old }
    ensures shown { Does (scene S.tells battle events) false (recover side) }
    ensures room { AddsAtMost S.room 1 events.old events.new }
{
    let half = battle.max_hp(side) / 2;
    gain_hp(battle, side, half, events);
}

pub(super) fn set_mist<S: EventSink>(battle: &mut Packed, side: Side, events: &mut S)
    requires room { HasRoom S.room 1 events.old }
    ensures shown { Does (scene S.tells battle events) true (set_mist side ▸ stop) }
    ensures room { AddsAtMost S.room 1 events.old events.new }
{
    put_up(battle, side, Conditions::MIST, Volatile::Mist, events);
}

pub(super) fn set_focus_energy<S: EventSink>(battle: &mut Packed, side: Side, events: &mut S)
    requires room { HasRoom S.room 1 events.old }
    ensures shown { Does (scene S.tells battle events) true (set_focus_energy side ▸ stop) }
    ensures room { AddsAtMost S.room 1 events.old events.new }
{
    put_up(
        battle,
        side,
        Conditions::FOCUS_ENERGY,
        Volatile::FocusEnergy,
        events,
    );
}

// Light Screen or Reflect, by the move.
pub(super) fn set_screen<S: EventSink>(battle: &mut Packed, side: Side, id: MoveId, events: &mut S)
    requires room { HasRoom S.room 1 events.old }
    ensures shown { Does (scene S.tells battle events) true (set_screen side (move_at id) ▸ stop) }
    ensures room { AddsAtMost S.room 1 events.old events.new }
{
    if is_light_screen(id) {
        put_up(
            battle,
            side,
            Conditions::LIGHT_SCREEN,
            Volatile::LightScreen,
            events,
        );
        return;
    }
    put_up(battle, side, Conditions::REFLECT, Volatile::Reflect, events);
}

const LIGHT_SCREEN: u8 = 113;

fn is_light_screen(id: MoveId) -> bool
    ensures { result ≡ ((move_at id).number == light_screen_move) }
{
    id.number() == LIGHT_SCREEN
}

// Sets a condition without a number, and fails if it is on. In the contract, k is the place of its bit.
fn put_up<S: EventSink>(
    battle: &mut Packed,
    side: Side,
    which: Conditions,
    what: Volatile,
    events: &mut S,
)
    requires room { HasRoom S.room 1 events.old }
    ensures shown { (k : ℕ) → which.0 ≡ 2 ^ k → k < 17 →
        (change : ActiveConditions → ActiveConditions) →
        ((c : ActiveConditions) → condition_bits (change c) ≡ slice_set (condition_bits c) k true) →
        ((c : ActiveConditions) → SameNumbers (change c) c) → Does (scene S.tells battle events) true
        ((fails_if side (λ p. slice_index_or (condition_bits (conditions side p)) k false) ▸ starts
        side what change) ▸ stop) }
    ensures room { AddsAtMost S.room 1 events.old events.new }
{
    if battle.is_on(side, which) {
        fail(battle, side, events);
        return;
    }
    battle.put_flag(side, which, true);
    events.push(Event::Start(battle.who(side), what));
}

pub(super) fn convert<S: EventSink>(battle: &mut Packed, side: Side, events: &mut S)
    requires room { HasRoom S.room 1 events.old }
    ensures shown { Does (scene S.tells battle events) true (convert side ▸ stop) }
    ensures room { AddsAtMost S.room 1 events.old events.new }
{
    let foe = side.other();
    if battle.is_on(foe, Conditions::INVULNERABLE) {
        fail(battle, side, events);
        return;
    }
    let first = battle.first_type(foe);
    let second = battle.second_type(foe);
    battle.put_types(side, first, second);
    events.push(Event::Start(battle.who(side), Volatile::TypeChange));
}

pub(super) fn splash<S: EventSink>(battle: &Packed, side: Side, events: &mut S)
    requires room { HasRoom S.room 1 events.old }
    ensures shown { Does (looking S.tells battle events) true (splash side ▸ stop) }
    ensures room { AddsAtMost S.room 1 events.old events.new }
{
    events.push(Event::Activate(battle.who(side), Volatile::Splash));
}
