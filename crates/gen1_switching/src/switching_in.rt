//! Members that come out, and the two updates in which members come out and none acts: the first of a battle, and
//! replacements (docs/MECHANICS.md, "Switching in", "Falls and requests").
ghost use Rattle.std.specs.Prelude.{◌++◌, ◌∷◌, ◌≡◌};
ghost use Rattle.gen1_stats.specs.declared.member.Status.{Status as StatusOf};
ghost use Rattle.gen1_machine.specs.Plans.{Comes, InRange};
ghost use Rattle.gen1_machine.specs.SwitchingIn.{replace, send_if_chosen, send_out, start};
ghost use Rattle.gen1_machine.specs.Layout.{status_byte};
ghost use Rattle.gen1_machine.specs.Rules.{Rules};
ghost use Rattle.gen1_machine.specs.Valid.{IsStatus, IsUnstarted};
ghost use Rattle.gen1_machine.specs.declared.side.Choice.TheVariants.{Pass};
ghost use Rattle.gen1_machine.specs.declared.terms.Request.TheVariants.{Switch};
ghost use Rattle.gen1_machine.specs.Ruling.{ruling_of};
ghost use Rattle.gen1_machine.specs.State.{State};
ghost use Rattle.gen1_machine.specs.Step.{close_update, opened};
ghost use Rattle.gen1_layout.specs.Operations.{DoesWhere, holding, scene};
ghost use Rattle.gen1_layout.specs.Words.{AddsAtMost, Event as EventOf, Field, Frame, HasRoom, List, None, Packs, Progress, Setting, Shows, Some, Within, [], false, member_at, other, party, underway_in};
ghost use Rattle.gen1_layout.specs.Shows.{ShowsPacked, Stands, setting_of};
ghost use Rattle.gen1_switching.specs.SwitchingIn.{ComesOut, PutsOut, PutsOutWith, coming_out, has_penalty, stats_out, Plays, Starts, Steps, Updated, both_come, frame_of};

use crate::close;
use gen1_events::{EventSink, Seen, Untested};
use gen1_layout::Packed;
use gen1_layout::offsets::STATUS;
use gen1_machine::{Choice, Place, Side};
use gen1_stats::Status;

// The status bytes of burned and paralysed members have one of these bits. No other status byte has.
const BURNED_OR_PARALYSED: u8 = 0x50;

/// Sends out the member of `side` at a place of its team, and writes `Switch` (docs/MECHANICS.md, "Switching in").
///
/// All its stages are 0, no condition is on, and it has no current and no picked move. It has one penalty if it is
/// paralysed or burned. The foe's Trapping ends. Members, last damage and header stay as they are. It needs one free
/// place in `events`.
#[inline(always)] // docs/SPEED.md, "Hints on inlining"
pub fn send_out<S: EventSink>(battle: &mut Packed, side: Side, place: Place, events: &mut S)
    requires space { HasRoom S.room 1 events.old }
    ensures shown { DoesWhere (holding λ p. InRange side place p.field) (scene S.tells battle events)
        false (λ r. send_out side place) }
    ensures room { AddsAtMost S.room 1 events.old events.new }
{
    tell_coming_out(battle, side, place, events);
    put_out(battle, side, place);
    battle.end_trapping(side.other());
}

// Sends out a member like `send_out`, while a side may have no member out and the foe isn't trapping.
fn send_first<S: EventSink>(battle: &mut Packed, side: Side, place: Place, events: &mut S)
    requires space { HasRoom S.room 1 events.old }
    ensures shown { (g : Frame) (p : Progress) → InRange side place p.field
        → (underway_in (other side) p.field).trapping ≡ None
        → ShowsPacked g battle.old (S.tells events.old) p
        → ShowsPacked g battle.new (S.tells events.new) (send_out side place p) }
    ensures room { AddsAtMost S.room 1 events.old events.new }
{
    tell_coming_out(battle, side, place, events);
    put_out(battle, side, place);
}

// The event for a member that comes out depends only on what is known before.
fn tell_coming_out<S: EventSink>(battle: &Packed, side: Side, place: Place, events: &mut S)
    requires space { HasRoom S.room 1 events.old }
    ensures told { (g : Setting) (f : Field) (told : List EventOf) → Packs g battle.now f
        → InRange side place f → S.tells events.old told
        → S.tells events.new (told ++ coming_out side place (member_at place (party side f)) ∷ []) }
    ensures room { AddsAtMost S.room 1 events.old events.new }
{
    events.push_untested(coming_out(battle, side, place));
}

fn coming_out(battle: &Packed, side: Side, place: Place) -> Untested
    ensures packs { (g : Setting) (f : Field) → Packs g battle.now f → InRange side place f
        → ComesOut side place (member_at place (party side f)) result }
{
    let at = place.number();
    let seen = Seen {
        side,
        species: battle.species_at(side, at),
        hp: battle.hp_at(side, at),
        max: battle.max_hp_at(side, at),
        kind: battle.kind_at(side, at),
    };
    Untested::Switch(seen, place, battle.level_at(side, at))
}

// A penalty is rare. It is handled separately, so that the stats of other members are copied as eight bytes.
fn put_out(battle: &mut Packed, side: Side, place: Place)
    ensures stands { PutsOut Within side place battle.old battle.new }
    ensures packs { PutsOut Packs side place battle.old battle.new }
{
    let at = place.number();
    if has_penalty(battle.member(side, at)[STATUS]) {
        put_out_with_penalty(battle, side, place);
        return;
    }
    let stats = battle.own_stats_at(side, at);
    put_out_with(battle, side, place, stats);
}

// By the byte of a member's status.
fn has_penalty(byte: u8) -> bool
    ensures { (rules : Rules) (status : StatusOf) → IsStatus rules status
        → byte ≡ status_byte status → result ≡ has_penalty status }
{
    byte & BURNED_OR_PARALYSED != 0
}

#[inline(always)] // docs/SPEED.md, "Hints on inlining"
fn put_out_with_penalty(battle: &mut Packed, side: Side, place: Place)
    ensures stands { PutsOut Within side place battle.old battle.new }
    ensures packs { PutsOut Packs side place battle.old battle.new }
{
    let at = place.number();
    let status = battle.status_at(side, at);
    let [attack, defense, speed, special] = battle.own_stats_at(side, at);
    let stats = stats_out(status, attack, defense, speed, special);
    put_out_with(battle, side, place, stats);
}

// The stats are those of the member, with the penalty of its status.
#[inline(always)] // docs/SPEED.md, "Hints on inlining"
fn put_out_with(battle: &mut Packed, side: Side, place: Place, stats: [u16; 4])
    ensures stands { PutsOutWith Within side place stats battle.old battle.new }
    ensures packs { PutsOutWith Packs side place stats battle.old battle.new }
{
    let at = place.number();
    if let Some(species) = battle.species_from(side, at) {
        let [first, second] = species.types();
        battle.put_sent_out(side, at, first, second, stats);
    }
}

// A member's own stats with the penalty of its status. At stage 0 they are unchanged.
fn stats_out(status: Status, attack: u16, defense: u16, speed: u16, special: u16) -> [u16; 4]
    ensures { result ≡ stats_out status attack defense speed special }
{
    match status {
        Status::Burned => [(attack / 2).max(1), defense, speed, special],
        Status::Paralysed => [attack, defense, (speed / 4).max(1), special],
        _ => [attack, defense, speed, special],
    }
}

/// Plays the first update of a battle, in which both sides pass at turn 0 (docs/MECHANICS.md, "Switching in", "Falls
/// and requests").
///
/// It sends out the first member of side 1 and then of side 2, begins turn 1, and asks both sides for moves. Nothing
/// is drawn. `events` must be empty and have five free places. Two `Switch` and a `Turn` are written to it.
pub fn start<S: EventSink>(battle: &mut Packed, events: &mut S)
    requires empty { S.tells events.old [] }
    requires room { HasRoom S.room 5 events.old }
    ensures updated { (s : State) → Stands battle.old s → Starts s
        → Updated (setting_of s) battle.new (S.tells events.new)
        (close_update (ruling_of s.terms) (start (opened s))) }
    ensures stepped { (s : State) → Stands battle.old s → Starts s
        → Steps s Pass Pass battle.new (S.tells events.new) }
    // For any bytes.
    ensures room { AddsAtMost S.room 5 events.old events.new }
{
    send_both_first(battle, events);
    close(battle, Side::One, events);
}

/// Plays the update of replacements for fallen members (docs/MECHANICS.md, "Switching in", "Falls and requests").
///
/// It sends out the members that the sides chose by `Choice::Switch`, side 1's first, begins the next turn, and asks
/// both sides for moves. Nothing is drawn. `events` must be empty and have five free places. One or two `Switch` and
/// a `Turn` are written to it.
pub fn replace<S: EventSink>(battle: &mut Packed, one: Choice, two: Choice, events: &mut S)
    requires empty { S.tells events.old [] }
    requires room { HasRoom S.room 5 events.old }
    ensures updated { (s : State) → Stands battle.old s → Plays s Switch one two
        → Updated (setting_of s) battle.new (S.tells events.new)
        (close_update (ruling_of s.terms) (replace one two (opened s))) }
    ensures stepped { (s : State) → Stands battle.old s → Plays s Switch one two
        → Steps s one two battle.new (S.tells events.new) }
    // For any bytes.
    ensures room { AddsAtMost S.room 5 events.old events.new }
{
    send_both_chosen(battle, one, two, events);
    close(battle, Side::One, events);
}

/// Sends out the first member of side 1 and then of side 2, as the first update does, without a turn
/// (docs/MECHANICS.md, "Switching in").
///
/// It is for callers that only need two members that face each other. The battle is at turn 0, and `events` is empty.
/// Two `Switch` are written, for which it needs two free places in `events`.
pub fn send_both_first<S: EventSink>(battle: &mut Packed, events: &mut S)
    requires space { HasRoom S.room 2 events.old }
    ensures shown { (s : State) → S.tells events.old [] → Stands battle.old s
        → IsUnstarted s.terms s.field
        → Shows (frame_of s) battle.new (S.tells events.new) false (start (opened s)) }
    ensures room { AddsAtMost S.room 2 events.old events.new }
{
    if let Some(first) = Place::new(1) {
        send_first(battle, Side::One, first, events);
        send_first(battle, Side::Two, first, events);
    }
}

#[inline(never)] // docs/SPEED.md, "Hints on inlining"
fn send_both_chosen<S: EventSink>(battle: &mut Packed, one: Choice, two: Choice, events: &mut S)
    requires space { HasRoom S.room 2 events.old }
    ensures shown { DoesWhere (both_come one two) (scene S.tells battle events) false
        (λ r. replace one two) }
    ensures room { AddsAtMost S.room 2 events.old events.new }
{
    send_if_chosen(battle, Side::One, one, events);
    send_if_chosen(battle, Side::Two, two, events);
}

#[inline(always)] // docs/SPEED.md, "Hints on inlining"
fn send_if_chosen<S: EventSink>(battle: &mut Packed, side: Side, choice: Choice, events: &mut S)
    requires space { HasRoom S.room 1 events.old }
    ensures shown { DoesWhere (holding λ p. Comes choice side p.field) (scene S.tells battle events)
        false (λ r. send_if_chosen side choice) }
    ensures room { AddsAtMost S.room 1 events.old events.new }
{
    match choice {
        Choice::Switch(place) => send_out(battle, side, place, events),
        Choice::Move(_) => {}
        Choice::Pass => {}
    }
}
