//! What the log of a battle makes public of both sides (docs/MECHANICS.md, "What the log makes public"), as a plain struct that its caller keeps.
ghost use Rattle.std.specs.Prelude.{None, Some, ◌≡◌};
ghost use Rattle.gen1_machine.specs.Layout.{outcome_byte};
ghost use Rattle.gen1_machine.specs.View.{won_by};
ghost use Rattle.gen1_player.specs.Public.{acting, activates, first_public, has_hit_itself, hears, public_side, settled_by, side_named, takes_in, waiting_for};

use crate::public_side::PublicSide;
use gen1_machine::{DamageSource, Event, Side, Volatile};

// The bytes of outcomes; those of faults follow that of a tie (docs/LAYOUT.md, "Header").
const WIN_ONE: u8 = 1;

const WIN_TWO: u8 = 2;

const TIE: u8 = 3;

/// What the events of a battle from its start make public.
#[repr(C)]
#[derive(Clone, Copy, Debug, PartialEq, Eq, Drop)]
pub struct Public {
    pub one: PublicSide,
    pub two: PublicSide,
    /// 0 to 9,999.
    pub turn: u16,
    /// 0 to 5, as in the bytes of a battle (docs/LAYOUT.md, "Header").
    pub outcome: u8,
    /// 1 or 2: the side whose confused member has hit itself, behind its own Substitute, unless the next event is its act. Else 0.
    pub may_hit_itself: u8,
}

impl Public {
    /// What is public before the first event: nothing.
    pub fn new() -> Self
        ensures { result ≡ first_public }
    {
        Public {
            one: PublicSide::nothing(),
            two: PublicSide::nothing(),
            turn: 0,
            outcome: 0,
            may_hit_itself: 0,
        }
    }

    /// Applies the next event. It takes any bytes: what an event does not name stays as it was.
    #[tactic(auto, using(crate::proofs::HeardSides::hears_by))]
    pub fn apply(&mut self, event: &Event)
        ensures { self.new ≡ hears event.now self.old }
    {
        self.settle(acting(event));
        match side_named(event) {
            Some(side) => self.hear_of(side, event),
            None => self.hear(event),
        }
    }

    // Applies the hit of a member on itself that has come before an event, by the number of the side that acts in it.
    fn settle(&mut self, actor: u8)
        ensures { self.new ≡ settled_by actor self.old }
    {
        let waiting = self.may_hit_itself;
        self.may_hit_itself = 0;
        if has_hit_itself(1, actor, waiting) {
            self.one.hurt(DamageSource::Confusion);
        }
        if has_hit_itself(2, actor, waiting) {
            self.two.hurt(DamageSource::Confusion);
        }
    }

    // Applies an event that names a side.
    fn hear_of(&mut self, side: Side, event: &Event)
        requires named { side_named event.now ≡ Some side }
        ensures { self.new ≡ takes_in event.now self.old }
    {
        match side {
            Side::One => {
                let foe = self.two;
                self.one.hear(event, &foe);
                self.two.overhear(event);
            }
            Side::Two => {
                let foe = self.one;
                self.two.hear(event, &foe);
                self.one.overhear(event);
            }
        }
    }

    // Applies any other event.
    fn hear(&mut self, event: &Event)
        requires of_no_side { side_named event.now ≡ None }
        ensures { self.new ≡ takes_in event.now self.old }
    {
        match *event {
            Event::Turn(number) => self.turn = number.number(),
            Event::ClearAll => {
                self.one.clear();
                self.two.clear();
            }
            Event::Win(side) => self.outcome = won(side),
            Event::Tie => self.outcome = TIE,
            Event::Fault(code) => self.outcome = TIE + code.number(),
            Event::Activate(who, what) => self.activate(who.side, what),
            _ => {}
        }
    }

    // A hit on itself behind its own Substitute would not be reported.
    fn activate(&mut self, side: Side, what: Volatile)
        ensures { self.new ≡ activates side what self.old }
    {
        self.may_hit_itself = waiting_for(side, what, self.side(side).announced.substitute);
    }

    /// Returns what is public of a side.
    pub fn side(&self, side: Side) -> &PublicSide
        ensures { result.now ≡ public_side side self.now }
    {
        match side {
            Side::One => &self.one,
            Side::Two => &self.two,
        }
    }
}

fn won(side: Side) -> u8
    ensures { result ≡ outcome_byte (won_by side) }
{
    match side {
        Side::One => WIN_ONE,
        Side::Two => WIN_TWO,
    }
}

fn waiting_for(side: Side, what: Volatile, substitute: u8) -> u8
    ensures { result ≡ waiting_for side what substitute }
{
    if matches!(what, Volatile::Confusion) && substitute != 0 {
        side.number()
    } else {
        0
    }
}

fn has_hit_itself(side: u8, actor: u8, waiting: u8) -> bool
    ensures { result ≡ has_hit_itself side actor waiting }
{
    waiting == side && actor != side
}

// The number of the side whose member acts, or is kept from acting; 0 for none.
fn acting(event: &Event) -> u8
    ensures { result ≡ acting event.now }
{
    match event {
        Event::Move(who, _, _) => who.side.number(),
        Event::Cant(who, _) => who.side.number(),
        Event::Prepare(who, _) => who.side.number(),
        Event::Start(who, _) => who.side.number(),
        Event::End(who, _) => who.side.number(),
        Event::Activate(who, _) => who.side.number(),
        _ => 0,
    }
}

// The side that an event names, if it changes what is public of it.
fn side_named(event: &Event) -> Option<Side>
    ensures { result ≡ side_named event.now }
{
    match event {
        Event::Switch(who, _, _, _) => Some(who.side),
        Event::Move(who, _, _) => Some(who.side),
        Event::Cant(who, _) => Some(who.side),
        Event::Damage(who, _, _) => Some(who.side),
        Event::Heal(who, _) => Some(who.side),
        Event::Status(who, _) => Some(who.side),
        Event::Cure(who, _) => Some(who.side),
        Event::Faint(who) => Some(who.side),
        Event::Boost(who, _, _) => Some(who.side),
        Event::Unboost(who, _, _) => Some(who.side),
        Event::Start(who, _) => Some(who.side),
        Event::End(who, _) => Some(who.side),
        Event::Prepare(who, _) => Some(who.side),
        Event::MustRecharge(who) => Some(who.side),
        _ => None,
    }
}
