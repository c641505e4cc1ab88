//! What the log of a battle makes public of one side (docs/MECHANICS.md, "What the log makes public").
ghost use Rattle.std.specs.Prelude.{◌≡◌, ◌≤◌};
ghost use Rattle.gen1_tables.specs.Effects.{hides};
ghost use Rattle.gen1_machine.specs.LogBytes.{kind_or_0};
ghost use Rattle.gen1_player.specs.Public.{comes_out, ends_recharging, first_public_side, foe_hears, if_seen_out, is_cleared, is_going_on, may_go_on, new_uses, on_seen, prepares, reach_after, seen_at, seen_or_none, side_begins, side_hears, strikes, suffers_move, takes_damage, uses_move, uses_times};

use crate::announced::Announced;
use crate::seen::Seen;
use crate::stages::SeenStages;
use gen1_machine::{DamageSource, Event, Health, Kind, Volatile};
use gen1_tables::{Effect, MoveId, Species};

// The number of Bide, which is used as it starts.
const BIDE: u8 = 117;

/// What is public of a side.
#[repr(C)]
#[derive(Clone, Copy, Debug, PartialEq, Eq, Drop)]
pub struct PublicSide {
    /// By their places.
    pub members: [Seen; 6],
    /// Of the active member.
    pub announced: Announced,
    /// Of the active member.
    pub stages: SeenStages,
    /// The place of the active member, 1 to 6; 0 before the first came out.
    pub place: u8,
    /// The number of the active member's first type, 0 to 14.
    pub first_type: u8,
    /// The number of its second type, which is the first again for a member of one type.
    pub second_type: u8,
    /// The number of the move that the active member used or prepared last, 1 to 165; 0 for none since it came out.
    pub last_move: u8,
    /// 1 if Fly or Dig has taken the active member out of reach, which may outlast the move; else 0.
    pub invulnerable: u8,
    /// 0.
    pub unused: u8,
}

impl PublicSide {
    pub(crate) fn nothing() -> Self
        ensures { result ≡ first_public_side }
    {
        PublicSide {
            members: [Seen::none(); 6],
            stages: SeenStages::level(),
            place: 0,
            first_type: 0,
            second_type: 0,
            last_move: 0,
            announced: Announced::nothing(),
            invulnerable: 0,
            unused: 0,
        }
    }

    /// Applies an event that names a member of this side, next to the foe's side.
    pub(crate) fn hear(&mut self, event: &Event, foe: &PublicSide)
        ensures { self.new ≡ side_hears event.now foe.now self.old }
    {
        if let Event::Switch(who, place, level, health) = *event {
            self.come_out(who.species, place.number(), level.number(), health);
            return;
        }
        if self.place == 0 {
            return;
        }
        match *event {
            Event::Move(_, id, _) => self.use_move(id),
            Event::Cant(_, why) => {
                self.show(self.active().kept(why));
                self.announced.keep(why);
            }
            Event::Damage(_, health, source) => {
                self.set_hp(health.hp());
                self.hurt(source);
            }
            Event::Heal(_, health) => self.set_hp(health.hp()),
            Event::Status(_, kind) => {
                self.show(self.active().afflicted(kind));
                self.announced.afflict(kind, foe.last_move);
            }
            Event::Cure(_, _) => self.show(self.active().cured()),
            Event::Faint(_) => self.show(self.active().fainted()),
            Event::Boost(_, stat, count) => self.stages = self.stages.raised(stat, count.number()),
            Event::Unboost(_, stat, count) => {
                self.stages = self.stages.lowered(stat, count.number())
            }
            Event::Start(_, what) => self.begin(what, foe),
            Event::End(_, what) => self.announced.set(what, 0),
            Event::Prepare(_, id) => self.prepare(id),
            Event::MustRecharge(_) => self.announced.recharging = 1,
            _ => {}
        }
    }

    /// Applies an event that names a member of the foe's side.
    pub(crate) fn overhear(&mut self, event: &Event)
        ensures { self.new ≡ foe_hears event.now self.old }
    {
        if let Event::Move(_, id, _) = *event {
            self.suffer(id);
        }
    }

    /// Ends what damage of this source ends, and counts residual damage.
    pub(crate) fn hurt(&mut self, source: DamageSource)
        ensures { self.new ≡ takes_damage source self.old }
    {
        self.announced.hurt(source);
        self.invulnerable = reach_after(source, self.invulnerable);
    }

    /// Applies `ClearAll`.
    pub(crate) fn clear(&mut self)
        ensures { self.new ≡ if_seen_out is_cleared self.old }
    {
        if self.place == 0 {
            return;
        }
        self.stages = SeenStages::level();
        self.announced.clear();
    }

    /// Returns the member at a place from 1; a member that has not appeared at 0 and past 6.
    pub fn member(&self, place: u8) -> Seen
        ensures { result ≡ seen_or_none place self.now }
    {
        if place == 0 {
            return Seen::none();
        }
        match self.members.get(usize::from(place) - 1) {
            Some(member) => *member,
            None => Seen::none(),
        }
    }

    fn active(&self) -> Seen
        requires out { 1 ≤ self.now.place }
        ensures { result ≡ seen_at self.now.place self.now }
    {
        self.member(self.place)
    }

    // Changes what was seen of the active member.
    fn show(&mut self, seen: Seen)
        requires out { 1 ≤ self.old.place }
        ensures { self.new ≡ on_seen (λ _. seen) self.old }
    {
        let index = usize::from(self.place) - 1;
        if index < 6 {
            self.members[index] = seen;
        }
    }

    fn come_out(&mut self, species: Species, place: u8, level: u8, health: Health)
        ensures { self.new ≡ comes_out species place level health self.old }
    {
        if place == 0 || place > 6 {
            return;
        }
        self.place = place;
        let mut seen = self.active();
        seen.species = species.number();
        seen.level = level;
        seen.hp = health.hp();
        seen.max = health.max();
        seen.status = status_number(health.kind());
        self.show(seen);
        let [first, second] = species.types();
        self.first_type = first.number();
        self.second_type = second.number();
        self.stages = SeenStages::level();
        self.last_move = 0;
        self.announced = Announced::nothing();
        self.invulnerable = 0;
    }

    fn use_move(&mut self, id: MoveId)
        requires out { 1 ≤ self.old.place }
        ensures { self.new ≡ uses_move id self.old }
    {
        self.count_uses(id.number(), self.new_uses(id));
    }

    fn count_uses(&mut self, id: u8, more: u8)
        requires out { 1 ≤ self.old.place }
        ensures { self.new ≡ uses_times more id self.old }
    {
        self.last_move = id;
        let seen = self.active().after_use(id, more);
        self.show(seen);
        self.strike();
    }

    fn new_uses(&self, id: MoveId) -> u8
        ensures { result ≡ new_uses id self.now }
    {
        if self.is_going_on(id) { 0 } else { 1 }
    }

    fn is_going_on(&self, id: MoveId) -> bool
        ensures { result ≡ is_going_on id self.now }
    {
        self.announced.rage != 0 || self.last_move == id.number() && may_go_on(id.effect())
    }

    fn prepare(&mut self, id: MoveId)
        requires out { 1 ≤ self.old.place }
        ensures { self.new ≡ prepares id self.old }
    {
        self.last_move = id.number();
        let seen = self.active().after_use(id.number(), 0);
        self.show(seen);
        self.announced.charging = 1;
        self.announced.recharging = 0;
        if hides(id.effect()) {
            self.invulnerable = 1;
        }
    }

    fn strike(&mut self)
        ensures { self.new ≡ strikes self.old }
    {
        if self.announced.charging != 0 {
            self.invulnerable = 0;
        }
        self.announced.bide = 0;
        self.announced.charging = 0;
        self.announced.recharging = 0;
    }

    fn suffer(&mut self, id: MoveId)
        ensures { self.new ≡ if_seen_out (suffers_move id) self.old }
    {
        if self.place == 0 {
            return;
        }
        self.show(self.active().overtaken());
        if ends_recharging(id.effect()) {
            self.announced.recharging = 0;
        }
    }

    fn set_hp(&mut self, hp: u16)
        requires out { 1 ≤ self.old.place }
        ensures { self.new ≡ on_seen (λ m. record m { hp = hp }) self.old }
    {
        let mut seen = self.active();
        seen.hp = hp;
        self.show(seen);
    }

    fn begin(&mut self, what: Volatile, foe: &PublicSide)
        requires out { 1 ≤ self.old.place }
        ensures { self.new ≡ side_begins what foe.now self.old }
    {
        match what {
            Volatile::TypeChange => {
                self.first_type = foe.first_type;
                self.second_type = foe.second_type;
            }
            Volatile::Bide => {
                self.count_uses(BIDE, 1);
                self.announced.bide = 1;
            }
            _ => self.announced.set(what, 1),
        }
    }
}

fn may_go_on(effect: Effect) -> bool
    ensures { result ≡ may_go_on effect }
{
    effect.traps() || effect.thrashes()
}

fn ends_recharging(effect: Effect) -> bool
    ensures { result ≡ ends_recharging effect }
{
    matches!(effect, Effect::InflictSleep) || effect.traps()
}

fn reach_after(source: DamageSource, invulnerable: u8) -> u8
    ensures { result ≡ reach_after source invulnerable }
{
    if matches!(source, DamageSource::Confusion) {
        0
    } else {
        invulnerable
    }
}

fn hides(effect: Effect) -> bool
    ensures { result ≡ hides effect }
{
    matches!(effect, Effect::ChargeInvulnerable)
}

fn status_number(kind: Option<Kind>) -> u8
    ensures { result ≡ kind_or_0 kind }
{
    match kind {
        Some(kind) => kind.number(),
        None => 0,
    }
}
