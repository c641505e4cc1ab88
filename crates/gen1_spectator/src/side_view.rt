//! What one side shows (docs/MECHANICS.md, "Spectator's view").
ghost use Rattle.std.specs.Prelude.{None, false, length, map, ◌≡◌, ◌≤◌};
ghost use Rattle.gen1_stats.specs.Members.{Member as Begun};
ghost use Rattle.gen1_machine.specs.CurrentStats.{stage_of};
ghost use Rattle.gen1_machine.specs.View.{cleared, first_side_view, if_out, not_shown, on_shown, sees_drop, sees_rise, sees_switch, sees_volatile, shown_at};
ghost use Rattle.gen1_spectator.specs.Plain.{IsPlainSide, plain_side, shown_of, side_view_of, member_shown, side_sees};

use crate::plain::{PlainMember, PlainSide, bit};
use crate::shown::{Shown, Stages};
use arrayvec::ArrayVec;
use gen1_machine::{Event, Health, Kind, Place, Volatile};
use gen1_stats::{Member, Team};
use gen1_tables::Stat;
use std::marker::Model;

/// Each member's health, and what the active one shows.
#[derive(Clone, Debug, PartialEq, Eq, Drop)]
pub(crate) struct SideView {
    place: u8,
    members: ArrayVec<Shown, 6>,
    stages: Stages,
    substitute: bool,
    confused: bool,
    light_screen: bool,
    reflect: bool,
}

impl Model for SideView {
    ghost use Rattle.std.specs.Prelude.{length, ◌≤◌};
    ghost use Rattle.gen1_machine.specs.View.{SideView};

    ghost Value = { SideView };

    ghost view = { λ s. record {
      place = s.place;
      members = s.members.items;
      stages = s.stages;
      substitute = s.substitute;
      confused = s.confused;
      light_screen = s.light_screen;
      reflect = s.reflect;
    } };

    ghost invariant = { λ s. s.place ≤ length s.members.items };

    ghost inverse = { λ s. record {
      place = s.place;
      members = record { items = s.members };
      stages = s.stages;
      substitute = s.substitute;
      confused = s.confused;
      light_screen = s.light_screen;
      reflect = s.reflect;
    } };
}

impl SideView {
    /// The team's members, none of which is out yet.
    pub(crate) fn new(team: &Team) -> Self
        ensures { result ≡ first_side_view team.now }
    {
        SideView {
            place: 0,
            members: unhurt(team.members()),
            stages: Stages::level(),
            substitute: false,
            confused: false,
            light_screen: false,
            reflect: false,
        }
    }

    /// The view of a plain struct. If its numbers are out of range it is some view.
    pub(crate) fn of_plain(plain: &PlainSide) -> Self
        ensures { IsPlainSide plain.now → result ≡ side_view_of plain.now }
    {
        let count = usize::from(plain.count.min(6));
        let members = shown_by(&plain.members[..count]);
        SideView {
            place: plain.place.min(members.len() as u8),
            members,
            stages: Stages::of_plain(&plain.stages),
            substitute: plain.substitute != 0,
            confused: plain.confused != 0,
            light_screen: plain.light_screen != 0,
            reflect: plain.reflect != 0,
        }
    }

    /// The side's view as a plain struct.
    pub(crate) fn plain(&self) -> PlainSide
        ensures view { side_view_of result ≡ self.now }
        ensures exact { result ≡ plain_side self.now }
        ensures ranges { IsPlainSide result }
    {
        PlainSide {
            members: [
                self.member(1).plain(),
                self.member(2).plain(),
                self.member(3).plain(),
                self.member(4).plain(),
                self.member(5).plain(),
                self.member(6).plain(),
            ],
            count: self.members.len() as u8,
            place: self.place,
            stages: self.stages.plain(),
            substitute: bit(self.substitute),
            confused: bit(self.confused),
            light_screen: bit(self.light_screen),
            reflect: bit(self.reflect),
        }
    }

    pub(crate) fn place(&self) -> u8
        ensures { result ≡ self.now.place }
    {
        self.place
    }

    /// The member at a place from 1; none at 0 and past the last.
    pub(crate) fn member(&self, place: u8) -> Shown
        ensures { result ≡ member_shown place self.now }
    {
        if place == 0 {
            return Shown::default();
        }
        match self.members.get(usize::from(place) - 1) {
            Some(member) => *member,
            None => Shown::default(),
        }
    }

    pub(crate) fn stage(&self, stat: Stat) -> u8
        ensures value { result ≡ stage_of stat self.now.stages }
        ensures high { result ≤ 12 }
    {
        self.stages.stage(stat)
    }

    pub(crate) fn substitute(&self) -> bool
        ensures { result ≡ self.now.substitute }
    {
        self.substitute
    }

    pub(crate) fn confused(&self) -> bool
        ensures { result ≡ self.now.confused }
    {
        self.confused
    }

    pub(crate) fn light_screen(&self) -> bool
        ensures { result ≡ self.now.light_screen }
    {
        self.light_screen
    }

    pub(crate) fn reflect(&self) -> bool
        ensures { result ≡ self.now.reflect }
    {
        self.reflect
    }

    /// Applies an event of this side.
    pub(crate) fn see(&mut self, event: &Event)
        ensures { self.new ≡ side_sees event.now self.old }
    {
        match *event {
            Event::Switch(_, place, _, health) => self.switch(place.number(), health),
            Event::Damage(_, health, _) => self.set_hp(health.hp()),
            Event::Heal(_, health) => self.set_hp(health.hp()),
            Event::Status(_, kind) => self.set_kind(Some(kind)),
            Event::Cure(_, _) => self.set_kind(None),
            Event::Faint(_) => self.fall(),
            Event::Boost(_, stat, count) => self.raise(stat, count.number()),
            Event::Unboost(_, stat, count) => self.lower(stat, count.number()),
            Event::Start(_, volatile) => self.set(volatile, true),
            Event::End(_, volatile) => self.set(volatile, false),
            _ => {}
        }
    }

    // A member comes out, if there is one at the place.
    fn switch(&mut self, place: u8, health: Health)
        ensures { self.new ≡ sees_switch place health self.old }
    {
        if place == 0 || usize::from(place) > self.members.len() {
            return;
        }
        self.clear();
        self.place = place;
        self.substitute = false;
        self.show(Shown::new(health.hp(), health.kind()));
    }

    /// Sets all stages to unchanged, and ends confusion and screens.
    pub(crate) fn clear(&mut self)
        ensures { self.new ≡ cleared self.old }
    {
        self.stages = Stages::level();
        self.confused = false;
        self.light_screen = false;
        self.reflect = false;
    }

    fn set_hp(&mut self, hp: u16)
        ensures { self.new ≡ if_out (on_shown (λ m. record m { hp = hp })) self.old }
    {
        if self.place == 0 {
            return;
        }
        let kind = self.active().kind();
        self.show(Shown::new(hp, kind));
    }

    fn set_kind(&mut self, kind: Option<Kind>)
        ensures { self.new ≡ if_out (on_shown (λ m. record m { kind = kind })) self.old }
    {
        if self.place == 0 {
            return;
        }
        let hp = self.active().hp();
        self.show(Shown::new(hp, kind));
    }

    fn fall(&mut self)
        ensures { self.new ≡ if_out (on_shown (λ m. not_shown)) self.old }
    {
        if self.place == 0 {
            return;
        }
        self.show(Shown::default());
    }

    // The active member.
    fn active(&self) -> Shown
        requires out { 1 ≤ self.now.place }
        ensures { result ≡ shown_at self.now.place self.now }
    {
        self.member(self.place)
    }

    // Changes what the active member shows.
    fn show(&mut self, shown: Shown)
        requires out { 1 ≤ self.old.place }
        ensures { self.new ≡ on_shown (λ _. shown) self.old }
    {
        let index = usize::from(self.place) - 1;
        self.members.as_mut_slice()[index] = shown;
    }

    fn raise(&mut self, stat: Stat, count: u8)
        requires few { count ≤ 2 }
        ensures { self.new ≡ if_out (sees_rise stat count) self.old }
    {
        if self.place == 0 {
            return;
        }
        self.stages = self.stages.raised(stat, count);
    }

    fn lower(&mut self, stat: Stat, count: u8)
        ensures { self.new ≡ if_out (sees_drop stat count) self.old }
    {
        if self.place == 0 {
            return;
        }
        self.stages = self.stages.lowered(stat, count);
    }

    fn set(&mut self, volatile: Volatile, on: bool)
        ensures { self.new ≡ if_out (sees_volatile volatile on) self.old }
    {
        if self.place == 0 {
            return;
        }
        match volatile {
            Volatile::Confusion => self.confused = on,
            Volatile::Substitute => self.substitute = on,
            Volatile::LightScreen => self.light_screen = on,
            Volatile::Reflect => self.reflect = on,
            _ => {}
        }
    }
}

// Each member at full HP, without a status.
fn unhurt(members: &[Member]) -> ArrayVec<Shown, 6>
    requires few { length members.now ≤ 6 }
    ensures { result.items ≡ map (λ (m : Begun). record { hp = m.max; kind = None }) members.now }
{
    let mut shown = ArrayVec::new();
    for member in members {
        shown.push(Shown::new(member.max_hp(), None));
    }
    shown
}

// What these members show.
fn shown_by(members: &[PlainMember]) -> ArrayVec<Shown, 6>
    requires few { length members.now ≤ 6 }
    ensures { result.items ≡ map shown_of members.now }
{
    let mut shown = ArrayVec::new();
    for member in members {
        shown.push(Shown::of_plain(member));
    }
    shown
}
