//! The reader of the sentences of a battle, and the members that are out.
ghost use Rattle.std.specs.Prelude.{None, Some, ◌≡◌};
ghost use Rattle.gen1_machine.specs.Sides.{other};
ghost use Rattle.gen1_machine.specs.Numbers.{side_number};
ghost use Rattle.gen1_sentences.specs.Sentences.{before, follows, meets, narrator_of, of_side, person, put};

use gen1_machine::{Event, Health, Side, Who};

/// How sentences refer to a side.
#[derive(Clone, Copy, Debug, PartialEq, Eq, Drop)]
pub enum Person {
    /// "Your Tauros", "You send out Tauros."
    You,
    /// "The foe's Tauros"
    Foe,
    /// "Side 1's Tauros", for a spectator.
    One,
    Two,
}

/// The member of a side that is out, as the events so far show it.
#[repr(C)]
#[derive(Clone, Copy, Debug, PartialEq, Eq, Drop)]
pub struct Told {
    /// Its HP, in the units of the log.
    pub hp: u16,
    /// The number of its species; 0 before the first came out.
    pub species: u8,
    /// Whether HP of this side are in per cent: if not 0.
    pub in_percent: u8,
}

/// The reader of the sentences of a battle, and the members that are out. Any numbers are a narrator.
#[repr(C)]
#[derive(Clone, Copy, Debug, PartialEq, Eq, Drop)]
pub struct Narrator {
    pub one: Told,
    pub two: Told,
    /// The side that is called you, 1 or 2; any other number for a spectator.
    pub you: u8,
    /// Not read. 0.
    pub reserved: u8,
}

impl Narrator {
    /// A narrator before a battle. `you` is the side that reads its sentences, `None` for a spectator. `in_percent` says for which
    /// sides HP are in per cent, as for logs whose HP are shares (docs/MECHANICS.md, "What a side is told").
    pub fn new(you: Option<Side>, in_percent: [bool; 2]) -> Self
        ensures { result ≡ narrator_of you in_percent }
    {
        let you = match you {
            Some(side) => side.number(),
            None => 0,
        };
        let [one, two] = in_percent;
        Narrator {
            one: before(one),
            two: before(two),
            you,
            reserved: 0,
        }
    }

    /// Notes what an event says of the members that are out. The sentences of later events need it.
    pub fn follow(&mut self, event: &Event)
        ensures { self.new ≡ follows event.now self.old }
    {
        match *event {
            Event::Switch(who, _, _, health) => self.meet(who, health),
            Event::Damage(who, health, _) => self.meet(who, health),
            Event::Heal(who, health) => self.meet(who, health),
            Event::Faint(who) => self.put(who.side, 0, who.species.number()),
            _ => {}
        }
    }

    fn meet(&mut self, who: Who, health: Health)
        ensures { self.new ≡ meets who health self.old }
    {
        self.put(who.side, health.hp(), who.species.number());
    }

    fn put(&mut self, side: Side, hp: u16, species: u8)
        ensures { self.new ≡ put side hp species self.old }
    {
        match side {
            Side::One => self.one = Told {
                hp,
                species,
                ..self.one
            },
            Side::Two => self.two = Told {
                hp,
                species,
                ..self.two
            },
        }
    }

    pub(crate) fn of_side(&self, side: Side) -> Told
        ensures { result ≡ of_side side self.now }
    {
        match side {
            Side::One => self.one,
            Side::Two => self.two,
        }
    }

    pub(crate) fn person(&self, side: Side) -> Person
        ensures { result ≡ person self.now side }
    {
        if self.you == side.number() {
            return Person::You;
        }
        if self.you == side.other().number() {
            return Person::Foe;
        }
        match side {
            Side::One => Person::One,
            Side::Two => Person::Two,
        }
    }
}

fn before(in_percent: bool) -> Told
    ensures { result ≡ before in_percent }
{
    Told {
        hp: 0,
        species: 0,
        in_percent: u8::from(in_percent),
    }
}
