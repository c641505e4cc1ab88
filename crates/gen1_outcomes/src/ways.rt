//! Each way of an update apart (docs/MECHANICS.md, "Link numbers").
ghost use Rattle.std.specs.Prelude.{IfErr, IfNone, IfOk, IfSome, IsOkUnless, Some, [], false, ◌≡◌, ◌⊎◌};
ghost use Rattle.gen1_machine.specs.State.{State};
ghost use Rattle.gen1_layout.specs.Shows.{Stands};
ghost use Rattle.gen1_layout.specs.Words.{HasRoom, Reads, ReadsPacked};
ghost use Rattle.gen1_engine.specs.Update.{AreOffered, Tests};
ghost use Rattle.gen1_outcomes.specs.Beginning.{have_two_actions};
ghost use Rattle.gen1_outcomes.specs.declared.successor.OutcomesFault.TheVariants.{Size};
ghost use Rattle.gen1_outcomes.specs.Plain.{CanFollow, IsBegun, PlaysNext};
ghost use Rattle.gen1_outcomes.specs.Nodes.{IsChance, IsTooLarge};
ghost use Rattle.gen1_outcomes.specs.Middles.{IsElsewhere, IsTooLong, PlaysOn, Reaches, ReachesFrom};

use crate::beginning::{Left, begin, end_roll, end_second, have_two_actions, lead, play};
use crate::explorer::{Explorer, Noted};
use crate::middles::Middle;
use crate::nodes::{Chance, Nodes};
use crate::successor::{OutcomeOptions, OutcomesFault};
use gen1_engine::Refusal;
use gen1_engine::packed::update_silent;
use gen1_events::{EventSink, Silent};
use gen1_layout::{Packed, copy_of};
use gen1_machine::Choice;
use std::marker::Model;

/// The ways of an update. Each plays it with other bytes for its draws, which exclude those of all other ways.
///
/// For contracts it is the battle with the choices.
#[derive(Drop)]
pub struct Ways {
    start: Packed,
    one: Choice,
    two: Choice,
    options: OutcomeOptions,
    nodes: Nodes,
    over: bool,
}

impl Model for Ways {
    ghost use Rattle.gen1_outcomes.specs.Plain.{Walk};

    ghost Value = { Walk };

    ghost view = { λ w. record { start = w.start; one = w.one; two = w.two; options = w.options; nodes = w.nodes; over = w.over } };
}

impl Ways {
    /// The ways of an update of the battle by a choice of each side, before the first.
    ///
    /// With a `least` above 0, a way whose probability is below it is one of those that begin with the same draws, and has the
    /// probability of all of them ([`is_below`]).
    ///
    /// # Errors
    ///
    /// The first that applies: the battle is over, side 1's choice is not offered, side 2's is not.
    pub fn new(
        battle: &Packed,
        one: Choice,
        two: Choice,
        options: OutcomeOptions,
    ) -> Result<Ways, Refusal>
        ensures walk { IfOk result (IsBegun battle.now one two options) }
        ensures offered { (s : State) → Stands battle.now s
            → IfOk result (λ _. AreOffered s one two) }
        ensures refused { (s : State) → Stands battle.now s
            → IfErr result (λ why. Tests s one two (Some why)) }
    {
        // The update itself says whether it is refused.
        let mut copy = copy_of(battle);
        match update_silent(&mut copy, copied(&one), copied(&two)) {
            Err(why) => Err(why),
            Ok(_) => Ok(Ways {
                start: copy_of(battle),
                one,
                two,
                options,
                nodes: Nodes::new(options),
                over: false,
            }),
        }
    }

    /// Plays the next way, and returns its probability. `None`: all were played. The battle that it leads to is written
    /// to `battle`, and its events to a sink that is still empty.
    ///
    /// # Errors
    ///
    /// `Size`, if the way has too many draws. No known update has.
    pub fn next<S: EventSink>(
        &mut self,
        battle: &mut Packed,
        events: &mut S,
    ) -> Result<Option<Chance>, OutcomesFault>
        requires empty { S.tells events.old [] }
        requires room { HasRoom S.room 51 events.old }
        ensures follows { (s : State) → Stands self.old.start s
            → AreOffered s self.old.one self.old.two → IfOk result (λ way. IfSome way (λ _.
            CanFollow s self.old.one self.old.two battle.new (S.tells events.new))) }
        ensures next { IfOk result (λ way.
            PlaysNext way self.old self.new battle.new (S.tells events.new)) }
        ensures size { IsOkUnless result Size }
        ensures large { IfErr result (λ _. IsTooLarge self.new.nodes) }
    {
        if self.over {
            return Ok(None);
        }
        *battle = copy_of(&self.start);
        let path = self.nodes.path();
        let explorer = Explorer::new(path, Noted::of(&mut self.nodes));
        explorer.draws_a_stream();
        play(
            battle,
            copied(&self.one),
            copied(&self.two),
            explorer,
            events,
        );
        match self.nodes.chance() {
            Some(chance) => {
                self.over = !self.nodes.advance();
                Ok(Some(chance))
            }
            None => Err(OutcomesFault::Size),
        }
    }
}

impl Ways {
    /// Plays the update up to its second action, in the way that the nodes are at. `None` if that way is too large.
    pub(crate) fn begin(&self, nodes: &mut Nodes) -> Option<Middle>
        requires options { nodes.old.options ≡ self.now.options }
        ensures options { nodes.new.options ≡ self.now.options }
        ensures draws { IfSome result (λ middle. middle.draws ≡ nodes.new.len) }
        ensures chance { IfSome result (λ middle. IsChance nodes.new middle.chance) }
        ensures one { IfSome result (λ middle. middle.ways ≡ 1) }
        ensures reaches { IfSome result (λ middle.
            Reaches self.now nodes.old nodes.new middle) }
        ensures fits { IfSome result (λ _. nodes.new.too_large ≡ false) }
        ensures large { IfNone result (IsTooLarge nodes.new) }
    {
        let mut battle = copy_of(&self.start);
        let path = nodes.path();
        let mut explorer = Explorer::new(path, Noted::of(&mut *nodes));
        let one = copied(&self.one);
        let two = copied(&self.two);
        explorer.draws_a_stream();
        let rest = begin(&mut battle, one, two, &mut explorer);
        match nodes.chance() {
            Some(chance) => Some(Middle::new(&battle, Left::Second(rest), nodes, chance)),
            None => None,
        }
    }

    /// Plays on from a position before the second action, up to the roll of its damage or to the end, in the way that the nodes are at. `None`
    /// if that way is too large, or if the position is another one.
    pub(crate) fn lead(&self, nodes: &mut Nodes, middle: &Middle) -> Option<Middle>
        requires options { nodes.old.options ≡ self.now.options }
        ensures options { nodes.new.options ≡ self.now.options }
        ensures chance { IfSome result (λ to. IsChance nodes.new to.chance) }
        ensures ways { IfSome result (λ to. to.ways ≡ middle.now.ways) }
        ensures reaches { IfSome result (λ to. ReachesFrom self.now middle.now nodes.old nodes.new to) }
        ensures fits { IfSome result (λ _. nodes.new.too_large ≡ false) }
        ensures large { IfNone result (IsTooLong middle.now nodes.new ⊎ IsElsewhere middle.now) }
    {
        let Some(Left::Second(rest)) = middle.rest else {
            return None;
        };
        let mut battle = copy_of(&self.start);
        middle.write_to(&mut battle);
        let path = nodes.path();
        let mut explorer = Explorer::new(path, Noted::of(&mut *nodes));
        explorer.draws_a_stream();
        let left = lead(&mut battle, rest, &mut explorer);
        match middle.chance_with(nodes) {
            Ok(chance) => Some(middle.then(&battle, left, nodes, chance)),
            Err(_) => None,
        }
    }

    /// No draw yet of the ways that lead there and go on.
    pub(crate) fn restart(&self, middle: &Middle) -> Nodes
        ensures options { result.options ≡ self.now.options }
        ensures empty { result.len ≡ 0 }
        ensures at { result.at ≡ 0 }
        ensures before { result.before ≡ middle.now.chance }
    {
        // A copy costs less than new nodes.
        let mut nodes = self.nodes;
        nodes.options = self.options;
        nodes.clear(middle.chance);
        nodes
    }

    /// Plays on from there in the way that has these draws, and returns its probability.
    ///
    /// # Errors
    ///
    /// `Size`, if the way has too many draws, or if 128 bits do not hold the probability.
    pub(crate) fn go_on(
        &self,
        nodes: &mut Nodes,
        middle: &Middle,
        battle: &mut Packed,
    ) -> Result<Chance, OutcomesFault>
        requires options { nodes.old.options ≡ self.now.options }
        ensures options { nodes.new.options ≡ self.now.options }
        ensures plays { PlaysOn self.now middle.now nodes.old nodes.new battle.new }
        ensures chance { IfOk result (λ c. IsChance nodes.new c) }
        ensures fits { IfOk result (λ _. nodes.new.too_large ≡ false) }
        ensures size { IsOkUnless result Size }
        ensures large { IfErr result (λ _. IsTooLong middle.now nodes.new) }
    {
        self.play_on(nodes, middle, battle);
        middle.chance_with(nodes)
    }

    // Plays the rest of the update from a position, or all of it from its beginning.
    fn play_on(&self, nodes: &mut Nodes, middle: &Middle, battle: &mut Packed)
        requires options { nodes.old.options ≡ self.now.options }
        ensures options { nodes.new.options ≡ self.now.options }
        ensures plays { PlaysOn self.now middle.now nodes.old nodes.new battle.new }
    {
        let path = nodes.path();
        let mut explorer = Explorer::new(path, Noted::of(&mut *nodes));
        explorer.draws_a_stream();
        match middle.rest {
            Some(Left::Second(rest)) => {
                middle.write_to(battle);
                end_second(battle, rest, &mut explorer);
            }
            Some(Left::Roll(side, roll)) => {
                middle.write_to(battle);
                end_roll(battle, side, roll, &mut explorer);
            }
            None => {
                *battle = copy_of(&self.start);
                let one = copied(&self.one);
                let two = copied(&self.two);
                play(battle, one, two, explorer, &mut Silent);
            }
        }
    }

    /// Whether both sides use a move, so that the update has two actions.
    pub(crate) fn has_two_actions(&self) -> bool
        ensures packs { ReadsPacked self.now.start result (have_two_actions self.now.one self.now.two) }
        ensures stands { Reads self.now.start result (have_two_actions self.now.one self.now.two) }
    {
        have_two_actions(&self.start, &self.one, &self.two)
    }

    /// The battle before the update.
    pub(crate) fn start(&self) -> &Packed
        ensures { result.now ≡ self.now.start }
    {
        &self.start
    }

    /// How the outcomes are listed.
    pub(crate) fn options(&self) -> OutcomeOptions
        ensures { result ≡ self.now.options }
    {
        self.options
    }
}

// A choice that is used twice. The borrow checker covers no function that passes a value of type Copy twice.
fn copied(choice: &Choice) -> Choice
    ensures { result ≡ choice.now }
{
    *choice
}
