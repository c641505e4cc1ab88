//! The ways of an update as a plain struct that its caller keeps, as callers of the C library do (docs/MECHANICS.md, "Link numbers").
//! The calls take any bytes. [`Ways`](crate::Ways) is for callers that want its type to guarantee them.
ghost use Rattle.std.specs.Prelude.{IfNone, IfOk, IfSome, IsFalse, IsTrue, None, Ok, OnErr, Some, [], replicate, slice_index, ◌*◌, ◌+◌, ◌≡◌, ◌≢◌, ◌≤◌, ◌⊎◌};
ghost use Rattle.gen1_rolls.specs.declared.rolls.Look.TheVariants.{Factor};
ghost use Rattle.gen1_machine.specs.declared.side.Choice.{Choice};
ghost use Rattle.gen1_machine.specs.State.{State};
ghost use Rattle.gen1_layout.specs.Shows.{Stands};
ghost use Rattle.gen1_layout.specs.Words.{HasRoom};
ghost use Rattle.gen1_engine.specs.Replay.{choices_at};
ghost use Rattle.gen1_engine.specs.Update.{AreOffered};
ghost use Rattle.gen1_outcomes.specs.Plain.{CanFollow, ArePlain, HasDraws, IsDraw, IsPlain, IsUnderway, IsWay, KeepsUnused, KeepsUpdate, PlaysPlain, look_at, number_of, walk_before};

use crate::beginning::play;
use crate::byte_set::ByteSet;
use crate::explorer::{DEPTH, Explorer, Noted};
use crate::nodes::{Chance, Node, Nodes};
use crate::successor::{OutcomeOptions, OutcomesFault};
use gen1_events::EventSink;
use gen1_layout::{Packed, copy_of};
use gen1_machine::Choice;
use gen1_rolls::Look;

/// A draw or a search of a way.
#[repr(C)]
#[derive(Clone, Copy)]
pub struct PlainDraw {
    /// The numerator of the probability of the draws before it, its low 64 bits first.
    pub num: [u64; 2],
    /// The denominator.
    pub whole: [u64; 2],
    /// The bytes that are still to be tried: a bit for each of 256.
    pub rest: [u64; 4],
    /// How many bytes it may have.
    pub total: u16,
    /// How many of them are alike to `byte`.
    pub count: u16,
    /// The numbers of what is looked at: the bound or the divisor; or the damage, and its edge.
    pub look: [u16; 2],
    /// What is looked at: 0 `Below`, 1 `RotatedBelow`, 2 `Remainder`; `Factor`: 3 where it is cut, and else 4.
    pub kind: u8,
    /// The byte that it has on the next way.
    pub byte: u8,
    /// Always 0.
    pub unused: [u8; 6],
}

/// The ways of an update that are still to be played. Only `next` changes it.
#[repr(C)]
#[derive(Drop)]
pub struct PlainWalk {
    /// The battle before the update.
    pub battle: Packed,
    /// The draws of the next way as far as they are known, in the first places.
    pub draws: [PlainDraw; 24],
    /// How many there are, 0 to 24.
    pub count: u8,
    /// The byte of side 1's choice.
    pub one: u8,
    /// Side 2's.
    pub two: u8,
    /// The number of classes of damage. 0: each damage is a class.
    pub damage_classes: u8,
    /// 1 after the last way, else 0.
    pub over: u8,
    /// Always 0.
    pub unused: [u8; 3],
}

/// The ways of an update of the battle by the bytes of two offered choices, before the first way. `damage_classes` is that of
/// [`OutcomeOptions`]. No way is left out.
///
/// It is not tested whether the choices are offered. If one is not, the ways lead to battles that mean nothing.
pub fn first(battle: &Packed, one: u8, two: u8, damage_classes: u8) -> PlainWalk
    ensures { result ≡ walk_before battle.now (one, two) damage_classes }
{
    PlainWalk {
        battle: copy_of(battle),
        draws: [PlainDraw {
            num: [0; 2],
            whole: [0; 2],
            rest: [0; 4],
            total: 0,
            count: 0,
            look: [0; 2],
            kind: 0,
            byte: 0,
            unused: [0; 6],
        }; 24],
        count: 0,
        one,
        two,
        damage_classes,
        over: 0,
        unused: [0; 3],
    }
}

/// A copy of the battle before the update.
pub fn start_of(walk: &PlainWalk) -> Packed
    ensures { result ≡ walk.now.battle }
{
    copy_of(&walk.battle)
}

/// Plays the next way, and returns its probability. Returns `None` if all ways were played or the bytes are not a walk. The battle that it leads
/// to is written to `battle`, and its events to a sink that is still empty.
///
/// # Errors
///
/// `Size`, if the way has too many draws. No known update has. Then the walk is as it was.
pub fn next<S: EventSink>(
    walk: &mut PlainWalk,
    battle: &mut Packed,
    events: &mut S,
) -> Result<Option<Chance>, OutcomesFault>
    requires empty { S.tells events.old [] }
    requires room { HasRoom S.room 51 events.old }
    ensures follows { (s : State) → Stands walk.old.battle s → (pair : Choice × Choice)
        → choices_at (walk.old.one, walk.old.two) ≡ Some pair → AreOffered s pair.0 pair.1
        → IfOk result (λ way. IfSome way (λ _.
        CanFollow s pair.0 pair.1 battle.new (S.tells events.new))) }
    ensures update { KeepsUpdate walk.old walk.new }
    ensures unused { KeepsUnused walk.old.draws walk.new.draws }
    ensures over { IfOk result (λ way. IfSome way (λ _. (walk.new.over ≡ 0) ⊎ (walk.new.over ≡ 1))) }
    ensures count { IfOk result (λ way. IfSome way (λ _. walk.new.count ≤ 24)) }
    ensures chance { IfOk result (λ way. IfSome way (λ c. IsWay c walk.new)) }
    ensures plays { IfOk result (λ way. IfSome way (λ c.
        PlaysPlain c walk.old walk.new battle.new (S.tells events.new))) }
    ensures underway { result ≢ Ok None → IsUnderway walk.old }
    ensures way { IsUnderway walk.old → result ≢ Ok None }
    ensures ended { walk.old.over ≢ 0 → result ≡ Ok None }
    ensures still { result ≡ Ok None → walk.new ≡ walk.old }
    ensures size { OnErr result (walk.new ≡ walk.old) }
{
    if walk.over != 0 {
        return Ok(None);
    }
    let Some(one) = Choice::from_byte(walk.one) else {
        return Ok(None);
    };
    let Some(two) = Choice::from_byte(walk.two) else {
        return Ok(None);
    };
    let mut nodes = Nodes::new(OutcomeOptions {
        damage_classes: walk.damage_classes,
        least: 0,
    });
    if !read_nodes(walk, &mut nodes) {
        return Ok(None);
    }
    *battle = copy_of(&walk.battle);
    let path = nodes.path();
    let explorer = Explorer::new(path, Noted::of(&mut nodes));
    explorer.draws_a_stream();
    play(battle, one, two, explorer, events);
    match nodes.chance() {
        Some(chance) => {
            walk.over = u8::from(!nodes.advance());
            walk.count = nodes.len as u8;
            write_nodes(&nodes, &mut walk.draws);
            Ok(Some(chance))
        }
        None => Err(OutcomesFault::Size),
    }
}

// Reads the draws of a walk. Returns false if the bytes are not a walk.
fn read_nodes(walk: &PlainWalk, nodes: &mut Nodes) -> bool
    requires classes { nodes.old.options.damage_classes ≡ walk.now.damage_classes }
    requires all { nodes.old.options.least ≡ 0 }
    ensures options { nodes.new.options ≡ nodes.old.options }
    ensures length { IsTrue result → nodes.new.len ≡ walk.now.count }
    ensures draws { IsTrue result → ArePlain walk.now.count nodes.new.list walk.now.draws }
    ensures reads { IsTrue result → HasDraws walk.now }
    ensures no_walk { IsFalse result → HasDraws walk.now → ⊥ }
{
    let count = usize::from(walk.count);
    if count > DEPTH {
        return false;
    }
    'places: for place in 0..count {
        match node_of(&walk.draws[place], walk.damage_classes) {
            Some(node) => nodes.list[place] = node,
            None => return false,
        }
    }
    nodes.len = count;
    true
}

fn write_nodes(nodes: &Nodes, written: &mut [PlainDraw; 24])
    ensures draws { ArePlain nodes.now.len nodes.now.list written.new }
    ensures unused { KeepsUnused written.old written.new }
{
    'places: for place in 0..nodes.len {
        written[place] = plain_of(&nodes.list[place]);
    }
}

fn node_of(plain: &PlainDraw, damage_classes: u8) -> Option<Node>
    ensures draw { IfSome result (λ node. IsPlain node plain.now) }
    ensures classes { IfSome result (λ node. node.damage_classes ≡ damage_classes) }
    ensures reads { IfSome result (λ _. IsDraw plain.now) }
    ensures no_draw { IfNone result (IsDraw plain.now → ⊥) }
{
    let rest = ByteSet { words: plain.rest };
    let whole = joined(plain.whole);
    if whole == 0 || u32::from(plain.count) + u32::from(rest.count()) > u32::from(plain.total) {
        return None;
    }
    Some(Node {
        byte: plain.byte,
        look: look_of(plain.kind, plain.look)?,
        damage_classes,
        above: Chance {
            num: joined(plain.num),
            whole,
        },
        rest,
        total: plain.total,
        count: plain.count,
    })
}

fn plain_of(node: &Node) -> PlainDraw
    ensures draw { IsPlain node.now result }
    ensures unused { result.unused ≡ replicate 6 0 }
{
    let (kind, look) = numbers_of(node.look);
    PlainDraw {
        num: words_of(node.above.num),
        whole: words_of(node.above.whole),
        rest: node.rest.words,
        total: node.total,
        count: node.count,
        look,
        kind,
        byte: node.byte,
        unused: [0; 6],
    }
}

fn look_of(kind: u8, look: [u16; 2]) -> Option<Look>
    ensures value { result ≡ look_at kind look }
    ensures none { IfNone result (5 ≤ kind) }
    ensures some { IfSome result (λ _. kind ≤ 4) }
{
    match kind {
        0 => Some(Look::Below(look[0].min(255) as u8)),
        1 => Some(Look::RotatedBelow(look[0].min(255) as u8)),
        2 => Some(Look::Remainder(look[0])),
        3 => Some(factor_of(look, true)),
        4 => Some(factor_of(look, false)),
        _ => None,
    }
}

fn factor_of(look: [u16; 2], cut: bool) -> Look
    ensures { result ≡ Factor (slice_index look 0) (slice_index look 1) cut }
{
    Look::Factor {
        damage: look[0],
        edge: look[1],
        cut,
    }
}

fn numbers_of(look: Look) -> (u8, [u16; 2])
    ensures { look_at result.0 result.1 ≡ Some look }
{
    match look {
        Look::Below(bound) => (0, [u16::from(bound), 0]),
        Look::RotatedBelow(bound) => (1, [u16::from(bound), 0]),
        Look::Remainder(divisor) => (2, [divisor, 0]),
        Look::Factor {
            damage,
            edge,
            cut: true,
        } => (3, [damage, edge]),
        Look::Factor {
            damage,
            edge,
            cut: false,
        } => (4, [damage, edge]),
    }
}

// The number of two words, its low 64 bits first.
fn joined(words: [u64; 2]) -> u128
    ensures { result ≡ number_of words }
{
    words[1] as u128 * 0x1_0000_0000_0000_0000 + words[0] as u128
}

fn words_of(number: u128) -> [u64; 2]
    ensures { number_of result ≡ number }
{
    [
        (number % 0x1_0000_0000_0000_0000) as u64,
        (number / 0x1_0000_0000_0000_0000) as u64,
    ]
}
