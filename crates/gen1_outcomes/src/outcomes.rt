//! All battles that an update can lead to (docs/MECHANICS.md, "Link numbers").
ghost use Rattle.std.specs.Prelude.{IfErr, IfOk, IsFalse, IsOkUnless, IsTrue, OnOk, length, replicate, true, ◌*◌, ◌+◌, ◌^◌, ◌<◌, ◌≡◌, ◌≢◌, ◌≤◌, ◌⊎◌};
ghost use Rattle.gen1_machine.specs.State.{State};
ghost use Rattle.gen1_layout.specs.Shows.{Stands};
ghost use Rattle.gen1_engine.specs.Update.{AreOffered};
ghost use Rattle.gen1_outcomes.specs.Beginning.{have_two_actions};
ghost use Rattle.gen1_outcomes.specs.Chances.{IsBelow};
ghost use Rattle.gen1_outcomes.specs.Complete.{Extends, IsExact, ListsEvery, ListsFrom, ListsHandled, LosesNone, Offers, OffersTwo};
ghost use Rattle.gen1_outcomes.specs.declared.successor.OutcomesFault.TheVariants.{Size};
ghost use Rattle.gen1_outcomes.specs.Listing.{AreThose, EachFollows, HasSome, StillFollow, sum_of};
ghost use Rattle.gen1_outcomes.specs.Middles.{AreReached, IsAdded, IsReached, AreDistinct, IsFaultOf, IsIndexed, IsRefusal, IsShort, LeavesOut, StayIndexed};
ghost use Rattle.gen1_outcomes.specs.Weights.{CountsEach, EachIsProbable, StayProbable, TakesEach, taken, AddsPart, AddsPending, AddsUpdate, HasProbabilities, KeepsPending};

use crate::beginning::Left;
use crate::merging::{Tally, add, leave_out};
use crate::middles::{Middle, Middles};
use crate::nodes::Nodes;
use crate::successor::{OutcomeOptions, OutcomesFault, Successor, is_below};
use crate::ways::Ways;
use gen1_layout::{Packed, copy_of};
use gen1_machine::Choice;

/// A list of outcomes.
#[derive(Clone, Copy, PartialEq, Eq, Debug, Drop)]
pub struct Outcomes {
    /// How many outcomes there are.
    pub count: usize,
    /// The sum of their weights and of `left_out`.
    pub whole: u128,
    /// The weight of all that is left out.
    pub left_out: u128,
    /// How many ways it went through. A branch that is left out is one. Ways that agree after the first action are played on
    /// once, and count each. A miss of the second action is one, whatever it would roll.
    pub ways: u32,
}

/// Lists all battles that an update of the battle can lead to by a choice of each side, each once, with its weight.
///
/// They are written to the first places of `successors`. The probability of a battle is its weight over `whole`, if every
/// draw is an independent uniform byte. `table` is for the call's own use, and has at least as many places as there are
/// outcomes; twice as many make the call faster.
///
/// With `damage_classes` above 0 the battles are some of those, and a weight is that of a whole class. With `least` above 0
/// branches of the draws are left out, and a weight is that of the ways that are not. The weights and `left_out` sum to
/// `whole`. Each listed battle has at least the probability `least` / 2^32, and `left_out` is at most that for each of the
/// `ways`. An update that makes a draw may have no outcome left.
///
/// # Errors
///
/// The battle is over, or a choice is not offered: then nothing is written. There are more outcomes than places in
/// `successors` or in `table`: then both may have any content.
pub fn list_outcomes(
    battle: &Packed,
    pair: (Choice, Choice),
    options: OutcomeOptions,
    successors: &mut [Successor],
    table: &mut [u32],
) -> Result<Outcomes, OutcomesFault>
    ensures follow { (s : State) → Stands battle.now s
        → IfOk result (λ o. EachFollows s pair.0 pair.1 options o.count successors.new) }
    ensures every { (s : State) → Stands battle.now s → IsExact options
        → IfOk result (λ o. ListsEvery s pair.0 pair.1 o.count successors.new) }
    ensures weights { (s : State) → Stands battle.now s → IsExact options
        → IfOk result (λ o. HasProbabilities s pair.0 pair.1 o.count o.whole successors.new) }
    ensures sum { IfOk result (λ o. sum_of o.count successors.new + o.left_out ≡ o.whole) }
    ensures within { IfOk result (λ o. o.count ≤ length successors.new) }
    ensures all { options.least ≡ 0 → IfOk result (λ o. o.left_out ≡ 0) }
    ensures some { IfOk result (λ o. HasSome o) }
    ensures once { IfOk result (λ o. AreDistinct o.count successors.new) }
    ensures probable { IfOk result (λ o. EachIsProbable options.least o successors.new) }
    ensures left { IfOk result (λ o.
        o.left_out * 4294967296 ≤ o.ways * (options.least * o.whole)) }
    ensures refused { (s : State) → Stands battle.now s
        → IfErr result (λ why. IsFaultOf s pair.0 pair.1 why) }
    ensures short { IfErr result (λ why. IsRefusal why
        ⊎ IsShort why (taken table.new) (length successors.new) table.new) }
{
    match Ways::new(battle, pair.0, pair.1, options) {
        Err(why) => Err(OutcomesFault::Refused(why)),
        Ok(ways) => {
            clear(table);
            list_ways(&ways, successors, table)
        }
    }
}

fn clear(table: &mut [u32])
    ensures { table.new ≡ replicate (length table.old) 0 }
{
    table.fill(0);
}

// The same for the ways of an update, with an empty table.
fn list_ways(
    ways: &Ways,
    successors: &mut [Successor],
    table: &mut [u32],
) -> Result<Outcomes, OutcomesFault>
    requires empty { taken table.old ≡ 0 }
    ensures follow { (s : State) → Stands ways.now.start s
        → AreOffered s ways.now.one ways.now.two
        → IfOk result (λ o.
        EachFollows s ways.now.one ways.now.two ways.now.options o.count successors.new) }
    ensures every { (s : State) → Offers ways.now s → IsExact ways.now.options → IfOk result (λ o.
        ListsEvery s ways.now.one ways.now.two o.count successors.new) }
    ensures weights { (s : State) → Offers ways.now s → IsExact ways.now.options → IfOk result (λ o.
        HasProbabilities s ways.now.one ways.now.two o.count o.whole successors.new) }
    ensures sum { IfOk result (λ o. sum_of o.count successors.new + o.left_out ≡ o.whole) }
    ensures within { IfOk result (λ o. o.count ≤ length successors.new) }
    ensures all { ways.now.options.least ≡ 0 → IfOk result (λ o. o.left_out ≡ 0) }
    ensures some { IfOk result (λ o. HasSome o) }
    ensures once { IfOk result (λ o. AreDistinct o.count successors.new) }
    ensures probable { IfOk result (λ o. EachIsProbable ways.now.options.least o successors.new) }
    ensures left { IfOk result (λ o.
        o.left_out * 4294967296 ≤ o.ways * (ways.now.options.least * o.whole)) }
    ensures short { IfErr result (λ why.
        IsShort why (taken table.new) (length successors.new) table.new) }
{
    let mut tally = Tally {
        count: 0,
        whole: 1,
        left_out: 0,
        least: ways.options().least,
        ways: 0,
    };
    add_all(ways, successors, table, &mut tally)?;
    finished(successors, tally)
}

fn add_all(
    ways: &Ways,
    successors: &mut [Successor],
    table: &mut [u32],
    tally: &mut Tally,
) -> Result<(), OutcomesFault>
    requires least { tally.old.least ≡ ways.now.options.least }
    requires within { tally.old.count ≤ length successors.old }
    ensures within { tally.new.count ≤ length successors.new }
    ensures follow { OnOk result (StillFollow ways.now tally.old.count successors.old
        tally.new.count successors.new) }
    ensures every { OnOk result (IsExact ways.now.options → (s : State) → Offers ways.now s
        → ListsEvery s ways.now.one ways.now.two tally.new.count successors.new) }
    ensures weights { OnOk result (IsExact ways.now.options
        → IsIndexed table.old tally.old.count successors.old → (s : State) → Offers ways.now s
        → AddsUpdate ways.now s tally.old successors.old tally.new successors.new) }
    ensures left_out { OnOk result (LeavesOut tally.old tally.new) }
    ensures probable { OnOk result (StayProbable tally.old successors.old tally.new
        successors.new) }
    ensures takes { TakesEach tally.old tally.new table.old table.new }
    ensures indexed { OnOk result (StayIndexed tally.old successors.old table.old tally.new
        successors.new table.new) }
    ensures short { IfErr result (λ why.
        IsShort why tally.new.count (length successors.new) table.new) }
{
    if ways.has_two_actions() {
        return add_in_parts(ways, successors, table, tally);
    }
    let whole = Middle::beginning();
    finish(ways, &whole, successors, table, tally)
}

// First, the ways up to the second action. Ways that reach the same position are played on once.
fn add_in_parts(
    ways: &Ways,
    successors: &mut [Successor],
    table: &mut [u32],
    tally: &mut Tally,
) -> Result<(), OutcomesFault>
    requires two { (s : State) → Stands ways.now.start s
        → have_two_actions ways.now.one ways.now.two s.field ≡ true }
    requires within { tally.old.count ≤ length successors.old }
    ensures within { tally.new.count ≤ length successors.new }
    ensures follow { OnOk result (StillFollow ways.now tally.old.count successors.old
        tally.new.count successors.new) }
    ensures every { OnOk result (IsExact ways.now.options → tally.old.least ≡ 0 → (s : State)
        → OffersTwo ways.now s
        → ListsEvery s ways.now.one ways.now.two tally.new.count successors.new) }
    ensures weights { OnOk result (IsExact ways.now.options → tally.old.least ≡ 0
        → IsIndexed table.old tally.old.count successors.old → (s : State) → OffersTwo ways.now s
        → AddsUpdate ways.now s tally.old successors.old tally.new successors.new) }
    ensures left_out { OnOk result (LeavesOut tally.old tally.new) }
    ensures probable { OnOk result (StayProbable tally.old successors.old tally.new
        successors.new) }
    ensures takes { TakesEach tally.old tally.new table.old table.new }
    ensures indexed { OnOk result (StayIndexed tally.old successors.old table.old tally.new
        successors.new table.new) }
    ensures short { IfErr result (λ why.
        IsShort why tally.new.count (length successors.new) table.new) }
{
    let mut nodes = Nodes::new(ways.options());
    let mut middles = Middles::new();
    'walk: for _ in 0..u32::MAX {
        let Some(middle) = ways.begin(&mut nodes) else {
            return Err(OutcomesFault::Size);
        };
        // A way that ends before it had all its draws. No known update has one.
        if !nodes.is_past() {
            return Err(OutcomesFault::Size);
        }
        make_room(ways, &mut middles, successors, table, tally)?;
        keep(&middle, &mut middles, successors, tally)?;
        if !nodes.advance() {
            return go_on_from(ways, &middles, successors, table, tally);
        }
    }
    Err(OutcomesFault::Size)
}

// Keeps a position, or leaves it out with all that it leads to if its probability is below the least one.
fn keep(
    middle: &Middle,
    middles: &mut Middles,
    successors: &mut [Successor],
    tally: &mut Tally,
) -> Result<(), OutcomesFault>
    requires room { middles.old.len < 32 }
    requires within { tally.old.count ≤ length successors.old }
    ensures count { tally.new.count ≡ tally.old.count }
    ensures battles { AreThose successors.old successors.new }
    ensures kept { OnOk result ((middles.new ≡ middles.old)
        ⊎ IsAdded middle.now middles.old middles.new) }
    ensures every { OnOk result (tally.old.least ≡ 0 → IsAdded middle.now middles.old middles.new) }
    ensures still { OnOk result (tally.old.least ≡ 0
        → (tally.new ≡ tally.old) × (successors.new ≡ successors.old)) }
    ensures below { OnOk result (IsBelow tally.old.least middle.now.chance
        → middles.new ≡ middles.old) }
    ensures left_out { OnOk result (LeavesOut tally.old tally.new) }
    ensures probable { OnOk result (StayProbable tally.old successors.old tally.new
        successors.new) }
    ensures size { IsOkUnless result Size }
{
    if is_below(middle.chance, tally.least) {
        leave_out(successors, tally, middle.chance)?;
        return tally.count_ways(middle.ways);
    }
    middles.add(middle)
}

// If no place is left, adds what each position leads to, and removes them.
fn make_room(
    ways: &Ways,
    middles: &mut Middles,
    successors: &mut [Successor],
    table: &mut [u32],
    tally: &mut Tally,
) -> Result<(), OutcomesFault>
    requires reached { AreReached ways.now middles.old }
    requires within { tally.old.count ≤ length successors.old }
    ensures room { OnOk result (middles.new.len < 32) }
    ensures reached { OnOk result (AreReached ways.now middles.new) }
    ensures within { tally.new.count ≤ length successors.new }
    ensures follow { OnOk result (StillFollow ways.now tally.old.count successors.old
        tally.new.count successors.new) }
    ensures every { OnOk result (IsExact ways.now.options → tally.old.least ≡ 0
        → LosesNone ways.now middles.old tally.old.count successors.old middles.new
        tally.new.count successors.new) }
    ensures parts { OnOk result (IsExact ways.now.options → tally.old.least ≡ 0
        → IsIndexed table.old tally.old.count successors.old
        → KeepsPending ways.now middles.old tally.old successors.old middles.new tally.new
        successors.new) }
    ensures left_out { OnOk result (LeavesOut tally.old tally.new) }
    ensures probable { OnOk result (StayProbable tally.old successors.old tally.new
        successors.new) }
    ensures takes { TakesEach tally.old tally.new table.old table.new }
    ensures indexed { OnOk result (StayIndexed tally.old successors.old table.old tally.new
        successors.new table.new) }
    ensures short { IfErr result (λ why.
        IsShort why tally.new.count (length successors.new) table.new) }
{
    if middles.is_full() {
        go_on_from(ways, middles, successors, table, tally)?;
        middles.clear();
    }
    Ok(())
}

// Adds what each position leads to.
fn go_on_from(
    ways: &Ways,
    middles: &Middles,
    successors: &mut [Successor],
    table: &mut [u32],
    tally: &mut Tally,
) -> Result<(), OutcomesFault>
    requires reached { AreReached ways.now middles.now }
    requires within { tally.old.count ≤ length successors.old }
    ensures within { tally.new.count ≤ length successors.new }
    ensures follow { OnOk result (StillFollow ways.now tally.old.count successors.old
        tally.new.count successors.new) }
    ensures every { OnOk result (IsExact ways.now.options → tally.old.least ≡ 0
        → ListsHandled ways.now middles.now tally.old.count successors.old tally.new.count
        successors.new) }
    ensures parts { OnOk result (IsExact ways.now.options → tally.old.least ≡ 0
        → IsIndexed table.old tally.old.count successors.old
        → AddsPending ways.now middles.now tally.old successors.old tally.new successors.new) }
    ensures left_out { OnOk result (LeavesOut tally.old tally.new) }
    ensures probable { OnOk result (StayProbable tally.old successors.old tally.new
        successors.new) }
    ensures takes { TakesEach tally.old tally.new table.old table.new }
    ensures indexed { OnOk result (StayIndexed tally.old successors.old table.old tally.new
        successors.new table.new) }
    ensures short { IfErr result (λ why.
        IsShort why tally.new.count (length successors.new) table.new) }
{
    'places: for place in 0..middles.len {
        finish(ways, &middles.list[place], successors, table, tally)?;
    }
    Ok(())
}

// Adds what one position leads to.
fn finish(
    ways: &Ways,
    middle: &Middle,
    successors: &mut [Successor],
    table: &mut [u32],
    tally: &mut Tally,
) -> Result<(), OutcomesFault>
    requires reached { IsReached ways.now middle.now }
    requires within { tally.old.count ≤ length successors.old }
    ensures within { tally.new.count ≤ length successors.new }
    ensures follow { OnOk result (StillFollow ways.now tally.old.count successors.old
        tally.new.count successors.new) }
    ensures every { OnOk result (IsExact ways.now.options → tally.old.least ≡ 0 → (s : State)
        → Offers ways.now s
        → ListsFrom ways.now middle.now s tally.new.count successors.new) }
    ensures parts { OnOk result (IsExact ways.now.options → tally.old.least ≡ 0
        → IsIndexed table.old tally.old.count successors.old → (s : State) → Offers ways.now s
        → AddsPart ways.now middle.now s tally.old successors.old tally.new successors.new) }
    ensures keeps { OnOk result (Extends tally.old.count successors.old tally.new.count
        successors.new) }
    ensures left_out { OnOk result (LeavesOut tally.old tally.new) }
    ensures probable { OnOk result (StayProbable tally.old successors.old tally.new
        successors.new) }
    ensures ways { OnOk result (CountsEach middle.now.ways tally.old tally.new) }
    ensures takes { TakesEach tally.old tally.new table.old table.new }
    ensures indexed { OnOk result (StayIndexed tally.old successors.old table.old tally.new
        successors.new table.new) }
    ensures short { IfErr result (λ why.
        IsShort why tally.new.count (length successors.new) table.new) }
{
    match middle.rest {
        Some(Left::Second(rest)) if !rest.is_cut => {
            finish_in_parts(ways, middle, successors, table, tally)
        }
        _ => finish_at_once(
            ways,
            middle,
            &mut ways.restart(middle),
            successors,
            table,
            tally,
        ),
    }
}

// Adds what a position before the second action leads to: first, the ways up to the roll of its damage.
fn finish_in_parts(
    ways: &Ways,
    middle: &Middle,
    successors: &mut [Successor],
    table: &mut [u32],
    tally: &mut Tally,
) -> Result<(), OutcomesFault>
    requires reached { IsReached ways.now middle.now }
    requires within { tally.old.count ≤ length successors.old }
    ensures within { tally.new.count ≤ length successors.new }
    ensures follow { OnOk result (StillFollow ways.now tally.old.count successors.old
        tally.new.count successors.new) }
    ensures every { OnOk result (IsExact ways.now.options → tally.old.least ≡ 0 → (s : State)
        → Offers ways.now s
        → ListsFrom ways.now middle.now s tally.new.count successors.new) }
    ensures parts { OnOk result (IsExact ways.now.options → tally.old.least ≡ 0
        → IsIndexed table.old tally.old.count successors.old → (s : State) → Offers ways.now s
        → AddsPart ways.now middle.now s tally.old successors.old tally.new successors.new) }
    ensures keeps { OnOk result (Extends tally.old.count successors.old tally.new.count
        successors.new) }
    ensures left_out { OnOk result (LeavesOut tally.old tally.new) }
    ensures probable { OnOk result (StayProbable tally.old successors.old tally.new
        successors.new) }
    ensures ways { OnOk result (CountsEach middle.now.ways tally.old tally.new) }
    ensures takes { TakesEach tally.old tally.new table.old table.new }
    ensures indexed { OnOk result (StayIndexed tally.old successors.old table.old tally.new
        successors.new table.new) }
    ensures short { IfErr result (λ why.
        IsShort why tally.new.count (length successors.new) table.new) }
{
    let mut nodes = ways.restart(middle);
    let mut others = ways.restart(middle);
    'walk: for _ in 0..u32::MAX {
        let Some(to) = ways.lead(&mut nodes, middle) else {
            return Err(OutcomesFault::Size);
        };
        // A way that ends before it had all its draws. No known update has one.
        if !nodes.is_past() {
            return Err(OutcomesFault::Size);
        }
        finish_at_once(ways, &to, &mut others, successors, table, tally)?;
        if !nodes.advance() {
            return Ok(());
        }
    }
    Err(OutcomesFault::Size)
}

// Adds what a position leads to whose rest is played in one part. The nodes may have any draws.
fn finish_at_once(
    ways: &Ways,
    middle: &Middle,
    nodes: &mut Nodes,
    successors: &mut [Successor],
    table: &mut [u32],
    tally: &mut Tally,
) -> Result<(), OutcomesFault>
    requires reached { IsReached ways.now middle.now }
    requires options { nodes.old.options ≡ ways.now.options }
    requires within { tally.old.count ≤ length successors.old }
    ensures options { nodes.new.options ≡ ways.now.options }
    ensures within { tally.new.count ≤ length successors.new }
    ensures follow { OnOk result (StillFollow ways.now tally.old.count successors.old
        tally.new.count successors.new) }
    ensures every { OnOk result (IsExact ways.now.options → tally.old.least ≡ 0 → (s : State)
        → Offers ways.now s
        → ListsFrom ways.now middle.now s tally.new.count successors.new) }
    ensures parts { OnOk result (IsExact ways.now.options → tally.old.least ≡ 0
        → IsIndexed table.old tally.old.count successors.old → (s : State) → Offers ways.now s
        → AddsPart ways.now middle.now s tally.old successors.old tally.new successors.new) }
    ensures keeps { OnOk result (Extends tally.old.count successors.old tally.new.count
        successors.new) }
    ensures left_out { OnOk result (LeavesOut tally.old tally.new) }
    ensures probable { OnOk result (StayProbable tally.old successors.old tally.new
        successors.new) }
    ensures ways { OnOk result (CountsEach middle.now.ways tally.old tally.new) }
    ensures takes { TakesEach tally.old tally.new table.old table.new }
    ensures indexed { OnOk result (StayIndexed tally.old successors.old table.old tally.new
        successors.new table.new) }
    ensures short { IfErr result (λ why.
        IsShort why tally.new.count (length successors.new) table.new) }
{
    nodes.clear(middle.chance);
    let mut next = copy_of(ways.start());
    'walk: for _ in 0..u32::MAX {
        let chance = ways.go_on(nodes, middle, &mut next)?;
        add(successors, table, tally, &next, chance)?;
        tally.count_ways(middle.ways)?;
        if !nodes.advance() {
            return Ok(());
        }
    }
    Err(OutcomesFault::Size)
}

// The result, if the weights and what is left out sum to their denominator.
fn finished(successors: &[Successor], tally: Tally) -> Result<Outcomes, OutcomesFault>
    requires within { tally.count ≤ length successors.now }
    ensures count { IfOk result (λ o. o.count ≡ tally.count) }
    ensures left_out { IfOk result (λ o. o.left_out ≡ tally.left_out) }
    ensures whole { IfOk result (λ o. o.whole ≡ tally.whole) }
    ensures ways { IfOk result (λ o. o.ways ≡ tally.ways) }
    ensures within { IfOk result (λ o. o.count ≤ length successors.now) }
    ensures sum { IfOk result (λ o. sum_of o.count successors.now + o.left_out ≡ o.whole) }
    ensures some { IfOk result (λ o. HasSome o) }
    ensures size { IsOkUnless result Size }
    ensures differ { IfErr result (λ _. (tally.whole ≡ 0)
        ⊎ (sum_of tally.count successors.now + tally.left_out ≢ tally.whole)) }
{
    if tally.whole > 0 && sums_to(&successors[..tally.count], tally.left_out, tally.whole) {
        Ok(Outcomes {
            count: tally.count,
            whole: tally.whole,
            left_out: tally.left_out,
            ways: tally.ways,
        })
    } else {
        Err(OutcomesFault::Size)
    }
}

fn sums_to(successors: &[Successor], left_out: u128, whole: u128) -> bool
    ensures same { IsTrue result → sum_of (length successors.now) successors.now + left_out ≡ whole }
    ensures differ { IsFalse result
        → sum_of (length successors.now) successors.now + left_out ≢ whole }
{
    let mut sum = left_out;
    for successor in successors {
        match sum.checked_add(successor.weight()) {
            Some(more) => sum = more,
            None => return false,
        }
    }
    sum == whole
}
