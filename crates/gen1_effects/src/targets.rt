//! What a move finds at a member (docs/MECHANICS.md, "Early effects", "Side effects").
ghost use Rattle.std.specs.Prelude.{◌&&◌};
ghost use Rattle.gen1_layout.specs.Words.{Reads, active_in, conditions_in, is_some, not, status_in};
ghost use Rattle.gen1_stats.specs.Members.{is_healthy};
ghost use Rattle.gen1_tables.specs.declared.types.Element.TheVariants.{Electric, Ground};
ghost use Rattle.gen1_tables.specs.Types.{same_type};
ghost use Rattle.gen1_machine.specs.State.{has_type};

use gen1_layout::Packed;
use gen1_machine::Side;
use gen1_tables::Element;

pub(crate) fn has_substitute(battle: &Packed, side: Side) -> bool
    ensures stands { Reads battle.now result λ f. is_some (conditions_in side f).substitute }
{
    battle.substitute(side).is_some()
}

pub(crate) fn is_confused(battle: &Packed, side: Side) -> bool
    ensures stands { Reads battle.now result λ f. is_some (conditions_in side f).confused }
{
    battle.confused(side).is_some()
}

pub(crate) fn has_status(battle: &Packed, side: Side) -> bool
    ensures stands { Reads battle.now result λ f. not (is_healthy (status_in side f)) }
{
    !battle.status(side).is_healthy()
}

pub(crate) fn has_type(battle: &Packed, side: Side, kind: Element) -> bool
    ensures stands { Reads battle.now result λ f. has_type kind (active_in side f) }
{
    let first = battle.first_type(side);
    let second = battle.second_type(side);
    kind == first || kind == second
}

// An Electric move doesn't paralyse a Ground type.
pub(crate) fn is_grounded(battle: &Packed, side: Side, kind: Element) -> bool
    ensures stands { Reads battle.now result λ f.
        (same_type kind Electric && has_type Ground (active_in side f)) }
{
    kind == Element::Electric && has_type(battle, side, Element::Ground)
}
