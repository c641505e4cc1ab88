//! The operations that draw, with any generator: what a generic caller knows from their contracts alone.
ghost use Rattle.std.specs.Prelude.{◌+◌, ◌<◌, ◌≡◌, ◌≤◌};
ghost use Rattle.gen1_events.specs.Sink.{events_room};
ghost use Rattle.gen1_layout.specs.Words.{Field, HasRoom, None, Setting, Some, Within, move_at, nat_lt, status_in, ℕ};
ghost use Rattle.gen1_rolls.specs.Draws.{NextByte, Since, StandsIn};
ghost use Rattle.gen1_rolls.specs.Streams.{byte_at, first};
ghost use Rattle.gen1_stats.specs.declared.member.Status.TheVariants.{Healthy, Paralysed};
ghost use Rattle.gen1_machine.specs.CriticalHits.{critical_bound_in, rotated_left_3};
ghost use Rattle.gen1_machine.specs.Damage.{is_factor, rotated_right_1, times_factor};
ghost use Rattle.gen1_machine.specs.HitTest.{scaled_in, settled_hit_in};
ghost use Rattle.gen1_status.specs.Gate.{stopped_by, IsFree};

use gen1_hits::{Hit, critical, factor, hit_test};
use gen1_layout::Packed;
use gen1_machine::{EventList, Pick, Side, UsedMove};
use gen1_rolls::Rolls;
use gen1_status::{Gate, gate};
use gen1_tables::MoveId;

/// The critical draw: it takes the generator's next byte. The hit is critical if that byte, rotated, is below the
/// machine's bound.
pub fn critical_by<R: Rolls>(battle: &Packed, side: Side, id: MoveId, random: &mut R) -> bool
    ensures { (g : Setting) (f : Field) → Within g battle.now f
        → NextByte R.drawing random (λ byte. result ≡ nat_lt (rotated_left_3 byte)
        (critical_bound_in side (move_at id) f)) }
{
    critical(battle, side, id, random)
}

/// The factor of damage: 0 and 1 stay as they are without a draw. Other damage is multiplied by the first byte that
/// is a factor, rotated.
pub fn factor_by<R: Rolls>(damage: u16, random: &mut R) -> u16
    ensures kept { damage ≤ 1 → (since : Since R.drawing random.new) (n : ℕ)
        → StandsIn R.drawing since.source n random.old
        → (result ≡ damage) × StandsIn R.drawing since.source n random.new }
    ensures drawn { 1 < damage → (since : Since R.drawing random.new) (n m : ℕ)
        → StandsIn R.drawing since.source n random.old
        → first since.source.stream n is_factor ≡ Some m
        → (result ≡ times_factor (rotated_right_1 (byte_at since.source.stream m)) damage)
        × StandsIn R.drawing since.source (m + 1) random.new }
{
    factor(damage, random)
}

/// The hit test: if it isn't settled without a draw, one byte is drawn. The move hits if that is below the scaled
/// accuracy.
pub fn hit_test_by<R: Rolls>(
    battle: &mut Packed,
    side: Side,
    id: MoveId,
    base: u8,
    random: &mut R,
) -> Hit
    ensures { (g : Setting) (f : Field) → Within g battle.old f
        → settled_hit_in side (move_at id) f ≡ None
        → NextByte R.drawing random (λ byte. result.hit ≡ nat_lt byte (scaled_in side base f)) }
{
    hit_test(battle, side, id, base, random)
}

/// The gate of a member that uses a move and that only its status can stop. A healthy member acts without a draw, and
/// a paralysed one acts if its draw isn't below 63.
pub fn gate_by<R: Rolls>(
    battle: &mut Packed,
    side: Side,
    used: UsedMove,
    random: &mut R,
    events: &mut EventList,
) -> Gate
    requires room { HasRoom events_room 3 events.old }
    ensures healthy { (g : Setting) (f : Field) → Within g battle.old f → IsFree side f
        → status_in side f ≡ Healthy → (since : Since R.drawing random.new) (n : ℕ)
        → StandsIn R.drawing since.source n random.old
        → (result ≡ Gate.Go) × StandsIn R.drawing since.source n random.new }
    ensures paralysed { (g : Setting) (f : Field) → Within g battle.old f → IsFree side f
        → status_in side f ≡ Paralysed
        → NextByte R.drawing random (λ byte. stopped_by result ≡ nat_lt byte 63) }
{
    gate(battle, side, Pick::Use(used), random, events)
}
