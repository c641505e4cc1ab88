//! Operations that draw from a countdown from a number: its first draw is that number.
ghost use Rattle.std.specs.Prelude.{◌<◌, ◌≡◌, ◌≤◌};
ghost use Rattle.gen1_events.specs.Sink.{events_room};
ghost use Rattle.gen1_layout.specs.Words.{Field, HasRoom, None, Reads, Setting, Within, move_at, nat_lt, status_in, true};
ghost use Rattle.gen1_rolls.specs.Steady.{stream_of};
ghost use Rattle.gen1_rolls.specs.Streams.{IsStream};
ghost use Rattle.gen1_stats.specs.declared.member.Status.TheVariants.{Paralysed};
ghost use Rattle.gen1_machine.specs.CriticalHits.{critical_bound_in, rotated_left_3};
ghost use Rattle.gen1_machine.specs.Damage.{is_factor, rotated_right_1, times_factor};
ghost use Rattle.gen1_machine.specs.HitTest.{scaled_in, settled_hit_in};
ghost use Rattle.test_callers.specs.Countdown.{countdown};
ghost use Rattle.gen1_status.specs.Gate.{IsFree};

use crate::any::{critical_by, factor_by, gate_by, hit_test_by};
use crate::countdown::Countdown;
use gen1_layout::Packed;
use gen1_machine::{EventList, Side, UsedMove};
use gen1_rolls::draws_a_stream;
use gen1_tables::MoveId;

/// The countdown from a number. Its own stream keeps to the law of streams, like that of any generator.
pub fn own_stream(number: u8) -> Countdown
    ensures start { result ≡ number }
    ensures stream { IsStream (stream_of countdown result) }
{
    let random = Countdown::new(number);
    draws_a_stream(&random);
    random
}

/// Whether a hit is critical if the draw is this number.
pub fn critical_at(battle: &Packed, side: Side, id: MoveId, number: u8) -> bool
    ensures { Reads battle.now result λ f. nat_lt (rotated_left_3 number)
        (critical_bound_in side (move_at id) f) }
{
    critical_by(battle, side, id, &mut Countdown::new(number))
}

/// Damage times the factor of a number, if the number is a factor.
pub fn factor_at(damage: u16, number: u8) -> u16
    ensures kept { damage ≤ 1 → result ≡ damage }
    ensures drawn { 1 < damage → is_factor number ≡ true
        → result ≡ times_factor (rotated_right_1 number) damage }
{
    factor_by(damage, &mut Countdown::new(number))
}

/// Whether a move hits if the draw is this number.
pub fn hit_test_at(battle: &mut Packed, side: Side, id: MoveId, base: u8, number: u8) -> bool
    ensures { (g : Setting) (f : Field) → Within g battle.old f
        → settled_hit_in side (move_at id) f ≡ None
        → result ≡ nat_lt number (scaled_in side base f) }
{
    hit_test_by(battle, side, id, base, &mut Countdown::new(number)).hit
}

/// Whether a paralysed member that nothing else can stop is stopped if the draw is this number.
pub fn gate_at(
    battle: &mut Packed,
    side: Side,
    used: UsedMove,
    number: u8,
    events: &mut EventList,
) -> bool
    requires { HasRoom events_room 3 events.old }
    ensures { (g : Setting) (f : Field) → Within g battle.old f → IsFree side f
        → status_in side f ≡ Paralysed → result ≡ nat_lt number 63 }
{
    gate_by(battle, side, used, &mut Countdown::new(number), events).stops()
}
