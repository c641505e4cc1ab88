//! Two numbers of a battle as plain functions: a link number, and a stat at its stage (docs/MECHANICS.md, "Link numbers",
//! "Stages", "Penalties").
ghost use Rattle.std.specs.Prelude.{◌≡◌, ◌<◌};
ghost use Rattle.gen1_rolls.specs.Streams.{byte_at, Link};
ghost use Rattle.gen1_machine.specs.Stages.{stage_number, percent_at, at_stage, now_at, divided_times};

use gen1_rolls::renew;
use gen1_tables::Stat;

/// The n-th byte that a battle with this seed draws, counted from 0 (docs/MECHANICS.md, "Link numbers").
#[tactic(auto, unfolding(gen1_rolls::specs::Streams::byte_at))]
pub fn link(seed: &[u8; 10], n: u32) -> u8
    ensures { result ≡ byte_at (Link seed.now) n }
{
    let mut number = seed[(n % 9) as usize];
    'nines: for _ in 0..n / 9 {
        number = renew(number);
    }
    number
}

/// A current stat: the stat at a stage, after this many penalties since it was last recomputed (docs/MECHANICS.md,
/// "Stages" and "Penalties").
///
/// A stage below -6 counts as -6, and one above 6 as 6. A penalty halves Attack (a burn) or quarters Speed
/// (paralysis), and leaves at least 1. Other stats have no penalty.
pub fn now(unmodified: u16, stage: i8, stat: Stat, penalties: u8) -> u16
    ensures { result ≡ now_at unmodified (stage_number stage) stat penalties }
{
    let staged = at_stage(unmodified, stage);
    match stat {
        Stat::Attack => divided(staged, 2, penalties),
        Stat::Speed => divided(staged, 4, penalties),
        _ => staged,
    }
}

/// A stat recomputed at a stage, from 1 to 999 (docs/MECHANICS.md, "Stages").
fn at_stage(stat: u16, stage: i8) -> u16
    ensures { result ≡ at_stage (stage_number stage) stat }
{
    (stat as u32 * percent(stage) as u32 / 100).clamp(1, 999) as u16
}

/// The percentage of a stat at a stage.
fn percent(stage: i8) -> u16
    ensures { result ≡ percent_at (stage_number stage) }
{
    match stage {
        ..=-6 => 25,
        -5 => 28,
        -4 => 33,
        -3 => 40,
        -2 => 50,
        -1 => 66,
        0 => 100,
        1 => 150,
        2 => 200,
        3 => 250,
        4 => 300,
        5 => 350,
        6.. => 400,
    }
}

/// A stat divided this many times. Each division gives at least 1.
fn divided(stat: u16, divisor: u16, times: u8) -> u16
    requires { 0 < divisor }
    ensures { result ≡ divided_times divisor times stat }
{
    let mut value = stat;
    'penalties: for _ in 0..times {
        value = (value / divisor).max(1);
    }
    value
}
