//! The test of the current stats (docs/LAYOUT.md, "Current stats").
ghost use Rattle.std.specs.Prelude.{◌≡◌, ◌↔◌, ◌≤◌, IsTrue, length};
ghost use Rattle.gen1_machine.specs.Stages.{now_at};
ghost use Rattle.gen1_layout.specs.Loading.{active_bytes, word, PassesOfActives, PassesOfStats, PassesActiveAt, PassesStages, ComesFrom, PassesStats, PassesStatsAt};

use crate::loading::{active_bytes, member_bytes, word};
use crate::offsets::{
    ATTACK, ATTACK_STAGE, CURRENT_ATTACK, CURRENT_DEFENSE, CURRENT_SPECIAL, CURRENT_SPEED, DEFENSE,
    DEFENSE_STAGE, PLACE_IN_SIDE, SPECIAL, SPECIAL_STAGE, SPEED, SPEED_STAGE, TURN,
};
use gen1_machine::now;
use gen1_tables::Stat;

// A stat of at most 999 is 1 after this many penalties, and stays 1.
const HALVINGS: u8 = 9;

const QUARTERINGS: u8 = 5;

// Whether the current stats of both sides come from their members' own stats.
pub(crate) fn pass(form: &[u8]) -> bool
    requires form { length form.now ≡ 384 }
    requires active { PassesOfActives form.now }
    ensures passes { IsTrue result ↔ PassesOfStats form.now }
{
    let turn = word(form, TURN);
    are_stats_at(&form[24..204], turn) && are_stats_at(&form[204..384], turn)
}

// Whether, from turn 1 on, the current stats come from the stats of the member that is out.
fn are_stats_at(side: &[u8], turn: u16) -> bool
    requires side { length side.now ≡ 180 }
    requires active { PassesActiveAt turn side.now }
    ensures passes { IsTrue result ↔ PassesStatsAt turn side.now }
{
    turn == 0 || are_stats(member_bytes(side, side[PLACE_IN_SIDE]), active_bytes(side))
}

fn are_stats(member: &[u8], active: &[u8]) -> bool
    requires member { length member.now ≡ 24 }
    requires active { length active.now ≡ 36 }
    requires stages { PassesStages active.now }
    ensures passes { IsTrue result ↔ PassesStats member.now active.now }
{
    let attack = comes_from(
        word(member, ATTACK),
        active[ATTACK_STAGE],
        Stat::Attack,
        HALVINGS,
        word(active, CURRENT_ATTACK),
    );
    let defense = comes_from(
        word(member, DEFENSE),
        active[DEFENSE_STAGE],
        Stat::Defense,
        0,
        word(active, CURRENT_DEFENSE),
    );
    let speed = comes_from(
        word(member, SPEED),
        active[SPEED_STAGE],
        Stat::Speed,
        QUARTERINGS,
        word(active, CURRENT_SPEED),
    );
    let special = comes_from(
        word(member, SPECIAL),
        active[SPECIAL_STAGE],
        Stat::Special,
        0,
        word(active, CURRENT_SPECIAL),
    );
    attack && defense && speed && special
}

// Whether a current stat is the unmodified stat at its stage, after at most this many penalties.
fn comes_from(unmodified: u16, stage: u8, stat: Stat, most: u8, current: u16) -> bool
    requires stage { stage ≤ 12 }
    requires most { most ≤ 9 }
    ensures passes { IsTrue result ↔ ComesFrom unmodified stage stat most current }
{
    'penalties: for times in 0..most + 1 {
        if at_stage(unmodified, stage, stat, times) == current {
            return true;
        }
    }
    false
}

// A stat at a stage, 0 to 12, after this many penalties.
fn at_stage(unmodified: u16, stage: u8, stat: Stat, times: u8) -> u16
    requires { stage ≤ 12 }
    ensures { result ≡ now_at unmodified stage stat times }
{
    now(unmodified, stage as i8 - 6, stat, times)
}
