//! What a spectator knows of a battle from its log bytes (include/gen1.h, "watching"; docs/MECHANICS.md, "Spectator's view").
ghost use Rattle.std.specs.Prelude.{Err, Ok, [], ◌≡◌, ◌≢◌, ◌≤◌};
ghost use Rattle.gen1_stats.specs.Teams.{team_of};
ghost use Rattle.gen1_machine.specs.View.{View, first_view};
ghost use Rattle.gen1_events.specs.Reader.{Reading, part};
ghost use Rattle.gen1_events.specs.declared.reader.LogFault.{LogFault};
ghost use Rattle.gen1_spectator.specs.Plain.{Follows, IsExact, IsInRange, IsLaidOut, IsPlainSpectator, reading_of, view_of};
ghost use Rattle.gen1_c.specs.Battle.{teams_fault};
ghost use Rattle.gen1_c.specs.Codes.{log_code};
ghost use Rattle.gen1_c.specs.Teams.{sheets_of, team_fault};

use crate::codes::of_log;
use crate::teams::{TeamForm, teams_of};
use gen1_spectator::plain::{PlainSpectator, feed, first};

/// Sets a spectator to what is known before a battle of two teams. Returns 0, or an error as `gen1_new` does.
#[unsafe(no_mangle)]
pub extern "C" fn gen1_spectator_begin(
    watch: &mut PlainSpectator,
    one: &TeamForm,
    two: &TeamForm,
) -> u32
    ensures fault { result ≡ teams_fault (team_fault one.now) (team_fault two.now) }
    ensures begun { result ≡ 0
        → (view_of watch.new ≡ first_view (team_of (sheets_of one.now)) (team_of (sheets_of two.now)))
        × (reading_of watch.new ≡ part []) × IsPlainSpectator watch.new × IsExact watch.new
        × IsInRange watch.new }
    ensures kept { result ≢ 0 → watch.new ≡ watch.old }
{
    match teams_of(one, two) {
        Ok((one, two)) => {
            *watch = first(&one, &two);
            0
        }
        Err(fault) => fault,
    }
}

/// Feeds a spectator the next bytes of the log, which may be cut anywhere. Returns 0, or the code of the error.
#[unsafe(no_mangle)]
pub extern "C" fn gen1_spectator_feed(watch: &mut PlainSpectator, log: &[u8]) -> u8
    ensures told { IsPlainSpectator watch.old → result ≡ 0
        → Follows (reading_of watch.old) log.now (view_of watch.old)
        (Ok tt) (reading_of watch.new) (view_of watch.new) }
    ensures fault { IsPlainSpectator watch.old → result ≢ 0
        → (fault : LogFault) × (result ≡ log_code fault) × (last : Reading) × (view : View)
        × Follows (reading_of watch.old) log.now (view_of watch.old) (Err fault) last view }
    ensures valid { IsPlainSpectator watch.old → IsPlainSpectator watch.new }
    ensures exact { IsPlainSpectator watch.old → result ≡ 0 → IsExact watch.new }
    ensures ranges { IsPlainSpectator watch.old → IsInRange watch.old → IsInRange watch.new }
    // For any bytes, valid or not.
    ensures code { result ≢ 0 → (32 ≤ result) × (result ≤ 34) }
    ensures laid_out { result ≡ 0 → IsLaidOut watch.new }
    ensures kept { result ≢ 0 → watch.new ≡ watch.old }
{
    match feed(watch, log) {
        Ok(()) => 0,
        Err(fault) => of_log(fault),
    }
}
