//! A whole log that is shown, and what a view then knows.
// calling: gen1_spectator
ghost use Rattle.std.specs.Prelude.{IfOk, ◌≡◌};
ghost use Rattle.std.specs.List.{flat_map};
ghost use Rattle.gen1_machine.specs.View.{first_view, side_view};
ghost use Rattle.uses.specs.Examples.{shown_of, ShowsLog};

use crate::viewer::pieces::show_piece;
use gen1_events::LogReader;
use gen1_machine::{Kind, Side, Sink};
use gen1_printer::PrintFault;
use gen1_spectator::View;
use gen1_stats::Team;
use gen1_tables::Species;

/// Shows the log of a battle of two teams from its start, and returns what a spectator knows at its end.
///
/// # Errors
///
/// The error of the log, which may not end within an event, or a write that failed.
pub fn show_log<W: Sink>(
    one: &Team,
    two: &Team,
    pieces: &[&[u8]],
    out: &mut W,
) -> Result<View, PrintFault>
    ensures { IfOk result
        (λ view. ShowsLog (flat_map (λ p. p.now) pieces.now) (first_view one.now two.now) view
        (W.contents out.old) (W.contents out.new)) }
{
    let mut view = View::new(one, two);
    let mut reader = LogReader::new();
    for piece in pieces {
        show_piece(&mut reader, piece, &mut view, out)?;
    }
    match reader.finish() {
        Ok(()) => Ok(view),
        Err(fault) => Err(PrintFault::Log(fault)),
    }
}

/// What a side shows: its active member, with HP and status.
#[derive(Clone, Copy, Debug, PartialEq, Eq, Drop)]
pub struct Shown {
    pub species: Species,
    pub hp: u16,
    pub max_hp: u16,
    pub status: Option<Kind>,
}

/// Returns what the side with this team shows; `None` before its first member came out.
pub fn what_shows(view: &View, side: Side, team: &Team) -> Option<Shown>
    ensures { result ≡ shown_of (side_view side view.now) team.now }
{
    let place = view.place(side);
    let index = usize::from(place).checked_sub(1)?;
    let member = team.members().get(index)?;
    Some(Shown {
        species: member.species(),
        hp: view.hp(side, place),
        max_hp: member.max_hp(),
        status: view.status(side, place),
    })
}
// end
