//! An event that is shown: as a line, and to a view.
// calling: gen1_printer
ghost use Rattle.std.specs.Prelude.{OnOk, ◌≡◌};
ghost use Rattle.std.specs.Io.KnownBytes.{Appends};
ghost use Rattle.gen1_machine.specs.Lines.{line};
ghost use Rattle.gen1_machine.specs.View.{sees};

use gen1_machine::{Event, Sink};
use gen1_printer::{PrintFault, print_line};
use gen1_spectator::View;

/// Shows an event: writes its line, and applies it to the view.
///
/// # Errors
///
/// A write failed.
pub fn show_event<W: Sink>(event: &Event, view: &mut View, out: &mut W) -> Result<(), PrintFault>
    ensures told { OnOk result (view.new ≡ sees event.now view.old) }
    ensures printed { OnOk result
        (Appends (W.contents out.old) (W.contents out.new) (line event.now)) }
{
    print_line(event, out)?;
    view.apply(event);
    Ok(())
}
// end
