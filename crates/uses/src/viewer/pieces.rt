//! A log that comes in pieces, whose events are shown as soon as they are complete.
// calling: gen1_events
ghost use Rattle.std.specs.Prelude.{OnOk};
ghost use Rattle.uses.specs.Examples.{ShowsMore};

use crate::viewer::lines::show_event;
use gen1_events::LogReader;
use gen1_machine::Sink;
use gen1_printer::PrintFault;
use gen1_spectator::View;

/// Shows the next bytes of a log. They may be cut anywhere: the part of an event at their end stays in the reader.
///
/// # Errors
///
/// The error of the log, or a write that failed. The events before it were shown.
pub fn show_piece<W: Sink>(
    reader: &mut LogReader,
    bytes: &[u8],
    view: &mut View,
    out: &mut W,
) -> Result<(), PrintFault>
    ensures { OnOk result
        (ShowsMore bytes.now reader.old view.old (W.contents out.old) reader.new view.new
        (W.contents out.new)) }
{
    let mut rest = bytes;
    'events: loop {
        match reader.feed(rest) {
            Ok(taken) => rest = &rest[taken..],
            Err(fault) => return Err(PrintFault::Log(fault)),
        }
        match reader.next() {
            Some(event) => show_event(&event, view, out)?,
            None => return Ok(()),
        }
    }
}
// end
