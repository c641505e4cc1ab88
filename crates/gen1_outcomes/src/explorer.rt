//! A generator whose first bytes are given, and one that takes an update through all its ways, one after the other
//! (docs/MECHANICS.md, "Link numbers").
ghost use Rattle.std.specs.Prelude.{IfNone, IfSome, IsFalse, IsTrue, [], length, slice_index, ◌++◌, ◌<◌, ◌∷◌, ◌≡◌, ◌⊎◌};
ghost use Rattle.gen1_rolls.specs.Draws.{DrawsByte, FindsAs, FindsNone};
ghost use Rattle.gen1_rolls.specs.Streams.{IsStream, passes};
ghost use Rattle.gen1_rolls.specs.Steady.{steady, stream_of};
ghost use Rattle.gen1_outcomes.specs.Nodes.{IsFresh, IsSettled, Marks, NotesNew, Passes, script_of, scripted};
ghost use Rattle.gen1_outcomes.specs.Bytes.{ArePassing, IsNone};
ghost use Rattle.gen1_outcomes.specs.declared.log.Entry.TheVariants as entries;
ghost use Rattle.gen1_outcomes.specs.Logs.{NotesEntry};

use crate::byte_set::ByteSet;
use crate::log::{Entry, Log};
use crate::nodes::{Asked, Nodes};
use gen1_rolls::{ByteTest, Look, Rolls, Steady, draw_from, search_from};

/// What draws are noted in. Nothing but [`Noted`] is; a type parameter lets the explorer hold a reference.
pub(crate) trait Notes {
    ghost use Rattle.std.specs.Borrow.{GName};
    ghost use Rattle.gen1_outcomes.specs.declared.nodes.Nodes.{Nodes};

    // What is noted so far, and the reference to it.
    ghost noting: { Self → Nodes };

    ghost name: { Self → GName };

    /// Whether the next draw is one that no way had before.
    fn is_new(&self) -> bool
        ensures new { IsTrue result → IsFresh (noting self.now) }
        ensures other { IsFalse result → IsSettled (noting self.now) };

    /// Goes past the next draw, if it is one of this way.
    fn pass(&mut self, byte: u8, asked: Asked, look: Look) -> bool
        ensures passed { IsTrue result → Passes byte asked look (noting self.old) (noting self.new) }
        ensures new { IsFalse result → IsFresh (noting self.old) }
        ensures kept { IsFalse result → noting self.new ≡ noting self.old }
        ensures same_reference { name self.new ≡ name self.old };

    /// Notes that a draw that no way had before has this byte, of those that it may have.
    fn note(&mut self, byte: u8, asked: Asked, look: Look, may_have: &ByteSet)
        ensures noted { IsFresh (noting self.old)
            → NotesNew byte asked look may_have.now (noting self.old) (noting self.new) }
        ensures same_reference { name self.new ≡ name self.old };

    /// Notes that a search found nothing.
    fn miss(&mut self)
        ensures marks { Marks (noting self.old) (noting self.new) }
        ensures same_reference { name self.new ≡ name self.old };
}

/// Nodes that draws are noted in. They are borrowed, so that an update moves a reference to them.
#[derive(Drop)]
pub(crate) struct Noted<'a> {
    nodes: &'a mut Nodes,
}

impl<'a> Noted<'a> {
    /// Notes draws in these nodes.
    pub(crate) fn of(nodes: &'a mut Nodes) -> Noted<'a>
        ensures nodes { result.nodes.now ≡ nodes.old }
        ensures same_reference { result.nodes.ghost_name ≡ nodes.entry.ghost_name }
    {
        Noted { nodes }
    }
}

impl Notes for Noted<'_> {
    ghost noting = { λ a. a.nodes.now };

    ghost name = { λ a. a.nodes.ghost_name };

    fn is_new(&self) -> bool {
        self.nodes.is_new()
    }

    #[inline(always)] // docs/SPEED.md, "Hints on inlining"
    fn pass(&mut self, byte: u8, asked: Asked, look: Look) -> bool {
        self.nodes.pass(byte, asked, look)
    }

    #[inline(never)] // docs/SPEED.md, "Hints on inlining"
    fn note(&mut self, byte: u8, asked: Asked, look: Look, may_have: &ByteSet) {
        self.nodes.note(byte, asked, look, may_have);
    }

    fn miss(&mut self) {
        self.nodes.miss();
    }
}

/// A script that notes the draws that are taken from it. Its log has them too.
#[derive(Drop)]
pub(crate) struct Explorer<N> {
    script: Script,
    notes: N,
    log: Log,
}

impl<N: Notes> Explorer<N> {
    /// An explorer of the way that begins with these bytes, before its first draw.
    pub(crate) fn new(path: [u8; DEPTH], notes: N) -> Explorer<N>
        ensures script { result.script ≡ script_of path }
        ensures noting { N.noting result.notes ≡ N.noting notes }
        ensures same_reference { N.name result.notes ≡ N.name notes }
        ensures log { result.log.entries ≡ [] }
    {
        Explorer {
            script: Script::new(path),
            notes,
            log: Log::new(),
        }
    }

    /// The draws from here on are a stream. Nothing happens.
    pub(crate) fn draws_a_stream(&self)
        ensures { IsStream (stream_of scripted self.now.script) }
    {
        self.script.draws_a_stream();
    }
}

impl<N: Notes> Rolls for Explorer<N> {
    ghost use Rattle.gen1_outcomes.specs.Logs.{explored};

    ghost drawing = { explored N.noting N.name };

    // A draw of which all is looked at.
    fn draw(&mut self) -> u8 {
        self.draw_as(Look::Remainder(256))
    }

    fn draw_as(&mut self, look: Look) -> u8 {
        draw_noted(&mut self.script, &mut self.notes, &mut self.log, look)
    }

    fn until_as(&mut self, test: ByteTest, look: Look) -> Option<u8> {
        search_noted(&mut self.script, &mut self.notes, &mut self.log, test, look)
    }
}

// Draws a byte, and notes and logs it with its look.
fn draw_noted<N: Notes>(script: &mut Script, notes: &mut N, log: &mut Log, look: Look) -> u8
    ensures drawn { DrawsByte (steady scripted) script result }
    ensures logged { log.new.entries ≡ log.old.entries ++ entries.Draw look result ∷ [] }
    ensures noted { NotesEntry (entries.Draw look result) (N.noting notes.old) (N.noting notes.new) }
    ensures same_reference { N.name notes.new ≡ N.name notes.old }
{
    let byte = script.draw();
    note_draw(notes, byte, look);
    *log = log.then(&Entry::Draw(look, byte));
    byte
}

// Searches a byte, and notes and logs it with its look and its test.
fn search_noted<N: Notes>(
    script: &mut Script,
    notes: &mut N,
    log: &mut Log,
    test: ByteTest,
    look: Look,
) -> Option<u8>
    ensures found { IfSome result (FindsAs (steady scripted) (passes test) look script) }
    ensures none { IfNone result (FindsNone (steady scripted) (passes test) script) }
    ensures logged { IfSome result (λ byte. log.new.entries ≡ log.old.entries ++ entries.Found test look byte ∷ []) }
    ensures missed { IfNone result (log.new.entries ≡ log.old.entries ++ entries.Missed test ∷ []) }
    ensures noted { IfSome result (λ byte.
        NotesEntry (entries.Found test look byte) (N.noting notes.old) (N.noting notes.new)) }
    ensures marks { IfNone result
        (NotesEntry (entries.Missed test) (N.noting notes.old) (N.noting notes.new)) }
    ensures same_reference { N.name notes.new ≡ N.name notes.old }
{
    match script.until_as(test, look) {
        Some(byte) => {
            note_found(notes, byte, test, look);
            *log = log.then(&Entry::Found(test, look, byte));
            Some(byte)
        }
        None => {
            notes.miss();
            *log = log.then(&Entry::Missed(test));
            None
        }
    }
}

// Notes a draw of which the look was seen.
fn note_draw<N: Notes>(notes: &mut N, byte: u8, look: Look)
    ensures noted { NotesEntry (entries.Draw look byte) (N.noting notes.old) (N.noting notes.new) }
    ensures same_reference { N.name notes.new ≡ N.name notes.old }
{
    if !notes.pass(byte, Asked::Next, look) {
        notes.note(byte, Asked::Next, look, &ByteSet::all());
    }
}

// Notes a search that found a byte of which the look was seen.
fn note_found<N: Notes>(notes: &mut N, byte: u8, test: ByteTest, look: Look)
    ensures noted { IsTrue (passes test byte)
        → NotesEntry (entries.Found test look byte) (N.noting notes.old) (N.noting notes.new) }
    ensures same_reference { N.name notes.new ≡ N.name notes.old }
{
    if !notes.pass(byte, Asked::First(test), look) {
        let bytes = may_have(&*notes, test);
        notes.note(byte, Asked::First(test), look, &bytes);
    }
}

// The bytes that a search may find, if they are to be noted.
fn may_have<N: Notes>(notes: &N, test: ByteTest) -> ByteSet
    ensures { ArePassing (passes test) result ⊎ (IsSettled (N.noting notes.now) × IsNone result) }
{
    if notes.is_new() {
        ByteSet::that_pass(test)
    } else {
        ByteSet::none()
    }
}

/// How many bytes are given. No update takes more than 17 draws and searches, as far as is known.
pub const DEPTH: usize = 24;

/// A generator that draws given bytes, and after them counts up from 0.
#[derive(Clone, Copy, PartialEq, Eq, Debug, Drop)]
pub struct Script {
    /// The given bytes.
    pub path: [u8; DEPTH],
    /// How many of them were drawn.
    pub at: usize,
    /// What is drawn next after them.
    pub number: u8,
}

impl Script {
    /// The script of these bytes, before its first draw.
    pub fn new(path: [u8; DEPTH]) -> Self
        ensures { result ≡ record { path = path; at = 0; number = 0 } }
    {
        Script {
            path,
            at: 0,
            number: 0,
        }
    }

    /// The draws from here on are a stream. Nothing happens.
    pub fn draws_a_stream(&self)
        ensures { IsStream (stream_of scripted self.now) }
    {
        keeps_the_law(&self.path, self.at, self.number);
    }
}

impl Steady for Script {
    const SPAN: usize = 280;

    ghost SPAN = { 280 };

    ghost generator = { scripted };

    fn next_byte(&mut self) -> u8 {
        self.draws_a_stream();
        if self.at < DEPTH {
            let byte = self.path[self.at];
            self.at += 1;
            byte
        } else {
            let byte = self.number;
            self.number = byte.wrapping_add(1);
            byte
        }
    }

    ghost use Rattle.std.proofs.Common.{lit<, refl};

    ghost positive = { lit< tt };

    ghost spans = { refl };
}

impl Rolls for Script {
    ghost drawing = { steady scripted };

    fn draw(&mut self) -> u8 {
        draw_from(self)
    }

    fn until_as(&mut self, test: ByteTest, look: Look) -> Option<u8> {
        search_from(self, test, look)
    }
}

// The draws of a script with these parts are a stream. Returns its first given byte.
fn keeps_the_law(path: &[u8], at: usize, number: u8) -> u8
    requires { 0 < length path.now }
    ensures first { result ≡ slice_index path.now 0 }
    ensures stream { IsStream (stream_of scripted
        (record { path = path.now; at = at; number = number })) }
{
    path[0]
}
