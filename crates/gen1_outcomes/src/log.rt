//! What was asked of a generator, one question after the other. Only proofs read it: it takes no memory, and its methods do
//! nothing when they run (docs/MECHANICS.md, "Link numbers").
ghost use Rattle.std.specs.Prelude.{List, [], ◌++◌, ◌∷◌, ◌≡◌};
ghost use Rattle.std.specs.Borrow.{ftrue};
ghost use Rattle.gen1_outcomes.specs.declared.log.Entry.{Entry};

use gen1_rolls::{ByteTest, Look};
use std::marker::Model;

/// A draw or a search, and the byte that was returned.
#[derive(Clone, Copy, Drop)]
pub(crate) enum Entry {
    /// A draw, of which the look was seen.
    Draw(Look, u8),
    /// A search, of which the look was seen.
    Found(ByteTest, Look, u8),
    /// A search that no byte passes.
    Missed(ByteTest),
}

/// The questions so far.
#[derive(Drop)]
pub(crate) struct Log {
    ghost entries: { List Entry },
}

impl Model for Log {
    ghost also_owns = { λ _. ftrue };
}

impl Log {
    /// No question yet.
    pub(crate) fn new() -> Log
        ensures { result.entries ≡ [] }
    {
        Log {}
    }

    /// One question more.
    #[inline(always)]
    pub(crate) fn then(&self, _entry: &Entry) -> Log
        ensures { result.entries ≡ self.now.entries ++ _entry.now ∷ [] }
    {
        Log {}
    }
}
