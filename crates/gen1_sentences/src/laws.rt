//! What holds for all sentences (docs/MECHANICS.md, "Events"), as a function that does nothing.
ghost use Rattle.gen1_sentences.specs.Sentences.{EachStops};

/// Each event has a sentence for each reader, and it ends with a full stop.
#[tactic(auto, using(crate::proofs::Stops::sentence_stops))]
pub fn each_sentence_stops()
    ensures { EachStops }
{}
