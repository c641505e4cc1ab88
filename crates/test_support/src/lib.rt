//! What tests of other crates need, and recorded battles, on which the definitions of `gen1_machine` are computed
//! (docs/PROOFS.md, "Recorded battles"). The battles are lemmas in `proofs/`.
//!
//! - `devices`: a reader and a writer that fail at a chosen call
#![tactic(auto)]

mod devices;

pub use devices::{Broken, Failing};
