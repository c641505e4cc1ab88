//! The draws of a battle: streams of bytes, the generator of a link battle, a generator that counts up, and the first
//! draw that passes a test.
//!
//! - `rolls`: what a generator is, what is looked at of a drawn byte, the first draw that passes a test, and generators
//!   that note nothing
//! - `link`: the generator of a link battle, and one that counts up
//! - `laws`: what holds for every generator that notes nothing
#![tactic(auto)]

mod laws;
mod link;
mod rolls;

pub use laws::draws_a_stream;
pub use link::{LinkRandom, Sweep, renew};
pub use rolls::{ByteTest, Look, Rolls, Steady, draw_from, search_from, until};
