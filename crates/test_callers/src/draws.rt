//! A count that is drawn from any generator (docs/MECHANICS.md, "Link numbers").
ghost use Rattle.std.specs.Prelude.{◌≡◌, ℕ, ◌+◌, ◌%◌, Some, MatchOption, nat_lt};
ghost use Rattle.gen1_rolls.specs.Draws.{Since, StandsIn};
ghost use Rattle.gen1_rolls.specs.Streams.{byte_at, span, first, low_bits, Link as LinkStream};

use gen1_rolls::{ByteTest, LinkRandom, Rolls, until};

/// Draws a count from 1 to 7: the lowest three bits of the first draw in which they aren't 0. Like the engine, it
/// works for any generator.
pub fn count<R: Rolls>(r: &mut R) -> u8
    ensures { (since : Since R.drawing r.new) (n : ℕ) → StandsIn R.drawing since.source n r.old
        → MatchOption (first since.source.stream n (λ b. nat_lt 0 (low_bits 3 b)))
        ((result ≡ 0) × StandsIn R.drawing since.source (n + span since.source.stream) r.new)
        (λ m. (result ≡ low_bits 3 (byte_at since.source.stream m))
        × StandsIn R.drawing since.source (m + 1) r.new) }
{
    match until(r, ByteTest::NotMultiple(8)) {
        Some(b) => b % 8,
        None => 0,
    }
}

/// A draw and a count. The index and the numbers show how many draws they took.
pub fn index_after(seed: [u8; 10]) -> u8
    ensures { (m : ℕ) → first (LinkStream seed) 1 (λ b. nat_lt 0 (low_bits 3 b)) ≡ Some m
        → result ≡ (m + 1) % 9 }
{
    let mut random = LinkRandom::new(seed);
    random.draw();
    count(&mut random);
    random.index()
}
