//! What holds for every generator that notes nothing (docs/MECHANICS.md, "Link numbers").
ghost use Rattle.gen1_rolls.specs.Steady.{stream_of, StandsAt};
ghost use Rattle.gen1_rolls.specs.Streams.{IsStream};

use crate::rolls::Steady;

/// A generator is at the beginning of its own stream, which keeps to the law of streams: it is bytes, of which any `SPAN`
/// in a row hold every number. A clause about each stream is also about this one.
///
/// The law follows from a draw, so one draw is taken from a copy. `random` itself doesn't change.
pub fn draws_a_stream<R: Steady + Copy>(random: &R)
    ensures stands { StandsAt R.generator random.now
        (stream_of R.generator random.now) 0 random.now }
    ensures stream { IsStream (stream_of R.generator random.now) }
{
    let mut copy = *random;
    copy.next_byte();
}
