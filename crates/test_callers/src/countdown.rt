//! A generator that counts down.
ghost use Rattle.std.specs.Prelude.{◌≡◌, ℕ};
ghost use Rattle.gen1_rolls.specs.Steady.{steady, stream_of};
ghost use Rattle.gen1_rolls.specs.Streams.{IsStream};
ghost use Rattle.test_callers.specs.Countdown.{countdown, one_down};

use gen1_rolls::{ByteTest, Look, Rolls, Steady, draw_from, search_from};
use std::marker::Model;

/// A generator that counts down by 1, with 255 after 0. Any 256 draws in a row hold every byte, and so do any 1,000,
/// which is its `SPAN`.
#[derive(Clone, Copy, PartialEq, Eq, Debug, Drop)]
pub struct Countdown {
    number: u8,
}

impl Model for Countdown {
    ghost Value = { ℕ };

    ghost view = { λ c. c.number };

    ghost inverse = { λ n. record { number = n } };
}

impl Countdown {
    /// A countdown whose first draw is the number.
    pub fn new(number: u8) -> Self
        ensures start { result ≡ number }
    {
        Countdown { number }
    }
}

impl Steady for Countdown {
    const SPAN: usize = 1000;

    ghost SPAN = { 1000 };

    ghost generator = { countdown };

    fn next_byte(&mut self) -> u8 {
        let drawn = self.number;
        self.number = step(drawn);
        drawn
    }

    ghost use Rattle.std.proofs.Common.{lit<, refl};

    ghost positive = { lit< tt };

    ghost spans = { refl };
}

impl Rolls for Countdown {
    ghost drawing = { steady countdown };

    fn draw(&mut self) -> u8 {
        draw_from(self)
    }

    fn until_as(&mut self, test: ByteTest, look: Look) -> Option<u8> {
        search_from(self, test, look)
    }
}

/// The number before a number. Its contract also says that the draws from the first on are a stream.
fn step(number: u8) -> u8
    ensures value { result ≡ one_down number }
    ensures stream { IsStream (stream_of countdown number) }
{
    number.wrapping_sub(1)
}
