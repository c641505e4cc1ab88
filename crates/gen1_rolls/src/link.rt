//! The generator of a link battle, and one that counts up (docs/MECHANICS.md, "Link numbers").
ghost use Rattle.std.specs.Prelude.{Bool, IfNone, IfSome, if◌then◌else◌, length, nat_lt, slice_index, ℕ, ◌<◌, ◌≡◌};
ghost use Rattle.gen1_rolls.specs.Draws.{FindsAs, FindsNone, Settles, Steps};
ghost use Rattle.gen1_rolls.specs.Steady.{FailsFrom, FindsDraw, FindsNoDraw, Ring, StandsAt, link, one_up, ring_of, steady, stream_of, sweep, turned};
ghost use Rattle.gen1_rolls.specs.Streams.{IsFirstOf, IsStream, Link, Sweep as SweepFrom, renewed};

use crate::rolls::{ByteTest, Look, Rolls, Steady, draw_from, search_from};
use std::marker::Model;

/// The generator of a link battle (docs/MECHANICS.md, "Link numbers").
///
/// It has nine numbers that are drawn in turn, a tenth that is only kept, and the index of the number that is drawn
/// next.
#[derive(Clone, Copy, PartialEq, Eq, Debug, Drop)]
pub struct LinkRandom {
    index: u8,
    numbers: [u8; 10],
}

impl Model for LinkRandom {
    ghost use Rattle.std.specs.Prelude.{◌<◌};
    ghost use Rattle.gen1_rolls.specs.Steady.{Ring};

    ghost Value = { Ring };

    ghost view = { λ r. record { index = r.index; numbers = r.numbers } };

    ghost invariant = { λ r. r.index < 9 };

    ghost inverse = { λ ring. record { index = ring.index; numbers = ring.numbers } };
}

impl LinkRandom {
    /// The generator at the beginning of a battle. Its first nine draws are the first nine numbers.
    pub fn new(seed: [u8; 10]) -> Self
        ensures start { result ≡ ring_of seed }
        ensures stands { StandsAt link (ring_of seed) (Link seed) 0 result }
    {
        LinkRandom {
            index: 0,
            numbers: seed,
        }
    }

    /// A generator with these parts, as `index` and `numbers` return them. Returns `None` if the index is above 8.
    pub fn from_parts(index: u8, numbers: [u8; 10]) -> Option<Self>
        ensures value { result ≡ (if nat_lt index 9
            then Some (record { index = index; numbers = numbers })
            else None) }
        ensures stands { IfSome result (λ r.
            StandsAt link (ring_of numbers) (Link numbers) index r) }
    {
        if index < 9 {
            Some(LinkRandom { index, numbers })
        } else {
            None
        }
    }

    /// The index of the number that is drawn next, 0 to 8.
    pub fn index(&self) -> u8
        ensures value { result ≡ self.now.index }
        ensures below { result < 9 }
    {
        self.index
    }

    /// The nine numbers as they are now, and the tenth.
    pub fn numbers(&self) -> [u8; 10]
        ensures { result ≡ self.now.numbers }
    {
        self.numbers
    }

    // The numbers of this round are looked at where they are, and only the one that passes is drawn (docs/SPEED.md,
    // "A search by draws").
    #[inline] // docs/SPEED.md, "Hints on inlining"
    fn search<F: Fn(u8) -> bool>(&mut self, test: F, _look: Look) -> Option<u8>
        requires callable { F.IsAlwaysCallable test }
        ensures found { (p : ℕ → Bool) → Settles (F.post test) p
            → IfSome result (FindsAs (steady link) p _look self) }
        ensures none { (p : ℕ → Bool) → Settles (F.post test) p
            → IfNone result (FindsNone (steady link) p self) }
        ensures steps { Steps (steady link) self }
    {
        match place_from(&self.numbers, self.index, &test) {
            Some(place) => {
                self.index = place;
                Some(self.next_byte())
            }
            None => self.until_later(test),
        }
    }

    // The rest of a search, where no number that is left in this round passes. Within 256 rounds the last number alone
    // is every byte.
    #[inline(never)] // docs/SPEED.md, "Hints on inlining"
    fn until_later<F: Fn(u8) -> bool>(&mut self, test: F) -> Option<u8>
        requires callable { F.IsAlwaysCallable test }
        requires stream { IsStream (Link self.old.numbers) }
        ensures found { (p : ℕ → Bool) → Settles (F.post test) p → FailsFrom self.old.index self.old.numbers p
            → IfSome result (λ b. FindsDraw link p self.old b self.new) }
        ensures fits { IfSome result (λ b. b < 256) }
        ensures none { (p : ℕ → Bool) → Settles (F.post test) p → FailsFrom self.old.index self.old.numbers p
            → IfNone result (FindsNoDraw link p self.old self.new) }
    {
        let start = self.index;
        'rounds: for _ in 0..255_u16 {
            self.index = 0;
            turn(&mut self.numbers);
            match place_from(&self.numbers, 0, &test) {
                Some(place) => {
                    self.index = place;
                    return Some(self.next_byte());
                }
                None => {}
            }
        }
        self.index = start;
        turn(&mut self.numbers);
        None
    }
}

impl Steady for LinkRandom {
    const SPAN: usize = 2304;

    ghost SPAN = { 2304 };

    ghost generator = { link };

    #[inline] // docs/SPEED.md, "Hints on inlining"
    fn next_byte(&mut self) -> u8 {
        let drawn = number_at(&self.numbers, self.index);
        if self.index < 8 {
            self.index += 1;
        } else {
            self.index = 0;
            turn(&mut self.numbers);
        }
        drawn
    }

    ghost use Rattle.std.proofs.Common.{lit<, refl};

    ghost positive = { lit< tt };

    ghost spans = { refl };
}

impl Rolls for LinkRandom {
    ghost drawing = { steady link };

    #[inline] // docs/SPEED.md, "Hints on inlining"
    fn draw(&mut self) -> u8 {
        draw_from(self)
    }

    // Each kind of test has its own search, and a caller knows the kind, so that nothing asks for it.
    #[inline(always)] // docs/SPEED.md, "Hints on inlining"
    fn until_as(&mut self, test: ByteTest, look: Look) -> Option<u8> {
        match test {
            ByteTest::RotatedAtLeast(least) => {
                self.search(
                    move |byte| ByteTest::RotatedAtLeast(least).passes(byte),
                    look,
                )
            }
            ByteTest::PositiveBelow(bound) => {
                self.search(
                    move |byte| ByteTest::PositiveBelow(bound).passes(byte),
                    look,
                )
            }
            ByteTest::NotMultiple(divisor) => {
                self.search(
                    move |byte| ByteTest::NotMultiple(divisor).passes(byte),
                    look,
                )
            }
            ByteTest::PlaceOf(four) => {
                self.search(move |byte| ByteTest::PlaceOf(four).passes(byte), look)
            }
        }
    }
}

/// Renews one of the nine numbers: five times the number, plus one, modulo 256 (docs/MECHANICS.md, "Link numbers").
///
/// This happens each time that all nine were drawn.
pub fn renew(number: u8) -> u8
    ensures { result ≡ renewed number }
{
    number.wrapping_mul(5).wrapping_add(1)
}

/// Renews the nine numbers together.
fn turn(numbers: &mut [u8; 10])
    ensures { numbers.new ≡ turned 1 numbers.old }
{
    for place in 0..9 {
        numbers[place] = renew(numbers[place]);
    }
}

/// The place of the first of the nine numbers, from a place on, that passes the test. Its contract also says that the
/// numbers begin a stream.
fn place_from<F: Fn(u8) -> bool>(numbers: &[u8; 10], from: u8, test: &F) -> Option<u8>
    requires callable { F.IsAlwaysCallable test.now }
    ensures stream { IsStream (Link numbers.now) }
    ensures below { IfSome result (λ place. place < 9) }
    ensures found { (p : ℕ → Bool) → Settles (F.post test.now) p
        → IfSome result (IsFirstOf (slice_index numbers.now) from p) }
    ensures none { (p : ℕ → Bool) → Settles (F.post test.now) p
        → IfNone result (FailsFrom from numbers.now p) }
{
    'places: for place in from..9 {
        if test(numbers[place as usize]) {
            return Some(place);
        }
    }
    None
}

/// The number at an index. Its contract also says that the draws from there on are a stream.
fn number_at(numbers: &[u8], index: u8) -> u8
    requires below { index < 9 }
    requires ten { length numbers.now ≡ 10 }
    ensures value { result ≡ slice_index numbers.now index }
    ensures stream { IsStream
        (stream_of link (record { index = index; numbers = numbers.now })) }
{
    numbers[index as usize]
}

/// A generator for tests (docs/MECHANICS.md, "Link numbers").
///
/// Each draw is the last plus 1, and 0 after 255. A search that begins one past the byte that it looks for takes all
/// 256 draws.
#[derive(Clone, Copy, PartialEq, Eq, Debug, Drop)]
pub struct Sweep {
    number: u8,
}

impl Model for Sweep {
    ghost Value = { ℕ };

    ghost view = { λ s. s.number };

    ghost inverse = { λ n. record { number = n } };
}

impl Sweep {
    /// A sweep whose first draw is the number.
    pub fn new(number: u8) -> Self
        ensures start { result ≡ number }
        ensures stands { StandsAt sweep result (SweepFrom number) 0 result }
    {
        Sweep { number }
    }
}

impl Steady for Sweep {
    const SPAN: usize = 256;

    ghost SPAN = { 256 };

    ghost generator = { sweep };

    fn next_byte(&mut self) -> u8 {
        let drawn = self.number;
        self.number = step(drawn);
        drawn
    }

    ghost use Rattle.std.proofs.Common.{lit<, refl};

    ghost positive = { lit< tt };

    ghost spans = { refl };
}

impl Rolls for Sweep {
    ghost drawing = { steady sweep };

    fn draw(&mut self) -> u8 {
        draw_from(self)
    }

    fn until_as(&mut self, test: ByteTest, look: Look) -> Option<u8> {
        search_from(self, test, look)
    }
}

/// The number after a number. Its contract also says that the draws from the first on are a stream.
fn step(number: u8) -> u8
    ensures value { result ≡ one_up number }
    ensures stream { IsStream (stream_of sweep number) }
{
    number.wrapping_add(1)
}
