//! A generator of bytes, which all draws of a battle come from: what it is, what is looked at of a drawn byte, the first
//! draw that passes a test, and generators that note none of their draws (docs/MECHANICS.md, "Link numbers").
ghost use Rattle.std.specs.Prelude.{IfNone, IfSome, ℕ, ◌*◌, ◌/◌, ◌<◌, ◌≡◌};
ghost use Rattle.gen1_rolls.specs.Draws.{Drawing, DrawsAs, DrawsByte, FindsAs, FindsByte, FindsNone, Steps};
ghost use Rattle.gen1_rolls.specs.Streams.{IsStream, alike, passes, rotated_left_3, rotated_right_1, sees};
ghost use Rattle.gen1_rolls.specs.Steady.{Generator, steady, stream_of};

/// A generator of bytes (docs/MECHANICS.md, "Link numbers").
///
/// Its contracts speak of each stream that agrees with the draws that it has noted, and of any place in it.
pub trait Rolls {
    // When a generator is at a place of a stream, and which streams agree with the draws that it has noted.
    ghost drawing: { Drawing Self };

    /// Draws the next byte.
    fn draw(&mut self) -> u8
        ensures drawn { DrawsByte drawing self result }
        ensures steps { Steps drawing self };

    /// Draws the next byte, of which no more is looked at than the look sees.
    ///
    /// The contract allows any byte of which the look sees the same, so a caller is proved only if its look is right. A
    /// generator that goes through all results of a draw writes its own. Others draw as by `draw`.
    fn draw_as(&mut self, _look: Look) -> u8
        ensures drawn { DrawsAs drawing _look self result }
        ensures steps { Steps drawing self }
    {
        self.draw()
    }

    /// Draws until a byte passes the test, and returns that byte, of which no more is looked at than the look sees.
    ///
    /// As with `draw_as`, the contract allows any byte that passes and of which the look sees the same.
    ///
    /// Returns `None` if no byte from 0 to 255 passes.
    fn until_as(&mut self, test: ByteTest, look: Look) -> Option<u8>
        ensures found { IfSome result (FindsAs drawing (passes test) look self) }
        ensures none { IfNone result (FindsNone drawing (passes test) self) }
        ensures steps { Steps drawing self };
}

/// What is looked at of a drawn byte (docs/MECHANICS.md, "Link numbers").
///
/// A function that draws tells the generator by a `Look` which bytes are alike to it: those of which the look sees the
/// same lead to the same battle and the same events. A generator of random bytes ignores it. One that goes through all
/// results of a draw needs only one byte of those that are alike.
#[derive(Clone, Copy, PartialEq, Eq, Debug, Drop)]
pub enum Look {
    /// Whether the byte is below the bound.
    Below(u8),
    /// Whether the byte, rotated left by 3 bits, is below the bound.
    RotatedBelow(u8),
    /// The remainder of the byte by a number: by 2, 4 and 8 its lowest bits, by 256 the whole byte, by 1 nothing of it.
    Remainder(u16),
    /// The damage times the byte, rotated right by 1 bit, in 255ths. From the edge on it fells the foe, or breaks its
    /// substitute. `cut`: all damage from there on is alike.
    Factor { damage: u16, edge: u16, cut: bool },
}

impl Look {
    /// What is seen of a byte, as a number.
    ///
    /// The remainder by 0 is the byte itself.
    pub fn sees(self, byte: u8) -> u16
        ensures { result ≡ sees self byte }
    {
        match self {
            Look::Below(bound) => u16::from(byte < bound),
            Look::RotatedBelow(bound) => u16::from(rotated_left_3(byte) < bound),
            Look::Remainder(0) => u16::from(byte),
            Look::Remainder(divisor) => u16::from(byte) % divisor,
            Look::Factor { damage, edge, cut } => {
                let limit = if cut { edge } else { u16::MAX };
                scaled(damage, rotated_right_1(byte)).min(limit)
            }
        }
    }

    /// Whether the same is seen of both bytes.
    pub fn alike(self, one: u8, other: u8) -> bool
        ensures { result ≡ alike self one other }
    {
        self.sees(one) == self.sees(other)
    }
}

/// Which bytes a search accepts (docs/MECHANICS.md, "Link numbers"). It is data, so two searches can be compared.
#[derive(Clone, Copy, PartialEq, Eq, Debug, Drop)]
pub enum ByteTest {
    /// Bytes that, rotated right by 1 bit, are at least the number.
    RotatedAtLeast(u8),
    /// Bytes above 0 and below the bound.
    PositiveBelow(u16),
    /// Bytes that are no multiple of the number. For 0, bytes above 0.
    NotMultiple(u8),
    /// Bytes whose lowest 2 bits are the place of `true`.
    PlaceOf([bool; 4]),
}

impl ByteTest {
    /// Whether a search accepts the byte.
    pub fn passes(self, byte: u8) -> bool
        ensures { result ≡ passes self byte }
    {
        match self {
            ByteTest::RotatedAtLeast(least) => rotated_right_1(byte) >= least,
            ByteTest::PositiveBelow(bound) => (0 < byte) & (u16::from(byte) < bound),
            ByteTest::NotMultiple(0) => 0 < byte,
            ByteTest::NotMultiple(divisor) => 0 < byte % divisor,
            ByteTest::PlaceOf(four) => four[(byte % 4) as usize],
        }
    }
}

fn scaled(damage: u16, factor: u8) -> u16
    ensures { result ≡ damage * factor / 255 }
{
    (u32::from(damage) * u32::from(factor) / 255) as u16
}

fn rotated_left_3(byte: u8) -> u8
    ensures { result ≡ rotated_left_3 byte }
{
    byte.rotate_left(3)
}

fn rotated_right_1(byte: u8) -> u8
    ensures { result ≡ rotated_right_1 byte }
{
    byte.rotate_right(1)
}

/// Draws until a byte passes the test, and returns that byte.
///
/// Returns `None` if no byte from 0 to 255 passes.
pub fn until<R: Rolls>(r: &mut R, test: ByteTest) -> Option<u8>
    ensures found { IfSome result (FindsByte R.drawing (passes test) r) }
    ensures none { IfNone result (FindsNone R.drawing (passes test) r) }
    ensures steps { Steps R.drawing r }
{
    r.until_as(test, Look::Remainder(256))
}

/// A generator that notes none of its draws: its value alone determines what it draws next, and what it is after a draw.
///
/// It implements `Rolls` by [`draw_from`] and [`search_from`].
pub trait Steady {
    /// Any this many draws in a row hold every number from 0 to 255. So a loop that draws until a test passes needs
    /// at most this many.
    const SPAN: usize;

    ghost SPAN: { ℕ };

    // The byte that is drawn next, the generator after a draw, and how many draws in a row hold every byte.
    ghost generator: { Generator Self };

    /// Draws the next byte.
    ///
    /// The draws from this one on are a stream: bytes, of which any `SPAN` in a row hold every number from 0 to 255.
    fn next_byte(&mut self) -> u8
        ensures drawn { result ≡ generator.byte self.old }
        ensures left { self.new ≡ generator.next self.old }
        ensures stream { IsStream (stream_of generator self.old) };

    ghost positive: { 0 < SPAN };

    ghost spans: { generator.width ≡ SPAN };
}

/// Draws the next byte.
#[inline] // docs/SPEED.md, "Hints on inlining"
pub fn draw_from<R: Steady>(random: &mut R) -> u8
    ensures drawn { DrawsByte (steady R.generator) random result }
    ensures steps { Steps (steady R.generator) random }
{
    random.next_byte()
}

/// Draws until a byte passes the test, and returns that byte. The look does not matter.
///
/// Returns `None` after `SPAN` draws, if no byte from 0 to 255 passes.
#[inline] // docs/SPEED.md, "Hints on inlining"
pub fn search_from<R: Steady>(random: &mut R, test: ByteTest, _look: Look) -> Option<u8>
    ensures found { IfSome result (FindsAs (steady R.generator) (passes test) _look random) }
    ensures none { IfNone result (FindsNone (steady R.generator) (passes test) random) }
    ensures steps { Steps (steady R.generator) random }
{
    'draws: for _ in 0..R::SPAN {
        let byte = random.next_byte();
        if test.passes(byte) {
            return Some(byte);
        }
    }
    None
}
