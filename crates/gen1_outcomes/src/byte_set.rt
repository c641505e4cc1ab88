//! Sets of bytes (docs/MECHANICS.md, "Link numbers").
ghost use Rattle.std.specs.Prelude.{Bool, IfNone, IfSome, IsFalse, IsTrue, ℕ, min, nat_lt, ◌%◌, ◌*◌, ◌+◌, ◌-◌, ◌^◌, ◌<◌, ◌≡◌, ◌≤◌, ◌≢◌, ◌==◌, if◌then◌else◌};
ghost use Rattle.std.specs.Int.{bit_at};
ghost use Rattle.gen1_rolls.specs.Streams.{passes, rotated_left_3, rotated_right_1};
ghost use Rattle.gen1_outcomes.specs.Bytes.{bits_set, has, size};

use gen1_rolls::ByteTest;

/// A set of bytes: each has a bit of 256.
#[derive(Clone, Copy, PartialEq, Eq, Debug, Drop)]
pub struct ByteSet {
    /// The bits.
    pub words: [u64; 4],
}

impl ByteSet {
    /// No byte.
    pub fn none() -> Self
        ensures { (b : ℕ) → b < 256 → has result b ≡ 0 }
    {
        ByteSet { words: [0; 4] }
    }

    /// All 256 bytes.
    #[tactic(auto, using(crate::proofs::Sets::all_has))]
    pub fn all() -> Self
        ensures { (b : ℕ) → b < 256 → has result b ≡ 1 }
    {
        ByteSet {
            words: [u64::MAX; 4],
        }
    }

    /// Whether the set has all 256 bytes.
    pub fn is_all(&self) -> bool
        ensures { IsTrue result → (b : ℕ) → b < 256 → has self.now b ≡ 1 }
    {
        *self == ByteSet::all()
    }

    /// The bytes whose place among 64 neighbours is set in the word.
    #[tactic(auto, using(crate::proofs::Sets::repeated_has))]
    pub fn repeated(word: u64) -> Self
        ensures { (b : ℕ) → b < 256 → has result b ≡ bit_at word (b % 64) }
    {
        ByteSet { words: [word; 4] }
    }

    /// The bytes that pass a test.
    pub fn that_pass(test: ByteTest) -> Self
        ensures { (b : ℕ) → b < 256 → has result b ≡ (if passes test b then 1 else 0) }
    {
        match test {
            ByteTest::RotatedAtLeast(least) => {
                ByteSet::all().rotated_right_between(u16::from(least), 256)
            }
            _ => ByteSet::each_that_passes(test),
        }
    }

    // The bytes that pass a test, tried one by one.
    fn each_that_passes(test: ByteTest) -> Self
        ensures { (b : ℕ) → b < 256 → has result b ≡ (if passes test b then 1 else 0) }
    {
        let mut set = ByteSet::none();
        'bytes: for number in 0..256u16 {
            let byte = number as u8;
            set.insert_if(byte, test.passes(byte));
        }
        set
    }

    /// Puts the byte into the set.
    #[tactic(auto, using(crate::proofs::Sets::inserted, crate::proofs::Sets::inserted_other))]
    pub fn insert(&mut self, byte: u8)
        ensures there { has self.new byte ≡ 1 }
        ensures others { (b : ℕ) → b < 256 → b ≢ byte → has self.new b ≡ has self.old b }
    {
        self.words[(byte / 64) as usize] |= 1 << (byte % 64);
    }

    /// Puts the byte into the set on a condition.
    pub fn insert_if(&mut self, byte: u8, condition: bool)
        ensures here { has self.new byte ≡ (if condition then 1 else has self.old byte) }
        ensures others { (b : ℕ) → b < 256 → b ≢ byte → has self.new b ≡ has self.old b }
    {
        if condition {
            self.insert(byte);
        }
    }

    /// Whether the byte is in the set.
    pub fn contains(&self, byte: u8) -> bool
        ensures there { IsTrue result → has self.now byte ≡ 1 }
        ensures absent { IsFalse result → has self.now byte ≡ 0 }
    {
        self.words[(byte / 64) as usize] >> (byte % 64) & 1 == 1
    }

    /// The bytes that are in both sets.
    #[tactic(auto, using(crate::proofs::Sets::both_has))]
    pub fn both(&self, other: &ByteSet) -> ByteSet
        ensures { (b : ℕ) → b < 256 → has result b ≡ min (has self.now b) (has other.now b) }
    {
        ByteSet {
            words: [
                self.words[0] & other.words[0],
                self.words[1] & other.words[1],
                self.words[2] & other.words[2],
                self.words[3] & other.words[3],
            ],
        }
    }

    /// The bytes that are in this set and not in the other.
    #[tactic(auto, using(crate::proofs::Sets::without_has))]
    pub fn without(&self, other: &ByteSet) -> ByteSet
        ensures { (b : ℕ) → b < 256 → has result b ≡ has self.now b - has other.now b }
    {
        ByteSet {
            words: [
                minus(self.words[0], other.words[0]),
                minus(self.words[1], other.words[1]),
                minus(self.words[2], other.words[2]),
                minus(self.words[3], other.words[3]),
            ],
        }
    }

    /// The bytes below a bound.
    pub fn below(bound: u8) -> ByteSet
        ensures { (b : ℕ) → b < 256 → has result b ≡ (if nat_lt b bound then 1 else 0) }
    {
        ByteSet {
            words: [
                ones(bound),
                ones(bound.saturating_sub(64)),
                ones(bound.saturating_sub(128)),
                ones(bound.saturating_sub(192)),
            ],
        }
    }

    /// The bytes that, rotated left by 3 bits, are below a bound.
    pub fn rotated_below(bound: u8) -> ByteSet
        ensures { (b : ℕ) → b < 256
            → has result b ≡ (if nat_lt (rotated_left_3 b) bound then 1 else 0) }
    {
        ByteSet {
            words: [
                eighths(bound, 0),
                eighths(bound, 2),
                eighths(bound, 4),
                eighths(bound, 6),
            ],
        }
    }

    /// The bytes of the set that, rotated right by one bit, are from the first number up to the next.
    #[inline(always)] // docs/SPEED.md, "Hints on inlining"
    pub fn rotated_right_between(&self, first: u16, next: u16) -> ByteSet
        ensures { (b : ℕ) → b < 256 → has result b ≡ min (has self.now b) (if nat_lt (rotated_right_1 b) next then 1 else 0)
            - (if nat_lt (rotated_right_1 b) first then 1 else 0) }
    {
        ByteSet {
            words: [
                between(first, next, 0, self.words[0]),
                between(first, next, 32, self.words[1]),
                between(first, next, 64, self.words[2]),
                between(first, next, 96, self.words[3]),
            ],
        }
    }

    /// The least byte of the set.
    #[tactic(auto, using(crate::proofs::Sets::first_has, crate::proofs::Sets::first_least))]
    pub fn first(&self) -> Option<u8>
        ensures none { IfNone result ((b : ℕ) → b < 256 → has self.now b ≡ 0) }
        ensures some { IfSome result (λ first. has self.now first ≡ 1) }
        ensures least { IfSome result (λ first. (b : ℕ) → b < first → has self.now b ≡ 0) }
    {
        'words: for place in 0..4u8 {
            let word = self.words[place as usize];
            if word != 0 {
                return Some(64 * place + word.trailing_zeros() as u8);
            }
        }
        None
    }

    /// How many bytes the set has.
    #[tactic(auto, using(crate::proofs::Sets::size_by))]
    pub fn count(&self) -> u16
        ensures { result ≡ size self.now }
    {
        let low = count_of(self.words[0]) + count_of(self.words[1]);
        let high = count_of(self.words[2]) + count_of(self.words[3]);
        low + high
    }
}

// The bits of a word that the other word lacks.
#[tactic(auto, using(crate::proofs::Sets::without_bit))]
fn minus(one: u64, other: u64) -> u64
    ensures { (i : ℕ) → i < 64 → bit_at result i ≡ bit_at one i - bit_at other i }
{
    one & !other
}

// How many bits of a word are set.
#[tactic(auto, using(crate::proofs::Sets::count_is))]
fn count_of(word: u64) -> u16
    ensures value { result ≡ bits_set word }
    ensures few { result ≤ 64 }
{
    word.count_ones() as u16
}

// The number whose lowest bits are set, as many as are given, or all 64.
#[tactic(auto, using(crate::proofs::Sets::ones_all, crate::proofs::Sets::ones_few))]
fn ones(count: u8) -> u64
    ensures { result ≡ 2 ^ min count 64 - 1 }
{
    if count >= 64 {
        u64::MAX
    } else {
        (1 << count) - 1
    }
}

// The bytes of a word that, rotated right by one bit, are from the first number up to the next. The first byte of the word, so rotated,
// is `least`.
fn between(first: u16, next: u16, least: u16, word: u64) -> u64
    requires { least ≤ 96 }
    ensures { (i : ℕ) → i < 64 → bit_at result i ≡ min (bit_at word i) (if nat_lt (least + rotated_right_1 i) next then 1 else 0)
        - (if nat_lt (least + rotated_right_1 i) first then 1 else 0) }
{
    if word == 0 {
        return 0;
    }
    if first >= 128 {
        // The even bytes are below that.
        return minus(word & odd_below(next, least), odd_below(first, least));
    }
    minus(word & halves(next, least), halves(first, least))
}

// The bytes of such a word that are below a bound when rotated.
#[tactic(auto, using(crate::proofs::Sets::halves_has))]
fn halves(bound: u16, least: u16) -> u64
    requires { least ≤ 96 }
    ensures { (i : ℕ) → i < 64
        → bit_at result i ≡ (if nat_lt (least + rotated_right_1 i) bound then 1 else 0) }
{
    let even = bound.saturating_sub(least).min(32) as u8;
    ones(2 * even) & 0x5555_5555_5555_5555 | odd_below(bound, least)
}

// The odd bytes of such a word that are below a bound when rotated. Each is 128 more, so rotated, than the even one before it.
#[tactic(auto, using(crate::proofs::Sets::odd_has))]
fn odd_below(bound: u16, least: u16) -> u64
    requires { least ≤ 96 }
    ensures { (i : ℕ) → i < 64 → bit_at result i
        ≡ (if 1 == i % 2 then (if nat_lt (least + rotated_right_1 i) bound then 1 else 0) else 0) }
{
    let odd = bound.saturating_sub(least + 128).min(32) as u8;
    ones(2 * odd) & 0xAAAA_AAAA_AAAA_AAAA
}

// A word of `rotated_below`. Its lower 32 bytes are, rotated, `least` and every eighth number from there, and its higher
// 32 one more.
fn eighths(bound: u8, least: u8) -> u64
    requires { least ≤ 6 }
    ensures low { (i : ℕ) → i < 32
        → bit_at result i ≡ (if nat_lt (8 * i + least) bound then 1 else 0) }
    ensures high { (i : ℕ) → i < 32
        → bit_at result (32 + i) ≡ (if nat_lt (8 * i + least + 1) bound then 1 else 0) }
{
    let low = (u16::from(bound) + 7 - u16::from(least)) / 8;
    let high = (u16::from(bound) + 6 - u16::from(least)) / 8;
    ones(high as u8) * 0x1_0000_0000 + ones(low as u8)
}
