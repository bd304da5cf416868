// Numbers as bytes, the least first, and back: whole numbers, signed ones in two's complement, and the bit patterns of floats. A word has eight bytes, a half word four.
#![tactic(auto)]

ghost use Rattle.std.specs.Prelude.{◌≡◌, ◌+◌, ◌*◌, ◌%◌, ◌^◌, ◌≤◌, ◌<◌, ℕ, length, Float};
ghost use Rattle.std.proofs.lemmas.List.Edits.{sets};
ghost use Rattle.std.specs.Float.Ieee as Ieee;
ghost use Rattle.std.specs.Float.{Format, binary32, binary64};
ghost use Rattle.words.specs.Words.{number_at, bytes_of, has_bits, bits_of, signed_of};

// The n bytes from place `at` on as a number, the least first.
pub fn number(b: &[u8], at: usize, n: usize) -> u64
    requires { (n ≤ 8) × (at + n ≤ length b.now) }
    ensures { (result ≡ number_at b.now at n) × (result < 2 ^ (8 * n)) }
{
    let mut bytes = [0; 8];
    bytes[..n].copy_from_slice(&b[at..at + n]);
    u64::from_le_bytes(bytes)
}

// The byte at place `at`.
pub fn byte(b: &[u8], at: usize) -> u8
    requires { at + 1 ≤ length b.now }
    ensures { result ≡ number_at b.now at 1 }
{
    b[at]
}

// The word at place `at`.
pub fn word(b: &[u8], at: usize) -> u64
    requires { at + 8 ≤ length b.now }
    ensures { result ≡ number_at b.now at 8 }
{
    number(b, at, 8)
}

// The half word at place `at`: a count, a run length, or the pattern of an `f32`.
pub fn half_word(b: &[u8], at: usize) -> u32
    requires { at + 4 ≤ length b.now }
    ensures { result ≡ number_at b.now at 4 }
{
    number(b, at, 4) as u32
}

// The lower half of a word, for the pattern of an `f32`. By `%`, since `as` may drop no bits.
pub fn low_half(x: u64) -> u32
    ensures { result ≡ x % 2 ^ 32 }
{
    (x % 0x1_0000_0000) as u32
}

// Writes the n lowest bytes of v from place `at` on, the least first: all eight of them and zeros where n is larger.
pub fn put(b: &mut [u8], at: usize, n: usize, v: u64)
    requires { at + n ≤ length b.old }
    ensures { b.new ≡ sets b.old at (bytes_of n v) }
{
    let low = n.min(8);
    b[at..at + low].copy_from_slice(&v.to_le_bytes()[..low]);
    b[at + low..at + n].fill(0);
}

// The bits of x in two's complement. By name beside std's cast: the clause says `bits_of`, by which a card's bytes are defined, where std's
// says `cast_unsigned w64`, so that no caller has to show that the two are one.
pub fn signed_bits(x: i64) -> u64
    ensures { result ≡ bits_of x }
{
    x.cast_unsigned()
}

// The number whose two's complement is b, by name as above.
pub fn signed_of(b: u64) -> i64
    ensures { result ≡ signed_of b }
{
    b.cast_signed()
}

// Floats by their bit patterns, at `f64` and `f32`. All of a NaN's patterns stand for one NaN.
pub trait Pattern {
    type Bits;

    ghost format: { Format };

    ghost value: { Self → Float };

    ghost word: { Self.Bits → ℕ };

    // The float of a pattern, a NaN for any NaN's.
    fn from_pattern(bits: Self::Bits) -> Self
        ensures { value result ≡ Ieee.of_bits format (word bits) };

    // The pattern of x. A NaN has the one that the definition gives it.
    fn pattern(self) -> Self::Bits
        ensures { word result ≡ Ieee.to_bits format (value self) };

    // Whether x has the pattern. Any NaN matches any NaN's. No default body: it would want the test for a NaN and a law of `==` on patterns
    // as members of the trait, and is no shorter than the two bodies.
    fn has_pattern(self, bits: Self::Bits) -> bool
        ensures { result ≡ has_bits format (value self) (word bits) };
}

impl Pattern for f64 {
    type Bits = u64;

    ghost format = { binary64 };

    ghost value = { λ x. x };

    ghost word = { λ bits. bits };

    fn from_pattern(bits: u64) -> f64
        ensures { result ≡ Ieee.of_bits binary64 bits }
    {
        std::num::f64_from_bits_with_nan(bits)
    }

    fn pattern(self) -> u64
        ensures { result ≡ Ieee.to_bits binary64 self }
    {
        std::num::f64_to_bits_with_nan(self)
    }

    #[tactic(auto, using(crate::proofs::Patterns::nan_has, crate::proofs::Patterns::number_has))]
    fn has_pattern(self, bits: u64) -> bool
        ensures { result ≡ has_bits binary64 self bits }
    {
        if self.is_nan() {
            f64::from_pattern(bits).is_nan()
        } else {
            self.pattern() == bits
        }
    }
}

impl Pattern for f32 {
    type Bits = u32;

    ghost format = { binary32 };

    ghost value = { λ x. x };

    ghost word = { λ bits. bits };

    fn from_pattern(bits: u32) -> f32
        ensures { result ≡ Ieee.of_bits binary32 bits }
    {
        std::num::f32_from_bits_with_nan(bits)
    }

    fn pattern(self) -> u32
        ensures { result ≡ Ieee.to_bits binary32 self }
    {
        std::num::f32_to_bits_with_nan(self)
    }

    #[tactic(auto, using(crate::proofs::Patterns::nan_has, crate::proofs::Patterns::number_has))]
    fn has_pattern(self, bits: u32) -> bool
        ensures { result ≡ has_bits binary32 self bits }
    {
        if self.is_nan() {
            f32::from_pattern(bits).is_nan()
        } else {
            self.pattern() == bits
        }
    }
}
