// Float operations of Rust, each total and equal to one definition.
#![tactic(auto)]

ghost use Rattle.std.specs.Prelude.{◌≡◌, ◌^◌, ◌<◌, ◌≤◌};
ghost use Rattle.std.specs.Float.Ieee as Ieee;
ghost use Rattle.std.specs.Float.{binary64};
ghost use Rattle.std.specs.Float.Ieee.Nearest.{closest};
ghost use Rattle.ieee.specs.Casts.{ceil_unsigned, round_away, narrow, maximum};
ghost use Rattle.ieee.specs.Casts.{clamp as Casts·clamp};

// Rust's `x as u64`: toward zero, brought to the range, and 0 for a NaN. Below 2^53, where nearly every
// value lies, it is a shift of the digits. Below 2^32 the front 32 digits are shifted to the left by the exponent:
// LLVM writes the count of a right shift, 1075 - exponent, to a part of a register, so that each turn of a loop
// waits for the turn before.
pub fn to_u64(x: f64) -> u64
    ensures { result ≡ Ieee.to_unsigned 64 x }
{
    if x >= 1.0 {
        let bits = x.to_bits();
        let exponent = bits >> 52;
        let digits = (bits & 0xf_ffff_ffff_ffff) | 0x10_0000_0000_0000;
        if exponent <= 1054 {
            ((digits >> 21) << (exponent - 1023)) >> 31
        } else if exponent <= 1075 {
            digits >> (1075 - exponent)
        } else if x < 18446744073709551616.0 {
            std::num::truncating_f64_to_u64(x)
        } else {
            u64::MAX
        }
    } else {
        0
    }
}

// Rust's `x as i64`.
pub fn to_i64(x: f64) -> i64
    ensures { result ≡ Ieee.to_signed 63 x }
{
    std::num::saturating_f64_to_i64(x)
}

// Rust's `x.ceil() as u64`. Below 2^53 the whole part is a float exactly, so one comparison says whether
// something was dropped. From there on an `f64` has no fraction.
#[tactic(auto, using(crate::proofs::Whole::in_float_lem, crate::proofs::Ceil::ceil_up, crate::proofs::Ceil::ceil_as_is, crate::proofs::Ceil::ceil_big))]
pub fn ceil_to_u64(x: f64) -> u64
    ensures { result ≡ ceil_unsigned 64 x }
{
    let t = to_u64(x);
    if t < 1 << 53 {
        let y = t as f64;
        if y < x { t + 1 } else { t }
    } else {
        t
    }
}

// w / 2^sh to the nearest whole number, a tie to the even one.
pub fn nearest_shift(w: u64, sh: u64) -> u64
    requires { (1 ≤ sh) × (sh < 64) × (w < 2 ^ 63) }
    ensures { result ≡ closest w (2 ^ sh) }
{
    let half = 1 << (sh - 1);
    (w + (half - 1) + ((w >> sh) & 1)) >> sh
}

// Rust's `x as f32`: to the nearest `f32`, a tie to the even one.
#[tactic(auto, using(crate::proofs::Same::same_narrow))]
pub fn to_f32(x: f64) -> f32
    ensures { result ≡ narrow x }
{
    std::num::nearest_f64_to_f32_with_nan(x)
}

// Rust's `f64::round`: the nearest whole number, a half away from zero. The sign stays, a zero's too.
#[tactic(auto, using(crate::proofs::Same::same_round))]
pub fn round(x: f64) -> f64
    ensures { result ≡ round_away binary64 x }
{
    x.round()
}

// Rust's `x.round() as i64`.
pub fn round_to_i64(x: f64) -> i64
    ensures { result ≡ Ieee.to_signed 63 (round_away binary64 x) }
{
    to_i64(round(x))
}

// Rust's `x.max(y)`: the larger, and where one is a NaN the other. Rust leaves open which of two equal
// values it gives, so which zero: here it is the first.
#[tactic(auto, unfolding(crate::specs::Casts::maximum))]
pub fn max(x: f64, y: f64) -> f64
    ensures { result ≡ maximum x y }
{
    if x < y || x.is_nan() { y } else { x }
}

// Rust's `x.clamp(lo, hi)`: x held between lo and hi. A NaN stays. Rust panics where lo <= hi does not
// hold: here lo is applied first, then hi.
#[tactic(auto, unfolding(crate::specs::Casts::clamp))]
pub fn clamp(x: f64, lo: f64, hi: f64) -> f64
    ensures { result ≡ Casts·clamp x lo hi }
{
    let above = if x < lo { lo } else { x };
    if hi < above { hi } else { above }
}

// Rust's `x as f64` of an `f32`, which changes no value. A NaN goes to a NaN.
pub fn to_f64(x: f32) -> f64
    ensures { result ≡ x }
{
    std::num::f32_to_f64_with_nan(x)
}
