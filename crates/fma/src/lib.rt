// IEEE 754's fused multiply-add, from whole numbers of 64 bits: one rounding.
// std's `f64::mul_add` gives the same value (proofs/Same); the scope asks for this form, from whole-number limbs.
#![tactic(auto)]

ghost use Rattle.std.specs.Prelude.{Float, ◌≡◌, ◌+◌, ◌*◌, ◌-◌, ◌≤◌, ◌<◌, ◌^◌};
ghost use Rattle.std.specs.Int.Count.{count_leading_zeros};
ghost use Rattle.fma.specs.Near.{wide_value, Near, Jammed, Top, Finished, Placed, Summed, Settled, Finite};
ghost use Rattle.fma.specs.Fma.{fma};
ghost use Rattle.std.specs.Float.Ieee as Ieee;
ghost use Rattle.std.specs.Float.{binary64};
ghost use Rattle.std.specs.Float.Ieee.{unlike};
ghost use Rattle.std.specs.Float.Ieee.Exact.{HasValue};

use std::cmp::Ordering;

// The fields of a pattern, by their masks, and the digit that leads those of a normal value.
const EXPONENT: u64 = 0x7ff;

const FRACTION: u64 = 0xf_ffff_ffff_ffff;

const LEADING_DIGIT: u64 = 0x10_0000_0000_0000;

const INFINITY: u64 = 0x7ff0_0000_0000_0000;

// A value with its sign: digits * 2^exponent / 2^2253. It has 53 digits, or is 0.
#[derive(Clone, Copy)]
struct Term {
    sign: bool,
    digits: u64,
    exponent: u64,
    ghost lo: { 0 < digits → 2 ^ 52 ≤ digits },
    ghost hi: { digits < 2 ^ 53 },
    ghost least: { 1127 ≤ exponent },
    ghost most: { exponent ≤ 3224 },
}

// hi * 2^64 + lo, and so ordered (`limbs_cmp` of proofs/Limbs).
#[derive(Clone, Copy, PartialEq, Eq, PartialOrd, Ord)]
struct Wide {
    hi: u64,
    lo: u64,
}

// A value with its sign: digits * 2^exponent / 2^2253, for digits of two limbs. The bound on the exponent is no ghost field: a struct that
// has one takes no `..self`, so each literal below would name every field.
#[derive(Clone, Copy)]
struct WideTerm {
    sign: bool,
    digits: Wide,
    exponent: u64,
}

// w / 2^n, cut, and made odd where something was cut off.
fn jam(w: u64, n: u64) -> u64
    ensures { Jammed w n result }
{
    if n > 63 {
        u64::from(w != 0)
    } else {
        let q = w >> n;
        if q << n == w { q } else { q | 1 }
    }
}

impl Term {
    // The value of a finite float's pattern. An exponent's field e above 0 stands for 2^(e - 1075), which is 2^(e + 1178) / 2^2253, and 0 for
    // what 1 does.
    fn of_pattern(bits: u64) -> Term
        requires { Finite bits }
        ensures { HasValue (Ieee.of_bits binary64 bits) result.sign (result.digits * 2 ^ result.exponent) (2 ^ 2253) }
    {
        let sign = bits >> 63 == 1;
        let field = (bits >> 52) & EXPONENT;
        let digits = bits & FRACTION;
        if field > 0 {
            Term {
                sign,
                digits: digits + LEADING_DIGIT,
                exponent: field + 1178,
            }
        } else if digits > 0 {
            let shift = u64::from(digits.leading_zeros()) - 11;
            Term {
                sign,
                digits: digits << shift,
                exponent: 1179 - shift,
            }
        } else {
            Term {
                sign,
                digits: 0,
                exponent: 1127,
            }
        }
    }
}

impl Wide {
    // x * y
    fn product(x: u64, y: u64) -> Wide
        ensures { wide_value result ≡ x * y }
    {
        let (lo, hi) = x.carrying_mul(y, 0);
        Wide { hi, lo }
    }

    // q * 2^d
    fn shifted(q: u64, d: u64) -> Wide
        requires { (q < 2 ^ 53) × (d ≤ 74) }
        ensures { wide_value result ≡ q * 2 ^ d }
    {
        if d > 63 {
            Wide {
                hi: q << (d - 64),
                lo: 0,
            }
        } else if d > 0 {
            Wide {
                hi: q >> (64 - d),
                lo: q << d,
            }
        } else {
            Wide { hi: 0, lo: q }
        }
    }

    fn plus(self, other: Wide) -> Wide
        requires { self.hi + other.hi < 2 ^ 64 - 1 }
        ensures { wide_value result ≡ wide_value self + wide_value other }
    {
        let (lo, carry) = self.lo.carrying_add(other.lo, false);
        let (hi, _) = self.hi.carrying_add(other.hi, carry);
        Wide { hi, lo }
    }

    // self - other, for other <= self
    fn minus(self, other: Wide) -> Wide
        requires { wide_value other ≤ wide_value self }
        ensures { wide_value result + wide_value other ≡ wide_value self }
    {
        let (lo, borrow) = self.lo.borrowing_sub(other.lo, false);
        let (hi, _) = self.hi.borrowing_sub(other.hi, borrow);
        Wide { hi, lo }
    }

    // self / 2^64, cut, and made odd where something was cut off.
    fn sticky_high(self) -> u64
        ensures { Near (wide_value self) 64 result }
    {
        if self.lo == 0 { self.hi } else { self.hi | 1 }
    }

    // self / 2^(65 - zeros), where hi has this many leading zeros: 63 digits, the last of them odd where something was cut off.
    fn top63(self, zeros: u64) -> u64
        requires { (0 < self.hi) × (zeros ≡ count_leading_zeros 64 self.hi) }
        ensures { Top self.hi self.lo zeros result }
    {
        if zeros == 0 {
            jam(self.sticky_high(), 1)
        } else {
            let v = (self.hi << (zeros - 1)) + ((self.lo >> 1) >> (64 - zeros));
            if self.lo << (zeros - 1) == 0 {
                v
            } else {
                v | 1
            }
        }
    }
}

// The bits, without the sign's, of v * 2^i / 2^2317 rounded, for a v of 63 digits.
fn finish(v: u64, i: u64) -> u64
    requires { (2 ^ 62 ≤ v) × (v < 2 ^ 63) }
    ensures { Finished v i result }
{
    if i > 3278 {
        INFINITY
    } else if i > 1232 {
        ((i - 1233) << 52) + ieee::nearest_shift(v, 10)
    } else if i > 1179 {
        ieee::nearest_shift(v, 1243 - i)
    } else {
        0
    }
}

impl WideTerm {
    // The nearest `f64`, with the sign, which a zero has too.
    fn rounded(self) -> f64
        requires { self.exponent < 2 ^ 32 }
        ensures { Placed self.sign (wide_value self.digits) self.exponent result }
    {
        let Wide { hi, lo } = self.digits;
        let sign = u64::from(self.sign) << 63;
        if hi > 0 {
            let zeros = u64::from(hi.leading_zeros());
            let v = self.digits.top63(zeros);
            f64::from_bits(sign + finish(v, self.exponent + 129 - zeros))
        } else if lo > 0 {
            let zeros = u64::from(lo.leading_zeros());
            let v = Wide { hi: lo, lo: 0 }.top63(zeros);
            f64::from_bits(sign + finish(v, self.exponent + 65 - zeros))
        } else {
            f64::from_bits(sign)
        }
    }

    // self + z, where z lies far above it.
    fn plus_far(self, z: Term) -> WideTerm
        requires { (self.digits.hi < 2 ^ 43) × (0 < z.digits) × (self.exponent + 74 < z.exponent) }
        ensures exponent { result.exponent < 2 ^ 32 }
        ensures sum { (r : Float) → Placed result.sign (wide_value result.digits) result.exponent r
            → Summed self.sign (wide_value self.digits) self.exponent z.sign z.digits z.exponent r }
    {
        let h = self.digits.sticky_high();
        let gap = z.exponent - self.exponent;
        if self.sign == z.sign {
            WideTerm {
                sign: z.sign,
                digits: Wide {
                    hi: 0,
                    lo: (z.digits << 10) + jam(h, gap - 74),
                },
                exponent: z.exponent - 10,
            }
        } else {
            WideTerm {
                sign: z.sign,
                digits: Wide {
                    hi: 0,
                    lo: (z.digits << 11) - jam(h, gap - 75),
                },
                exponent: z.exponent - 11,
            }
        }
    }

    // self + z, which have one exponent. Where they cancel it is +0.
    fn plus(self, z: WideTerm) -> WideTerm
        requires { (self.digits.hi < 2 ^ 43) × (z.digits.hi < 2 ^ 63) × (z.exponent ≡ self.exponent) }
        ensures exponent { result.exponent ≡ self.exponent }
        ensures sum { (r : Float) → Placed result.sign (wide_value result.digits) result.exponent r
            → Settled self.sign (wide_value self.digits) self.exponent z.sign (wide_value z.digits) r }
    {
        if self.sign == z.sign {
            WideTerm {
                digits: self.digits.plus(z.digits),
                ..self
            }
        } else {
            match self.digits.cmp(&z.digits) {
                Ordering::Less => WideTerm {
                    digits: z.digits.minus(self.digits),
                    ..z
                },
                Ordering::Equal => WideTerm {
                    sign: false,
                    digits: Wide { hi: 0, lo: 0 },
                    ..self
                },
                Ordering::Greater => WideTerm {
                    digits: self.digits.minus(z.digits),
                    ..self
                },
            }
        }
    }
}

// x * y + z, to be rounded: its last digit is odd where something was cut off. A zero is added in the places of the other value: its own
// say nothing.
fn unrounded(x: Term, y: Term, z: Term) -> WideTerm
    ensures exponent { result.exponent < 2 ^ 32 }
    ensures sum { (r : Float) → Placed result.sign (wide_value result.digits) result.exponent r
        → Summed (unlike x.sign y.sign) (x.digits * 2 * y.digits) (x.exponent + y.exponent - 2254) z.sign z.digits z.exponent r }
{
    // Of the two denominators one is left, and a factor 2 goes to the digits, so that they are even.
    let product = WideTerm {
        sign: x.sign != y.sign,
        digits: Wide::product(x.digits << 1, y.digits),
        exponent: x.exponent + y.exponent - 2254,
    };
    let addend = WideTerm {
        sign: z.sign,
        digits: Wide {
            hi: 0,
            lo: z.digits,
        },
        exponent: z.exponent,
    };
    if product.digits.hi == 0 {
        let zero = WideTerm {
            exponent: z.exponent,
            ..product
        };
        zero.plus(addend)
    } else if z.digits == 0 {
        product.plus(WideTerm {
            exponent: product.exponent,
            ..addend
        })
    } else if z.exponent > product.exponent + 74 {
        product.plus_far(z)
    } else if z.exponent >= product.exponent {
        product.plus(WideTerm {
            digits: Wide::shifted(z.digits, z.exponent - product.exponent),
            exponent: product.exponent,
            ..addend
        })
    } else {
        product.plus(WideTerm {
            digits: Wide {
                hi: 0,
                lo: jam(z.digits, product.exponent - z.exponent),
            },
            exponent: product.exponent,
            ..addend
        })
    }
}

// x * y + z, rounded once.
#[tactic(auto, using(crate::proofs::Fusing::special_left, crate::proofs::Fusing::special_right, crate::proofs::Fusing::special_added, crate::proofs::Fusing::finite_pattern))]
pub fn mul_add(x: f64, y: f64, z: f64) -> f64
    ensures { result ≡ fma binary64 x y z }
{
    if !x.is_finite() || !y.is_finite() {
        x * y + z
    } else if !z.is_finite() {
        z
    } else {
        unrounded(
            Term::of_pattern(x.to_bits()),
            Term::of_pattern(y.to_bits()),
            Term::of_pattern(z.to_bits()),
        )
        .rounded()
    }
}
