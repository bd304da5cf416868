// The angle tables of the slant search, one entry for each of its 240 angles.
// The Rust calls sin, cos and tan of `deg2rad` for each vote. These are its values: the bits that its standard library
// gave on the comparing machine (x86-64 Linux), which the oracle prints and compares. One, the cosine at 143, is not the nearest f64.
// A caller lends a local copy to its loops: an indexed constant is built anew at each read.
// Three functions, since one with an enum of the tables would match on it with these three arms.
#![tactic(auto)]

mod cosine;
mod sine;
mod tangent;

ghost use Rattle.std.specs.Prelude.{◌≡◌};
ghost use Rattle.angles.specs.Angle.{sine_table, cosine_table, tangent_table};

// sin(30 + q / 2 degrees) at place q
#[tactic(auto, unfolding(crate::specs::Angle::sine_table, crate::specs::Angle::sine_bits, crate::specs::Angle::of_bits))]
pub fn sines() -> [f64; 240]
    ensures { result ≡ sine_table }
{
    sine::SINE
}

// cos(30 + q / 2 degrees) at place q
#[tactic(auto, unfolding(crate::specs::Angle::cosine_table, crate::specs::Angle::cosine_bits, crate::specs::Angle::of_bits))]
pub fn cosines() -> [f64; 240]
    ensures { result ≡ cosine_table }
{
    cosine::COSINE
}

// tan(60 - q / 2 degrees) at place q
#[tactic(auto, unfolding(crate::specs::Angle::tangent_table, crate::specs::Angle::tangent_bits, crate::specs::Angle::of_bits))]
pub fn tangents() -> [f64; 240]
    ensures { result ≡ tangent_table }
{
    tangent::TANGENT
}
