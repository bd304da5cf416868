// Refusals and endings by name, sizes of lent memory, limits of numbers, and the tests of flags and samples that several calls make before they take anything.
#![tactic(auto)]

mod ending;

ghost use Rattle.std.specs.Prelude.{◌≡◌};
ghost use Rattle.limits.specs.Ranges.{all_at_most, unsound, any_unsound};
ghost use Rattle.limits.specs.Refusals.{number_of, number_or_zero};

pub use ending::Ending;

// Why a call is refused. The numbers are the exported calls' answers, of which the lowest that applies is given.
#[derive(Clone, Copy, Debug, PartialEq, Eq)]
pub enum Refusal {
    // a mode above 15
    Mode = 1,
    // a rate that is not finite, or outside 8,000 to 48,000 Hz
    Rate = 2,
    // a shift that is not finite, or beyond 5,000 Hz
    Shift = 3,
    // an anchor or a centre above 2^62
    Anchor = 4,
    // memory of a length that the call can't work in
    Memory = 5,
    // flags, samples or a spectrum of another length
    Length = 6,
    // a flag above 1
    Flag = 7,
    // a number that is not finite, or a sample beyond 1
    Sample = 8,
    // a count, or how many of what is counted, outside the limits
    Count = 9,
    // a feed after the end
    Ended = 10,
    // a read before it
    NotEnded = 11,
    // a card that is not 56 bytes
    CardLength = 12,
    // another mark or version
    CardMark = 13,
    // fields that no card has
    CardField = 14,
}

impl Refusal {
    pub fn number(self) -> u8
        ensures { result ≡ number_of self }
    {
        self as u8
    }
}

// A refusal's number, 0 for none: the answer of a C call that gives nothing else.
pub fn number_or_zero(answer: Result<(), Refusal>) -> u32
    ensures { result ≡ number_or_zero answer }
{
    match answer {
        Ok(()) => 0,
        Err(refusal) => u32::from(refusal.number()),
    }
}

// The most flags of a store or a list.
pub const MAX_FLAGS: usize = 16777216;

// Work memory of a pass: the sync image in bytes, and the votes in cells.
pub const IMG_BYTES: usize = 441000;

pub const VOTE_CELLS: usize = 144000;

// Sample rate that the detector works at.
pub const WORKING_SAMPLE_RATE_HZ: f64 = 11025.0;

// 2^62, the largest anchor and centre: a position added to it stays a 64-bit number.
pub const MAX_ANCHOR: u64 = 4611686018427387904;

// Whether no flag is above the limit. It goes on to the end, so that LLVM takes the largest of many flags at a time. For bytes
// alone: a clause can't say `all_at_most` at a type parameter, and `pulse` tests its counts by a line of `all`.
pub fn all_at_most(limit: u8, flags: &[u8]) -> bool
    ensures { result ≡ all_at_most limit flags.now }
{
    flags.iter().fold(0, |most, flag| most.max(*flag)) <= limit
}

// Whether a sample is not finite or beyond 1. A NaN fails both comparisons. By comparisons, since `contains` would want the laws of the
// order of floats, which stand in `ieee` (proofs/Compare), and no crate stands below this one.
#[tactic(auto, using(crate::proofs::Samples::sound_low, crate::proofs::Samples::sound_mid, crate::proofs::Samples::sound_high), unfolding(crate::specs::Literals::of_bits, crate::specs::Literals::neg))]
fn unsound(x: f32) -> bool
    ensures { result ≡ unsound x }
{
    x < -1.0 || !(x <= 1.0)
}

// Whether any of the samples is.
pub fn any_unsound(samples: &[f32]) -> bool
    ensures { result ≡ any_unsound samples.now }
{
    samples.iter().any(|x| unsound(*x))
}
