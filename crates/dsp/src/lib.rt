// Signal functions of dsp.rs: the power of one tone, and what the spectrum of a probe is made of.
#![tactic(auto)]

ghost use Rattle.std.specs.Prelude.{◌≡◌};
ghost use Rattle.dsp.specs.Goertzel.{coefficient_of, next_value, power_at, goertzel_power};
ghost use Rattle.dsp.specs.Spectrum.{power_of, bin_of, hann};

// ---- the power of one tone

// The two tones whose powers are compared, by their frequency.
#[derive(Clone, Copy)]
pub enum Tone {
    Hz1500,
    Hz2300,
}

// 2.0 * (2.0 * PI * k / 49.0).cos() for k = 7 and k = 10, as the Rust gives them.
const COEFFICIENT_1500: f64 = f64::from_bits(0x3ff3_f3a0_e28b_edd2);

const COEFFICIENT_2300: f64 = f64::from_bits(0x3fe2_35b3_31d8_f741);

impl Tone {
    // The coefficient is the one for 49 samples.
    fn coefficient(self) -> f64
        ensures { result ≡ coefficient_of self }
    {
        match self {
            Tone::Hz1500 => COEFFICIENT_1500,
            Tone::Hz2300 => COEFFICIENT_2300,
        }
    }
}

#[tactic(auto, unfolding(crate::specs::Goertzel::next_value))]
fn next_value(coeff: f64, s_prev: f64, s_prev2: f64, sample: f32) -> f64
    ensures { result ≡ next_value coeff s_prev s_prev2 sample }
{
    ieee::to_f64(sample) + coeff * s_prev - s_prev2
}

// The two squares go into their sums unrounded.
fn power_at(coeff: f64, s_prev: f64, s_prev2: f64) -> f64
    ensures { result ≡ power_at coeff s_prev s_prev2 }
{
    let inner = fma::mul_add(s_prev, s_prev, -coeff * s_prev * s_prev2);
    fma::mul_add(s_prev2, s_prev2, inner)
}

// The power of a tone in the samples. A `for` with two variables, as the Rust has it: a fold over the pair of them is no plainer.
pub fn goertzel_power(samples: &[f32], tone: Tone) -> f64
    ensures { result ≡ goertzel_power (coefficient_of tone) samples.now }
{
    let coeff = tone.coefficient();
    let mut s_prev = 0.0;
    let mut s_prev2 = 0.0;
    for sample in samples {
        let s = next_value(coeff, s_prev, s_prev2, *sample);
        s_prev2 = s_prev;
        s_prev = s;
    }
    power_at(coeff, s_prev, s_prev2)
}

// ---- bins and window of a spectrum

pub fn power(re: f32, im: f32) -> f64
    ensures { result ≡ power_of re im }
{
    let a = ieee::to_f64(re);
    let b = ieee::to_f64(im);
    a * a + b * b
}

// The bin of a frequency, for 256 samples at 11,025 Hz. It is cut and not rounded: 1,200 Hz has bin 27.
pub fn get_bin(hz: f64) -> usize
    ensures { result ≡ bin_of hz }
{
    ieee::to_u64(hz * 256.0 / limits::WORKING_SAMPLE_RATE_HZ) as usize
}

const HANN: [f32; 16] = [
    f32::from_bits(0x0000_0000),
    f32::from_bits(0x3d31_0f18),
    f32::from_bits(0x3e29_67b8),
    f32::from_bits(0x3eb0_e444),
    f32::from_bits(0x3f0d_6131),
    f32::from_bits(0x3f40_0000),
    f32::from_bits(0x3f67_8ddf),
    f32::from_bits(0x3f7d_33f1),
    f32::from_bits(0x3f7d_33f0),
    f32::from_bits(0x3f67_8dde),
    f32::from_bits(0x3f3f_ffff),
    f32::from_bits(0x3f0d_612f),
    f32::from_bits(0x3eb0_e441),
    f32::from_bits(0x3e29_67b2),
    f32::from_bits(0x3d31_0f08),
    f32::from_bits(0x0000_0000),
];

// The sixteen weights of a probe's window, `build_hann(16)` of the Rust.
pub fn hann_16() -> [f32; 16]
    ensures { result ≡ hann }
{
    HANN
}
