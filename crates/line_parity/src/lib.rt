// Parity of the first line. Robot 24 and 36 send one colour on even lines and the other on odd ones, and mark which by a tone.
// From slowrx.rs's sync_start.rs.
#![tactic(auto)]

ghost use Rattle.std.specs.Prelude.{◌≡◌, true, ◌≤◌, length};
ghost use Rattle.modespec.specs.Sizes as Sizes;
ghost use Rattle.line_parity.specs.Parity as Parity;

use dsp::Tone;
use modespec::ModeSpec;

// The samples of a tone, 4.5 ms.
const TONE_SAMPLES: usize = 49;

// Seconds from a line's start to its tone.
fn separator_seconds(spec: ModeSpec) -> f64
    ensures { result ≡ Parity.separator_of spec }
{
    spec.sync_seconds + spec.porch_seconds + 2.0 * (spec.line_pixels as f64) * spec.pixel_seconds
}

// The sample at which the tone of the k-th line from `start` begins.
fn tone_at(spec: ModeSpec, start: f64, k: usize) -> f64
    requires { k ≤ 65536 }
    ensures { result ≡ Parity.tone_at spec start k }
{
    let separator = separator_seconds(spec);
    ieee::round(
        start + ((k as f64) * spec.line_seconds + separator) * limits::WORKING_SAMPLE_RATE_HZ,
    )
}

// Whether a tone lies wholly within n samples.
fn is_known(n: usize, from: f64) -> bool
    ensures { result ≡ Parity.tone_known n from }
{
    from >= 0.0 && n >= TONE_SAMPLES && ieee::to_u64(from) as usize <= n - TONE_SAMPLES
}

// How far a tone leans to that of odd lines.
fn lean(tone: &[f32]) -> f64
    ensures { result ≡ Parity.lean_of tone.now }
{
    let even_power = dsp::goertzel_power(tone, Tone::Hz1500);
    let odd_power = dsp::goertzel_power(tone, Tone::Hz2300);
    (odd_power - even_power) / (odd_power + even_power + f64::EPSILON)
}

fn tone_lean(samples: &[f32], from: f64) -> f64
    requires { Parity.tone_known (length samples.now) from ≡ true }
    ensures { result ≡ Parity.lean_of (Parity.tone_of samples.now from) }
{
    let at = ieee::to_u64(from) as usize;
    let end = at + TONE_SAMPLES;
    lean(&samples[at..end])
}

// The lines' signs alternate.
fn voted(vote: f64, k: usize, lean: f64) -> f64
    ensures { result ≡ Parity.voted_with vote k lean }
{
    if k % 2 == 0 {
        vote + lean
    } else {
        vote + -lean
    }
}

// The vote with the tone of line k, which is passed over unless all of it is known.
fn vote_on(spec: ModeSpec, samples: &[f32], start: f64, k: usize, vote: f64) -> f64
    requires { k ≤ 65536 }
    ensures { result ≡ Parity.vote_on spec samples.now start k vote }
{
    let from = tone_at(spec, start, k);
    if is_known(samples.len(), from) {
        voted(vote, k, tone_lean(samples, from))
    } else {
        vote
    }
}

// Whether the line that starts at sample `start` is odd: its tone and those of the lines behind it vote. The bound on the row's lines is
// a clause: a ghost field of a row would be asked of whoever makes one.
pub fn first_line_is_odd(mode: u8, spec: ModeSpec, samples: &[f32], start: f64) -> bool
    requires { Sizes.window_lines spec ≤ 65536 }
    ensures { result ≡ Parity.odd_line mode spec samples.now start }
{
    if !modespec::has_parity_tone(mode) {
        return false;
    }
    let lines = modespec::window_lines(spec);
    let mut vote: f64 = 0.0;
    for k in 0..lines {
        vote = vote_on(spec, samples, start, k, vote);
    }
    vote > 0.0
}
