// The two spectrum calls of `SyncTracker` in sync.rs, without the transform between them: the window of samples that is to be
// transformed, and the decision on what the transform gives.
#![tactic(auto)]

pub mod decision;
pub mod window;

ghost use Rattle.std.specs.Prelude.{◌≡◌};
ghost use Rattle.probe.specs.Refusals.{all_of, is_finite, shift_allowed};
ghost use Rattle.probe.specs.Window.{Windowed};
ghost use Rattle.probe.specs.Decision.{probe_answer};

use limits::Refusal;

// ---- what is refused

fn shift_allowed(shift: f64) -> bool
    ensures { result ≡ shift_allowed shift }
{
    (-5000.0..=5000.0).contains(&shift)
}

fn all_finite(spectrum: &[f32]) -> bool
    ensures { result ≡ all_of is_finite spectrum.now }
{
    spectrum.iter().all(|x| x.is_finite())
}

// ---- the calls

// Fills the buffer with 256 pairs, real and imaginary part in turn: 16 samples around the centre times the window's weights,
// and 0 where the sound has not begun or has ended and everywhere else.
// Refuses a centre above 2^62, a buffer that is not 512 numbers, a sample that is not finite or beyond 1.
// Sound, centre and buffer are three arguments, as the C call has them: what a struct would hold of them is what is tested here.
pub fn sync_window(sound: &[f32], centre: u64, buffer: &mut [f32]) -> Result<(), Refusal>
    ensures { Windowed sound.now centre buffer.old result buffer.new }
{
    if centre > limits::MAX_ANCHOR {
        return Err(Refusal::Anchor);
    }
    if buffer.len() != 512 {
        return Err(Refusal::Memory);
    }
    if limits::any_unsound(sound) {
        return Err(Refusal::Sample);
    }
    let weights = dsp::hann_16();
    window::fill(sound, centre, &weights, buffer);
    Ok(())
}

// Whether the first 129 pairs of the transformed window show the sync tone, under a shift in Hz.
// Refuses a shift that is not finite or beyond 5,000 Hz either way, a spectrum that is not 258 numbers, a number that is not finite.
pub fn has_sync_at(spectrum: &[f32], shift: f64) -> Result<bool, Refusal>
    ensures { result ≡ probe_answer spectrum.now shift }
{
    if !shift_allowed(shift) {
        return Err(Refusal::Shift);
    }
    if spectrum.len() != 258 {
        return Err(Refusal::Length);
    }
    if !all_finite(spectrum) {
        return Err(Refusal::Sample);
    }
    Ok(decision::has_sync(spectrum, shift))
}
