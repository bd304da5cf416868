// The window of samples that a spectrum is made of.
ghost use Rattle.std.specs.Prelude.{◌≡◌, ◌≤◌, ◌<◌, ◌^◌, length};
ghost use Rattle.dsp.specs.Spectrum.{hann};
ghost use Rattle.probe.specs.Window.{sound_at, window_of};

// The sound around a centre.
#[derive(Clone, Copy)]
struct Surroundings<'a> {
    sound: &'a [f32],
    centre: u64,
    ghost in_range: { centre ≤ 2 ^ 62 },
}

impl Surroundings<'_> {
    // The sample numbered centre - 8 + i, and 0 outside the sound.
    fn sound_at(&self, i: u64) -> f32
        requires { i < 16 }
        ensures { result ≡ sound_at self.now.sound.now self.now.centre i }
    {
        match (self.centre + i).checked_sub(8) {
            Some(at) => self.sound.get(at as usize).copied().unwrap_or(0.0),
            None => 0.0,
        }
    }
}

// Fills the 256 pairs.
pub fn fill(sound: &[f32], centre: u64, weights: &[f32; 16], buffer: &mut [f32])
    requires { (centre ≤ 2 ^ 62) × (weights.now ≡ hann) × (length buffer.old ≡ 512) }
    ensures { buffer.new ≡ window_of sound.now centre }
{
    let around = Surroundings { sound, centre };
    buffer.fill(0.0);
    for (i, weight) in weights.iter().enumerate() {
        buffer[2 * i] = around.sound_at(i as u64) * *weight;
    }
}
