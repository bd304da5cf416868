// The decision on a transformed window: is the sync tone above twice the mean?
ghost use Rattle.std.specs.Prelude.{◌≡◌, ◌+◌, ◌-◌, ◌≤◌, ◌<◌, length};
ghost use Rattle.probe.specs.Decision.{low_bin, high_bin, sync_bin, bin_power, powers_of, mean_of, triangle_of, has_sync};

// ---- the bins under a shift

// The last bin that has a neighbour in the spectrum.
const LAST_BIN: usize = 127;

fn low_bin(shift: f64) -> usize
    ensures { result ≡ low_bin shift }
{
    dsp::get_bin(1500.0 + shift).max(1)
}

fn high_bin(shift: f64) -> usize
    ensures { result ≡ high_bin shift }
{
    dsp::get_bin(2300.0 + shift).min(LAST_BIN)
}

fn sync_bin(shift: f64) -> usize
    ensures { result ≡ sync_bin shift }
{
    dsp::get_bin(1200.0 + shift).clamp(1, LAST_BIN)
}

// ---- the powers

// The first 129 pairs of a transformed window, real and imaginary part in turn.
#[derive(Clone, Copy)]
struct Spectrum<'a> {
    numbers: &'a [f32],
    ghost whole: { length numbers.now ≡ 258 },
}

impl Spectrum<'_> {
    // The power of pair k.
    fn bin_power(&self, k: usize) -> f64
        requires { k ≤ 128 }
        ensures { result ≡ bin_power self.now.numbers.now k }
    {
        dsp::power(self.numbers[2 * k], self.numbers[2 * k + 1])
    }

    // The powers of the bins lo to hi, added in that order.
    fn video_power(&self, lo: usize, hi: usize) -> f64
        requires { (lo ≤ hi) × (hi ≤ 127) }
        ensures { result ≡ powers_of self.now.numbers.now lo (hi + 1 - lo) }
    {
        let mut p_raw = 0.0;
        for k in lo..=hi {
            p_raw += self.bin_power(k);
        }
        p_raw
    }

    // The mean power of the bins lo to hi, with the Rust's divisor: one short of their number, but at least 1.
    fn video_mean(&self, lo: usize, hi: usize) -> f64
        requires { hi ≤ 127 }
        ensures { result ≡ mean_of self.now.numbers.now lo hi }
    {
        if hi < lo {
            return 0.0;
        }
        let p_raw = self.video_power(lo, hi);
        let divisor = (hi - lo).max(1);
        p_raw / (divisor as f64)
    }

    // The power at a bin, with half the power of each neighbour, halved.
    fn sync_power(&self, bin: usize) -> f64
        requires { (0 < bin) × (bin ≤ 127) }
        ensures { result ≡ triangle_of self.now.numbers.now bin }
    {
        let below = self.bin_power(bin - 1);
        let at = self.bin_power(bin);
        let above = self.bin_power(bin + 1);
        (0.0 + below * 0.5 + at * 1.0 + above * 0.5) / 2.0
    }
}

pub fn has_sync(spectrum: &[f32], shift: f64) -> bool
    requires { length spectrum.now ≡ 258 }
    ensures { result ≡ has_sync spectrum.now shift }
{
    let spectrum = Spectrum { numbers: spectrum };
    let p_raw = spectrum.video_mean(low_bin(shift), high_bin(shift));
    let p_sync = spectrum.sync_power(sync_bin(shift));
    p_sync > 2.0 * p_raw
}
