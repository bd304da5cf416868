// SSTV mode specifications: the sixteen rows, and the sizes that follow from a row.
// From slowrx.rs's modespec.rs; the sizes are those of sync.rs and sync_start.rs.
#![tactic(auto)]

ghost use Rattle.std.specs.Prelude.{◌≡◌, ◌^◌, ◌<◌};
ghost use Rattle.modespec.specs.ModeSpec.{spec_of};
ghost use Rattle.modespec.specs.Mode.{mode_number, Numbered};
ghost use Rattle.modespec.specs.Sizes as size;
ghost use Rattle.modespec.specs.Calls.{columns_of, sizes_of};

use limits::Refusal;

// The modes, in the order of `SstvMode`. A mode's number is its place.
#[derive(Clone, Copy, Debug, PartialEq, Eq)]
pub enum Mode {
    Pd120,
    Pd180,
    Pd240,
    Robot24,
    Robot36,
    Robot72,
    Robot24Bw,
    Robot12Bw,
    Robot8Bw,
    Scottie1,
    Scottie2,
    ScottieDx,
    Martin1,
    Martin2,
    Wraase120,
    Wraase180,
}

// How a radio line carries its channels. Two image rows go into one radio line of `PdYcbcr`.
#[derive(Clone, Copy)]
pub enum ChannelLayout {
    PdYcbcr,
    RobotYuv,
    RgbSequential,
    Monochrome,
}

// Where the sync pulse sits within a radio line.
#[derive(Clone, Copy)]
pub enum SyncPosition {
    LineStart,
    Scottie,
}

// Mode timing and layout.
#[derive(Clone, Copy)]
pub struct ModeSpec {
    // The number in the order of `SstvMode`, which document 01 adds to a row. Nothing here reads it; a `Mode` would ask more of a caller.
    pub mode: u8,
    pub line_pixels: u32,
    pub image_lines: u32,
    pub line_seconds: f64,
    pub sync_seconds: f64,
    pub porch_seconds: f64,
    pub pixel_seconds: f64,
    pub channel_layout: ChannelLayout,
    pub sync_position: SyncPosition,
}

// Flags are this many samples apart.
const SYNC_PROBE_STRIDE: f64 = 4.0;

// The start search folds at least this many lines, and at least this much sound.
const MIN_WINDOW_LINES: usize = 8;

const MIN_WINDOW_SECONDS: f64 = 2.0;

const PD120: ModeSpec = ModeSpec {
    mode: 0,
    line_pixels: 640,
    image_lines: 496,
    line_seconds: 0.508_48,
    sync_seconds: 0.020,
    porch_seconds: 0.002_08,
    pixel_seconds: 0.000_19,
    channel_layout: ChannelLayout::PdYcbcr,
    sync_position: SyncPosition::LineStart,
};

const PD180: ModeSpec = ModeSpec {
    mode: 1,
    line_pixels: 640,
    image_lines: 496,
    line_seconds: 0.754_24,
    sync_seconds: 0.020,
    porch_seconds: 0.002_08,
    pixel_seconds: 0.000_286,
    channel_layout: ChannelLayout::PdYcbcr,
    sync_position: SyncPosition::LineStart,
};

const PD240: ModeSpec = ModeSpec {
    mode: 2,
    line_pixels: 640,
    image_lines: 496,
    line_seconds: 1.000,
    sync_seconds: 0.020,
    porch_seconds: 0.002_08,
    pixel_seconds: 0.000_382,
    channel_layout: ChannelLayout::PdYcbcr,
    sync_position: SyncPosition::LineStart,
};

const ROBOT24: ModeSpec = ModeSpec {
    mode: 3,
    line_pixels: 320,
    image_lines: 240,
    line_seconds: 0.150,
    sync_seconds: 0.009,
    porch_seconds: 0.003,
    pixel_seconds: 0.000_137_5,
    channel_layout: ChannelLayout::RobotYuv,
    sync_position: SyncPosition::LineStart,
};

const ROBOT36: ModeSpec = ModeSpec {
    mode: 4,
    line_pixels: 320,
    image_lines: 240,
    line_seconds: 0.150,
    sync_seconds: 0.009,
    porch_seconds: 0.003,
    pixel_seconds: 0.000_137_5,
    channel_layout: ChannelLayout::RobotYuv,
    sync_position: SyncPosition::LineStart,
};

const ROBOT72: ModeSpec = ModeSpec {
    mode: 5,
    line_pixels: 320,
    image_lines: 240,
    line_seconds: 0.300,
    sync_seconds: 0.009,
    porch_seconds: 0.003,
    pixel_seconds: 0.000_287_5,
    channel_layout: ChannelLayout::RobotYuv,
    sync_position: SyncPosition::LineStart,
};

const ROBOT24_BW: ModeSpec = ModeSpec {
    mode: 6,
    line_pixels: 320,
    image_lines: 240,
    line_seconds: 0.100,
    sync_seconds: 0.007,
    porch_seconds: 0.0,
    pixel_seconds: 0.000_291,
    channel_layout: ChannelLayout::Monochrome,
    sync_position: SyncPosition::LineStart,
};

const ROBOT12_BW: ModeSpec = ModeSpec {
    mode: 7,
    line_pixels: 320,
    image_lines: 120,
    line_seconds: 0.100,
    sync_seconds: 0.007,
    porch_seconds: 0.0,
    pixel_seconds: 0.000_291,
    channel_layout: ChannelLayout::Monochrome,
    sync_position: SyncPosition::LineStart,
};

const ROBOT8_BW: ModeSpec = ModeSpec {
    mode: 8,
    line_pixels: 320,
    image_lines: 120,
    line_seconds: 0.066_9,
    sync_seconds: 0.007,
    porch_seconds: 0.0,
    pixel_seconds: 0.000_187_187_5,
    channel_layout: ChannelLayout::Monochrome,
    sync_position: SyncPosition::LineStart,
};

const SCOTTIE1: ModeSpec = ModeSpec {
    mode: 9,
    line_pixels: 320,
    image_lines: 256,
    line_seconds: 0.428_38,
    sync_seconds: 0.009,
    porch_seconds: 0.001_5,
    pixel_seconds: 0.000_432_0,
    channel_layout: ChannelLayout::RgbSequential,
    sync_position: SyncPosition::Scottie,
};

const SCOTTIE2: ModeSpec = ModeSpec {
    mode: 10,
    line_pixels: 320,
    image_lines: 256,
    line_seconds: 0.277_692,
    sync_seconds: 0.009,
    porch_seconds: 0.001_5,
    pixel_seconds: 0.000_275_2,
    channel_layout: ChannelLayout::RgbSequential,
    sync_position: SyncPosition::Scottie,
};

const SCOTTIE_DX: ModeSpec = ModeSpec {
    mode: 11,
    line_pixels: 320,
    image_lines: 256,
    line_seconds: 1.050_3,
    sync_seconds: 0.009,
    porch_seconds: 0.001_5,
    pixel_seconds: 0.001_080_53,
    channel_layout: ChannelLayout::RgbSequential,
    sync_position: SyncPosition::Scottie,
};

const MARTIN1: ModeSpec = ModeSpec {
    mode: 12,
    line_pixels: 320,
    image_lines: 256,
    line_seconds: 0.446_446,
    sync_seconds: 0.004_862,
    porch_seconds: 0.000_572,
    pixel_seconds: 0.000_457_6,
    channel_layout: ChannelLayout::RgbSequential,
    sync_position: SyncPosition::LineStart,
};

const MARTIN2: ModeSpec = ModeSpec {
    mode: 13,
    line_pixels: 320,
    image_lines: 256,
    line_seconds: 0.226_798_6,
    sync_seconds: 0.004_862,
    porch_seconds: 0.000_572,
    pixel_seconds: 0.000_228_8,
    channel_layout: ChannelLayout::RgbSequential,
    sync_position: SyncPosition::LineStart,
};

const WRAASE120: ModeSpec = ModeSpec {
    mode: 14,
    line_pixels: 320,
    image_lines: 256,
    line_seconds: 0.475_530_018,
    sync_seconds: 0.005_522_5,
    porch_seconds: 0.000_5,
    pixel_seconds: 0.000_489_039_081,
    channel_layout: ChannelLayout::RgbSequential,
    sync_position: SyncPosition::LineStart,
};

const WRAASE180: ModeSpec = ModeSpec {
    mode: 15,
    line_pixels: 320,
    image_lines: 256,
    line_seconds: 0.711_022_5,
    sync_seconds: 0.005_522_5,
    porch_seconds: 0.000_5,
    pixel_seconds: 0.000_734_532,
    channel_layout: ChannelLayout::RgbSequential,
    sync_position: SyncPosition::LineStart,
};

// The mode of a number. Every exported call refuses a number above 15 with 1.
impl TryFrom<u8> for Mode {
    type Error = Refusal;

    ghost try_from_gives = { Numbered };

    fn try_from(number: u8) -> Result<Self, Refusal> {
        match number {
            0 => Ok(Mode::Pd120),
            1 => Ok(Mode::Pd180),
            2 => Ok(Mode::Pd240),
            3 => Ok(Mode::Robot24),
            4 => Ok(Mode::Robot36),
            5 => Ok(Mode::Robot72),
            6 => Ok(Mode::Robot24Bw),
            7 => Ok(Mode::Robot12Bw),
            8 => Ok(Mode::Robot8Bw),
            9 => Ok(Mode::Scottie1),
            10 => Ok(Mode::Scottie2),
            11 => Ok(Mode::ScottieDx),
            12 => Ok(Mode::Martin1),
            13 => Ok(Mode::Martin2),
            14 => Ok(Mode::Wraase120),
            15 => Ok(Mode::Wraase180),
            _ => Err(Refusal::Mode),
        }
    }
}

impl Mode {
    // The mode's row.
    #[tactic(auto, unfolding(crate::specs::ModeSpec::spec_of, crate::specs::Literals::of_bits))]
    pub fn spec(self) -> ModeSpec
        ensures { result ≡ spec_of (mode_number self) }
    {
        match self {
            Mode::Pd120 => PD120,
            Mode::Pd180 => PD180,
            Mode::Pd240 => PD240,
            Mode::Robot24 => ROBOT24,
            Mode::Robot36 => ROBOT36,
            Mode::Robot72 => ROBOT72,
            Mode::Robot24Bw => ROBOT24_BW,
            Mode::Robot12Bw => ROBOT12_BW,
            Mode::Robot8Bw => ROBOT8_BW,
            Mode::Scottie1 => SCOTTIE1,
            Mode::Scottie2 => SCOTTIE2,
            Mode::ScottieDx => SCOTTIE_DX,
            Mode::Martin1 => MARTIN1,
            Mode::Martin2 => MARTIN2,
            Mode::Wraase120 => WRAASE120,
            Mode::Wraase180 => WRAASE180,
        }
    }
}

// The row of a mode's number. A number above 15 gets the last row. A mode is its number here and in the crates above: a record may hold
// any, and to take a `Mode` would tighten what is asked of a caller.
pub fn for_mode(mode: u8) -> ModeSpec
    ensures { result ≡ spec_of mode }
{
    Mode::try_from(mode).unwrap_or(Mode::Wraase180).spec()
}

impl ModeSpec {
    // Radio lines per image, each starting with one sync pulse. PD packs two image rows into each.
    #[tactic(auto, unfolding(crate::specs::Sizes::radio_lines))]
    pub fn radio_lines(self) -> u32
        ensures { result ≡ size.radio_lines self }
    {
        match self.channel_layout {
            ChannelLayout::PdYcbcr => self.image_lines / 2,
            ChannelLayout::RobotYuv | ChannelLayout::RgbSequential | ChannelLayout::Monochrome =>
                self.image_lines,
        }
    }

    // What is added to the skip of a falling edge, in seconds, so that it lands on line 0's content. The pulse of
    // Scottie sits inside the line: half a channel back, two porches on.
    #[tactic(auto, unfolding(crate::specs::Sizes::skip_correction, crate::specs::Sizes::scottie_correction, crate::specs::Literals::of_bits))]
    pub fn skip_correction_seconds(self) -> f64
        ensures { result ≡ size.skip_correction self }
    {
        match self.sync_position {
            SyncPosition::LineStart => 0.0,
            SyncPosition::Scottie => {
                let chan_len: f64 = (self.line_pixels as f64) * self.pixel_seconds;
                -chan_len / 2.0 + 2.0 * self.porch_seconds
            }
        }
    }
}

// Robot 24 and 36 mark by a tone which lines are odd: the start search asks the tone, and a session keeps the samples that it reads.
pub fn has_parity_tone(mode: u8) -> bool
    ensures { result ≡ size.robot mode }
{
    matches!(Mode::try_from(mode), Ok(Mode::Robot24 | Mode::Robot36))
}

// Seconds from a line's start to its sync pulse: the inverse of `find_sync`'s skip.
#[tactic(auto, unfolding(crate::specs::Sizes::pulse_offset, crate::specs::Literals::of_bits))]
pub fn pulse_offset_seconds(spec: ModeSpec) -> f64
    ensures { result ≡ size.pulse_offset spec }
{
    match spec.sync_position {
        SyncPosition::LineStart => 0.0,
        SyncPosition::Scottie => spec.line_seconds / 2.0 - spec.skip_correction_seconds(),
    }
}

// Lines folded in one evaluation of the start search.
#[tactic(auto, unfolding(crate::specs::Sizes::window_lines, crate::specs::Literals::of_bits))]
pub fn window_lines(spec: ModeSpec) -> usize
    ensures { result ≡ size.window_lines spec }
{
    let for_seconds: usize = ieee::ceil_to_u64(MIN_WINDOW_SECONDS / spec.line_seconds) as usize;
    MIN_WINDOW_LINES.max(for_seconds)
}

// Samples of a line at the working rate.
#[tactic(auto, unfolding(crate::specs::Sizes::line_samples, crate::specs::Literals::of_bits))]
pub fn line_samples(spec: ModeSpec) -> f64
    ensures { result ≡ size.line_samples spec }
{
    spec.line_seconds * limits::WORKING_SAMPLE_RATE_HZ
}

// w: the flags of one evaluation's window. The Rust's + 1 must not wrap. `inline`: for a call, `open` and `feed` would write the row to
// the stack.
#[tactic(auto, unfolding(crate::specs::Sizes::window_probes, crate::specs::Literals::of_bits))]
#[inline]
fn window_probes(spec: ModeSpec) -> usize
    requires { size.window_probes spec < 2 ^ 64 }
    ensures { result ≡ size.window_probes spec }
{
    // By name: `as` asks that the number is a float, which a caller's row doesn't promise.
    let lines: f64 = std::num::nearest_u64_to_f64(window_lines(spec) as u64);
    let samples: f64 = lines * line_samples(spec);
    ieee::ceil_to_u64(samples / SYNC_PROBE_STRIDE) as usize + 1
}

// w for a mode's number. The rows of all modes meet what `window_probes` requires.
#[tactic(auto, using(crate::proofs::Rows::window_probes_fit))]
pub fn mode_window_probes(mode: u8) -> usize
    ensures { result ≡ size.window_probes (spec_of mode) }
{
    window_probes(for_mode(mode))
}

// P: the flags of a whole picture, at `find_sync`'s starting rate.
#[tactic(auto, unfolding(crate::specs::Sizes::image_probes, crate::specs::Literals::of_bits))]
pub fn image_probes(spec: ModeSpec, initial_rate_hz: f64) -> usize
    ensures { result ≡ size.image_probes spec initial_rate_hz }
{
    let lines: f64 = spec.radio_lines() as f64;
    ieee::ceil_to_u64(lines * spec.line_seconds * initial_rate_hz / SYNC_PROBE_STRIDE) as usize
}

// The flags of a mode's window and of its picture, from which a host makes its stores.
#[derive(Clone, Copy)]
pub struct Sizes {
    pub window: usize,
    pub picture: usize,
}

// w and P at the working rate, for a mode's number. Refuses a mode above 15 with 1.
#[tactic(auto, using(crate::proofs::Rows::window_probes_fit), unfolding(crate::specs::Calls::sizes_of, crate::specs::Literals::of_bits, crate::specs::Literals::of_int))]
pub fn mode_sizes(mode: u8) -> Result<Sizes, Refusal>
    ensures { result ≡ sizes_of mode }
{
    let spec = Mode::try_from(mode)?.spec();
    Ok(Sizes {
        window: window_probes(spec),
        picture: image_probes(spec, limits::WORKING_SAMPLE_RATE_HZ),
    })
}

// W: the columns that a line is drawn on, four to a sync pulse.
#[tactic(auto, unfolding(crate::specs::Sizes::line_width, crate::specs::Literals::of_bits))]
pub fn line_width(spec: ModeSpec) -> usize
    ensures { result ≡ size.line_width spec }
{
    let width: usize = ieee::to_u64((spec.line_seconds / spec.sync_seconds) * 4.0) as usize;
    width.max(1)
}

// Columns that a sync pulse spans among n columns of a line: at least 1, and at most n where n is not 0. `inline` for the stack, as
// window_probes.
#[tactic(auto, unfolding(crate::specs::Sizes::pulse_columns, crate::specs::Literals::of_bits))]
#[inline]
pub fn pulse_columns(spec: ModeSpec, n: usize) -> usize
    ensures { result ≡ size.pulse_columns spec n }
{
    // By name: `as` asks that the number is a float, and n may be any.
    let share: f64 = (spec.sync_seconds / spec.line_seconds)
        * std::num::nearest_u64_to_f64(n as u64);
    let most: f64 = std::num::nearest_u64_to_f64(n.max(1) as u64);
    ieee::to_u64(ieee::clamp(ieee::round(share), 1.0, most)) as usize
}

// `pulse_columns` for a mode's number. Refuses a mode above 15 with 1, and n above 65,536 with 9.
#[tactic(auto, unfolding(crate::specs::Calls::columns_of))]
pub fn sync_pulse_columns(mode: u8, n: usize) -> Result<usize, Refusal>
    ensures { result ≡ columns_of mode n }
{
    let mode = Mode::try_from(mode)?;
    if n > 65_536 {
        return Err(Refusal::Count);
    }
    Ok(pulse_columns(mode.spec(), n))
}
