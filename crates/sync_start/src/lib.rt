// One evaluation of the start search: is there a picture whose sync pulses line up, and where does it start?
// From slowrx.rs's sync_start.rs.
// A bound on one number stays a clause: a struct of one number would be opened at each sum.
#![tactic(auto)]

ghost use Rattle.std.specs.Prelude.{◌≡◌, ◌+◌, ◌*◌, ◌≤◌, length};
ghost use Rattle.modespec.specs.ModeSpec.{spec_of};
ghost use Rattle.modespec.specs.Sizes as Sizes;
ghost use Rattle.sync_start.specs.Evaluate as Evaluate;

use modespec::ModeSpec;

// Where a picture starts, as a sample counted from the anchor, and how many pulse windows have the largest sum there.
#[derive(Clone, Copy)]
pub struct Located {
    pub position: u64,
    pub windows: u16,
}

// What an evaluation gives: its quality, the streak behind it, and the start.
#[derive(Clone, Copy)]
pub struct Evaluation {
    pub quality: f32,
    pub streak: u64,
    pub start: Option<Located>,
}

// The least quality of a window that counts towards a start.
const START_QUALITY: f32 = 0.6;

// A picture starts once so many evaluations in a row have that quality.
const START_CONSECUTIVE: u64 = 3;

// An evaluation comes with every so many flags.
pub const EVAL_EVERY_PROBES: usize = 64;

// A start lies this many pulses ahead of its line, so that a pulse found late does not clip the first line.
const START_LEAD_SYNC_PULSES: f64 = 2.0;

// A picture begins on an even line: before an odd one there is another.
fn even_start(odd: bool, spec: ModeSpec, start: f64) -> f64
    ensures { result ≡ Evaluate.even_start odd spec start }
{
    if odd {
        start - modespec::line_samples(spec)
    } else {
        start
    }
}

fn position(spec: ModeSpec, start: f64) -> u64
    ensures { result ≡ Evaluate.position_of spec start }
{
    let lead = START_LEAD_SYNC_PULSES * spec.sync_seconds * limits::WORKING_SAMPLE_RATE_HZ;
    ieee::to_u64(ieee::round(ieee::max(start - lead, 0.0)))
}

// A quality below 0.6 ends the streak.
fn streak_after(quality: f32, streak: u64) -> u64
    requires { streak ≤ 16777216 }
    ensures { result ≡ Evaluate.streak_after quality streak }
{
    if quality < START_QUALITY {
        0
    } else {
        streak + 1
    }
}

// What evaluation j looks at: the window that begins at flag 64j, by the flags and samples lent. Nothing beyond either is read.
#[derive(Clone, Copy)]
struct Window<'a> {
    mode: u8,
    spec: ModeSpec,
    j: usize,
    flags: &'a [u8],
    samples: &'a [f32],
    ghost of_mode: { spec ≡ spec_of mode },
    ghost begins: { 64 * j ≤ length flags.now },
    ghost few: { length flags.now ≤ 16777216 },
}

impl Window<'_> {
    // The window's first flag.
    fn first(&self) -> usize
        ensures { result ≡ 64 * self.now.j }
    {
        EVAL_EVERY_PROBES * self.j
    }

    // The sample at which line y of the window starts.
    fn line_start(&self, column: usize, y: usize) -> f64
        requires { (column ≤ 700) × (y ≤ 65536) }
        ensures { let w = self.now in result ≡ Evaluate.line_start w.spec (64 * w.j) column y }
    {
        let lines = (y as f64) + (column as f64) / 700.0;
        let pulse = lines * self.spec.line_seconds;
        ((4 * self.first()) as f64)
            + (pulse - modespec::pulse_offset_seconds(self.spec)) * limits::WORKING_SAMPLE_RATE_HZ
    }

    // Where the picture of these counts starts, if its first line is found.
    fn locate(&self, counts: &[u32; 700]) -> Option<Located>
        ensures { let w = self.now in result ≡ Evaluate.locate_in w.mode w.spec (64 * w.j) counts.now w.flags.now w.samples.now }
    {
        let width = modespec::pulse_columns(self.spec, 700);
        let best = pulse::best_window(counts, width);
        let first = self.first();
        let y = first_line::first_pulsed_line(self.spec, self.flags, first, best.start, width)?;
        let start = self.line_start(best.start, y);
        let odd = line_parity::first_line_is_odd(self.mode, self.spec, self.samples, start);
        let position = position(self.spec, even_start(odd, self.spec, start));
        let windows = best.windows as u16;
        Some(Located { position, windows })
    }

    // The evaluation, with the streak before it.
    fn evaluate(&self, streak: u64) -> Evaluation
        requires { streak ≤ 16777216 }
        ensures { let w = self.now in result ≡ Evaluate.evaluation_by w.mode w.j w.flags.now w.samples.now streak }
    {
        let lines = modespec::window_lines(self.spec);
        let window = &self.flags[self.first()..];
        let counts = window_fold::fold(window, modespec::line_samples(self.spec), lines);
        let quality = pulse::quality(&counts, self.spec, lines);
        let streak = streak_after(quality, streak);
        let waiting = Evaluation {
            quality,
            streak,
            start: None,
        };
        if streak < START_CONSECUTIVE {
            return waiting;
        }
        // Where no clean first line is found the streak stays, so the next evaluation tries again.
        let start = self.locate(&counts);
        Evaluation { start, ..waiting }
    }
}

// Evaluation j. The flags and samples behind those taken when it happens change nothing.
pub fn evaluate(mode: u8, j: usize, flags: &[u8], samples: &[f32], streak: u64) -> Evaluation
    requires window_in_flags { 64 * j + Sizes.window_probes (spec_of mode) ≤ length flags.now }
    requires flags_len_bound { length flags.now ≤ 16777216 }
    requires streak_bound { streak ≤ 16777216 }
    ensures { result ≡ Evaluate.evaluation_of mode j flags.now samples.now streak }
{
    let w = modespec::mode_window_probes(mode);
    let taken = EVAL_EVERY_PROBES * j + w;
    let known = (4 * (taken + 1)).min(samples.len());
    let window = Window {
        mode,
        spec: modespec::for_mode(mode),
        j,
        flags: &flags[..taken],
        samples: &samples[..known],
    };
    window.evaluate(streak)
}
