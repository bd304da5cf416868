// The first line of a window that carries the sync pulse.
// From slowrx.rs's sync_start.rs.
// The bounds on y, lines, column and width stand in the contracts: a struct of one number would be opened at each sum.
#![tactic(auto)]

ghost use Rattle.std.specs.Prelude.{◌≡◌, ◌-◌, ◌^◌, ◌<◌, ◌≤◌, length, slice_index};
ghost use Rattle.modespec.specs.Sizes as Sizes;
ghost use Rattle.first_line.specs.Pulsed as Pulsed;
ghost use Rattle.first_line.specs.Steps as Steps;

use modespec::ModeSpec;
use std::ops::Range;

// A pulse of at least this many of the 700 columns is wide.
const WIDE_PULSE_COLUMNS: usize = 20;

// Flags searched on either side of a line's expected pulse.
const PULSE_SEARCH_SLACK_PROBES: f64 = 4.0;

// A pulsed line's longest run of set flags covers this part of the pulse, or this many flags.
const PULSE_RUN_FRACTION: f64 = 0.5;

const PULSE_RUN_CAP_PROBES: f64 = 10.0;

// So many flags before the window's first are in the detector's memory.
const MOST_BEFORE: usize = 65;

// Rust's `f64::min`. Std's leaves open which of two equal numbers it gives, so it isn't proved to be the one of the definition.
#[tactic(auto, unfolding(crate::specs::Pulsed::minimum))]
fn least(x: f64, y: f64) -> f64
    ensures { result ≡ Pulsed.minimum x y }
{
    if x.is_nan() || y < x { y } else { x }
}

// ---- a narrow pulse

// The flags of a line.
fn line_probes(spec: ModeSpec) -> f64
    ensures { result ≡ Pulsed.line_probes spec }
{
    modespec::line_samples(spec) / 4.0
}

// The flags of a pulse.
fn pulse_probes(spec: ModeSpec) -> f64
    ensures { result ≡ Pulsed.pulse_probes spec }
{
    spec.sync_seconds * limits::WORKING_SAMPLE_RATE_HZ / 4.0
}

fn run_needed(pulse: f64) -> f64
    ensures { result ≡ Pulsed.run_needed pulse }
{
    least(PULSE_RUN_FRACTION * pulse, PULSE_RUN_CAP_PROBES)
}

// By std's rounding, and not by `as f64`: that is proved below 2^53 alone, and no run of flags has such a bound.
fn is_enough(need: f64, longest: usize) -> bool
    ensures { result ≡ Steps.enough need longest }
{
    std::num::nearest_u64_to_f64(longest as u64) >= need
}

// The run of set flags that ends at flag i, from the one before it. By `get` and not by columns::flag, for which the compiler branches on
// the flag: a search of noise takes 0.46 microseconds in place of 0.69.
fn run_on(flags: &[u8], i: usize, run: usize) -> usize
    requires { run < 2 ^ 64 - 1 }
    ensures { result ≡ Steps.run_with run (slice_index flags.now i) }
{
    if flags.get(i).is_some_and(|flag| *flag != 0) {
        run + 1
    } else {
        0
    }
}

// What a narrow pulse is looked for by: the flags from `a` before the window's first on, how many a line and a pulse have, and the
// column at which the pulse begins.
#[derive(Clone, Copy)]
struct NarrowPulse<'a> {
    flags: &'a [u8],
    line: f64,
    pulse: f64,
    a: usize,
    column: usize,
    ghost few_before: { a ≤ 65 },
    ghost on_a_line: { column ≤ 700 },
}

impl NarrowPulse<'_> {
    // The flags around the pulse of line y. A few on either side are searched, since the columns of a long line are coarser than its flags.
    fn span_at(&self, y: usize) -> Range<usize>
        requires { y ≤ 65536 }
        ensures { let s = self.now in result ≡ Pulsed.span_of s.pulse (Pulsed.pulse_at s.line s.a s.column y) }
    {
        let start = (self.a as f64) + ((y as f64) + (self.column as f64) / 700.0) * self.line;
        let from = ieee::max(start - PULSE_SEARCH_SLACK_PROBES, 0.0);
        let to = start + self.pulse + PULSE_SEARCH_SLACK_PROBES;
        (ieee::to_u64(from) as usize)..(ieee::to_u64(to) as usize)
    }

    // The first line that begins a pair of pulsed lines. A noise line can look like a narrow pulse by chance, so one alone is not enough.
    // `before` is the line before `line` if that one is pulsed: each line is looked at once. The scope document names this form: a scan
    // over lines and probes, left by label with y as its value, which a `for` has none of.
    fn first_pair(&self, lines: usize) -> Option<usize>
        requires { lines ≤ 65536 }
        ensures { let s = self.now in result ≡ Pulsed.first_pair (Pulsed.pulsed_line s.line s.pulse s.flags.now s.a s.column) lines }
    {
        let need = run_needed(self.pulse);
        let mut before: Option<usize> = None;
        let mut line: usize = 0;
        let first = 'scan: loop {
            if line >= lines {
                return None;
            }
            let span = self.span_at(line);
            let mut run: usize = 0;
            let mut longest: usize = 0;
            for i in span {
                run = run_on(self.flags, i, run);
                longest = longest.max(run);
            }
            let pulsed = is_enough(need, longest);
            if let (Some(y), true) = (before, pulsed) {
                break 'scan y;
            }
            before = pulsed.then_some(line);
            line += 1;
        };
        Some(first)
    }
}

// ---- a wide pulse

// What a wide pulse is looked for by: the window, the samples in its lines, and the column at which the pulse begins and how many it has.
#[derive(Clone, Copy)]
struct WidePulse<'a> {
    window: &'a [u8],
    samples: f64,
    column: usize,
    width: usize,
    ghost on_a_line: { column ≤ 700 },
    ghost a_line_at_most: { width ≤ 700 },
}

impl WidePulse<'_> {
    // How many of the pulse's columns are set in line y. Columns past 699 run on into the next line.
    fn hits_across(&self, y: usize) -> usize
        requires { y ≤ 65536 }
        ensures { let s = self.now in result ≡ Pulsed.hits_across s.samples s.window.now y s.column s.width }
    {
        let mut hits: usize = 0;
        for n in 0..self.width {
            let lines = (y as f64) + ((self.column + n) as f64) / 700.0;
            hits += window_fold::hit(self.window, self.samples, lines) as usize;
        }
        hits
    }

    // Whether half of the pulse's columns at least are set in line y.
    fn is_half_set(&self, y: usize) -> bool
        requires { y ≤ 65536 }
        ensures { let s = self.now in result ≡ Pulsed.half_set s.samples s.window.now s.column s.width y }
    {
        2 * self.hits_across(y) >= self.width
    }

    // The first line with half its columns set, else line 0. Noise sets too few columns for a wide pulse.
    fn first_line(&self, lines: usize) -> usize
        requires { lines ≤ 65536 }
        ensures { let s = self.now in Some result ≡ Pulsed.or_zero (Pulsed.first_line (Pulsed.half_set s.samples s.window.now s.column s.width) 0 lines) }
    {
        (0..lines).find(|y| self.is_half_set(*y)).unwrap_or(0)
    }
}

// The first line of the window that begins at flag `first`. Of the flags before that one, 65 at most are looked at.
// That the window has 65,536 lines at most is asked of the row here: as a ghost field of a row it would be asked of whoever makes one, and
// the functions of `modespec` take a row without it.
pub fn first_pulsed_line(
    spec: ModeSpec,
    flags: &[u8],
    first: usize,
    column: usize,
    width: usize,
) -> Option<usize>
    requires { (first ≤ length flags.now) × (column ≤ 700) × (width ≤ 700) × (Sizes.window_lines spec ≤ 65536) }
    ensures { result ≡ Pulsed.first_pulsed_line spec first flags.now column width }
{
    let lines = modespec::window_lines(spec);
    if width >= WIDE_PULSE_COLUMNS {
        let search = WidePulse {
            window: &flags[first..],
            samples: modespec::line_samples(spec),
            column,
            width,
        };
        Some(search.first_line(lines))
    } else {
        let a = first.min(MOST_BEFORE);
        let from = first - a;
        let search = NarrowPulse {
            flags: &flags[from..],
            line: line_probes(spec),
            pulse: pulse_probes(spec),
            a,
            column,
        };
        search.first_pair(lines)
    }
}
