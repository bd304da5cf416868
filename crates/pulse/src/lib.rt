// What the column counts of a fold tell: the best pulse window, the quality of the sync and the falling edge.
// From slowrx.rs's sync.rs.
// A bound on one number stays a clause, since a struct of one number would be opened at each sum, and so does PulseFits: a ghost field
// of a row would be asked of whoever makes one.
#![tactic(auto)]

ghost use Rattle.std.specs.Prelude.{◌≡◌, ◌+◌, ◌%◌, ◌≤◌, ◌<◌, ◌^◌, length, sum};
ghost use Rattle.std.specs.Int.Signed.{mag};
ghost use Rattle.pulse.specs.Sums.{FirstLargest};
ghost use Rattle.pulse.specs.PulseWindow.{best_window, window_answer};
ghost use Rattle.pulse.specs.Edge.{fall_at, slipped, edge_of, edge_answer};
ghost use Rattle.pulse.specs.Steps.{better_of, steeper_of};
ghost use Rattle.pulse.specs.Sliding.{difference_at, slid_by, not_negative};
ghost use Rattle.pulse.specs.Median.{median_of, count_at_most};
ghost use Rattle.pulse.specs.Quality.{PulseFits, quality_by, quality_of, quality_answer};

use limits::Refusal;
use modespec::{Mode, ModeSpec};
use std::cmp::Ordering;

// The most counts, and the most lines, that a call takes.
const MAX_COUNTS: usize = 65536;

const MAX_LINES: usize = 65536;

// The first of the windows with the largest sum, that sum, and how many windows have it.
#[derive(Clone, Copy)]
pub struct BestWindow {
    pub start: usize,
    pub sum: u64,
    pub windows: usize,
}

impl BestWindow {
    // With the window at `start`: it is the only one where its sum is larger than the best before it, and one more where it is the same.
    fn better(self, start: usize, sum: u64) -> BestWindow
        requires { self.windows ≤ 65536 }
        ensures { result ≡ better_of self start sum }
    {
        match sum.cmp(&self.sum) {
            Ordering::Greater => BestWindow {
                start,
                sum,
                windows: 1,
            },
            Ordering::Equal => BestWindow {
                windows: self.windows + 1,
                ..self
            },
            Ordering::Less => self,
        }
    }
}

// The first of the places with the largest fall, and that fall. A fall of 0 is none: only positive falls count.
#[derive(Clone, Copy)]
pub struct FallingPlace {
    pub at: usize,
    pub fall: u64,
}

impl FallingPlace {
    // The place `at` where its fall is larger than the steepest before it.
    fn steeper(self, at: usize, fall: u64) -> FallingPlace
        ensures { result ≡ steeper_of self at fall }
    {
        if fall > self.fall {
            FallingPlace { at, fall }
        } else {
            self
        }
    }
}

// ---- sums

// A sum of 65,536 counts of 32 bits has 48.
fn sum_of(counts: &[u32]) -> u64
    requires { length counts.now ≤ 65536 }
    ensures { result ≡ sum counts.now }
{
    counts.iter().map(|count| u64::from(*count)).sum()
}

// The place in a ring of n that i means, where i went round once at most. By a comparison: `i % n` would divide at each window.
fn wrapped(i: usize, n: usize) -> usize
    requires { i < n + n }
    ensures { result ≡ i % n }
{
    if i < n { i } else { i - n }
}

// ---- the pulse window

// The first of the windows with the largest sum, in a ring of counts, and how many there are.
pub fn best_window(counts: &[u32], width: usize) -> BestWindow
    requires { (length counts.now ≤ 65536) × (1 ≤ width) × (width ≤ length counts.now) }
    ensures { result ≡ best_window counts.now width }
{
    let mut sum = sum_of(&counts[..width]);
    let mut best = BestWindow {
        start: 0,
        sum,
        windows: 1,
    };
    for start in 1..counts.len() {
        // less the count that leaves, plus the one that enters
        let enters = wrapped(start + width - 1, counts.len());
        sum = sum + u64::from(counts[enters]) - u64::from(counts[start - 1]);
        best = best.better(start, sum);
    }
    best
}

#[tactic(auto, unfolding(crate::specs::PulseWindow::window_answer))]
pub fn best_pulse_window(counts: &[u32], width: usize) -> Result<BestWindow, Refusal>
    ensures { result ≡ window_answer counts.now width }
{
    let n = counts.len();
    if n > MAX_COUNTS || width == 0 || width > n {
        return Err(Refusal::Count);
    }
    Ok(best_window(counts, width))
}

// ---- the median

// How many counts are at most v. By a sum: `filter(..).count()` is compiled to a jump at each count, and takes 2.4 µs for 700 counts
// of noise in place of 0.27.
fn count_at_most(v: u32, counts: &[u32]) -> usize
    ensures { result ≡ count_at_most v counts.now }
{
    counts.iter().map(|count| usize::from(*count <= v)).sum()
}

// The count at place n / 2 in sorted order, found by halving: the smallest value that more than n / 2 counts are at most.
// A `while`, since a range of values is halved and not a list: no iterator or search of std goes that way.
fn median(counts: &[u32]) -> u32
    requires { 1 ≤ length counts.now }
    ensures { result ≡ median_of counts.now }
{
    let half = counts.len() / 2;
    let mut low: u32 = 0;
    let mut high = counts.iter().copied().max().unwrap_or(0);
    while low < high {
        let middle = low + (high - low) / 2;
        if count_at_most(middle, counts) > half {
            high = middle;
        } else {
            low = middle + 1;
        }
    }
    low
}

// ---- the quality

#[tactic(auto, unfolding(crate::specs::Quality::quality_by, modespec::specs::Literals::of_bits))]
fn quality_by(sum: u64, width: usize, median: u32, lines: usize) -> f32
    requires { (sum ≤ 281474976645120) × (width ≤ 65536) × (lines ≤ 65536) }
    ensures { result ≡ quality_by sum width median lines }
{
    let peak = (sum as f64) / (width as f64);
    ieee::to_f32(ieee::clamp((peak - (median as f64)) / (lines as f64), 0.0, 1.0))
}

// How far the best window's mean lies above the median, as a part of the lines.
#[tactic(auto, unfolding(crate::specs::Quality::quality_of, modespec::specs::Literals::of_bits))]
pub fn quality(counts: &[u32], spec: ModeSpec, lines: usize) -> f32
    requires { (length counts.now ≤ 65536) × (lines ≤ 65536) × PulseFits spec (length counts.now) }
    ensures { result ≡ quality_of counts.now spec lines }
{
    let n = counts.len();
    if n == 0 || lines == 0 {
        return 0.0;
    }
    let width = modespec::pulse_columns(spec, n);
    let best = best_window(counts, width);
    quality_by(best.sum, width, median(counts), lines)
}

#[tactic(auto, unfolding(crate::specs::Quality::quality_answer))]
pub fn sync_quality(counts: &[u32], mode: u8, lines: usize) -> Result<f32, Refusal>
    ensures { result ≡ quality_answer counts.now mode lines }
{
    let mode = Mode::try_from(mode)?;
    if counts.len() > MAX_COUNTS || lines > MAX_LINES {
        return Err(Refusal::Count);
    }
    Ok(quality(counts, mode.spec(), lines))
}

// ---- the falling edge

// The difference at column 0: four counts less the next four.
fn first_difference(counts: &[u32]) -> i64
    requires { 8 ≤ length counts.now }
    ensures { result ≡ difference_at counts.now 0 }
{
    let high = sum_of(&counts[..4]);
    let low = sum_of(&counts[4..8]);
    (high as i64) - (low as i64)
}

// From a column's difference to the next: less the count that leaves, plus twice the one that crosses from the second four
// to the first, less the one that enters.
fn slide(difference: i64, leaves: u32, crosses: u32, enters: u32) -> i64
    requires { mag difference < 2 ^ 35 }
    ensures { result ≡ slid_by difference leaves crosses enters }
{
    difference - i64::from(leaves) + 2 * i64::from(crosses) - i64::from(enters)
}

// A difference, and 0 where it is negative.
fn clipped(difference: i64) -> u64
    ensures { result ≡ not_negative difference }
{
    u64::try_from(difference).unwrap_or(0)
}

// The first of the 692 places with the largest fall; the difference is a running value.
fn steepest(counts: &[u32; 700]) -> FallingPlace
    ensures { FirstLargest (fall_at counts.now) 692 result.at result.fall }
{
    let mut difference = first_difference(counts);
    let mut best = FallingPlace {
        at: 0,
        fall: clipped(difference),
    };
    for x in 1..692 {
        difference = slide(difference, counts[x - 1], counts[x + 3], counts[x + 7]);
        best = best.steeper(x, clipped(difference));
    }
    best
}

// A column of the right half belongs to the line before it.
fn slip(x: usize) -> usize
    ensures { result ≡ slipped x }
{
    if x > 350 { x - 350 } else { x }
}

// The column behind the steepest fall of 700 counts.
pub fn falling_edge(counts: &[u32; 700]) -> usize
    ensures { result ≡ edge_of counts.now }
{
    let best = steepest(counts);
    if best.fall == 0 { 0 } else { slip(best.at + 4) }
}

// By std's `all`: `limits::all_at_most` is over bytes, since a clause can't say it at a type parameter.
pub fn falling_edge_from_x_acc(counts: &[u32]) -> Result<usize, Refusal>
    ensures { result ≡ edge_answer counts.now }
{
    let Ok(counts) = <&[u32; 700]>::try_from(counts) else {
        return Err(Refusal::Count);
    };
    if !counts.iter().all(|count| *count <= 1_000_000) {
        return Err(Refusal::Count);
    }
    Ok(falling_edge(counts))
}
