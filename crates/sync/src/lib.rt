// `find_sync`: the slant of a picture corrects the rate, and a fold at that rate gives the skip and the quality.
// From slowrx.rs's sync.rs.
// A bound on one number stays a clause, since a struct of one number would be opened at each sum, and so does SpecFits: a ghost field
// of a row would be asked of whoever makes one.
#![tactic(auto)]

ghost use Rattle.std.specs.Prelude.{◌≡◌, ℕ, ◌+◌, ◌≤◌, ◌<◌, true, length, get_or, T};
ghost use Rattle.std.specs.Float.{nan, binary64};
ghost use Rattle.std.specs.Float.Ieee.{add};
ghost use Rattle.std.specs.Float.Ieee.Positive.{positive};
ghost use Rattle.limits.specs.Refusals.{first_of};
ghost use Rattle.columns.specs.Columns.{list_to, probe_of};
ghost use Rattle.sync.specs.Fold.{column_seconds, flag_at, fold_of};
ghost use Rattle.sync.specs.Steps.{Added, AddedIn, Rising, Clear};
ghost use Rattle.sync.specs.FindSync.{skip_seconds, skip_of, aligned_of, sync_result_of, SpecFits, SyncDone, rate_allowed, causes, SyncCall};

use hough::Passes;
use limits::Refusal;
use modespec::{Mode, ModeSpec};

// The rate that cancels the slant, and where line 0 begins, in samples from the first flag on.
#[derive(Clone, Copy, Default)]
pub struct SyncResult {
    pub adjusted_rate_hz: f64,
    pub skip_samples: i64,
    pub slant_deg: Option<f64>,
    pub sync_quality: f32,
}

// ---- the final fold

// A line is folded in 25 blocks of 28 columns.
const BLOCK_COLUMNS: usize = 28;

const BLOCKS: usize = 25;

// The times of the 700 columns of a line, worked out once and not in each line. By number: `map` of an array copies it, and a feed then
// takes more stack than the header says.
fn column_seconds(line: f64) -> [f64; 700]
    ensures { result ≡ list_to (column_seconds line) 700 }
{
    let parts = columns::column_parts(700);
    let mut seconds = [0.0; 700];
    for x in 0..700 {
        seconds[x] = parts[x] * line;
    }
    seconds
}

// Whether a test of 64 flags shows that none from `first` to `last` is set.
fn are_clear(flags: &[u8], first: usize, last: usize) -> bool
    ensures { result ≡ true → Clear flags.now first last }
{
    let end = first.saturating_add(64);
    let Some(block) = flags.get(first..end) else {
        return false;
    };
    last < end && limits::all_at_most(0, block)
}

// A line of the fold: the flags, the times of its columns from `start` on, and the samples in a second. Where it is `rising`,
// later columns never show earlier flags.
#[derive(Clone, Copy)]
struct Line<'a> {
    flags: &'a [u8],
    columns: &'a [f64; 700],
    start: f64,
    rate: f64,
    rising: bool,
    ghost in_order: { rising ≡ true → Rising rate start columns.now },
}

impl Line<'_> {
    fn place(self, x: usize) -> usize
        requires { x < 700 }
        ensures { result ≡ probe_of (add binary64 self.entry.start (get_or self.entry.columns.now x nan)) self.entry.rate }
    {
        columns::probe_at(self.start + self.columns[x], self.rate)
    }

    // The flag that column x shows: 0 beyond the last.
    #[tactic(auto, unfolding(crate::specs::Fold::flag_at))]
    fn flag(self, x: usize) -> u8
        requires { x < 700 }
        ensures { result ≡ flag_at self.entry.flags.now self.entry.rate self.entry.start (get_or self.entry.columns.now x nan) }
    {
        columns::flag(self.flags, self.place(x))
    }

    // Whether a test of 64 flags shows that the block of columns from `from` on shows no flag that is set.
    fn block_is_clear(self, from: usize) -> bool
        requires { (from + 28 ≤ 700) × (self.rising ≡ true) }
        ensures { result ≡ true → (x : ℕ) → from ≤ x → x < from + 28 → flag_at self.entry.flags.now self.entry.rate self.entry.start (get_or self.entry.columns.now x nan) ≡ 0 }
    {
        let last = from + BLOCK_COLUMNS - 1;
        are_clear(self.flags, self.place(from), self.place(last))
    }

    // Adds the flags of a block. Where the columns show flags in order, that one test shows most blocks of a picture to be clear.
    fn fold_block(self, counts: &mut [u32; 700], from: usize)
        requires { (from + 28 ≤ 700) × ((x : ℕ) → from ≤ x → x < 700 → get_or counts.old x 0 ≤ 16711680) }
        ensures { AddedIn (λ x. flag_at self.entry.flags.now self.entry.rate self.entry.start (get_or self.entry.columns.now x nan)) from (from + 28) counts.old counts.new }
    {
        if self.rising && self.block_is_clear(from) {
            return;
        }
        // by number: column x says which flag and which count
        for x in from..from + BLOCK_COLUMNS {
            counts[x] += self.flag(x) as u32;
        }
    }

    // Adds the flags of the line.
    fn fold(self, counts: &mut [u32; 700])
        requires { (x : ℕ) → x < 700 → get_or counts.old x 0 ≤ 16711680 }
        ensures { Added (λ x. flag_at self.entry.flags.now self.entry.rate self.entry.start (get_or self.entry.columns.now x nan)) 700 counts.old counts.new }
    {
        for block in 0..BLOCKS {
            self.fold_block(counts, block * BLOCK_COLUMNS);
        }
    }
}

// Whether x is above 0 and below 1,000,000, as each rate and line of a picture is.
fn is_positive(x: f64) -> bool
    ensures { result ≡ true → T (positive x) }
{
    x > 0.0 && x < 1000000.0
}

// Whether later columns never show earlier flags.
fn rises(rate: f64, line: f64) -> bool
    ensures { result ≡ true → T (positive rate) × T (positive line) }
{
    is_positive(rate) && is_positive(line)
}

// The counts of n lines of 700 columns. They are lent, all 0: handed back, the array would be copied, and a feed take 2,800 bytes more
// of stack.
fn fold(counts: &mut [u32; 700], flags: &[u8], rate: f64, line: f64, n: usize)
    requires clear { (x : ℕ) → get_or counts.old x 0 ≡ 0 }
    requires lines_bound { n ≤ 65536 }
    ensures { counts.new ≡ fold_of flags.now rate line n }
{
    let columns = column_seconds(line);
    let rising = rises(rate, line);
    for y in 0..n {
        let line = Line {
            flags,
            columns: &columns,
            start: (y as f64) * line,
            rate,
            rising,
        };
        line.fold(counts);
    }
}

// ---- the skip

// The seconds from the first flag to line 0, for the falling edge at a column.
fn skip_seconds_for(edge: usize, spec: ModeSpec) -> f64
    requires { edge ≤ 65536 }
    ensures { result ≡ skip_seconds edge spec }
{
    let raw = ((edge as f64) / 700.0) * spec.line_seconds - spec.sync_seconds;
    raw + spec.skip_correction_seconds()
}

fn skip_samples_for(edge: usize, spec: ModeSpec, rate: f64) -> i64
    requires { edge ≤ 65536 }
    ensures { result ≡ skip_of edge spec rate }
{
    ieee::round_to_i64(skip_seconds_for(edge, spec) * rate)
}

// The fold after the passes, and what it gives: `image_lines` lines are folded, and only `radio_lines` of them can have
// a pulse each.
fn aligned(flags: &[u8], spec: ModeSpec, passes: Passes) -> SyncResult
    requires { SpecFits spec }
    ensures { result ≡ aligned_of flags.now spec passes }
{
    let rate = passes.rate;
    let slant_deg = passes.slant_deg;
    let image_lines = spec.image_lines as usize;
    let radio_lines = spec.radio_lines() as usize;
    let mut counts = [0; 700];
    fold(&mut counts, flags, rate, spec.line_seconds, image_lines);
    SyncResult {
        adjusted_rate_hz: rate,
        skip_samples: skip_samples_for(pulse::falling_edge(&counts), spec, rate),
        slant_deg,
        sync_quality: pulse::quality(&counts, spec, radio_lines),
    }
}

// ---- the whole

// `find_sync` of a row. Of img the first 441,000 places and of votes the first 144,000 may hold anything, and come
// back as 0.
// Two slices: of a struct of both, with their lengths as ghost fields, the clauses over what they hold after a call did not close.
pub fn find_sync_in(
    flags: &[u8],
    rate: f64,
    spec: ModeSpec,
    img: &mut [u8],
    votes: &mut [u16],
) -> SyncResult
    requires { SpecFits spec × ((441000 ≤ length img.old) × (144000 ≤ length votes.old)) }
    ensures { SyncDone (sync_result_of spec rate flags.now) result img.old img.new votes.old votes.new }
{
    let n = modespec::image_probes(spec, rate).min(flags.len());
    let read = &flags[..n];
    let passes = hough::slant_passes(read, rate, spec, img, votes);
    aligned(read, spec, passes)
}

// ---- the call

fn rate_allowed(rate: f64) -> bool
    ensures { result ≡ rate_allowed rate }
{
    (8000.0..=48000.0).contains(&rate)
}

// The causes behind the mode's: refused for the first that applies, by the order of their numbers.
fn refusal(flags: &[u8], rate: f64, img_places: usize, votes_places: usize) -> Result<(), Refusal>
    ensures { result ≡ first_of (causes flags.now rate img_places votes_places) }
{
    if !rate_allowed(rate) {
        return Err(Refusal::Rate);
    }
    if img_places < limits::IMG_BYTES || votes_places < limits::VOTE_CELLS {
        return Err(Refusal::Memory);
    }
    if flags.len() > limits::MAX_FLAGS {
        return Err(Refusal::Length);
    }
    if !limits::all_at_most(1, flags) {
        return Err(Refusal::Flag);
    }
    Ok(())
}

pub fn find_sync(
    flags: &[u8],
    rate: f64,
    mode: u8,
    img: &mut [u8],
    votes: &mut [u16],
) -> Result<SyncResult, Refusal>
    ensures { SyncCall flags.now rate mode result img.old img.new votes.old votes.new }
{
    let mode = Mode::try_from(mode)?;
    refusal(flags, rate, img.len(), votes.len())?;
    Ok(find_sync_in(flags, rate, mode.spec(), img, votes))
}
