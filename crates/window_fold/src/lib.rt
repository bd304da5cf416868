// The fold of a window of flags: how many lines have a flag set, for each of 700 columns.
// From slowrx.rs's sync_start.rs.
// The bounds on y and lines stand in the contracts: a struct of one number would be opened at each sum.
#![tactic(auto)]

ghost use Rattle.std.specs.Prelude.{◌≡◌, ℕ, ◌+◌, ◌≤◌, ◌<◌, get_or};
ghost use Rattle.limits.specs.Ranges.{all_at_most};
ghost use Rattle.columns.specs.Columns.{list_to, column_part};
ghost use Rattle.window_fold.specs.Fold.{hit_by, fold_to};
ghost use Rattle.window_fold.specs.Steps.{bit_at, places_of, added_to};

// Flags of a block in the search for a set one.
const SCAN_FLAGS: usize = 512;

// 1 where flag i is set, without a branch on the flag. Beyond the flags taken, where the window ends, it is not.
#[tactic(auto, using(crate::proofs::Folding::bit_test))]
fn bit_at(window: &[u8], i: usize) -> u32
    ensures { result ≡ bit_at window.now i }
{
    (columns::flag(window, i) != 0) as u32
}

// 1 where the flag so many lines into the window is set.
pub fn hit(window: &[u8], samples: f64, lines: f64) -> u32
    ensures { result ≡ hit_by samples window.now lines }
{
    bit_at(window, columns::probe_at(lines, samples))
}

// The numbers of the flags that the columns of line y read. The parts go by index: nothing is known of what a loop over `iter_mut().zip`
// wrote.
fn line_places(parts: &[f64; 700], samples: f64, y: usize, places: &mut [usize; 700])
    requires { (y ≤ 65536) × (parts.now ≡ list_to (column_part 700) 700) }
    ensures { places.new ≡ places_of samples y }
{
    let line = y as f64;
    for (x, place) in places.iter_mut().enumerate() {
        *place = columns::probe_at(line + parts[x], samples);
    }
}

// Adds the flag at each column's place to the column's count. The places go by index, as the parts do.
fn add_bits(window: &[u8], places: &[usize; 700], counts: &mut [u32; 700])
    requires { (x : ℕ) → x < 700 → get_or counts.old x 0 ≤ 65536 }
    ensures { counts.new ≡ added_to window.now places.now counts.old }
{
    for (x, count) in counts.iter_mut().enumerate() {
        *count += bit_at(window, places[x]);
    }
}

// Adds line y to the counts of the lines before it. Its places are found first, so that no place waits for a flag that is looked up.
// They lie in an array that is lent: one that is returned is cleared and copied for each line, 88.7 microseconds a fold in place of 81.
fn fold_line(
    window: &[u8],
    parts: &[f64; 700],
    samples: f64,
    y: usize,
    places: &mut [usize; 700],
    counts: &mut [u32; 700],
)
    requires { (y ≤ 65536) × (parts.now ≡ list_to (column_part 700) 700) × (counts.old ≡ fold_to samples window.now y) }
    ensures { counts.new ≡ fold_to samples window.now (y + 1) }
{
    line_places(parts, samples, y, places);
    add_bits(window, places, counts);
}

// The counts of so many lines, one line after the other.
fn fold_lines(window: &[u8], samples: f64, lines: usize) -> [u32; 700]
    requires { lines ≤ 65536 }
    ensures { result ≡ fold_to samples window.now lines }
{
    let parts = columns::column_parts_700();
    let mut places = [0usize; 700];
    let mut counts = [0u32; 700];
    for y in 0..lines {
        fold_line(window, &parts, samples, y, &mut places, &mut counts);
    }
    counts
}

// Whether no flag is set. It goes by blocks: noise ends it in the first one, and a block is tested many flags at a time.
fn is_silent(window: &[u8]) -> bool
    ensures { result ≡ all_at_most 0 window.now }
{
    window
        .chunks(SCAN_FLAGS)
        .all(|block| limits::all_at_most(0, block))
}

// The counts of so many lines. A window without a set flag has none to count. The window and the samples in a line stay two arguments, as
// the fold's callers have them; a struct of them would be opened in each function that takes both.
pub fn fold(window: &[u8], samples: f64, lines: usize) -> [u32; 700]
    requires { lines ≤ 65536 }
    ensures { result ≡ fold_to samples window.now lines }
{
    if is_silent(window) {
        [0u32; 700]
    } else {
        fold_lines(window, samples, lines)
    }
}
