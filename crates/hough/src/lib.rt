// The search for a picture's slant: one pass draws the flags as an image and lets its pixels vote for lines
// (`hough_detect_slant`), and up to four passes correct the rate.
// The bounds on w, x, y and n stand in the contracts: a struct of one number would be opened at each sum and quotient.
#![tactic(auto)]

mod image;
mod votes;

ghost use Rattle.std.specs.Prelude.{◌≡◌, ◌≤◌, length};
ghost use Rattle.modespec.specs.Sizes.{line_width};
ghost use Rattle.hough.specs.Pass.{pass_of};
ghost use Rattle.hough.specs.Steps.{Counted, PassDone, answer_of};
ghost use Rattle.hough.specs.Passes.{outside_deadband, slant_ok, adjusted, passes_of, PassesDone};

use image::Drawing;
use modespec::ModeSpec;
use votes::Angles;

// The answer of a pass: no slant, or one with its angle in degrees and the rate that corrects it. The scope document names this form,
// an enum with an empty case and a case of two numbers.
#[derive(Clone, Copy)]
pub enum Slant {
    None,
    Found { angle: f64, rate: f64 },
}

// The rate after the passes, and the angle of the last slant found, in degrees.
#[derive(Clone, Copy)]
pub struct Passes {
    pub rate: f64,
    pub slant_deg: Option<f64>,
}

// The cell with the highest count so far, and that count. (A count has 16 bits; a struct without padding is copied
// faster.) Before the first vote the count is 0, the number of votes, and no `None`: the one test of `count_cell` then covers that too.
#[derive(Clone, Copy)]
pub struct Leader {
    pub count: usize,
    pub cell: usize,
}

// The answer of a pass whose votes have this leader.
fn answer(leader: Leader, rate: f64, w: usize) -> Slant
    requires { w ≤ 65536 }
    ensures { result ≡ answer_of leader rate w }
{
    if leader.count == 0 {
        return Slant::None;
    }
    let q = leader.cell % 240;
    let tangents = angles::tangents();
    Slant::Found {
        angle: 30.0 + (q as f64) * 0.5,
        rate: rate + (tangents[q] / (w as f64)) * rate,
    }
}

// Draws the flags and counts the votes. The flags, rate, row and width stay apart, as the Rust's `hough_detect_slant` takes them; `Drawing`
// is made of them once. img and votes stay two slices: a caller lends them so, and the pass would take a struct apart again, since drawing
// writes img and voting reads it and writes votes.
fn count_votes(
    flags: &[u8],
    rate: f64,
    spec: ModeSpec,
    w: usize,
    img: &mut [u8],
    votes: &mut [u16],
) -> Leader
    requires { (w ≤ 65536) × ((441000 ≤ length img.old) × (144000 ≤ length votes.old)) }
    ensures { Counted (pass_of flags.now rate spec w) result img.old img.new votes.old votes.new }
{
    let rows = (spec.image_lines as usize).min(630);
    votes[..limits::VOTE_CELLS].fill(0);
    let line = spec.line_seconds;
    Drawing {
        flags,
        rate,
        line,
        w,
    }
    .draw(img, rows);
    Angles::new(w).vote_rows(votes, img, rows)
}

// One pass at a line width of w columns. The first 441,000 places of img and the first 144,000 of votes may hold
// anything, and come back as 0.
pub fn hough_detect_slant(
    flags: &[u8],
    rate: f64,
    spec: ModeSpec,
    w: usize,
    img: &mut [u8],
    votes: &mut [u16],
) -> Slant
    requires { (w ≤ 65536) × ((441000 ≤ length img.old) × (144000 ≤ length votes.old)) }
    ensures { PassDone (pass_of flags.now rate spec w) result img.old img.new votes.old votes.new }
{
    let leader = count_votes(flags, rate, spec, w, img, votes);
    img[..limits::IMG_BYTES].fill(0);
    votes[..limits::VOTE_CELLS].fill(0);
    answer(leader, rate, w)
}

// Whether the angle is more than 0.5 from 90: the new rate is used. Nearer, the step of half a degree is noise.
fn outside_deadband(angle: f64) -> bool
    ensures { result ≡ outside_deadband angle }
{
    (angle - 90.0).abs() > 0.5
}

// Whether the angle is strictly between 89 and 91: the passes stop. No range of std leaves out both its ends.
fn slant_ok(angle: f64) -> bool
    ensures { result ≡ slant_ok angle }
{
    angle > 89.0 && angle < 91.0
}

// The state after a pass that found a slant.
fn adjust(state: Passes, angle: f64, rate: f64) -> Passes
    ensures { result ≡ adjusted state angle rate }
{
    let slant_deg = Some(angle);
    if outside_deadband(angle) {
        Passes { rate, slant_deg }
    } else {
        Passes { slant_deg, ..state }
    }
}

// Up to four passes over the flags of a picture, from the starting rate on. Of img the first 441,000 places and of
// votes the first 144,000 may hold anything, and come back as 0.
// That a line has 65,536 columns at most is asked of the row here: as a ghost field of a row it would be asked of whoever makes one.
pub fn slant_passes(
    flags: &[u8],
    rate: f64,
    spec: ModeSpec,
    img: &mut [u8],
    votes: &mut [u16],
) -> Passes
    requires { (line_width spec ≤ 65536) × ((441000 ≤ length img.old) × (144000 ≤ length votes.old)) }
    ensures { PassesDone (passes_of spec rate flags.now) result img.old img.new votes.old votes.new }
{
    let w = modespec::line_width(spec);
    let mut state = Passes {
        rate,
        slant_deg: None,
    };
    for _ in 0..4usize {
        let Slant::Found { angle, rate } = hough_detect_slant(
            flags, state.rate, spec, w, img, votes,
        ) else {
            return state;
        };
        state = adjust(state, angle, rate);
        if slant_ok(angle) {
            return state;
        }
    }
    state
}
