// Replays the Rust's answers to the signal functions and the spectrum calls. The file `vectors` has long records.
// Operations 0 and 1: the power of the payload's samples at 1,500 and 2,300 Hz, whose pattern is x.
// Operation 2: the window around centre a of the first y numbers of the payload. The last 16 are the real parts of its first
// pairs, and every other number is 0.
// Operation 3: the decision on the payload's 258 numbers at the shift with the pattern a. x is 1 for yes.
#![tactic(auto)]

use dsp::Tone;
use replay::tally::Verdict;
use replay::{Case, Limit, Longer, Pattern, payload};
use std::alloc::{AllocError, Global};
use std::io;

// No record has more bytes behind its words.
const LIMIT: Limit = Limit {
    most: 2048,
    longer: Longer::Unread,
};

fn power_is_right(case: &Case, samples: &[f32], tone: Tone) -> bool {
    dsp::goertzel_power(samples, tone).has_pattern(case.x)
}

// The patterns of a window's numbers: the real parts of its first pairs, and 0 everywhere else. A window has 512 numbers.
fn window_of(reals: &[u32]) -> [u32; 512] {
    let mut window = [0; 512];
    for (place, real) in window.iter_mut().step_by(2).zip(reals) {
        *place = *real;
    }
    window
}

// The window's record: so many samples, then sixteen real parts, and no byte more.
fn window_is_right(case: &Case, payload: &[u8], patterns: &[u32], numbers: &[f32]) -> bool {
    let sounds = case.y as usize;
    let (Some(sound), Some(reals)) = (numbers.get(..sounds), patterns.get(sounds..)) else {
        return false;
    };
    if reals.len() != 16 || payload.len() % 4 != 0 {
        return false;
    }
    let mut buffer = [1.0f32; 512];
    probe::sync_window(sound, case.a, &mut buffer).is_ok()
        && buffer
            .iter()
            .zip(window_of(reals))
            .all(|(x, bits)| x.has_pattern(bits))
}

fn decision_is_right(case: &Case, spectrum: &[f32]) -> bool {
    probe::has_sync_at(spectrum, f64::from_pattern(case.a)).is_ok_and(|yes| u64::from(yes)
        == case.x)
}

// Whether an operation gives the answer expected. An operation that there is not gives none, and a record without its payload is wrong.
fn is_right(case: &Case, alloc: Global) -> Result<bool, AllocError> {
    let Some(payload) = &case.payload else {
        return Ok(false);
    };
    let patterns = payload::half_word_list(payload, alloc)?;
    let numbers = payload::float_list(&patterns, alloc)?;
    Ok(match case.op {
        0 => power_is_right(case, &numbers, Tone::Hz1500),
        1 => power_is_right(case, &numbers, Tone::Hz2300),
        2 => window_is_right(case, payload, &patterns, &numbers),
        3 => decision_is_right(case, &numbers),
        _ => false,
    })
}

fn main(rt: HostRuntime) -> io::Result<()> {
    let alloc = rt.alloc();
    let kinds = [
        "goertzel_1500",
        "goertzel_2300",
        "sync_window",
        "has_sync_at",
    ];
    replay::run_limited(&rt, alloc, &kinds, LIMIT, |case: Case| {
        let right = is_right(&case, alloc)?;
        Ok(Verdict {
            kind: case.op,
            right,
        })
    })
}
