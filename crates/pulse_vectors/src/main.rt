// Replays the Rust's answers to the calls on a fold's counts. The file `vectors` has long records, whose payload is the list
// of counts: as they are where c is 0, else as pairs of a count and how often it stands.
// Operation 0: the best window of width a has the start x and the sum y, which z windows have. Operation 1: the quality in mode a
// over b lines has the pattern x, or is refused with 9 where b is above 65,536. Operation 2: the falling edge is column x.
#![tactic(auto)]

use limits::Refusal;
use replay::tally::Verdict;
use replay::{Case, Limit, Longer, Pattern, payload};
use std::alloc::{AllocError, Global};
use std::io;

// No record has more bytes behind its words.
const LIMIT: Limit = Limit {
    most: 262144,
    longer: Longer::Cut,
};

// No fold has more counts.
const MOST_COUNTS: usize = 65536;

// The counts of a payload in form c.
fn counts_of(c: u64, payload: &[u8], alloc: Global) -> Result<Vec<u32>, AllocError> {
    let numbers = payload::half_word_list(payload, alloc)?;
    if c == 0 {
        return Ok(numbers);
    }
    let mut counts = Vec::new(alloc);
    for pair in numbers.chunks_exact(2) {
        if let [count, times] = pair {
            payload::repeat(&mut counts, *count, *times, MOST_COUNTS)?;
        }
    }
    Ok(counts)
}

fn window_is_right(case: &Case, counts: &[u32]) -> bool {
    pulse::best_pulse_window(counts, case.a as usize).is_ok_and(|best| {
        best.start as u64 == case.x && best.sum == case.y && best.windows as u64 == case.z
    })
}

fn quality_is_right(case: &Case, counts: &[u32]) -> bool {
    let Ok(mode) = u8::try_from(case.a) else {
        return false;
    };
    match pulse::sync_quality(counts, mode, case.b as usize) {
        Ok(quality) => quality.has_pattern(replay::low_half(case.x)),
        Err(refusal) => refusal == Refusal::Count && case.b > 65536,
    }
}

fn edge_is_right(case: &Case, counts: &[u32]) -> bool {
    pulse::falling_edge_from_x_acc(counts) == Ok(case.x as usize)
}

// Whether an operation gives the answer expected. An operation that there is not gives none, and a record without its payload is wrong.
fn is_right(case: &Case, alloc: Global) -> Result<bool, AllocError> {
    let Some(payload) = &case.payload else {
        return Ok(false);
    };
    let counts = counts_of(case.c, payload, alloc)?;
    Ok(match case.op {
        0 => window_is_right(case, &counts),
        1 => quality_is_right(case, &counts),
        2 => edge_is_right(case, &counts),
        _ => false,
    })
}

fn main(rt: HostRuntime) -> io::Result<()> {
    let alloc = rt.alloc();
    let kinds = [
        "best_pulse_window",
        "sync_quality",
        "falling_edge_from_x_acc",
    ];
    replay::run_limited(&rt, alloc, &kinds, LIMIT, |case: Case| {
        Ok(Verdict {
            kind: case.op,
            right: is_right(&case, alloc)?,
        })
    })
}
