// Replays the Rust's answers to the start search, from the files `vectors` and `inner` of long records.
// Operation 0: evaluation b of mode a with the streak c. x is the start, all ones for none, y the streak behind it, z the
// pattern of its quality and, 2^32 times, the start's windows. The payload has the flags and the pieces of the samples.
// Operation 1: a search in mode a over b flags that makes c evaluations. x, y and z are those of the last one. The payload has
// the flags, the c qualities, and the pieces of the samples.
// Operation 2: the first line of window b in mode a that is pulsed in column c. x is the line, all ones for none. The payload has the flags.
#![tactic(auto)]

use replay::payload::{self, Payload};
use replay::tally::{Tally, Verdict};
use replay::{Case, Limit, Longer, Pattern};
use std::alloc::{AllocError, Global};
use std::io;
use sync_start::Evaluation;

// No record has more bytes behind its words.
const LIMIT: Limit = Limit {
    most: 8192,
    longer: Longer::Unread,
};

// Stands for the number of a mode that there is not. Its row is that of the last mode, and no search is made in it.
const NO_MODE: u8 = 255;

// What stands for an evaluation that no search makes: its streak is none.
const IMPOSSIBLE: Evaluation = Evaluation {
    quality: 0.0,
    streak: u64::MAX,
    start: None,
};

// No record has more flags.
const MOST_FLAGS: usize = 40000;

// The flags and samples of a record.
#[derive(Drop)]
struct Sound {
    mode: u8,
    flags: Vec<u8>,
    samples: Vec<f32>,
}

impl Sound {
    // Evaluation j behind a streak. It is lent the flags that are taken then, and the samples that are known.
    fn evaluation(&self, j: u64, streak: u64) -> Evaluation {
        let window = modespec::mode_window_probes(self.mode);
        if self.mode > 15 || window > 65536 || j > 65536 || streak > 65536 {
            return IMPOSSIBLE;
        }
        let taken = window + 64 * j as usize;
        match (self.flags.get(..taken), self.samples.get(..4 * taken + 4)) {
            (Some(flags), Some(samples)) => {
                sync_start::evaluate(self.mode, j as usize, flags, samples, streak)
            }
            _ => IMPOSSIBLE,
        }
    }

    // Whether a search that has made so many evaluations makes no more.
    fn is_searched(&self, made: usize, last: Evaluation) -> bool {
        let window = modespec::mode_window_probes(self.mode);
        last.start.is_some() || self.flags.len() < window || (self.flags.len() - window) / 64 < made
    }
}

// Whether an evaluation is the one recorded.
fn is_recorded(evaluation: Evaluation, case: &Case) -> bool {
    let start = evaluation.start;
    start.map(|start| start.position) == replay::optional(case.x)
        && evaluation.streak == case.y
        && start.map_or(0, |start| u64::from(start.windows)) == case.z >> 32
        && evaluation.quality.has_pattern(replay::low_half(case.z))
}

fn evaluation_is_right(case: &Case, sound: &Sound) -> bool {
    is_recorded(sound.evaluation(case.b, case.c), case)
}

// The last of so many evaluations of a search, none where they have not these qualities, or one comes behind a start. A quality that
// the payload does not hold reads as 0.
fn last_of_search(sound: &Sound, made: u64, qualities: &[u32]) -> Option<Evaluation> {
    let mut last = Evaluation {
        quality: 0.0,
        streak: 0,
        start: None,
    };
    // behind this number all evaluations are one, and no payload has so many qualities
    for j in 0..made.min(65538) {
        if last.start.is_some() {
            return None;
        }
        last = sound.evaluation(j, last.streak);
        let bits = qualities.get(j as usize).copied().unwrap_or(0);
        if !last.quality.has_pattern(bits) {
            return None;
        }
    }
    Some(last)
}

fn search_is_right(case: &Case, sound: &Sound, qualities: &[u32]) -> bool {
    last_of_search(sound, case.c, qualities).is_some_and(|last| sound.is_searched(
        case.c as usize,
        last,
    ) && is_recorded(last, case))
}

// The first line, as it is recorded: all ones for none, and 0 where a number is out of bounds.
fn first_line(sound: &Sound, first: usize, column: u64) -> u64 {
    let spec = modespec::for_mode(sound.mode);
    let width = modespec::pulse_columns(spec, 700);
    if column > 700
        || width > 700
        || modespec::window_lines(spec) > 65536
        || first > sound.flags.len()
    {
        return 0;
    }
    first_line::first_pulsed_line(spec, &sound.flags, first, column as usize, width).map_or(
        u64::MAX,
        |line| line as u64,
    )
}

fn first_line_is_right(case: &Case, sound: &Sound) -> bool {
    case.b <= 65536 && first_line(sound, 64 * case.b as usize, case.c) == case.x
}

// Whether a record's answer is right. One without its payload is wrong.
fn is_right(case: &Case, alloc: Global) -> Result<bool, AllocError> {
    let Some(bytes) = &case.payload else {
        return Ok(false);
    };
    let numbers = payload::half_word_list(bytes, alloc)?;
    let mut payload = Payload::new(&numbers);
    let flags = payload.flags(MOST_FLAGS, alloc)?;
    // of more evaluations than this the payload has no qualities
    let searched = if case.op == 1 && case.c <= 65536 {
        case.c as usize
    } else {
        0
    };
    let qualities = payload.numbers(searched);
    let mut samples = vec![in alloc; 0.0f32; 4 * flags.len() + 4]?;
    payload.samples(&mut samples);
    let mode = if case.a < 16 { case.a as u8 } else { NO_MODE };
    let sound = Sound {
        mode,
        flags,
        samples,
    };
    Ok(match case.op {
        0 => evaluation_is_right(case, &sound),
        1 => search_is_right(case, &sound, qualities),
        2 => first_line_is_right(case, &sound),
        _ => false,
    })
}

// A file that is not there is wrong.
fn main(rt: HostRuntime) -> io::Result<()> {
    let alloc = rt.alloc();
    let mut tally = Tally::of(&["evaluate", "search", "first_pulsed_line"]);
    for path in ["vectors", "inner"] {
        match replay::opened(&rt, path) {
            Some(file) => replay::each_record_limited(
                file,
                alloc,
                LIMIT,
                &mut tally,
                |case: Case| {
                    let right = is_right(&case, alloc)?;
                    Ok(Verdict {
                        kind: case.op,
                        right,
                    })
                },
            )?,
            None => tally.count_cut(),
        }
    }
    tally.report(&rt)
}
