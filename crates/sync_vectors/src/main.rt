// Replays the Rust's answers to `find_sync`. The file `vectors` has long records, operation 0: mode a, starting rate b (its
// pattern), and the flags' run lengths as payload; the rate x, the slant y (all ones for none), the skip z and the quality c.
#![tactic(auto)]

use replay::tally::Verdict;
use replay::{Case, Limit, Longer, Pattern, payload};
use std::alloc::{AllocError, Global};
use std::io;
use sync::SyncResult;

// No record has more bytes behind its words.
const LIMIT: Limit = Limit {
    most: 262144,
    longer: Longer::Cut,
};

const MOST_FLAGS: usize = 1000000;

fn result_is_right(found: SyncResult, case: &Case) -> bool {
    found.adjusted_rate_hz.has_pattern(case.x)
        && replay::is_recorded(found.slant_deg, case.y)
        && replay::signed_bits(found.skip_samples) == case.z
        && found.sync_quality.has_pattern(replay::low_half(case.c))
}

fn flags_of(payload: &[u8], alloc: Global) -> Result<Vec<u8>, AllocError> {
    let runs = payload::half_word_list(payload, alloc)?;
    payload::flag_list(&runs, MOST_FLAGS, alloc)
}

// Whether a record's answer is right. One without its payload is wrong.
fn is_right(
    case: &Case,
    img: &mut [u8],
    votes: &mut [u16],
    alloc: Global,
) -> Result<bool, AllocError> {
    let (Some(payload), Ok(mode)) = (&case.payload, u8::try_from(case.a)) else {
        return Ok(false);
    };
    let flags = flags_of(payload, alloc)?;
    let answer = sync::find_sync(&flags, f64::from_pattern(case.b), mode, img, votes);
    Ok(answer.is_ok_and(|found| result_is_right(found, case)))
}

// The work memory starts with anything.
fn main(rt: HostRuntime) -> io::Result<()> {
    let alloc = rt.alloc();
    let mut img = vec![in alloc; 7u8; limits::IMG_BYTES]?;
    let mut votes = vec![in alloc; 7u16; limits::VOTE_CELLS]?;
    let kinds = ["no_slant", "slant"];
    replay::run_limited(&rt, alloc, &kinds, LIMIT, |case: Case| {
        Ok(Verdict {
            kind: u64::from(replay::optional(case.y).is_some()),
            right: is_right(&case, &mut img, &mut votes, alloc)?,
        })
    })
}
