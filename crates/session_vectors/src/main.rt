// Replays whole sessions, call by call, from the file `vectors` of long records. Each answer is compared with the Rust's, and
// the memory around it: what is taken is in the stores, a refused call changes nothing, and the work memory is as it was until
// a report clears it.
// Operation 0, open: mode a, anchor b, lengths c of the stores, refusal x, y samples in the payload.
// Operation 1, feed: lengths a of the piece, b of the stores, c of the work memories, refusal x, y flags taken. The payload has the
// flags, how many of them are overwritten, their places and values, and the pieces of the samples.
// Operation 2, read: refusal x, end y, and nine words in the payload. Behind them stand the 56 bytes of the session's card.
#![tactic(auto)]

use lent_memory::pieces::Piece;
use lent_memory::{Memory, Sizes};
use replay::tally::Verdict;
use replay::{Case, Limit, Longer, payload};
use session_calls::Replayed;
use std::alloc::{AllocError, Global};
use std::io;

// No record has more bytes behind its words.
const LIMIT: Limit = Limit {
    most: 16384,
    longer: Longer::Unread,
};

// No opening has more first samples.
const MOST_FIRST: usize = 8;

// The most that a record lends.
const MOST: Sizes = Sizes {
    store: 773825,
    audio: 452065,
    img: limits::IMG_BYTES,
    votes: limits::VOTE_CELLS,
};

// The calls of a session that is replayed, and what their lists are allocated with.
#[derive(Drop)]
struct Calls {
    replayed: Replayed,
    alloc: Global,
}

impl Calls {
    fn open_is_right(&mut self, case: &Case, payload: &[u8]) -> bool {
        let mut first = [0.0f32; MOST_FIRST];
        let n = payload::half_words(payload, &mut first);
        n as u64 == case.y && self.replayed.open(case, &first[..n])
    }

    fn feed_is_right(&mut self, case: &Case, payload: &[u8]) -> Result<bool, AllocError> {
        match Piece::read(case.a, payload, self.alloc)? {
            Some(piece) => Ok(self.replayed.feed(case, &piece)),
            None => Ok(false),
        }
    }

    // Whether the answer of a call is right. An operation that there is not is wrong, and so is a record without its payload.
    fn is_right(&mut self, case: &Case) -> Result<bool, AllocError> {
        let Some(payload) = &case.payload else {
            return Ok(false);
        };
        match case.op {
            0 => Ok(self.open_is_right(case, payload)),
            1 => self.feed_is_right(case, payload),
            2 => Ok(self.replayed.read(case)),
            _ => Ok(false),
        }
    }
}

fn main(rt: HostRuntime) -> io::Result<()> {
    let alloc = rt.alloc();
    let replayed = Replayed::new(Memory::new(MOST, alloc)?);
    let mut calls = Calls { replayed, alloc };
    replay::run_limited(&rt, alloc, &["open", "feed", "read"], LIMIT, |case: Case| {
        Ok(Verdict {
            kind: case.op,
            right: calls.is_right(&case)?,
        })
    })
}
