// One call over lent memory: the call, and whether its answer is the Rust's.
#![tactic(auto)]

mod reading;
mod session_card;

use lent_memory::pieces::{self, Piece};
use lent_memory::{FLAG_MARK, Memory, SAMPLE_MARK, Sizes, Sums};
use limits::{Ending, Refusal};
use plain::Phase;
use replay::Case;
use session::Session;

// What stands for a session before the first is open. It takes nothing.
const UNOPENED: Session = Session {
    mode: 0,
    anchor: 0,
    capacity: 0,
    taken: 0,
    evaluations: 0,
    streak: 0,
    phase: Phase::Unfound,
};

// The session that is replayed, if one is open, and the memory that its calls are lent.
#[derive(Drop)]
pub struct Replayed {
    pub session: Option<Session>,
    pub memory: Memory,
}

// Whether the refusal recorded for a call, 0 for none, is this one.
fn is_recorded(refusal: Refusal, x: u64) -> bool {
    u64::from(refusal.number()) == x
}

// Whether the sample store is as an opening leaves it: of Robot 24 and 36 it begins with the first four samples, of any other mode it is
// as it was.
fn has_begun(mode: u8, audio: &[f32], first: &[f32], before: f64) -> bool {
    if modespec::has_parity_tone(mode) {
        audio.starts_with(first)
    } else {
        lent_memory::sum_of_samples(audio) == before
    }
}

// Whether the stores have n flags of a piece and their samples, behind what was taken before.
fn has_kept(before: Session, memory: &Memory, lent: Sizes, piece: &Piece, n: usize) -> bool {
    let taken = before.taken;
    if taken > limits::MAX_FLAGS || n > limits::MAX_FLAGS {
        return false;
    }
    let (Some(store), Some(audio)) = (
        memory.store.get(..lent.store),
        memory.audio.get(..lent.audio),
    ) else {
        return false;
    };
    let (Some(flags), Some(samples)) = (piece.flags.get(..n), piece.samples.get(..4 * n)) else {
        return false;
    };
    lent_memory::is_kept(store, taken, flags, &FLAG_MARK)
        && (!modespec::has_parity_tone(before.mode)
            || lent_memory::is_kept(audio, 4 * taken + 4, samples, &SAMPLE_MARK))
}

// Whether the memory that a refused call was lent has the sums that it had before.
fn is_unchanged(memory: &Memory, lent: Sizes, before: Option<Sums>) -> bool {
    memory.has(lent) && before == Some(memory.sums(lent))
}

impl Replayed {
    // No session is open yet.
    pub fn new(memory: Memory) -> Replayed {
        Replayed {
            session: None,
            memory,
        }
    }

    // Whether an opening is right: in mode a, with anchor b, over stores of the lengths c, and with these first samples. One that is not
    // to be refused begins a session over marked memory, whatever it answers.
    pub fn open(&mut self, case: &Case, first: &[f32]) -> bool {
        let (store, audio) = pieces::halves(case.c);
        if store > self.memory.store.len() || audio > self.memory.audio.len() {
            return false;
        }
        // any number above 15 is to be refused, and no call can be given one above 255
        let mode = u8::try_from(case.a).unwrap_or(u8::MAX);
        let store = &self.memory.store[..store];
        let audio = &mut self.memory.audio[..audio];
        let before = lent_memory::sum_of_samples(audio);
        let right = match session::open(mode, case.b, store, audio, first) {
            Ok(session) => {
                self.session = Some(session);
                case.x == 0 && has_begun(mode, audio, first, before)
            }
            Err(refusal) => {
                is_recorded(refusal, case.x) && lent_memory::sum_of_samples(audio) == before
            }
        };
        if case.x == 0 {
            self.memory.mark();
        }
        right
    }

    // Whether a feed is right: it keeps what it takes, or changes nothing where it is refused.
    pub fn feed(&mut self, case: &Case, piece: &Piece) -> bool {
        let session = self.session.unwrap_or(UNOPENED);
        let (store, audio) = pieces::halves(case.b);
        let (img, votes) = pieces::halves(case.c);
        let lent = Sizes {
            store,
            audio,
            img,
            votes,
        };
        if !self.memory.has(lent) {
            return false;
        }
        // the sums of a call that is to be refused
        let before = (case.x != 0).then(|| self.memory.sums(lent));
        let answer = session.feed(
            &mut self.memory.store[..store],
            &mut self.memory.audio[..audio],
            &mut self.memory.img[..img],
            &mut self.memory.votes[..votes],
            &piece.flags,
            &piece.samples,
        );
        match answer {
            Ok(fed) => {
                self.session = Some(fed.session);
                before.is_none()
                    && fed.taken as u64 == case.y
                    && has_kept(session, &self.memory, lent, piece, fed.taken)
            }
            Err(refusal) => {
                is_recorded(refusal, case.x) && is_unchanged(&self.memory, lent, before)
            }
        }
    }

    // Whether a read is right, and the session's card with it. A report has cleared the work memory, and nothing else writes it. A
    // record without its payload is wrong.
    pub fn read(&self, case: &Case) -> bool {
        let Some(payload) = &case.payload else {
            return false;
        };
        let session = self.session.unwrap_or(UNOPENED);
        let right = match session.read() {
            Ok(reading) => {
                case.x == 0
                    && reading::is_right(reading, case.y, payload)
                    && self.memory.work_is(case.y == Ending::Reported as u64)
            }
            Err(refusal) => is_recorded(refusal, case.x) && self.memory.work_is(false),
        };
        right && session_card::is_right(session, case.x, payload)
    }
}
