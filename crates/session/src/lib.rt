// The session: a record by value over stores and work memory that the caller lends. Each method takes it and hands the advanced record back.
#![tactic(auto)]

ghost use Rattle.std.specs.Prelude.{◌≡◌, true, false, ◌+◌, ◌*◌, ◌≤◌, ◌<◌, length, take, drop};
ghost use Rattle.modespec.specs.Sizes.{robot};
ghost use Rattle.plain.specs.declared.Phase.TheVariants as Phase;
ghost use Rattle.plain.specs.Plain.{ended_phase};
ghost use Rattle.session.specs.Hold.{Sane, OpenMeets, FeedMeets, ReadMeets};
ghost use Rattle.session.specs.Steps.{Gap, Judged, Finished, Closed, Turned, SaneTest, Ran};

use limits::Refusal;
use modespec::Mode;
use plain::{End, Phase, Reading};
use session_parts::refusals::Lengths;
use session_parts::{phases, refusals, stores};

// The mode stays a number: a record from the C interface may hold any, and comes back as it was.
#[derive(Clone, Copy)]
pub struct Session {
    pub mode: u8,
    pub anchor: u64,
    // F, the length of the flag store
    pub capacity: usize,
    pub taken: usize,
    pub evaluations: usize,
    pub streak: u64,
    pub phase: Phase,
}

// How many flags a feed took, and the session to go on with.
#[derive(Clone, Copy)]
pub struct Fed {
    pub taken: usize,
    pub session: Session,
}

// Flags with their samples, four to a flag.
#[derive(Clone, Copy)]
struct Piece<'a> {
    flags: &'a [u8],
    samples: &'a [f32],
    ghost paired: { length samples.now ≡ 4 * length flags.now },
}

impl<'a> Piece<'a> {
    // The first flags with their samples, and those that are left.
    fn split_at(self, mid: usize) -> (Piece<'a>, Piece<'a>)
        requires { mid ≤ length self.flags.now }
        ensures front { (result.0.flags.now ≡ take mid self.entry.flags.now) × (result.0.samples.now ≡ take (4 * mid) self.entry.samples.now) }
        ensures back { (result.1.flags.now ≡ drop mid self.entry.flags.now) × (result.1.samples.now ≡ drop (4 * mid) self.entry.samples.now) }
    {
        let (flags, flags_left) = self.flags.split_at(mid);
        let (samples, samples_left) = self.samples.split_at(4 * mid);
        (
            Piece { flags, samples },
            Piece {
                flags: flags_left,
                samples: samples_left,
            },
        )
    }
}

// A session at its opening. A Robot 24 or 36 sample store gets the first four samples, and no other buffer is written. Anchor, first and
// mode stand one by one, as document 01 lists them.
pub fn open(
    mode: u8,
    anchor: u64,
    store: &[u8],
    audio: &mut [f32],
    first: &[f32],
) -> Result<Session, Refusal>
    ensures { OpenMeets mode anchor store.now audio.old first.now result audio.new }
{
    let capacity = store.len();
    refusals::open_refusal(mode, anchor, capacity, audio.len(), first)?;
    stores::keep_samples(mode, 0, audio, first);
    Ok(Session {
        mode,
        anchor,
        capacity,
        taken: 0,
        evaluations: 0,
        streak: 0,
        phase: Phase::Searching,
    })
}

impl Session {
    // How many flags may be taken at once: up to the next event, at least 1.
    fn gap(self) -> usize
        requires taken_lt_capacity { self.taken < self.capacity }
        requires capacity_bound { self.capacity ≤ 16777216 }
        ensures { Gap self result }
    {
        let room = self.capacity - self.taken;
        match self.phase {
            Phase::Searching => phases::due_in(self.mode, self.taken).min(room),
            Phase::Collecting(start) => {
                let full = phases::full(self.mode, start);
                if self.taken < full {
                    (full - self.taken).min(room)
                } else {
                    room
                }
            }
            Phase::Reported(_, _) | Phase::Unfound | Phase::CutShort(_) => room,
        }
    }

    // The evaluation of a searching session, where one is due. Bounds on one number stand as clauses, since a struct of one number
    // would be opened at each sum.
    fn evaluate(self, store: &[u8], audio: &[f32]) -> Session
        requires mode_bound { self.mode ≤ 15 }
        requires taken_in_bounds { (self.taken ≤ length store.now) × (self.taken ≤ 16777216) }
        requires samples_known { robot self.mode ≡ true → 4 * self.taken + 4 ≤ length audio.now }
        requires evaluations_lt_taken { (self.evaluations < self.taken) × (self.streak ≤ self.evaluations) }
        ensures { Judged self store.now audio.now result }
    {
        let Phase::Searching = self.phase else {
            return self;
        };
        let window = phases::window(self.mode);
        if self.taken < window {
            return self;
        }
        let first = self.taken - window;
        if first % 64 != 0 {
            return self;
        }
        let known = stores::known(self.mode, self.taken);
        let made = sync_start::evaluate(
            self.mode,
            first / 64,
            &store[..self.taken],
            &audio[..known],
            self.streak,
        );
        Session {
            evaluations: self.evaluations + 1,
            streak: made.streak,
            phase: phases::found(made.start, made.quality),
            ..self
        }
    }

    // The report of a collecting session, where it is due.
    fn finish(self, store: &[u8], img: &mut [u8], votes: &mut [u16]) -> Session
        requires taken_in_bounds { self.taken ≤ length store.now }
        requires work_memory_fits { (441000 ≤ length img.old) × (144000 ≤ length votes.old) }
        ensures { Finished self store.now img.old votes.old result img.new votes.new }
    {
        let Phase::Collecting(start) = self.phase else {
            return self;
        };
        let full = phases::full(self.mode, start);
        if self.taken != full {
            return self;
        }
        let first = phases::first_flag(start);
        let spec = modespec::for_mode(self.mode);
        let report = sync::find_sync_in(
            &store[first..full],
            limits::WORKING_SAMPLE_RATE_HZ,
            spec,
            img,
            votes,
        );
        Session {
            phase: Phase::Reported(start, report),
            ..self
        }
    }

    // The end at the store's last place.
    fn close(self) -> Session
        ensures { Closed self result }
    {
        if self.taken != self.capacity {
            return self;
        }
        Session {
            phase: phases::end_of(self.phase),
            ..self
        }
    }

    // A chunk that ends at the next event or before it: stored, then asked in order for evaluation, report and end.
    // The four buffers stay apart: the C interface lends them so, and each step lends on only those that it uses.
    // A struct of `img` and `votes` was tried: what its two lists hold after a call did not prove.
    fn turn(
        self,
        store: &mut [u8],
        audio: &mut [f32],
        img: &mut [u8],
        votes: &mut [u16],
        piece: Piece,
    ) -> Session
        requires sane { Sane self }
        requires live { ended_phase self.phase ≡ false }
        requires store_is_capacity { self.capacity ≡ length store.old }
        requires samples_fit { robot self.mode ≡ true → 4 * self.capacity + 4 ≤ length audio.old }
        requires work_memory_fits { (441000 ≤ length img.old) × (144000 ≤ length votes.old) }
        requires piece_fits { (0 < length piece.flags.now) × (self.taken + length piece.flags.now ≤ length store.old) }
        ensures { Turned self store.old audio.old img.old votes.old piece.entry.flags.now piece.entry.samples.now result store.new audio.new img.new votes.new }
    {
        let taken = self.taken + piece.flags.len();
        stores::write(&mut store[self.taken..], piece.flags);
        stores::keep_samples(self.mode, 4 * self.taken + 4, audio, piece.samples);
        let added = Session { taken, ..self };
        let judged = added.evaluate(store, audio);
        let finished = judged.finish(store, img, votes);
        finished.close()
    }

    // Whether the record keeps the bounds that every session keeps.
    fn is_sane(self) -> bool
        ensures { SaneTest self result }
    {
        Mode::try_from(self.mode).is_ok()
            && self.anchor <= limits::MAX_ANCHOR
            && self.taken < self.capacity
            && self.capacity <= limits::MAX_FLAGS
            && self.evaluations <= self.taken
            && self.streak <= self.evaluations as u64
            && phases::start(self.phase).is_none_or(|start| start.position <= limits::MAX_ANCHOR)
    }

    // The chunks of a piece, until the piece or the session ends.
    fn run(
        self,
        store: &mut [u8],
        audio: &mut [f32],
        img: &mut [u8],
        votes: &mut [u16],
        piece: Piece,
    ) -> Fed
        requires sane { Sane self }
        requires live { ended_phase self.phase ≡ false }
        requires store_is_capacity { self.capacity ≡ length store.old }
        requires samples_fit { robot self.mode ≡ true → 4 * self.capacity + 4 ≤ length audio.old }
        requires work_memory_fits { (441000 ≤ length img.old) × (144000 ≤ length votes.old) }
        requires piece_bounded { length piece.flags.now ≤ 16777216 }
        ensures { Ran self store.old audio.old img.old votes.old piece.entry.flags.now piece.entry.samples.now result.taken result.session store.new audio.new img.new votes.new }
    {
        let mut session = self;
        let mut left = piece;
        // No `for`: a step is as long as the way to the next event.
        while !left.flags.is_empty() && !phases::ended(session.phase) {
            let (chunk, rest) = left.split_at(session.gap().min(left.flags.len()));
            session = session.turn(store, audio, img, votes, chunk);
            left = rest;
        }
        Fed {
            taken: piece.flags.len() - left.flags.len(),
            session,
        }
    }

    // Takes flags with their samples until the piece or the session ends, and says how many.
    pub fn feed(
        self,
        store: &mut [u8],
        audio: &mut [f32],
        img: &mut [u8],
        votes: &mut [u16],
        flags: &[u8],
        samples: &[f32],
    ) -> Result<Fed, Refusal>
        ensures { FeedMeets self store.old audio.old img.old votes.old flags.now samples.now result store.new audio.new img.new votes.new }
    {
        refusals::feed_refusal(
            self.mode,
            self.capacity,
            self.phase,
            Lengths {
                store: store.len(),
                audio: audio.len(),
                img: img.len(),
                votes: votes.len(),
            },
            flags,
            samples,
        )?;
        if !self.is_sane() {
            // No session handed this record back.
            return Ok(Fed {
                taken: 0,
                session: self,
            });
        }
        Ok(self.run(store, audio, img, votes, Piece { flags, samples }))
    }

    // How the session ended.
    pub fn read(self) -> Result<Reading, Refusal>
        ensures { ReadMeets self result }
    {
        let end = match self.phase {
            Phase::Searching | Phase::Collecting(_) => return Err(Refusal::NotEnded),
            Phase::Reported(start, report) => phases::reported(self.anchor, start, report),
            Phase::Unfound => End::Unfound,
            Phase::CutShort(start) => phases::cut_short(self.anchor, start),
        };
        Ok(Reading {
            end,
            taken: self.taken,
            evaluations: self.evaluations,
        })
    }
}
