// What a call does to the memory that it is lent. Each session begins over marks, which no flag and no sample is.
#![tactic(auto)]

pub mod pieces;

ghost use Rattle.std.specs.Prelude.{◌≡◌, true, All, replicate, IfOk, vec_len};
ghost use Rattle.lent_memory.specs.Lent.{Fits, is_kept, work_value};
ghost use Rattle.lent_memory.specs.Sums.{IsSumOf};

use std::alloc::{AllocError, Global};

// What marks the memory that a new session may write.
pub const FLAG_MARK: u8 = 9;

pub const SAMPLE_MARK: f32 = 2.0;

const WORK_MARK: u8 = 1;

// How many places of each memory there are, or are lent to a call. No `session_parts::Lengths`, which has these four too: this crate
// stands below the session.
#[derive(Clone, Copy)]
pub struct Sizes {
    pub store: usize,
    pub audio: usize,
    pub img: usize,
    pub votes: usize,
}

// The memory that a session's calls are lent.
#[derive(Drop)]
pub struct Memory {
    pub store: Vec<u8>,
    pub audio: Vec<f32>,
    pub img: Vec<u8>,
    pub votes: Vec<u16>,
}

// The sums over all that a feed is lent.
#[derive(Clone, Copy, PartialEq)]
pub struct Sums {
    pub store: u64,
    pub audio: f64,
    pub img: u64,
    pub votes: u64,
}

// A sum over a memory: one changed value shows.
pub fn sum<T: Copy + Into<u64>>(memory: &[T]) -> u64
    ensures { IsSumOf T.converts memory.now result }
{
    memory
        .iter()
        .fold(0, |sum: u64, x| sum.wrapping_add((*x).into()))
}

pub fn sum_of_samples(memory: &[f32]) -> f64 {
    memory.iter().fold(0.0, |sum: f64, x| sum + f64::from(*x))
}

impl Memory {
    pub fn new(sizes: Sizes, alloc: Global) -> Result<Memory, AllocError>
        ensures { IfOk result (Fits sizes) }
    {
        Ok(Memory {
            store: vec![in alloc; 0u8; sizes.store]?,
            audio: vec![in alloc; 0.0f32; sizes.audio]?,
            img: vec![in alloc; 0u8; sizes.img]?,
            votes: vec![in alloc; 0u16; sizes.votes]?,
        })
    }

    // Whether there are so many places.
    pub fn has(&self, sizes: Sizes) -> bool
        ensures { result ≡ true → Fits sizes self.now }
    {
        sizes.store <= self.store.len()
            && sizes.audio <= self.audio.len()
            && sizes.img <= self.img.len()
            && sizes.votes <= self.votes.len()
    }

    // The sums over so many places.
    pub fn sums(&self, sizes: Sizes) -> Sums
        requires { Fits sizes self.now }
    {
        Sums {
            store: sum(&self.store[..sizes.store]),
            audio: sum_of_samples(&self.audio[..sizes.audio]),
            img: sum(&self.img[..sizes.img]),
            votes: sum(&self.votes[..sizes.votes]),
        }
    }

    // Marks what a new session may write: all but the four samples of an opening.
    pub fn mark(&mut self)
        ensures store { self.new.store.items ≡ replicate (vec_len self.old.store) 9 }
        ensures img { self.new.img.items ≡ replicate (vec_len self.old.img) 1 }
        ensures votes { self.new.votes.items ≡ replicate (vec_len self.old.votes) 1 }
    {
        self.store.fill(FLAG_MARK);
        let first = self.audio.len().min(4);
        self.audio[first..].fill(SAMPLE_MARK);
        self.img.fill(WORK_MARK);
        self.votes.fill(u16::from(WORK_MARK));
    }

    // Whether the work memory is cleared, or still marked all over.
    pub fn work_is(&self, cleared: bool) -> bool
        ensures img { result ≡ true → All (λ x. x ≡ work_value cleared) self.now.img.items }
        ensures votes { result ≡ true → All (λ x. x ≡ work_value cleared) self.now.votes.items }
    {
        let value = if cleared { 0 } else { WORK_MARK };
        self.img.iter().all(|x| *x == value) && self.votes.iter().all(|x| *x == u16::from(value))
    }
}

// Whether a piece stands in a memory from place `at` on, and a mark behind it, where there is a place.
pub fn is_kept<T: PartialEq>(memory: &[T], at: usize, piece: &[T], mark: &T) -> bool
    ensures { result ≡ is_kept T.eq memory.now at piece.now mark.now }
{
    if at > memory.len() {
        return false;
    }
    memory[at..]
        .strip_prefix(piece)
        .is_some_and(|rest| rest.first().is_none_or(|x| x == mark))
}
