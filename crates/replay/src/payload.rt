// The lists of a long record's payload, in half words.
ghost use Rattle.std.specs.Prelude.{◌≡◌, ◌-◌, ◌/◌, ◌≤◌, ◌++◌, ℕ, min, length, IfOk, OnOk, vec_len, map, drop, replicate};
ghost use Rattle.std.specs.Float.Ieee as Ieee;
ghost use Rattle.std.specs.Float.{binary32};
ghost use Rattle.words.specs.Words.{half_word_at};
ghost use Rattle.replay.specs.Each.{each};
ghost use Rattle.replay.specs.Flags.{flags_within};
ghost use Rattle.replay.specs.Taking.{first_or_zero, all_or_none};

use std::alloc::{AllocError, Global};
use words::Pattern;

// What a half word stands for: itself, or the `f32` whose pattern it is.
pub trait HalfWord: Copy {
    ghost of: { ℕ → Self };

    fn from_half_word(bits: u32) -> Self
        ensures { result ≡ of bits };
}

impl HalfWord for u32 {
    ghost of = { λ bits. bits };

    fn from_half_word(bits: u32) -> u32 {
        bits
    }
}

impl HalfWord for f32 {
    ghost of = { Ieee.of_bits binary32 };

    fn from_half_word(bits: u32) -> f32 {
        f32::from_pattern(bits)
    }
}

// Puts what the half words of `bytes` stand for into `out`, as many as both have, and answers how many. It can't fail, as a list can,
// so it stays beside `half_word_list`.
pub fn half_words<T: HalfWord>(bytes: &[u8], out: &mut [T]) -> usize
    ensures value { result ≡ min (length bytes.now / 4) (length out.old) }
    ensures out_after { out.new ≡ each (λ k. T.of (half_word_at bytes.now k)) result ++ drop result out.old }
{
    let n = (bytes.len() / 4).min(out.len());
    for (k, place) in out[..n].iter_mut().enumerate() {
        *place = T::from_half_word(words::half_word(bytes, 4 * k));
    }
    n
}

// The half words of a payload, as a list.
pub fn half_word_list(bytes: &[u8], alloc: Global) -> Result<Vec<u32>, AllocError>
    ensures { IfOk result (λ v. v.items ≡ each (half_word_at bytes.now) (length bytes.now / 4)) }
{
    let mut list = vec![in alloc; 0u32; bytes.len() / 4]?;
    half_words(bytes, &mut list);
    Ok(list)
}

// Half words as a list of `f32` values.
pub fn float_list(patterns: &[u32], alloc: Global) -> Result<Vec<f32>, AllocError>
    ensures { IfOk result (λ v. v.items ≡ map (Ieee.of_bits binary32) patterns.now) }
{
    patterns
        .iter()
        .map(|bits| f32::from_pattern(*bits))
        .collect(alloc)
}

// Puts `value` on the list so many times, or as often as the list stays within `most`.
pub fn repeat<T: Copy>(
    list: &mut Vec<T>,
    value: T,
    times: u32,
    most: usize,
) -> Result<(), AllocError>
    requires { vec_len list.old ≤ most }
    ensures within { vec_len list.new ≤ most }
    ensures items { OnOk result (list.new.items ≡ list.old.items ++ replicate (min (most - vec_len list.old) times) value) }
{
    let n = list.len();
    list.resize(n + (most - n).min(times as usize), value)
}

// Puts flags into `out` from their run lengths, half words, of which the first counts zeros, the next ones, and so on. Answers how
// many flags there are, at most as many as `out` has places. It can't fail, as a list can, so it stays beside `flag_list`.
pub fn flags(runs: &[u8], out: &mut [u8]) -> usize
    ensures { result ≤ length out.old }
{
    let mut at = 0;
    let (runs, _) = runs.as_chunks();
    for (i, run) in runs.iter().enumerate() {
        let run = u32::from_le_bytes(*run) as usize;
        let end = at + run.min(out.len() - at);
        out[at..end].fill((i % 2) as u8);
        at = end;
    }
    at
}

// The same as a list, from half words: at most so many flags.
#[tactic(auto, using(crate::proofs::Runs::no_flags, crate::proofs::Runs::flags_more))]
pub fn flag_list(runs: &[u32], most: usize, alloc: Global) -> Result<Vec<u8>, AllocError>
    ensures within { IfOk result (λ v. vec_len v ≤ most) }
    ensures items { IfOk result (λ v. v.items ≡ flags_within most runs.now) }
{
    let mut flags = Vec::new(alloc);
    for (i, run) in runs.iter().enumerate() {
        repeat(&mut flags, (i % 2) as u8, *run, most)?;
    }
    Ok(flags)
}

// A payload that is read from the front. What it does not hold reads as 0, or as no numbers.
#[derive(Clone, Copy)]
pub struct Payload<'a> {
    pub rest: &'a [u32],
}

impl<'a> Payload<'a> {
    pub fn new(half_words: &'a [u32]) -> Payload<'a>
        ensures { result.rest.now ≡ half_words.now }
    {
        Payload { rest: half_words }
    }

    // The next number.
    pub fn number(&mut self) -> u32
        ensures value { result ≡ first_or_zero self.old.rest.now }
        ensures rest { self.new.rest.now ≡ drop 1 self.old.rest.now }
    {
        match self.rest.split_first() {
            Some((first, rest)) => {
                self.rest = rest;
                *first
            }
            None => 0,
        }
    }

    // The next n numbers, none unless all are there.
    pub fn numbers(&mut self, n: usize) -> &'a [u32]
        ensures value { result.now ≡ all_or_none n self.old.rest.now }
        ensures rest { self.new.rest.now ≡ drop n self.old.rest.now }
    {
        if n > self.rest.len() {
            self.rest = &[];
            return &[];
        }
        let (numbers, rest) = self.rest.split_at(n);
        self.rest = rest;
        numbers
    }

    // Flags: how many runs there are, and the runs.
    pub fn flags(&mut self, most: usize, alloc: Global) -> Result<Vec<u8>, AllocError>
        ensures within { IfOk result (λ v. vec_len v ≤ most) }
        ensures items { IfOk result (λ v. v.items ≡ flags_within most (all_or_none (first_or_zero self.old.rest.now) (drop 1 self.old.rest.now))) }
        ensures rest { self.new.rest.now ≡ drop (first_or_zero self.old.rest.now) (drop 1 self.old.rest.now) }
    {
        let n = self.number() as usize;
        flag_list(self.numbers(n), most, alloc)
    }

    // Puts the pieces of samples, which are all that is left, into `out`: of each the place of its first value, how many there are, and these.
    pub fn samples(self, out: &mut [f32]) {
        let mut pieces = self;
        // a `while`, since each piece says where the next begins
        while !pieces.rest.is_empty() {
            let first = pieces.number() as usize;
            let n = pieces.number() as usize;
            let values = pieces.numbers(n);
            let from = first.min(out.len());
            for (sample, bits) in out[from..].iter_mut().zip(values.iter()) {
                *sample = f32::from_pattern(*bits);
            }
        }
    }
}

#[cfg(test)]
mod tests {
    use super::{Payload, flag_list, flags, float_list, half_word_list, half_words, repeat};
    use std::test::Fail;

    #[test]
    fn lists_are_made(rt: HostRuntime) -> Result<(), Fail> {
        let numbers = half_word_list(&[1, 0, 0, 0, 2, 1, 0, 0, 9], rt.alloc())?;
        assert_eq!(rt; numbers.as_slice(), [1, 258].as_slice());

        let values = float_list(&[0x3f800000, 0xc0200000], rt.alloc())?;
        assert_eq!(rt; values.as_slice(), [1.0, -2.5].as_slice());

        let mut list = Vec::new(rt.alloc());
        repeat(&mut list, 7u8, 2, 4)?;
        repeat(&mut list, 8, 3, 4)?;
        assert_eq!(rt; list.as_slice(), [7, 7, 8, 8].as_slice());

        let cut = flag_list(&[1, 2, 3], 5, rt.alloc())?;
        assert_eq!(rt; cut.as_slice(), [0, 1, 1, 0, 0].as_slice());
        Ok(())
    }

    #[test]
    fn lent_lists_are_filled(rt: HostRuntime) -> Result<(), Fail> {
        let bytes = [0, 0, 0x80, 0x3f, 2, 1, 0, 0, 9];
        let mut numbers = [7u32; 3];
        assert_eq!(rt; half_words(&bytes, &mut numbers), 2);
        assert_eq!(rt; numbers, [0x3f800000, 258, 7]);
        let mut values = [0f32; 1];
        assert_eq!(rt; half_words(&bytes, &mut values), 1);
        assert_eq!(rt; values, [1.0]);

        let mut cut = [9; 4];
        assert_eq!(rt; flags(&[1, 0, 0, 0, 2, 0, 0, 0], &mut cut), 3);
        assert_eq!(rt; cut, [0, 1, 1, 9]);
        Ok(())
    }

    #[test]
    fn payload_is_read_from_the_front(rt: HostRuntime) -> Result<(), Fail> {
        // two runs of flags; then the samples 1 and -2.5 from place 1 on, 0.5 at place 3
        let mut payload = Payload::new(&[2, 1, 2, 1, 2, 0x3f800000, 0xc0200000, 3, 1, 0x3f000000]);
        let flags = payload.flags(9, rt.alloc())?;
        assert_eq!(rt; flags.as_slice(), [0, 1, 1].as_slice());
        let mut samples = [0.0; 5];
        payload.samples(&mut samples);
        assert_eq!(rt; samples.as_slice(), [0.0, 1.0, -2.5, 0.5, 0.0].as_slice());
        Ok(())
    }
}
