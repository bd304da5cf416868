// Why calls are refused: the first cause that applies, in the order of their numbers.
ghost use Rattle.std.specs.Prelude.{◌≡◌, ℕ};
ghost use Rattle.plain.specs.Calls.{short_samples, open_refusal, memory_refusal, sound_refusal, feed_refusal};
ghost use Rattle.session_parts.specs.Refusals.{setup, lengths};

use crate::phases;
use limits::Refusal;
use modespec::Mode;
use plain::Phase;

// How long the stores and the work memory are that a caller lends.
#[derive(Clone, Copy)]
pub struct Lengths {
    pub store: usize,
    pub audio: usize,
    pub img: usize,
    pub votes: usize,
}

// Mode and F go in one by one: the record keeps them apart, as document 01 lists `open`'s arguments.

// Whether a Robot 24 or 36 sample store is below 4F + 4.
pub fn short_samples(mode: u8, capacity: usize, audio: usize) -> bool
    ensures { result ≡ short_samples mode capacity audio }
{
    modespec::has_parity_tone(mode) && audio / 4 <= capacity
}

#[tactic(auto, unfolding(plain::specs::Calls::open_refusal))]
pub fn open_refusal(
    mode: u8,
    anchor: u64,
    capacity: usize,
    audio: usize,
    first: &[f32],
) -> Result<(), Refusal>
    ensures { result ≡ open_refusal (setup mode anchor capacity) audio first.now }
{
    Mode::try_from(mode)?;
    if anchor > limits::MAX_ANCHOR {
        return Err(Refusal::Anchor);
    }
    if capacity < phases::window(mode) + phases::picture(mode)
        || capacity > limits::MAX_FLAGS
        || short_samples(mode, capacity, audio)
    {
        return Err(Refusal::Memory);
    }
    if first.len() != 4 {
        return Err(Refusal::Length);
    }
    if limits::any_unsound(first) {
        return Err(Refusal::Sample);
    }
    Ok(())
}

// The part of a feed's refusal that the lender of the memory answers for.
#[tactic(auto, unfolding(plain::specs::Calls::memory_refusal))]
pub fn memory_refusal(mode: u8, capacity: usize, lent: Lengths) -> Result<(), Refusal>
    ensures { result ≡ memory_refusal mode capacity (lengths lent.store lent.audio lent.img lent.votes) }
{
    if lent.store != capacity
        || short_samples(mode, capacity, lent.audio)
        || lent.img < limits::IMG_BYTES
        || lent.votes < limits::VOTE_CELLS
    {
        return Err(Refusal::Memory);
    }
    Ok(())
}

// The part that the sound source answers for.
#[tactic(auto, unfolding(plain::specs::Calls::sound_refusal))]
pub fn sound_refusal(flags: &[u8], samples: &[f32]) -> Result<(), Refusal>
    ensures { result ≡ sound_refusal flags.now samples.now }
{
    if flags.len() > limits::MAX_FLAGS || samples.len() != 4 * flags.len() {
        return Err(Refusal::Length);
    }
    if !limits::all_at_most(1, flags) {
        return Err(Refusal::Flag);
    }
    if limits::any_unsound(samples) {
        return Err(Refusal::Sample);
    }
    Ok(())
}

// The refusal of a feed. No anchor changes it.
#[tactic(auto, unfolding(plain::specs::Calls::feed_refusal))]
pub fn feed_refusal(
    mode: u8,
    capacity: usize,
    phase: Phase,
    lent: Lengths,
    flags: &[u8],
    samples: &[f32],
) -> Result<(), Refusal>
    ensures { (anchor : ℕ) → result ≡ feed_refusal (setup mode anchor capacity) phase (lengths lent.store lent.audio lent.img lent.votes) flags.now samples.now }
{
    memory_refusal(mode, capacity, lent)?;
    sound_refusal(flags, samples)?;
    if phases::ended(phase) {
        return Err(Refusal::Ended);
    }
    Ok(())
}
