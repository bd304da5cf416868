// The stores: what is taken is written at the front of the tail that is lent.
ghost use Rattle.std.specs.Prelude.{◌≡◌, ◌+◌, ◌*◌, ◌≤◌, true, ◌++◌, length, drop, if◌then◌else◌};
ghost use Rattle.modespec.specs.Sizes.{robot};
ghost use Rattle.session_parts.specs.Stores.{kept_at};

// Writes a piece at the front of a tail, of flags or of samples. By number: `copy_from_slice` would have a host's linker look for memmove too.
pub fn write<T: Copy>(tail: &mut [T], piece: &[T])
    requires { length piece.now ≤ length tail.old }
    ensures { tail.new ≡ piece.now ++ drop (length piece.now) tail.old }
{
    for (i, x) in piece.iter().enumerate() {
        tail[i] = *x;
    }
}

// The samples taken, from a place of the sample store on. Only Robot 24 and 36 keep them.
pub fn keep_samples(mode: u8, at: usize, audio: &mut [f32], piece: &[f32])
    requires { robot mode ≡ true → at + length piece.now ≤ length audio.old }
    ensures { audio.new ≡ kept_at mode at piece.now (length piece.now) audio.old }
{
    if modespec::has_parity_tone(mode) {
        write(&mut audio[at..], piece);
    }
}

// How many samples of the store an evaluation is lent. The bound on one number keeps `4 * taken + 4` within a word.
pub fn known(mode: u8, taken: usize) -> usize
    requires { taken ≤ 16777216 }
    ensures { result ≡ (if robot mode then 4 * taken + 4 else 0) }
{
    if modespec::has_parity_tone(mode) {
        4 * taken + 4
    } else {
        0
    }
}
