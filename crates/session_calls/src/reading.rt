// What a read gives, against the nine words of a record's payload.
use limits::Ending;
use plain::{End, Reading};
use replay::Pattern;

// The nine words, 0 for those that a payload does not hold.
fn words_of(payload: &[u8]) -> [u64; 9] {
    let mut words = [0; 9];
    let (eights, _) = payload.as_chunks();
    for (word, bytes) in words.iter_mut().zip(eights) {
        *word = u64::from_le_bytes(*bytes);
    }
    words
}

fn float_is(x: f32, word: u64) -> bool {
    x.has_pattern(replay::low_half(word))
}

// Whether words are 0, as they are of what an end lacks.
fn are_none(words: &[u64]) -> bool {
    words.iter().all(|word| *word == 0)
}

fn end_is(end: End, y: u64, words: &[u64; 9]) -> bool {
    match end {
        End::Reported {
            start,
            windows,
            start_quality,
            rate,
            slant,
            skip,
            quality,
        } => {
            y == Ending::Reported as u64
                && start == words[2]
                && u64::from(windows) == words[3]
                && float_is(start_quality, words[4])
                && rate.has_pattern(words[5])
                && replay::is_recorded(slant, words[6])
                && replay::signed_bits(skip) == words[7]
                && float_is(quality, words[8])
        }
        End::Unfound => y == Ending::Unfound as u64 && are_none(&words[2..]),
        End::CutShort {
            start,
            windows,
            start_quality,
        } => {
            y == Ending::CutShort as u64
                && start == words[2]
                && u64::from(windows) == words[3]
                && float_is(start_quality, words[4])
                && are_none(&words[5..])
        }
    }
}

// Whether a reading is the one that the payload has.
pub fn is_right(reading: Reading, y: u64, payload: &[u8]) -> bool {
    let words = words_of(payload);
    reading.taken as u64 == words[0]
        && reading.evaluations as u64 == words[1]
        && end_is(reading.end, y, &words)
}
