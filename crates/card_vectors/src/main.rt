// Replays ledger cards. The file `vectors` has long records. A card's fields are ten words: mode, end, taken, evaluations, start,
// start quality, rate, slant index, skip and image quality, floats as their patterns.
// Operation 0, read: the card is the first a bytes of the payload, x its refusal, 0 for none. Behind a card that is not refused
// stand its fields.
// Operation 1, one byte changed: the payload is a card and 256 refusals, that of each value of the card's byte at place a.
// Operation 2, write: the payload has the fields, a is the buffer's length, x the refusal, 0 for none. Behind the fields of a card
// that is not refused stand its bytes.
#![tactic(auto)]

ghost use Rattle.std.specs.Prelude.{◌≡◌, length};

use card::Card;
use replay::tally::Verdict;
use replay::{Case, Limit, Longer, Pattern};
use std::io;

// No record has more bytes behind its words.
const LIMIT: Limit = Limit {
    most: 512,
    longer: Longer::Cut,
};

// The bytes of a card's fields.
const FIELD_BYTES: usize = 80;

// What stands in a buffer before a card is written.
const MARK: u8 = 9;

// ---- fields

fn card_of(fields: &[u8]) -> Card
    requires { length fields.now ≡ 80 }
{
    Card {
        mode: words::byte(fields, 0),
        end: words::byte(fields, 8),
        taken: words::word(fields, 16),
        evaluations: words::word(fields, 24),
        start: words::word(fields, 32),
        start_quality: f32::from_pattern(words::half_word(fields, 40)),
        rate: f64::from_pattern(words::word(fields, 48)),
        slant: words::byte(fields, 56),
        skip: words::signed_of(words::word(fields, 64)),
        quality: f32::from_pattern(words::half_word(fields, 72)),
    }
}

// Whether these are the card's fields, each to the bit: `==` of cards would take -0.0 for 0.0.
fn has_fields(card: Card, fields: &[u8]) -> bool {
    fields.len() == FIELD_BYTES
        && u64::from(card.mode) == words::word(fields, 0)
        && u64::from(card.end) == words::word(fields, 8)
        && card.taken == words::word(fields, 16)
        && card.evaluations == words::word(fields, 24)
        && card.start == words::word(fields, 32)
        && card.start_quality.has_pattern(words::half_word(fields, 40))
        && card.rate.has_pattern(words::word(fields, 48))
        && u64::from(card.slant) == words::word(fields, 56)
        && words::signed_bits(card.skip) == words::word(fields, 64)
        && card.quality.has_pattern(words::half_word(fields, 72))
}

// ---- read

// Whether bytes are refused with x, or for 0 are read as a card that writes back as the same bytes.
fn refusal_is_right(bytes: &[u8], x: u64) -> bool {
    match card::read_card(bytes) {
        Ok(card) => x == 0 && card::is_written_as(card, bytes),
        Err(refusal) => u64::from(refusal.number()) == x,
    }
}

fn fields_are_right(bytes: &[u8], fields: &[u8]) -> bool {
    match card::read_card(bytes) {
        Ok(card) => has_fields(card, fields),
        Err(_) => fields.is_empty(),
    }
}

fn read_is_right(case: &Case, payload: &[u8]) -> bool {
    let Some((bytes, fields)) = payload.split_at_checked(case.a as usize) else {
        return false;
    };
    refusal_is_right(bytes, case.x) && fields_are_right(bytes, fields)
}

// The same of each value of the payload's byte at place a: a place behind the card is that of a refusal, and one behind the refusals
// changes nothing.
fn changes_are_right(case: &Case, payload: &mut [u8]) -> bool {
    let Some(n) = payload.len().checked_sub(256) else {
        return false;
    };
    let place = case.a as usize;
    for value in 0..=u8::MAX {
        if let Some(byte) = payload.get_mut(place) {
            *byte = value;
        }
        let (card, refusals) = payload.split_at(n);
        if !refusal_is_right(card, u64::from(refusals[usize::from(value)])) {
            return false;
        }
    }
    true
}

// ---- write

// Whether a card is written into the first n places of a marked memory, or refused with x and nothing written.
fn write_is_right(case: &Case, payload: &[u8]) -> bool {
    let Some((fields, bytes)) = payload.split_at_checked(FIELD_BYTES) else {
        return false;
    };
    if case.x == 0 && bytes.len() != card::CARD_BYTES {
        return false;
    }
    // an array: its length is fixed, and longer than a card's
    let mut out = [MARK; 64];
    let Some(buffer) = out.get_mut(..case.a as usize) else {
        return false;
    };
    let number = limits::number_or_zero(card::write_card(card_of(fields), buffer));
    u64::from(number) == case.x && is_marked_behind(&out, bytes)
}

// Whether a memory has these bytes at its front, and marks behind them.
fn is_marked_behind(memory: &[u8], bytes: &[u8]) -> bool {
    memory
        .strip_prefix(bytes)
        .is_some_and(|rest| rest.iter().all(|x| *x == MARK))
}

// ---- records

// Whether a record's answer is right. One without its payload is wrong.
fn is_right(case: &mut Case) -> bool {
    let Some(mut payload) = case.payload.take() else {
        return false;
    };
    match case.op {
        0 => read_is_right(case, &payload),
        1 => changes_are_right(case, &mut payload),
        2 => write_is_right(case, &payload),
        _ => false,
    }
}

// What a record is counted as, by its operation and its refusal: the place in the list of names, of which an enum would be a copy.
fn kind(case: &Case) -> u64 {
    match (case.op, case.x) {
        (0, 0) => 0,
        (0, 12) => 1,
        (0, 13) => 2,
        (0, _) => 3,
        (1, _) => 4,
        (_, 0) => 5,
        (_, 12) => 6,
        _ => 7,
    }
}

fn main(rt: HostRuntime) -> io::Result<()> {
    let kinds = [
        "read",
        "read_refused_12",
        "read_refused_13",
        "read_refused_14",
        "byte_changed",
        "write",
        "write_refused_12",
        "write_refused_14",
    ];
    replay::run_limited(&rt, rt.alloc(), &kinds, LIMIT, |mut case: Case| {
        let kind = kind(&case);
        let right = is_right(&mut case);
        Ok(Verdict { kind, right })
    })
}
