// The fields of a card at their places.
ghost use Rattle.std.specs.Prelude.{◌≡◌, ◌≤◌, length};
ghost use Rattle.std.proofs.lemmas.List.Edits.{sets};
ghost use Rattle.card.specs.Card.{head_bytes, count_bytes, report_bytes, card_bytes, marked, card_of};

use crate::Card;
use words::Pattern;

// The mark "SSR" as a number, the least byte first.
const MARK: u64 = 0x525353;

// Mark, version, mode and end: places 0 to 6.
pub fn put_head(version: u16, mode: u8, end: u8, out: &mut [u8])
    requires { 7 ≤ length out.old }
    ensures { out.new ≡ sets out.old 0 (head_bytes version mode end) }
{
    words::put(out, 0, 3, MARK);
    words::put(out, 3, 2, u64::from(version));
    words::put(out, 5, 1, u64::from(mode));
    words::put(out, 6, 1, u64::from(end));
}

// Taken, evaluations and start: places 7 to 30.
pub fn put_counts(card: Card, out: &mut [u8])
    requires { 31 ≤ length out.old }
    ensures { out.new ≡ sets out.old 7 (count_bytes card) }
{
    words::put(out, 7, 8, card.taken);
    words::put(out, 15, 8, card.evaluations);
    words::put(out, 23, 8, card.start);
}

// Start quality, rate, slant index, skip and image quality: places 31 to 55.
pub fn put_report(card: Card, out: &mut [u8])
    requires { 56 ≤ length out.old }
    ensures { out.new ≡ sets out.old 31 (report_bytes card) }
{
    words::put(out, 31, 4, u64::from(card.start_quality.pattern()));
    words::put(out, 35, 8, card.rate.pattern());
    words::put(out, 43, 1, u64::from(card.slant));
    words::put(out, 44, 8, words::signed_bits(card.skip));
    words::put(out, 52, 4, u64::from(card.quality.pattern()));
}

pub fn put_card(card: Card, out: &mut [u8])
    requires { length out.old ≡ 56 }
    ensures { out.new ≡ card_bytes card }
{
    put_head(1, card.mode, card.end, out);
    put_counts(card, out);
    put_report(card, out);
}

// Whether the bytes begin with the mark and this version.
#[tactic(auto, unfolding(crate::specs::Card::marked))]
pub fn is_marked(version: u16, bytes: &[u8]) -> bool
    requires { 5 ≤ length bytes.now }
    ensures { result ≡ marked version bytes.now }
{
    words::number(bytes, 0, 3) == MARK && words::number(bytes, 3, 2) == u64::from(version)
}

// The fields behind mark and version.
#[tactic(auto, unfolding(crate::specs::Card::card_of))]
pub fn card_in(bytes: &[u8]) -> Card
    requires { 56 ≤ length bytes.now }
    ensures { result ≡ card_of bytes.now }
{
    Card {
        mode: words::byte(bytes, 5),
        end: words::byte(bytes, 6),
        taken: words::word(bytes, 7),
        evaluations: words::word(bytes, 15),
        start: words::word(bytes, 23),
        start_quality: f32::from_pattern(words::half_word(bytes, 31)),
        rate: f64::from_pattern(words::word(bytes, 35)),
        slant: words::byte(bytes, 43),
        skip: words::signed_of(words::word(bytes, 44)),
        quality: f32::from_pattern(words::half_word(bytes, 52)),
    }
}
