// The ledger card: an ended session as 56 bytes.
#![tactic(auto)]

mod check;
mod fields;

ghost use Rattle.std.specs.Prelude.{◌≡◌, length};
ghost use Rattle.card.specs.Card.{write_answer, buffer_after, read_answer, written_as};

use limits::Refusal;

// The length of a card.
pub const CARD_BYTES: usize = 56;

// A slant's angle is one of 240, and its index is below this.
pub const ANGLES: u8 = 240;

// The sign of no slant in place of an index.
pub const NO_SLANT: u8 = 255;

// What a card holds. `end` is the number of an ending, and `slant` the index of the slant's angle, or `NO_SLANT`. Both are numbers, since a host
// may hand in any byte, and the writer refuses a wrong one.
#[derive(Clone, Copy)]
pub struct Card {
    pub mode: u8,
    pub end: u8,
    pub taken: u64,
    pub evaluations: u64,
    pub start: u64,
    pub start_quality: f32,
    pub rate: f64,
    pub slant: u8,
    pub skip: i64,
    pub quality: f32,
}

// Writes a card into a buffer of 56 bytes.
#[tactic(auto, unfolding(crate::specs::Card::write_answer, crate::specs::Card::buffer_after))]
pub fn write_card(card: Card, out: &mut [u8]) -> Result<(), Refusal>
    ensures value { result ≡ write_answer card (length out.old) }
    ensures out_after { out.new ≡ buffer_after card out.old }
{
    if out.len() != CARD_BYTES {
        return Err(Refusal::CardLength);
    }
    if card.is_wrong() {
        return Err(Refusal::CardField);
    }
    fields::put_card(card, out);
    Ok(())
}

// The card that 56 bytes hold.
#[tactic(auto, unfolding(crate::specs::Card::read_answer, crate::specs::Card::read_refusal))]
pub fn read_card(bytes: &[u8]) -> Result<Card, Refusal>
    ensures { result ≡ read_answer bytes.now }
{
    if bytes.len() != CARD_BYTES {
        return Err(Refusal::CardLength);
    }
    if !fields::is_marked(1, bytes) {
        return Err(Refusal::CardMark);
    }
    let card = fields::card_in(bytes);
    if card.is_wrong() {
        return Err(Refusal::CardField);
    }
    Ok(card)
}

// Whether a card is written as these bytes.
#[tactic(auto, unfolding(crate::specs::Card::written_as, crate::specs::Card::write_answer, crate::specs::Card::buffer_after))]
pub fn is_written_as(card: Card, bytes: &[u8]) -> bool
    ensures { result ≡ written_as card bytes.now }
{
    let mut out = [0; CARD_BYTES];
    write_card(card, &mut out).is_ok() && out.as_slice() == bytes
}
