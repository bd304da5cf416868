// A ledger card and the answers of its calls as records of numbers, as include/funnelivy.h declares them, and which card a record stands for.
// A refused answer has the refusal's number, and 0 in every other field. The C interface has a refusal, an end and a slant as numbers; a host
// may hand in any end and slant, and the writer refuses those that no card has. The header has a struct of its own for each answer; a trait
// for its refusal would have an impl for each.
#![tactic(auto)]

ghost use Rattle.std.specs.Prelude.{◌≡◌};
ghost use Rattle.c_card.specs.Cards.{card_of_wire, card_wire, read_wire};

use card::Card;
use limits::Refusal;

// What a card holds: `card::Card`, with the widest fields first.
#[repr(C)]
#[derive(Clone, Copy, Default)]
pub struct FunnelivyCard {
    pub taken: u64,
    pub evaluations: u64,
    pub start: u64,
    pub skip: i64,
    pub rate: f64,
    pub start_quality: f32,
    pub quality: f32,
    pub mode: u8,
    pub end: u8,
    pub slant: u8,
}

#[repr(C)]
#[derive(Clone, Copy, Default)]
pub struct FunnelivyCardAnswer {
    pub refusal: u32,
    pub card: FunnelivyCard,
}

// ---- from the record

impl From<FunnelivyCard> for Card {
    ghost from_gives = { λ w card. card ≡ card_of_wire w };

    fn from(w: FunnelivyCard) -> Card {
        Card {
            mode: w.mode,
            end: w.end,
            taken: w.taken,
            evaluations: w.evaluations,
            start: w.start,
            start_quality: w.start_quality,
            rate: w.rate,
            slant: w.slant,
            skip: w.skip,
            quality: w.quality,
        }
    }
}

// ---- to the record

impl From<Card> for FunnelivyCard {
    ghost from_gives = { λ card w. w ≡ card_wire card };

    fn from(card: Card) -> FunnelivyCard {
        FunnelivyCard {
            taken: card.taken,
            evaluations: card.evaluations,
            start: card.start,
            skip: card.skip,
            rate: card.rate,
            start_quality: card.start_quality,
            quality: card.quality,
            mode: card.mode,
            end: card.end,
            slant: card.slant,
        }
    }
}

// ---- the answers

// The card that was read, or the card of a session.
impl From<Result<Card, Refusal>> for FunnelivyCardAnswer {
    ghost from_gives = { λ answer r. r ≡ read_wire answer };

    fn from(answer: Result<Card, Refusal>) -> FunnelivyCardAnswer {
        match answer {
            Ok(card) => FunnelivyCardAnswer {
                refusal: 0,
                card: card.into(),
            },
            Err(refusal) => FunnelivyCardAnswer {
                refusal: refusal.number().into(),
                ..Default::default()
            },
        }
    }
}
