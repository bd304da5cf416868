// The card of a session: its end as the fields of a ledger card.
#![tactic(auto)]

ghost use Rattle.std.specs.Prelude.{◌≡◌, ◌&&◌, cond, ltb};
ghost use Rattle.std.specs.Float.Ieee.{eq};
ghost use Rattle.hough.specs.Pass.{angle_of};
ghost use Rattle.ledger.specs.Ledger.{slant_index, card_by, session_card};

use card::{ANGLES, Card, NO_SLANT};
use limits::{Ending, Refusal};
use plain::{End, Reading};
use session::Session;

// Stands for an angle that is none of the 240. No card may hold it.
const NO_ANGLE: u8 = 254;

// q, where it is the index of the angle.
#[tactic(auto, unfolding(hough::specs::Pass::angle_of, ieee::specs::Numbers::decimal, crate::specs::Literals::of_bits, crate::specs::Literals::of_int))]
fn index_at(q: u64, angle: f64) -> Option<u8>
    ensures { result ≡ cond (ltb q 240 && eq (angle_of q) angle) (Some q) None }
{
    let q = u8::try_from(q).ok()?;
    (q < ANGLES && 30.0 + f64::from(q) * 0.5 == angle).then_some(q)
}

// The index of the slant's angle.
#[tactic(auto, unfolding(crate::specs::Ledger::slant_index, crate::specs::Literals::of_bits, crate::specs::Literals::of_int))]
fn slant_index(slant: Option<f64>) -> u8
    ensures { result ≡ slant_index slant }
{
    match slant {
        None => NO_SLANT,
        Some(angle) => { index_at(ieee::to_u64((angle - 30.0) * 2.0), angle).unwrap_or(NO_ANGLE) }
    }
}

// The card of what a read gave. What the end lacks is zero, the slant 255; the count of windows has no place on it.
pub fn card_of(mode: u8, reading: Reading) -> Card
    ensures { result ≡ card_by mode reading }
{
    let unfound = Card {
        mode,
        end: Ending::Unfound.number(),
        taken: reading.taken as u64,
        evaluations: reading.evaluations as u64,
        start: 0,
        start_quality: 0.0,
        rate: 0.0,
        slant: NO_SLANT,
        skip: 0,
        quality: 0.0,
    };
    match reading.end {
        End::Reported {
            start,
            windows: _,
            start_quality,
            rate,
            slant,
            skip,
            quality,
        } => Card {
            end: Ending::Reported.number(),
            start,
            start_quality,
            rate,
            slant: slant_index(slant),
            skip,
            quality,
            ..unfound
        },
        End::Unfound => unfound,
        End::CutShort {
            start,
            windows: _,
            start_quality,
        } => Card {
            end: Ending::CutShort.number(),
            start,
            start_quality,
            ..unfound
        },
    }
}

// The card of a session that has ended. Before the end there is none: 11.
pub fn session_card(s: Session) -> Result<Card, Refusal>
    ensures { result ≡ session_card s }
{
    Ok(card_of(s.mode, s.read()?))
}
