// Which cards are refused with 14.
ghost use Rattle.std.specs.Prelude.{◌≡◌, ◌&&◌, ◌||◌, not, eqb};
ghost use Rattle.limits.specs.Ending.{ending_number};
ghost use Rattle.card.specs.Card.{start_filled, report_filled, lacked_filled, within, positive, near, between, wrong};

use crate::{ANGLES, Card, NO_SLANT};
use limits::Ending;
use words::Pattern;

// 2^62
const SKIP_LIMIT: u64 = 1 << 62;

// ---- what an end lacks

impl Card {
    // Whether a field of the start is filled: not zero, bit for bit.
    #[tactic(auto, unfolding(crate::specs::Card::start_filled))]
    fn is_start_filled(self) -> bool
        ensures { result ≡ start_filled self }
    {
        self.start != 0 || self.start_quality.pattern() != 0
    }

    #[tactic(auto, unfolding(crate::specs::Card::report_filled))]
    fn is_report_filled(self) -> bool
        ensures { result ≡ report_filled self }
    {
        self.rate.pattern() != 0
            || self.slant != NO_SLANT
            || words::signed_bits(self.skip) != 0
            || self.quality.pattern() != 0
    }

    // Whether a field is filled that the card's end lacks, or a report's rate or skip is out of range.
    #[tactic(auto, unfolding(crate::specs::Card::lacked_filled))]
    fn is_wrong_for(self, ending: Ending) -> bool
        requires { ending_number ending ≡ self.end }
        ensures { result ≡ (lacked_filled self || eqb self.end 0 && (not (positive self.rate) || not (near self.skip))) }
    {
        match ending {
            Ending::Reported => !is_positive(self.rate) || !is_allowed_skip(self.skip),
            Ending::Unfound => self.is_start_filled() || self.is_report_filled(),
            Ending::CutShort => self.is_report_filled(),
        }
    }

    #[tactic(auto, unfolding(crate::specs::Card::wrong))]
    pub(crate) fn is_wrong(self) -> bool
        ensures { result ≡ wrong self }
    {
        let Ok(ending) = Ending::try_from(self.end) else {
            return true;
        };
        // not `Mode::try_from`: a card stands without `modespec`, so that a ledger's tool can use it alone
        self.mode > 15
            || is_no_index(self.slant)
            || self.is_wrong_for(ending)
            || !is_quality(self.start_quality)
            || !is_quality(self.quality)
    }
}

// ---- the ranges

// Whether x is from 0 to 1, which no NaN is. By two comparisons: the law that `contains` needs stands in `ieee`, which a card stands
// without.
#[tactic(auto, unfolding(crate::specs::Card::within))]
fn is_quality(x: f32) -> bool
    ensures { result ≡ within x }
{
    0.0 <= x && x <= 1.0
}

// Finite and positive.
#[tactic(auto, unfolding(crate::specs::Card::positive, crate::specs::Literals::of_bits))]
fn is_positive(rate: f64) -> bool
    ensures { result ≡ positive rate }
{
    0.0 < rate && rate < f64::INFINITY
}

#[tactic(auto, unfolding(crate::specs::Card::near))]
fn is_allowed_skip(skip: i64) -> bool
    ensures { result ≡ near skip }
{
    skip.unsigned_abs() <= SKIP_LIMIT
}

// From 240 to 254, neither an index nor the sign of none.
#[tactic(auto, unfolding(crate::specs::Card::between))]
fn is_no_index(slant: u8) -> bool
    ensures { result ≡ between slant }
{
    matches!(slant, ANGLES..NO_SLANT)
}
