// The answer of `has_sync_at` as a record of numbers.
ghost use Rattle.std.specs.Prelude.{◌≡◌};
ghost use Rattle.c_answer.specs.Sound.{decision_wire};

use crate::FunnelivyDecisionAnswer;
use limits::Refusal;

impl From<Result<bool, Refusal>> for FunnelivyDecisionAnswer {
    ghost from_gives = { λ answer r. r ≡ decision_wire answer };

    fn from(answer: Result<bool, Refusal>) -> FunnelivyDecisionAnswer {
        match answer {
            Ok(has_sync) => FunnelivyDecisionAnswer {
                refusal: 0,
                has_sync: has_sync.into(),
            },
            Err(refusal) => FunnelivyDecisionAnswer {
                refusal: refusal.number().into(),
                ..Default::default()
            },
        }
    }
}
