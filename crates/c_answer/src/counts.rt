// The sizes of a mode, the columns of its pulse, and what the column counts of a fold tell, as records of numbers.
ghost use Rattle.std.specs.Prelude.{◌≡◌};
ghost use Rattle.c_answer.specs.Counts.{sizes_wire, columns_wire, window_wire, quality_wire};

use crate::{
    FunnelivyColumnsAnswer, FunnelivyQualityAnswer, FunnelivySizesAnswer, FunnelivyWindowAnswer,
};
use limits::Refusal;
use modespec::Sizes;
use pulse::BestWindow;

impl From<Result<Sizes, Refusal>> for FunnelivySizesAnswer {
    ghost from_gives = { λ answer r. r ≡ sizes_wire answer };

    fn from(answer: Result<Sizes, Refusal>) -> FunnelivySizesAnswer {
        match answer {
            Ok(sizes) => FunnelivySizesAnswer {
                refusal: 0,
                window: sizes.window as u64,
                picture: sizes.picture as u64,
            },
            Err(refusal) => FunnelivySizesAnswer {
                refusal: refusal.number().into(),
                ..Default::default()
            },
        }
    }
}

// The columns of a mode's pulse, or the column of the falling edge.
impl From<Result<usize, Refusal>> for FunnelivyColumnsAnswer {
    ghost from_gives = { λ answer r. r ≡ columns_wire answer };

    fn from(answer: Result<usize, Refusal>) -> FunnelivyColumnsAnswer {
        match answer {
            Ok(columns) => FunnelivyColumnsAnswer {
                refusal: 0,
                columns: columns as u64,
            },
            Err(refusal) => FunnelivyColumnsAnswer {
                refusal: refusal.number().into(),
                ..Default::default()
            },
        }
    }
}

impl From<Result<BestWindow, Refusal>> for FunnelivyWindowAnswer {
    ghost from_gives = { λ answer r. r ≡ window_wire answer };

    fn from(answer: Result<BestWindow, Refusal>) -> FunnelivyWindowAnswer {
        match answer {
            Ok(best) => FunnelivyWindowAnswer {
                refusal: 0,
                start: best.start as u64,
                sum: best.sum,
                windows: best.windows as u64,
            },
            Err(refusal) => FunnelivyWindowAnswer {
                refusal: refusal.number().into(),
                ..Default::default()
            },
        }
    }
}

impl From<Result<f32, Refusal>> for FunnelivyQualityAnswer {
    ghost from_gives = { λ answer r. r ≡ quality_wire answer };

    fn from(answer: Result<f32, Refusal>) -> FunnelivyQualityAnswer {
        match answer {
            Ok(quality) => FunnelivyQualityAnswer {
                refusal: 0,
                quality,
            },
            Err(refusal) => FunnelivyQualityAnswer {
                refusal: refusal.number().into(),
                ..Default::default()
            },
        }
    }
}
