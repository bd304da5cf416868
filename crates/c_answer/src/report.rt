// The report of `find_sync` as a record of numbers.
ghost use Rattle.std.specs.Prelude.{◌≡◌};
ghost use Rattle.c_answer.specs.Report.{report_wire};

use crate::FunnelivyReportAnswer;
use limits::Refusal;
use sync::SyncResult;

impl From<Result<SyncResult, Refusal>> for FunnelivyReportAnswer {
    ghost from_gives = { λ answer r. r ≡ report_wire answer };

    fn from(answer: Result<SyncResult, Refusal>) -> FunnelivyReportAnswer {
        match answer {
            Ok(result) => FunnelivyReportAnswer {
                refusal: 0,
                has_slant: result.slant_deg.is_some().into(),
                rate: result.adjusted_rate_hz,
                slant: result.slant_deg.unwrap_or(0.0),
                skip: result.skip_samples,
                quality: result.sync_quality,
            },
            Err(refusal) => FunnelivyReportAnswer {
                refusal: refusal.number().into(),
                ..Default::default()
            },
        }
    }
}
