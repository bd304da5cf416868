// The answers of open, feed and read, as records of numbers.
ghost use Rattle.std.specs.Prelude.{◌≡◌};
ghost use Rattle.c_record.specs.Session.{opened_wire, fed_wire, end_wire, reading_wire};

use crate::{FunnelivyFed, FunnelivyOpened, FunnelivyReading};
use limits::{Ending, Refusal};
use plain::{End, Reading};
use session::{Fed, Session};

// ---- open

impl From<Result<Session, Refusal>> for FunnelivyOpened {
    ghost from_gives = { λ opened r. r ≡ opened_wire opened };

    fn from(opened: Result<Session, Refusal>) -> FunnelivyOpened {
        match opened {
            Ok(session) => FunnelivyOpened {
                refusal: 0,
                session: session.into(),
            },
            Err(refusal) => FunnelivyOpened {
                refusal: refusal.number().into(),
                ..Default::default()
            },
        }
    }
}

// ---- feed

impl From<Result<Fed, Refusal>> for FunnelivyFed {
    ghost from_gives = { λ fed r. r ≡ fed_wire fed };

    fn from(fed: Result<Fed, Refusal>) -> FunnelivyFed {
        match fed {
            Ok(fed) => FunnelivyFed {
                refusal: 0,
                taken: fed.taken as u64,
                session: fed.session.into(),
            },
            Err(refusal) => FunnelivyFed {
                refusal: refusal.number().into(),
                ..Default::default()
            },
        }
    }
}

// ---- read

// What only a report has is 0 at another end.
impl From<Reading> for FunnelivyReading {
    ghost from_gives = { λ reading r. r ≡ end_wire reading.end reading.taken reading.evaluations };

    fn from(reading: Reading) -> FunnelivyReading {
        let counts = FunnelivyReading {
            taken: reading.taken as u64,
            evaluations: reading.evaluations as u64,
            ..Default::default()
        };
        match reading.end {
            End::Reported {
                start,
                windows,
                start_quality,
                rate,
                slant,
                skip,
                quality,
            } => FunnelivyReading {
                end: Ending::Reported.number().into(),
                start,
                rate,
                slant: slant.unwrap_or(0.0),
                skip,
                start_quality,
                quality,
                has_slant: slant.is_some().into(),
                windows: windows.into(),
                ..counts
            },
            End::Unfound => FunnelivyReading {
                end: Ending::Unfound.number().into(),
                ..counts
            },
            End::CutShort {
                start,
                windows,
                start_quality,
            } => FunnelivyReading {
                end: Ending::CutShort.number().into(),
                start,
                start_quality,
                windows: windows.into(),
                ..counts
            },
        }
    }
}

impl From<Result<Reading, Refusal>> for FunnelivyReading {
    ghost from_gives = { λ given r. r ≡ reading_wire given };

    fn from(given: Result<Reading, Refusal>) -> FunnelivyReading {
        match given {
            Ok(reading) => reading.into(),
            Err(refusal) => FunnelivyReading {
                refusal: refusal.number().into(),
                ..Default::default()
            },
        }
    }
}
