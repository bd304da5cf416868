// A session as a record of numbers, and back. The record of a session stands for the same session.
ghost use Rattle.std.specs.Prelude.{◌≡◌};
ghost use Rattle.c_record.specs.Record.{slant_of, start_of, report_of, phase_of, session_of, session_wire};
ghost use Rattle.c_record.specs.Phases.{phase_numbered};

use crate::FunnelivySession;
use plain::{Phase, Start};
use session::Session;
use sync::SyncResult;

// ---- the phase's number

#[derive(Clone, Copy)]
enum PhaseNumber {
    Searching = 0,
    Collecting = 1,
    Reported = 2,
    Unfound = 3,
    CutShort = 4,
}

// Any number is a phase: one above 4, which no session has, counts as unfound.
impl From<u8> for PhaseNumber {
    ghost from_gives = { λ number phase. phase ≡ phase_numbered number };

    fn from(number: u8) -> PhaseNumber {
        match number {
            0 => PhaseNumber::Searching,
            1 => PhaseNumber::Collecting,
            2 => PhaseNumber::Reported,
            4 => PhaseNumber::CutShort,
            _ => PhaseNumber::Unfound,
        }
    }
}

// ---- from the record

impl FunnelivySession {
    fn slant_deg(self) -> Option<f64>
        ensures { result ≡ slant_of self.has_slant self.slant }
    {
        (self.has_slant != 0).then_some(self.slant)
    }

    fn start(self) -> Start
        ensures { result ≡ start_of self }
    {
        Start {
            position: self.position,
            quality: self.start_quality,
            windows: self.windows,
        }
    }

    fn report(self) -> SyncResult
        ensures { result ≡ report_of self }
    {
        SyncResult {
            adjusted_rate_hz: self.rate,
            skip_samples: self.skip,
            slant_deg: self.slant_deg(),
            sync_quality: self.quality,
        }
    }

    fn session_phase(self) -> Phase
        ensures { result ≡ phase_of self }
    {
        match PhaseNumber::from(self.phase) {
            PhaseNumber::Searching => Phase::Searching,
            PhaseNumber::Collecting => Phase::Collecting(self.start()),
            PhaseNumber::Reported => Phase::Reported(self.start(), self.report()),
            PhaseNumber::Unfound => Phase::Unfound,
            PhaseNumber::CutShort => Phase::CutShort(self.start()),
        }
    }
}

impl From<FunnelivySession> for Session {
    ghost from_gives = { λ w s. s ≡ session_of w };

    fn from(w: FunnelivySession) -> Session {
        Session {
            mode: w.mode,
            anchor: w.anchor,
            capacity: w.capacity as usize,
            taken: w.taken as usize,
            evaluations: w.evaluations as usize,
            streak: w.streak,
            phase: w.session_phase(),
        }
    }
}

// ---- to the record

impl From<Session> for FunnelivySession {
    ghost from_gives = { λ s w. w ≡ session_wire s };

    fn from(s: Session) -> FunnelivySession {
        // What a phase does not have is 0.
        let (no_start, no_report) = (Start::default(), SyncResult::default());
        let (phase, start, report) = match s.phase {
            Phase::Searching => (PhaseNumber::Searching, no_start, no_report),
            Phase::Collecting(start) => (PhaseNumber::Collecting, start, no_report),
            Phase::Reported(start, report) => (PhaseNumber::Reported, start, report),
            Phase::Unfound => (PhaseNumber::Unfound, no_start, no_report),
            Phase::CutShort(start) => (PhaseNumber::CutShort, start, no_report),
        };
        FunnelivySession {
            anchor: s.anchor,
            capacity: s.capacity as u64,
            taken: s.taken as u64,
            evaluations: s.evaluations as u64,
            streak: s.streak,
            position: start.position,
            rate: report.adjusted_rate_hz,
            slant: report.slant_deg.unwrap_or(0.0),
            skip: report.skip_samples,
            start_quality: start.quality,
            quality: report.sync_quality,
            windows: start.windows,
            mode: s.mode,
            phase: phase as u8,
            has_slant: report.slant_deg.is_some().into(),
        }
    }
}
