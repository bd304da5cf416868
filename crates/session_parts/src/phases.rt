// Phases and the sizes that decide when they change.
// Functions, since a method stands in its type's crate, and `plain` holds no code.
ghost use Rattle.std.specs.Prelude.{◌≡◌};
ghost use Rattle.plain.specs.declared.End.TheVariants as End;
ghost use Rattle.plain.specs.Plain.{ended_phase, end_of, found_phase, flag_of, full_at};
ghost use Rattle.session_parts.specs.Phases.{start_in, start_of, WindowIs, PictureIs, DueIn};

use plain::{End, Phase, Start};
use sync::SyncResult;
use sync_start::Located;

pub fn ended(phase: Phase) -> bool
    ensures { result ≡ ended_phase phase }
{
    matches!(
        phase,
        Phase::Reported(_, _) | Phase::Unfound | Phase::CutShort(_)
    )
}

// The phase at the store's last place.
pub fn end_of(phase: Phase) -> Phase
    ensures { result ≡ end_of phase }
{
    match phase {
        Phase::Searching => Phase::Unfound,
        Phase::Collecting(start) => Phase::CutShort(start),
        Phase::Reported(_, _) | Phase::Unfound | Phase::CutShort(_) => phase,
    }
}

// The start that a phase has.
pub fn start(phase: Phase) -> Option<Start>
    ensures { result ≡ start_in phase }
{
    match phase {
        Phase::Searching | Phase::Unfound => None,
        Phase::Collecting(start) | Phase::Reported(start, _) | Phase::CutShort(start) => {
            Some(start)
        }
    }
}

// The phase that an evaluation leaves.
pub fn found(located: Option<Located>, quality: f32) -> Phase
    ensures { result ≡ found_phase located quality }
{
    match located {
        None => Phase::Searching,
        Some(Located { position, windows }) => Phase::Collecting(Start {
            position,
            quality,
            windows,
        }),
    }
}

// w: the flags of a window.
#[tactic(auto, using(plain::proofs::Sizes::window_small), unfolding(plain::specs::Plain::window_of))]
pub fn window(mode: u8) -> usize
    ensures { WindowIs mode result }
{
    modespec::mode_window_probes(mode)
}

// P: the flags of a picture.
#[tactic(auto, using(plain::proofs::Sizes::picture_small), unfolding(plain::specs::Plain::picture_of, modespec::specs::Literals::of_bits, modespec::specs::Literals::of_int))]
pub fn picture(mode: u8) -> usize
    ensures { PictureIs mode result }
{
    let spec = modespec::for_mode(mode);
    modespec::image_probes(spec, limits::WORKING_SAMPLE_RATE_HZ)
}

// f: the flag of a start, its position cut to whole flags.
pub fn first_flag(start: Start) -> usize
    ensures { result ≡ flag_of start }
{
    (start.position / 4) as usize
}

// f + P: the flags that a report on a start needs.
pub fn full(mode: u8, start: Start) -> usize
    ensures { result ≡ full_at mode start }
{
    first_flag(start) + picture(mode)
}

// Flags to the next evaluation: at least 1, and none is due before.
pub fn due_in(mode: u8, taken: usize) -> usize
    ensures { DueIn mode taken result }
{
    let window = window(mode);
    if taken < window {
        window - taken
    } else {
        64 - (taken - window) % 64
    }
}

// The anchor plus the position. On a record that no session handed back the sum may wrap.
pub fn start_of(anchor: u64, start: Start) -> u64
    ensures { result ≡ start_of anchor start }
{
    anchor.wrapping_add(start.position)
}

// What a read gives of a reported session.
pub fn reported(anchor: u64, start: Start, report: SyncResult) -> End
    ensures { result ≡ End.Reported (start_of anchor start) start.windows start.quality report.adjusted_rate_hz report.slant_deg report.skip_samples report.sync_quality }
{
    End::Reported {
        start: start_of(anchor, start),
        windows: start.windows,
        start_quality: start.quality,
        rate: report.adjusted_rate_hz,
        slant: report.slant_deg,
        skip: report.skip_samples,
        quality: report.sync_quality,
    }
}

// What a read gives of a session cut short.
pub fn cut_short(anchor: u64, start: Start) -> End
    ensures { result ≡ End.CutShort (start_of anchor start) start.windows start.quality }
{
    End::CutShort {
        start: start_of(anchor, start),
        windows: start.windows,
        start_quality: start.quality,
    }
}
