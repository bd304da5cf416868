// What the column counts of a fold tell.
ghost use Rattle.std.specs.Prelude.{◌≡◌};
ghost use Rattle.pulse.specs.PulseWindow.{window_answer};
ghost use Rattle.pulse.specs.Quality.{quality_answer};
ghost use Rattle.pulse.specs.Edge.{edge_answer};
ghost use Rattle.c_answer.specs.Counts.{columns_wire, window_wire, quality_wire};

use c_answer::{FunnelivyColumnsAnswer, FunnelivyQualityAnswer, FunnelivyWindowAnswer};

// `best_pulse_window`.
#[unsafe(no_mangle)]
pub extern "C" fn funnelivy_window(counts: &[u32], width: u64) -> FunnelivyWindowAnswer
    ensures { result ≡ window_wire (window_answer counts.now width) }
{
    pulse::best_pulse_window(counts, width as usize).into()
}

// `sync_quality`.
#[unsafe(no_mangle)]
pub extern "C" fn funnelivy_quality(counts: &[u32], mode: u8, lines: u64) -> FunnelivyQualityAnswer
    ensures { result ≡ quality_wire (quality_answer counts.now mode lines) }
{
    pulse::sync_quality(counts, mode, lines as usize).into()
}

// `falling_edge_from_x_acc`.
#[unsafe(no_mangle)]
pub extern "C" fn funnelivy_edge(counts: &[u32]) -> FunnelivyColumnsAnswer
    ensures { result ≡ columns_wire (edge_answer counts.now) }
{
    pulse::falling_edge_from_x_acc(counts).into()
}
