// The two spectrum calls, without the transform between them.
ghost use Rattle.std.specs.Prelude.{◌≡◌};
ghost use Rattle.probe.specs.Decision.{probe_answer};
ghost use Rattle.c_answer.specs.Sound.{decision_wire};
ghost use Rattle.funnelivy.specs.Sound.{WindowMeets};

use c_answer::FunnelivyDecisionAnswer;

// `sync_window`. Gives the refusal's number.
#[unsafe(no_mangle)]
pub extern "C" fn funnelivy_sync_window(sound: &[f32], centre: u64, buffer: &mut [f32]) -> u32
    ensures { WindowMeets sound.now centre buffer.old result buffer.new }
{
    limits::number_or_zero(probe::sync_window(sound, centre, buffer))
}

// `has_sync_at`.
#[unsafe(no_mangle)]
pub extern "C" fn funnelivy_has_sync(spectrum: &[f32], shift_hz: f64) -> FunnelivyDecisionAnswer
    ensures { result ≡ decision_wire (probe_answer spectrum.now shift_hz) }
{
    probe::has_sync_at(spectrum, shift_hz).into()
}
