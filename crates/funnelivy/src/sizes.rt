// Sizes of a mode, and the columns of its pulse.
ghost use Rattle.std.specs.Prelude.{◌≡◌};
ghost use Rattle.modespec.specs.Calls.{columns_of, sizes_of};
ghost use Rattle.c_answer.specs.Counts.{columns_wire, sizes_wire};

use c_answer::{FunnelivyColumnsAnswer, FunnelivySizesAnswer};

// The sizes from which a host makes its stores. Refuses a mode above 15 with 1.
#[unsafe(no_mangle)]
pub extern "C" fn funnelivy_sizes(mode: u8) -> FunnelivySizesAnswer
    ensures { result ≡ sizes_wire (sizes_of mode) }
{
    modespec::mode_sizes(mode).into()
}

// `sync_pulse_columns`.
#[unsafe(no_mangle)]
pub extern "C" fn funnelivy_columns(mode: u8, n: u64) -> FunnelivyColumnsAnswer
    ensures { result ≡ columns_wire (columns_of mode n) }
{
    modespec::sync_pulse_columns(mode, n as usize).into()
}
