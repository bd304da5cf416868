// Replays the Rust's rows and sizes of the sixteen modes, from the file `vectors` of short records.
#![tactic(auto)]

use modespec::{Mode, ModeSpec};
use replay::tally::Verdict;
use replay::{Pattern, Vector};
use std::io;

// Whether a field of the row, by its place, is what the Rust has. The place is a number in the file, and each arm is one field.
fn field_is_right(spec: ModeSpec, place: u64, expected: u64) -> bool {
    match place {
        0 => (spec.line_pixels as u64) == expected,
        1 => (spec.image_lines as u64) == expected,
        2 => spec.line_seconds.has_pattern(expected),
        3 => spec.sync_seconds.has_pattern(expected),
        4 => spec.porch_seconds.has_pattern(expected),
        5 => spec.pixel_seconds.has_pattern(expected),
        6 => (spec.channel_layout as u64) == expected,
        7 => (spec.sync_position as u64) == expected,
        _ => false,
    }
}

fn columns_are(mode: u8, n: u64, expected: u64) -> bool {
    modespec::sync_pulse_columns(mode, n as usize) == Ok(expected as usize)
}

// Whether the first and the last n of a step answer `expected`. A last n of 0 is no step.
fn step_is_right(mode: u8, first: u64, last: u64, expected: u64) -> bool {
    last == 0 || (columns_are(mode, first, expected) && columns_are(mode, last, expected))
}

// Whether three steps of the pulse columns, which follow one another, answer each one more than the one before it.
fn steps_are_right(mode: u8, first: u64, lasts: u64, expected: u64) -> bool {
    let one = lasts & 0xf_ffff;
    let two = (lasts >> 20) & 0xf_ffff;
    let three = (lasts >> 40) & 0xf_ffff;
    step_is_right(mode, first, one, expected)
        && step_is_right(mode, one.wrapping_add(1), two, expected.wrapping_add(1))
        && step_is_right(mode, two.wrapping_add(1), three, expected.wrapping_add(2))
}

fn mode_is_right(mode: Mode, vector: Vector) -> bool {
    let Vector { b, c, expected, .. } = vector;
    let spec = mode.spec();
    let mode = mode as u8;
    match vector.op {
        0 => field_is_right(spec, b, expected),
        1 => (spec.radio_lines() as u64) == expected,
        2 => spec.skip_correction_seconds().has_pattern(expected),
        3 => (modespec::window_lines(spec) as u64) == expected,
        4 => (modespec::mode_window_probes(mode) as u64) == expected,
        5 => (modespec::image_probes(spec, f64::from_pattern(c)) as u64) == expected,
        6 => (modespec::line_width(spec) as u64) == expected,
        7 => columns_are(mode, b, expected),
        8 => modespec::pulse_offset_seconds(spec).has_pattern(expected),
        9 => steps_are_right(mode, b, c, expected),
        _ => false,
    }
}

// Whether a record's answer is right. A record of no mode is wrong.
fn is_right(vector: Vector) -> bool {
    match u8::try_from(vector.a).map(Mode::try_from) {
        Ok(Ok(mode)) => mode_is_right(mode, vector),
        _ => false,
    }
}

fn main(rt: HostRuntime) -> io::Result<()> {
    replay::run_limited(&rt, rt.alloc(), &[], replay::NO_PAYLOAD, |vector: Vector| {
        Ok(Verdict {
            kind: vector.op,
            right: is_right(vector),
        })
    })
}
