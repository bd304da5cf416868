// Replays the Rust's answers to the float operations. The file `vectors` has short records: the operation,
// its operands and the answer. Floats are bit patterns, and an `i64` is its bits in two's complement.
#![tactic(auto)]

use replay::tally::Verdict;
use replay::{Pattern, Vector};
use std::io;

// Whether an operation gives the answer expected. An operation that there is not gives none.
fn is_right(vector: Vector) -> bool {
    let expected = vector.expected;
    let x = f64::from_pattern(vector.a);
    let y = f64::from_pattern(vector.b);
    let z = f64::from_pattern(vector.c);
    match vector.op {
        0 => ieee::to_u64(x) == expected,
        1 => replay::signed_bits(ieee::to_i64(x)) == expected,
        2 => ieee::round(x).has_pattern(expected),
        3 => replay::signed_bits(ieee::round_to_i64(x)) == expected,
        4 => ieee::ceil_to_u64(x) == expected,
        5 => ieee::max(x, y).has_pattern(expected),
        6 => ieee::clamp(x, y, z).has_pattern(expected),
        7 => ieee::to_f32(x).has_pattern(replay::low_half(expected)),
        8 => ieee::to_f64(f32::from_pattern(replay::low_half(vector.a))).has_pattern(expected),
        9 => fma::mul_add(x, y, z).has_pattern(expected),
        _ => false,
    }
}

fn main(rt: HostRuntime) -> io::Result<()> {
    let kinds = [
        "to_u64",
        "to_i64",
        "round",
        "round_to_i64",
        "ceil_to_u64",
        "max",
        "clamp",
        "to_f32",
        "to_f64",
        "mul_add",
    ];
    replay::run_limited(
        &rt,
        rt.alloc(),
        &kinds,
        replay::NO_PAYLOAD,
        |vector: Vector| {
            Ok(Verdict {
                kind: vector.op,
                right: is_right(vector),
            })
        },
    )
}
