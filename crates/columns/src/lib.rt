// The 700 columns that a line is folded into: a column's part of its line, and the flag that covers a time.
#![tactic(auto)]

mod parts;

ghost use Rattle.std.specs.Prelude.{◌≡◌, ◌≤◌, get_or};
ghost use Rattle.columns.specs.Columns.{list_to, column_part, probe_of};

// x / 700 for each column x. A table beside `column_parts`: each evaluation of the start search takes 0.22 microseconds for its copy,
// and took 1.05 for the quotients.
pub fn column_parts_700() -> [f64; 700]
    ensures { result ≡ list_to (column_part 700) 700 }
{
    parts::COLUMN_PARTS
}

// x / w for each of 700 columns x, worked out once and not in each row. The bound on w is asked here: a type for one number would be
// opened at each use.
pub fn column_parts(w: usize) -> [f64; 700]
    requires { w ≤ 65536 }
    ensures { result ≡ list_to (column_part w) 700 }
{
    std::array::from_fn(|x| (x as f64) / (w as f64))
}

// The number of the flag that covers a time, for the samples in a unit of time: a flag is of four samples.
#[tactic(auto, unfolding(crate::specs::Columns::probe_of, crate::specs::Columns::of_bits))]
pub fn probe_at(time: f64, samples: f64) -> usize
    ensures { result ≡ probe_of time samples }
{
    ieee::to_u64(time * samples / 4.0) as usize
}

// The flag of a number: 0 beyond the last.
pub fn flag(flags: &[u8], i: usize) -> u8
    ensures { result ≡ get_or flags.now i 0 }
{
    flags.get(i).copied().unwrap_or(0)
}
