// Reading vector files, with which test programs compare a function's answers with the Rust's. A short
// record is five words: the operation, three operands, and the answer. A long record is eight words, of
// which the last says how many bytes follow, and these bytes. A word has eight bytes, the least first.
// The operation is a number in the file, so that a program has one `match` on it, of which each arm is one call.
#![tactic(auto)]

pub mod payload;
pub mod tally;

ghost use Rattle.std.specs.Prelude.{◌≡◌, ◌≤◌, ℕ, length, take, ◌<◌, IfErr, IfOk, IsSome, Result, Ok, ⊤, vec_len};
ghost use Rattle.std.specs.Io.KnownBytes.{Consumes, IsAtEnd};
ghost use Rattle.replay.specs.Reading.{IsWordRead, IsCutAtEnd, IsPayloadRead, IsCutAtPayload, IsRecordRead};
ghost use Rattle.replay.specs.declared.Fault.{Fault};
ghost use Rattle.replay.specs.declared.Fault.TheVariants.{Unread};
ghost use Rattle.replay.specs.Counts.{KeepsNames};
ghost use Rattle.replay.specs.Optional.{optional_of, has_bits_or_none};

use std::alloc::{AllocError, Global};
use std::io::{BufReader, Read};
use std::rt::Files;
use std::{fs, io};
use tally::{Tally, Verdict};
pub use words::{Pattern, half_word, low_half, signed_bits, signed_of, word};

// A short record.
#[derive(Clone, Copy)]
pub struct Vector {
    pub op: u64,
    pub a: u64,
    pub b: u64,
    pub c: u64,
    pub expected: u64,
}

// A long record. It has its payload where it is read whole (`Record`). Up to a limit (`LimitedRecord`) it has none where the file does not
// hold that whole, or where it is longer than the program reads.
#[derive(Drop)]
pub struct Case {
    pub op: u64,
    pub a: u64,
    pub b: u64,
    pub c: u64,
    pub x: u64,
    pub y: u64,
    pub z: u64,
    pub payload: Option<Vec<u8>>,
}

// What is made of a record whose payload is longer than the program reads.
#[derive(Clone, Copy)]
pub enum Longer {
    // it is taken as cut
    Cut,
    // it is read without its payload, and the next record begins where that would
    Unread,
}

// How many bytes of a payload a program reads at most.
#[derive(Clone, Copy)]
pub struct Limit {
    pub most: u64,
    pub longer: Longer,
}

// A short record has no payload.
pub const NO_PAYLOAD: Limit = Limit {
    most: 0,
    longer: Longer::Cut,
};

// Why a record is not read.
#[derive(Drop)]
pub enum Fault {
    // the file does not hold it whole
    Cut,
    Unread(io::Error),
}

impl From<io::Error> for Fault {
    ghost from_gives = { λ error fault. fault ≡ Unread error };

    fn from(error: io::Error) -> Fault {
        Fault::Unread(error)
    }
}

impl From<AllocError> for Fault {
    ghost from_gives = { λ _ fault. (error : _) × fault ≡ Unread error };

    fn from(error: AllocError) -> Fault {
        Fault::Unread(io::Error::from(error))
    }
}

// A record of a vector file, which begins with its operation.
pub trait Record: Sized + Drop {
    // What with_rest gives for an operation, beyond its type. By default nothing is said.
    ghost with_rest_gives: { ℕ → Result Self Fault → Type 0 } = { λ op result. ⊤ };

    // The record of operation `op`, of which the file has the rest.
    fn with_rest<R: Read>(op: u64, file: &mut R, alloc: Global) -> Result<Self, Fault>
        ensures { with_rest_gives op result };
}

impl Record for Vector {
    ghost with_rest_gives = { λ op result. IfOk result (λ vector. vector.op ≡ op) };

    fn with_rest<R: Read>(op: u64, file: &mut R, alloc: Global) -> Result<Vector, Fault> {
        Vector::with_rest_limited(op, file, NO_PAYLOAD, alloc)
    }
}

impl Record for Case {
    ghost with_rest_gives = { λ op result. IfOk result (λ case. (case.op ≡ op) × IsSome case.payload) };

    // Its payload, too, has to be there, or the record is cut.
    fn with_rest<R: Read>(op: u64, file: &mut R, alloc: Global) -> Result<Case, Fault> {
        let case = Case::with_rest_limited(op, file, ANY_PAYLOAD, alloc)?;
        if case.payload.is_some() {
            Ok(case)
        } else {
            Err(Fault::Cut)
        }
    }
}

// A record of a vector file of which the program says how long a payload it reads.
pub trait LimitedRecord: Sized + Drop {
    // As in `Record`.
    ghost with_rest_limited_gives: { ℕ → Result Self Fault → Type 0 } = { λ op result. ⊤ };

    // The record of operation `op`, of which the file has the rest.
    fn with_rest_limited<R: Read>(
        op: u64,
        file: &mut R,
        limit: Limit,
        alloc: Global,
    ) -> Result<Self, Fault>
        ensures { with_rest_limited_gives op result };
}

impl LimitedRecord for Vector {
    ghost with_rest_limited_gives = { λ op result. IfOk result (λ vector. vector.op ≡ op) };

    fn with_rest_limited<R: Read>(
        op: u64,
        file: &mut R,
        _limit: Limit,
        _alloc: Global,
    ) -> Result<Vector, Fault> {
        Ok(Vector {
            op,
            a: word_within(file)?,
            b: word_within(file)?,
            c: word_within(file)?,
            expected: word_within(file)?,
        })
    }
}

impl LimitedRecord for Case {
    ghost with_rest_limited_gives = { λ op result. IfOk result (λ case. case.op ≡ op) };

    fn with_rest_limited<R: Read>(
        op: u64,
        file: &mut R,
        limit: Limit,
        alloc: Global,
    ) -> Result<Case, Fault> {
        let (a, b, c) = (word_within(file)?, word_within(file)?, word_within(file)?);
        let (x, y, z) = (word_within(file)?, word_within(file)?, word_within(file)?);
        let length = word_within(file)?;
        let payload = payload_within(file, length, limit, alloc)?;
        Ok(Case {
            op,
            a,
            b,
            c,
            x,
            y,
            z,
            payload,
        })
    }
}

// A record that is read whole, whatever the limit: `run`, `each_record` and `next_record` are the limited ones over it.
#[derive(Drop)]
struct Whole<T>(T);

impl<T: Record> LimitedRecord for Whole<T> {
    ghost with_rest_limited_gives = { λ op result. IfOk result (λ whole. T.with_rest_gives op (Ok whole.0)) };

    fn with_rest_limited<R: Read>(
        op: u64,
        file: &mut R,
        _limit: Limit,
        alloc: Global,
    ) -> Result<Whole<T>, Fault> {
        Ok(Whole(T::with_rest(op, file, alloc)?))
    }
}

// The file of that name, opened to read. Says so where it cannot be, and answers none.
pub fn opened<R: Files + Eprint>(rt: &R, path: &str) -> Option<R::File> {
    match fs::open(rt, path) {
        Ok(file) => Some(file),
        Err(error) => {
            let _ = eprintln!(rt; "{path}: {error}");
            None
        }
    }
}

// Reads until `out` is full or the file ends, and answers how many bytes it put at the front of `out`.
fn read_full<R: Read>(file: &mut R, out: &mut [u8]) -> io::Result<usize>
    ensures bound { IfOk result (λ n. n ≤ length out.new) }
    ensures bytes { IfOk result (λ n. Consumes (R.remaining file.old) (R.remaining file.new) (take n out.new)) }
    ensures end { IfOk result (λ n. n < length out.new → IsAtEnd (R.remaining file.new)) }
{
    let mut done = 0;
    // a `while`, since each read says how far the next turn goes on
    while done < out.len() {
        let n = file.read(&mut out[done..])?;
        if n == 0 {
            break;
        }
        done += n;
    }
    Ok(done)
}

// The next word, none at the file's end.
pub fn next_word<R: Read>(file: &mut R) -> Result<Option<u64>, Fault>
    ensures { IfOk result (IsWordRead (R.remaining file.old) (R.remaining file.new)) }
{
    let mut bytes = [0u8; 8];
    match read_full(file, &mut bytes)? {
        8 => Ok(Some(word(&bytes, 0))),
        0 => Ok(None),
        _ => Err(Fault::Cut),
    }
}

// The next word of a record that has begun.
fn word_within<R: Read>(file: &mut R) -> Result<u64, Fault> {
    next_word(file)?.ok_or(Fault::Cut)
}

// No record has more bytes behind it. One that says so is taken as cut.
const MOST_BYTES: u64 = 262144;

// Any payload that a record has.
const ANY_PAYLOAD: Limit = Limit {
    most: MOST_BYTES,
    longer: Longer::Cut,
};

// The next n bytes of a record that has begun.
pub fn bytes_within<R: Read>(file: &mut R, n: u64, alloc: Global) -> Result<Vec<u8>, Fault>
    ensures bytes { IfOk result (λ v. (vec_len v ≡ n) × Consumes (R.remaining file.old) (R.remaining file.new) v.items) }
    ensures cut { IfErr result (IsCutAtEnd n (R.remaining file.new)) }
{
    if n > MOST_BYTES {
        return Err(Fault::Cut);
    }
    let mut bytes = vec![in alloc; 0u8; n as usize]?;
    if read_full(file, &mut bytes)? < bytes.len() {
        return Err(Fault::Cut);
    }
    Ok(bytes)
}

// The payload of n bytes of a record that has begun. One that the file does not hold whole is none: the file is at its end then. One that
// is longer than `limit` reads is none too, or the record is cut.
fn payload_within<R: Read>(
    file: &mut R,
    n: u64,
    limit: Limit,
    alloc: Global,
) -> Result<Option<Vec<u8>>, Fault>
    ensures read { IfOk result (IsPayloadRead n limit (R.remaining file.old) (R.remaining file.new)) }
    ensures cut { IfErr result (IsCutAtPayload n limit (R.remaining file.old) (R.remaining file.new)) }
{
    if n > limit.most {
        return match limit.longer {
            Longer::Cut => Err(Fault::Cut),
            Longer::Unread => Ok(None),
        };
    }
    match bytes_within(file, n, alloc) {
        Ok(bytes) => Ok(Some(bytes)),
        Err(Fault::Cut) => Ok(None),
        Err(fault) => Err(fault),
    }
}

// Replays the records of the file `vectors`, and writes how many of each kind named there were.
pub fn run<T: Record, R: Files + Print + Eprint, F: FnMut(T) -> io::Result<Verdict>>(
    rt: &R,
    alloc: Global,
    kinds: &[&str],
    answer: F,
) -> io::Result<()>
    requires { F.IsAlwaysCallable answer }
{
    let mut answer = answer;
    run_limited(
        rt,
        alloc,
        kinds,
        NO_PAYLOAD,
        |Whole(record): Whole<T>| answer(record),
    )
}

// The same with a limit.
pub fn run_limited<T: LimitedRecord, R: Files + Print + Eprint, F: FnMut(T) -> io::Result<Verdict>>(
    rt: &R,
    alloc: Global,
    kinds: &[&str],
    limit: Limit,
    answer: F,
) -> io::Result<()>
    requires { F.IsAlwaysCallable answer }
{
    let Some(file) = opened(rt, "vectors") else {
        return Ok(());
    };
    let mut tally = Tally::of(kinds);
    each_record_limited(file, alloc, limit, &mut tally, answer)?;
    tally.report(rt)
}

// Replays a file's records, and tallies what `answer` says of each. A record that the file does not hold whole is wrong, and the last.
pub fn each_record<T: Record, F: FnMut(T) -> io::Result<Verdict>>(
    file: impl Read + Drop,
    alloc: Global,
    tally: &mut Tally<'_>,
    mut answer: F,
) -> io::Result<()>
    requires { F.IsAlwaysCallable answer }
    ensures { KeepsNames tally.old tally.new }
{
    each_record_limited(
        file,
        alloc,
        NO_PAYLOAD,
        tally,
        |Whole(record): Whole<T>| answer(record),
    )
}

// The same with a limit.
pub fn each_record_limited<T: LimitedRecord, F: FnMut(T) -> io::Result<Verdict>>(
    file: impl Read + Drop,
    alloc: Global,
    limit: Limit,
    tally: &mut Tally<'_>,
    mut answer: F,
) -> io::Result<()>
    requires { F.IsAlwaysCallable answer }
    ensures { KeepsNames tally.old tally.new }
{
    let mut file = BufReader::new(alloc, file)?;
    // a count and no `while let`, the library's own form for a reader that may not end: no file has 2^64 records
    for _ in 0..u64::MAX {
        match next_record_limited(&mut file, limit, alloc) {
            Ok(Some(record)) => tally.count(answer(record)?),
            Ok(None) => return Ok(()),
            Err(Fault::Cut) => {
                tally.count_cut();
                return Ok(());
            }
            Err(Fault::Unread(error)) => return Err(error),
        }
    }
    Ok(())
}

// The next record, none at the file's end.
pub fn next_record<T: Record, R: Read>(file: &mut R, alloc: Global) -> Result<Option<T>, Fault>
    ensures { IfOk result (IsRecordRead T.with_rest_gives (R.remaining file.old)) }
{
    let record = next_record_limited(file, NO_PAYLOAD, alloc)?;
    Ok(record.map(|Whole(record)| record))
}

// The same with a limit.
pub fn next_record_limited<T: LimitedRecord, R: Read>(
    file: &mut R,
    limit: Limit,
    alloc: Global,
) -> Result<Option<T>, Fault>
    ensures { IfOk result (IsRecordRead T.with_rest_limited_gives (R.remaining file.old)) }
{
    match next_word(file)? {
        Some(op) => Ok(Some(T::with_rest_limited(op, file, limit, alloc)?)),
        None => Ok(None),
    }
}

// An optional value as it is recorded: all ones stand for none.
pub fn optional(word: u64) -> Option<u64>
    ensures { result ≡ optional_of word }
{
    (word != u64::MAX).then_some(word)
}

// Whether an optional float is the one recorded.
pub fn is_recorded(x: Option<f64>, word: u64) -> bool
    ensures { result ≡ has_bits_or_none x (optional_of word) }
{
    match (x, optional(word)) {
        (Some(x), Some(bits)) => x.has_pattern(bits),
        (None, None) => true,
        _ => false,
    }
}

#[cfg(test)]
mod tests {
    use super::{
        Case, Limit, Longer, NO_PAYLOAD, Vector, bytes_within, each_record, each_record_limited,
        next_record, next_record_limited, run,
    };
    use crate::tally::{Tally, Verdict};
    use std::fs;
    use std::test::Fail;

    // Two short records, and the beginning of a third.
    const SHORT: [u8; 83] = [
        3, 0, 0, 0, 0, 0, 0, 0, 1, 0, 0, 0, 0, 0, 0, 0, 2, 1, 0, 0, 0, 0, 0, 0, 4, 0, 0, 0, 0, 0,
        0, 0, 5, 0, 0, 0, 0, 0, 0, 0, 2, 0, 0, 0, 0, 0, 0, 0, 6, 0, 0, 0, 0, 0, 0, 0, 7, 0, 0, 0,
        0, 0, 0, 0, 8, 0, 0, 0, 0, 0, 0, 0, 9, 0, 0, 0, 0, 0, 0, 0, 1, 0, 0,
    ];

    // A long record, with three bytes behind its words.
    const LONG: [u8; 67] = [
        3, 0, 0, 0, 0, 0, 0, 0, 1, 0, 0, 0, 0, 0, 0, 0, 2, 1, 0, 0, 0, 0, 0, 0, 4, 0, 0, 0, 0, 0,
        0, 0, 5, 0, 0, 0, 0, 0, 0, 0, 6, 0, 0, 0, 0, 0, 0, 0, 7, 0, 0, 0, 0, 0, 0, 0, 3, 0, 0, 0,
        0, 0, 0, 0, 8, 9, 10,
    ];

    #[test]
    fn records_are_read(rt: HostRuntime) -> Result<(), Fail> {
        let mut file = [1, 2, 3].as_slice();
        let bytes = bytes_within(&mut file, 2, rt.alloc())
            .ok()
            .ok_or("no bytes")?;
        assert_eq!(rt; bytes.as_slice(), [1, 2].as_slice());

        let mut file = SHORT.as_slice();
        let Ok(Some(record)) = next_record_limited::<Vector, _>(&mut file, NO_PAYLOAD, rt.alloc())
        else {
            panic!(rt; "no short record");
        };
        let words = [record.op, record.a, record.b, record.c, record.expected];
        assert_eq!(rt; words, [3, 1, 258, 4, 5]);

        let mut file = LONG.as_slice();
        let limit = Limit {
            most: 3,
            longer: Longer::Cut,
        };
        let Ok(Some(record)) = next_record_limited::<Case, _>(&mut file, limit, rt.alloc()) else {
            panic!(rt; "no long record");
        };
        let words = [
            record.op, record.a, record.b, record.c, record.x, record.y, record.z,
        ];
        assert_eq!(rt; words, [3, 1, 258, 4, 5, 6, 7]);
        let payload = record.payload.ok_or("no payload")?;
        assert_eq!(rt; payload.as_slice(), [8, 9, 10].as_slice());
        assert!(rt;
            matches!(
                next_record_limited::<Case, _>(&mut file, limit, rt.alloc()),
                Ok(None)
            )
        );
        Ok(())
    }

    #[test]
    fn records_are_tallied(rt: HostRuntime) -> Result<(), Fail> {
        let mut tally = Tally::of(&[""; 12]);
        each_record_limited(
            SHORT.as_slice(),
            rt.alloc(),
            NO_PAYLOAD,
            &mut tally,
            |record: Vector| {
                Ok(Verdict {
                    kind: record.op,
                    right: record.expected == 5,
                })
            },
        )?;
        assert_eq!(rt; (tally.seen, tally.wrong), (3, 2));
        assert_eq!(rt; tally.kinds.len(), 12);
        for (kind, n) in tally.kinds.iter().zip([0, 0, 1, 1, 0, 0, 0, 0, 0, 0, 0, 0]) {
            assert_eq!(rt; kind.1, n);
        }
        Ok(())
    }

    // A payload that is there, one that the file does not hold whole, and one longer than is read, which cuts the record or is left unread:
    // its bytes begin the next record then, which is cut. A record without a payload counts as right here.
    #[test]
    fn payload_may_be_missing(rt: HostRuntime) -> Result<(), Fail> {
        for (length, most, longer, seen, wrong, counted) in [
            (67, 3, Longer::Cut, 1, 1, 1),
            (66, 3, Longer::Cut, 1, 0, 1),
            (67, 2, Longer::Cut, 1, 1, 0),
            (67, 2, Longer::Unread, 2, 1, 1),
        ] {
            let mut tally = Tally::of(&[""; 12]);
            let limit = Limit { most, longer };
            each_record_limited(
                &LONG[..length],
                rt.alloc(),
                limit,
                &mut tally,
                |record: Case| {
                    Ok(Verdict {
                        kind: record.op,
                        right: record.payload.is_none(),
                    })
                },
            )?;
            assert_eq!(rt; (tally.seen, tally.wrong), (seen, wrong));
            let (_, of_kind_3) = tally.kinds[3];
            assert_eq!(rt; of_kind_3, counted);
        }
        Ok(())
    }

    // Records that are read whole. One whose payload the file does not hold whole is cut, and counts as no kind.
    #[test]
    fn whole_records_are_replayed(rt: HostRuntime) -> Result<(), Fail> {
        let mut file = SHORT.as_slice();
        let Ok(Some(record)) = next_record::<Vector, _>(&mut file, rt.alloc()) else {
            panic!(rt; "no short record");
        };
        assert_eq!(rt; [record.op, record.expected], [3, 5]);

        let mut file = LONG.as_slice();
        let Ok(Some(record)) = next_record::<Case, _>(&mut file, rt.alloc()) else {
            panic!(rt; "no long record");
        };
        assert_eq!(rt; record.op, 3);
        let payload = record.payload.ok_or("no payload")?;
        assert_eq!(rt; payload.as_slice(), [8, 9, 10].as_slice());
        assert!(rt; matches!(next_record::<Case, _>(&mut file, rt.alloc()), Ok(None)));

        for (length, right, counted) in [(67, true, 1), (66, false, 0)] {
            let mut tally = Tally::of(&[""; 4]);
            each_record(&LONG[..length], rt.alloc(), &mut tally, |record: Case| {
                Ok(Verdict {
                    kind: record.op,
                    right: record.payload.is_some(),
                })
            })?;
            assert_eq!(rt; (tally.seen, tally.wrong), (1, u64::from(!right)));
            let (_, of_kind_3) = tally.kinds[3];
            assert_eq!(rt; of_kind_3, counted);
        }
        Ok(())
    }

    // The same from the file that `run` opens.
    #[test]
    fn file_is_replayed(rt: HostRuntime) -> Result<(), Fail> {
        fs::write(&rt, "vectors", SHORT.as_slice())?;
        let mut ops = [0; 2];
        let mut seen = 0;
        run(&rt, rt.alloc(), &[], |record: Vector| {
            if let Some(op) = ops.get_mut(seen) {
                *op = record.op;
            }
            seen = seen.wrapping_add(1);
            Ok(Verdict {
                kind: record.op,
                right: true,
            })
        })?;
        fs::remove_file(&rt, "vectors")?;
        assert_eq!(rt; (ops, seen), ([3, 2], 2));
        Ok(())
    }
}
