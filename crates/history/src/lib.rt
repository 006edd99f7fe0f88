// A list of calls, handed over as bytes, those that edit made one after the other on one survey; and a lookup after it, or what is kept.
#![tactic(auto)]

ghost use Rattle.std.specs.Prelude.{◌≡◌, ◌++◌, ◌+◌, ◌<◌, length, take, drop};
ghost use Rattle.model.specs.Point.{Contents};
ghost use Rattle.model.specs.Extent.{settled};
ghost use Rattle.model.specs.Bytes.{long_at};
ghost use Rattle.model.specs.Calls.{after, present};
ghost use Rattle.model.specs.Lent.{neighbours_into};
ghost use Rattle.extent.specs.Kept.{as_extent};
ghost use Rattle.refusal.specs.Numbered.{numbered};
ghost use Rattle.neighbour_records.specs.Records.{record_of};
ghost use Rattle.survey.specs.StateOf.{state_of};
ghost use Rattle.survey.specs.LookedUp.{looked_up, looked_up_lent};
ghost use Rattle.history.specs.Claim.{Claim, ClaimLent, ClaimKept};
ghost use Rattle.history.specs.Encoding.{call_of, file_length, numbers_at, calls};

use lending::AnswerWithRecords;
use numbers::TwosComplement;
use refusal::Refusal;
use survey::{Extent, Found, Record, Survey};

// The number in the four bytes at i.
fn word(records: &[u8], i: usize) -> u32
    requires { i + 3 < length records.now }
    ensures { result ≡ long_at records.now i }
{
    u32::from_be_bytes([records[i], records[i + 1], records[i + 2], records[i + 3]])
}

// The six numbers of a record, from index i on.
fn numbers_at(records: &[u8], i: usize) -> [u32; 6]
    requires { i + 23 < length records.now }
    ensures { result ≡ numbers_at records.now i }
{
    [
        word(records, i),
        word(records, i + 4),
        word(records, i + 8),
        word(records, i + 12),
        word(records, i + 16),
        word(records, i + 20),
    ]
}

// The length of the file that belongs to a record.
#[tactic(auto, unfolding(crate::specs::Encoding::file_length))]
fn file_length(op: u8, w: [u32; 6]) -> usize
    ensures { result ≡ file_length op w }
{
    if op == 4 {
        (1 << 32) * w[0] as usize + w[1] as usize
    } else {
        0
    }
}

// One call: the survey that it leaves, as it was where it is refused. One that only asks leaves the survey as it is, and is not made.
fn run_call(s: Survey, op: u8, w: [u32; 6], file: &[u8]) -> Survey
    ensures { (q : Contents) → state_of s ≡ settled q → state_of result ≡ settled (after (call_of op w file.now) q) }
{
    let mut t = s;
    let _ = match op {
        0 => survey::add(&mut t, w[0], w[1], i32::signed(w[2])),
        1 => survey::change(&mut t, w[0], w[1], i32::signed(w[2])),
        2 => survey::drop(&mut t, w[0], w[1]),
        3 => Ok(survey::clear(&mut t)),
        4 => survey::load(&mut t, file),
        _ => Ok(()),
    };
    t
}

// The survey that the calls of the records leave, made one after the other from a fresh one. The files of the loads among them stand one after the other in `files`.
pub fn left_by<'a>(records: &'a [u8], files: &'a [u8]) -> Survey
    ensures { state_of result ≡ settled (present (calls records.now files.now)) }
{
    let n = records.len() / 25;
    let mut t = survey::fresh();
    let mut start = 0;
    for i in 0..n {
        let at = 25 * i;
        let op = records[at];
        let w = numbers_at(records, at + 1);
        let end = start + file_length(op, w).min(files.len() - start);
        t = run_call(t, op, w, &files[start..end]);
        start = end;
    }
    t
}

// A lookup after the calls.
pub fn run_calls<'a>(records: &'a [u8], files: &'a [u8], x: u32, y: u32) -> Result<Found, Refusal>
    ensures value { numbered result ≡ looked_up (settled (present (calls records.now files.now))) x y }
    ensures claim { Claim x y (present (calls records.now files.now)) (numbered result) }
{
    let t = left_by(records, files);
    survey::lookup(t, x, y)
}

// A lookup after them that is lent the first n neighbour records of a list.
pub fn run_calls_lending<'a>(
    records: &'a [u8],
    files: &'a [u8],
    x: u32,
    y: u32,
    list: [Record; 32],
    n: usize,
) -> AnswerWithRecords
    ensures answer_value { numbered result.answer ≡ looked_up_lent (settled (present (calls records.now files.now))) x y (length (take n list)) }
    ensures records_value { result.records ≡ neighbours_into record_of (settled (present (calls records.now files.now))) x y (take n list) ++ drop n list }
    ensures claim_lent { ClaimLent x y (length (take n list)) (present (calls records.now files.now)) (numbered result.answer) list result.records }
{
    let t = left_by(records, files);
    lending::lookup_lending(t, x, y, list, n)
}

// What is kept of the points after the calls.
pub fn run_calls_extent<'a>(records: &'a [u8], files: &'a [u8]) -> Extent
    ensures { ClaimKept (present (calls records.now files.now)) (as_extent result) }
{
    let left = left_by(records, files);
    survey::extent(left)
}
