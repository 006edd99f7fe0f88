// Lookups that are lent a list for the records of the neighbours; they decide nothing, and stand apart from the survey.
#![tactic(auto)]

ghost use Rattle.std.specs.Prelude.{◌≡◌, ◌++◌, min, length, take, drop};
ghost use Rattle.model.specs.Point.{location};
ghost use Rattle.model.specs.Lent.{neighbours_into};
ghost use Rattle.neighbour_records.specs.Records.{record_of};
ghost use Rattle.refusal.specs.Numbered.{numbered};
ghost use Rattle.survey.specs.StateOf.{state_of};
ghost use Rattle.lending.specs.LentAs.{LentAs};
ghost use Rattle.survey.specs.LookedUp.{looked_up_lent, Rounded};

use refusal::Refusal;
use survey::{Found, Record, Survey};

// What a lookup lent records of an array gives: the answer, and the array after the call.
#[derive(Clone, Copy)]
pub struct AnswerWithRecords {
    pub answer: Result<Found, Refusal>,
    pub records: [Record; 32],
}

// The answer of `survey::lookup`, and the chosen points' records, in order of choice, to the front of the lent list: refusals 1, 6, 8.
pub fn lookup_neighbours<'a>(
    s: Survey,
    x: u32,
    y: u32,
    list: &'a mut [Record],
) -> Result<Found, Refusal>
    ensures { LentAs (state_of s) x y list.old (numbered result) list.new }
{
    let decision = survey::decide(s, x, y, list.len())?;
    neighbour_records::fill(list, decision.list);
    Ok(decision.found)
}

// The same for a caller that holds its records in an array, of which it lends the first n.
pub fn lookup_lending(
    s: Survey,
    x: u32,
    y: u32,
    records: [Record; 32],
    n: usize,
) -> AnswerWithRecords
    ensures { (numbered result.answer ≡ looked_up_lent (state_of s) x y (length (take n records)))
        × Rounded (state_of s) (location x y) (numbered result.answer)
        × (result.records ≡ neighbours_into record_of (state_of s) x y (take n records) ++ drop n records) }
{
    let mut list = records;
    let answer = lookup_neighbours(s, x, y, &mut list[..n.min(32)]);
    AnswerWithRecords {
        answer,
        records: list,
    }
}
