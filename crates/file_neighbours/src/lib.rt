// A lookup in the points of a survey file that gives the chosen points' records too, as bytes. Answers and lent numbers are those that C asks for.
#![tactic(auto)]

ghost use Rattle.std.specs.Prelude.{◌≡◌, ◌*◌, ◌/◌, ◌≤◌, length, take};
ghost use Rattle.model.specs.Lists.{laid};
ghost use Rattle.model.specs.Point.{location};
ghost use Rattle.model.specs.Refusals.{neighbours_refusal, afterwards};
ghost use Rattle.refusal.specs.Numbered.{numbered};
ghost use Rattle.neighbour_bytes.specs.Fields.{records_bytes};
ghost use Rattle.file_lookups.specs.FileLookups.{Finds};
ghost use Rattle.file_neighbours.specs.NeighbourBytes.{chosen_in, neighbour_bytes};

use lending::AnswerWithRecords;

// The chosen points' records to the front of the lent bytes, in order of choice; none where the lookup is refused.
fn put_records(looked: AnswerWithRecords, out: &mut [u8])
    requires { (chosen_in (numbered looked.answer) ≤ 32) × (10 * chosen_in (numbered looked.answer) ≤ length out.old) }
    ensures { out.new ≡ laid (records_bytes (take (chosen_in (numbered looked.answer)) looked.records)) out.old }
{
    let Ok(found) = looked.answer else {
        return;
    };
    neighbour_bytes::write(looked.records, found.count, out);
}

// The answer of `file_lookups::lookup`, and the chosen points' records as bytes, ten each, in order of choice: refusals 9 to 15, then 1, 6, 8.
pub fn lookup_neighbours(
    file: &[u8],
    x: u32,
    y: u32,
    records: &mut [u8],
    answer: &mut i16,
    count: &mut usize,
    radius: &mut u32,
) -> u8
    ensures finds { Finds (neighbours_refusal x y (length records.old / 10)) file.now (location x y)
        answer.old count.old radius.old
        result answer.new count.new radius.new }
    ensures records_after { records.new
        ≡ afterwards result (laid (neighbour_bytes file.now (location x y)) records.old) records.old }
{
    let s = match file_access::read(file) {
        Ok(s) => s,
        Err(e) => return e.number(),
    };
    let list = [survey::blank(); 32];
    let looked = lending::lookup_lending(s, x, y, list, records.len() / 10);
    put_records(looked, records);
    file_access::tell_answer(looked.answer, answer, count, radius)
}
