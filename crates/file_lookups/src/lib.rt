// Lookups in the points of a survey file: at one location, to numbers, and at a list of them, from bytes to bytes. Answers and lent numbers are those that C asks for.
#![tactic(auto)]

ghost use Rattle.model.specs.Point.{location};
ghost use Rattle.model.specs.Refusals.{lookup_refusal};
ghost use Rattle.refusal.specs.Numbered.{code};
ghost use Rattle.file_lookups.specs.FileLookups.{Finds, ManyFound};

use refusal::Refusal;

// The interpolated value at a location: refusals 9 to 15, then 1, 6.
pub fn lookup(
    file: &[u8],
    x: u32,
    y: u32,
    answer: &mut i16,
    count: &mut usize,
    radius: &mut u32,
) -> u8
    ensures { Finds (lookup_refusal x y) file.now (location x y) answer.old count.old radius.old
        result answer.new count.new radius.new }
{
    let s = match file_access::read(file) {
        Ok(s) => s,
        Err(e) => return e.number(),
    };
    let found = survey::lookup(s, x, y);
    file_access::tell_answer(found, answer, count, radius)
}

// The answers at a list of locations, and why there are none.
fn many(file: &[u8], locations: &[u8], out: &mut [u8]) -> Result<(), Refusal>
    ensures { ManyFound file.now locations.now out.old (code result) out.new }
{
    let s = file_access::read(file)?;
    many_lookups::write(s, locations, out)
}

// The answers at a list of locations: refusals 9 to 15, then 1 or 6 of the first that is refused, then 8.
pub fn lookup_many(file: &[u8], locations: &[u8], out: &mut [u8]) -> u8
    ensures { ManyFound file.now locations.now out.old result out.new }
{
    match many(file, locations, out) {
        Ok(()) => 0,
        Err(e) => e.number(),
    }
}
