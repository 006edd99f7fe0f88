// One point of a survey file edited, from bytes to bytes: the file after the call, with no preamble. Answers and lent numbers are those that C asks for.
#![tactic(auto)]

ghost use Rattle.std.specs.Prelude.{Result, ⊤};
ghost use Rattle.model.specs.Calls.{Call, Add, Change, Drop};
ghost use Rattle.refusal.specs.declared.Refusal.{Refusal};
ghost use Rattle.survey.specs.Replies.{Replies};
ghost use Rattle.file_edits.specs.Edits.{Edits};

use refusal::Refusal;
use survey::Survey;

// What a step makes of the points of a file: refusals 9 to 15, then the step's own, then 8.
fn edit<F: FnOnce(&mut Survey) -> Result<(), Refusal>>(
    file: &[u8],
    step: F,
    out: &mut [u8],
    length: &mut usize,
) -> u8
    requires { F.IsAlwaysCallable step }
    ensures { (c : Call) → ((s : _) (r : Result ⊤ Refusal) (t : _) → F.post step s r t → Replies c s.now r t.now) → Edits c file.now out.old length.old result out.new length.new }
{
    let mut s = match file_access::read(file) {
        Ok(s) => s,
        Err(e) => return e.number(),
    };
    let called = step(&mut s);
    file_access::save(called, s, out, length)
}

// A new point: refusals 9 to 15, then 1, 2, 3, 5, then 8.
pub fn add(file: &[u8], x: u32, y: u32, z: i32, out: &mut [u8], length: &mut usize) -> u8
    ensures { Edits (Add x y z) file.now out.old length.old
        result out.new length.new }
{
    edit(file, |s| survey::add(s, x, y, z), out, length)
}

// Another value at a location: refusals 9 to 15, then 1, 2, 4, then 8.
pub fn change(file: &[u8], x: u32, y: u32, z: i32, out: &mut [u8], length: &mut usize) -> u8
    ensures { Edits (Change x y z) file.now out.old length.old
        result out.new length.new }
{
    edit(file, |s| survey::change(s, x, y, z), out, length)
}

// A point taken out: refusals 9 to 15, then 1, 4, then 8.
pub fn drop(file: &[u8], x: u32, y: u32, out: &mut [u8], length: &mut usize) -> u8
    ensures { Edits (Drop x y) file.now out.old length.old
        result out.new length.new }
{
    edit(file, |s| survey::drop(s, x, y), out, length)
}
