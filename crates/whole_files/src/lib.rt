// Survey files as wholes, from bytes to bytes: made, counted and written anew. Answers and lent numbers are those that C asks for.
#![tactic(auto)]

ghost use Rattle.model.specs.SurveyFile.{file_refusal, file_points};
ghost use Rattle.model.specs.Calls.{fresh as fresh_contents};
ghost use Rattle.file_access.specs.Access.{Writes};
ghost use Rattle.whole_files.specs.Counts.{Counts};

// The file of a survey of no points: refusal 8.
pub fn fresh(out: &mut [u8], length: &mut usize) -> u8
    ensures { Writes 0 fresh_contents.points out.old length.old result out.new length.new }
{
    file_access::write(survey::fresh(), out, length)
}

// How many points a file has: refusals 9 to 15.
pub fn check(file: &[u8], count: &mut usize) -> u8
    ensures { Counts file.now count.old result count.new }
{
    let s = match file_access::read(file) {
        Ok(s) => s,
        Err(e) => return e.number(),
    };
    *count = survey::count(s);
    0
}

// The file of the same points with no preamble: refusals 9 to 15, then 8.
pub fn rewrite(file: &[u8], out: &mut [u8], length: &mut usize) -> u8
    ensures { Writes (file_refusal file.now) (file_points file.now) out.old length.old
        result out.new length.new }
{
    match file_access::read(file) {
        Ok(s) => file_access::write(s, out, length),
        Err(e) => e.number(),
    }
}
