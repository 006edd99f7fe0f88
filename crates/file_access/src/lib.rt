// How the functions over a survey file's bytes read the file, write one, and tell what came of a call. They answer the refusal's number, as the functions that C calls do.
#![tactic(auto)]

ghost use Rattle.survey.specs.StateOf.{contents_in};
ghost use Rattle.refusal.specs.Numbered.{code, numbered};
ghost use Rattle.file_access.specs.Access.{Reads, LengthTold, AnswerTold, Writes};

use refusal::Refusal;
use survey::{Found, Survey};

// The survey of a file: refusals 9 to 15.
pub fn read(file: &[u8]) -> Result<Survey, Refusal>
    ensures { Reads file.now result }
{
    let mut s = survey::fresh();
    survey::load(&mut s, file)?;
    Ok(s)
}

// The length of a written file to the lent number, or why none is written.
pub fn tell_length(w: Result<usize, Refusal>, length: &mut usize) -> u8
    ensures { LengthTold (numbered w) length.old result length.new }
{
    match w {
        Ok(n) => {
            *length = n;
            0
        }
        Err(e) => e.number(),
    }
}

// An answer's numbers to the lent ones, or why there is none.
pub fn tell_answer(
    a: Result<Found, Refusal>,
    answer: &mut i16,
    count: &mut usize,
    radius: &mut u32,
) -> u8
    ensures { AnswerTold (numbered a) answer.old count.old radius.old
        result answer.new count.new radius.new }
{
    match a {
        Ok(f) => {
            *answer = f.answer;
            *count = f.count;
            *radius = f.radius;
            0
        }
        Err(e) => e.number(),
    }
}

// The file of a survey to the front of the lent bytes, and its length: refusal 8.
pub fn write(s: Survey, out: &mut [u8], length: &mut usize) -> u8
    ensures { Writes 0 (contents_in s).points out.old length.old result out.new length.new }
{
    let written = survey::write(s, out);
    tell_length(written, length)
}

// The same of a survey that a call left: the call's refusal, then 8.
pub fn save(called: Result<(), Refusal>, s: Survey, out: &mut [u8], length: &mut usize) -> u8
    ensures { Writes (code called) (contents_in s).points out.old length.old
        result out.new length.new }
{
    match called {
        Ok(()) => write(s, out, length),
        Err(e) => e.number(),
    }
}
