// What the grid programs share: how their input is read, and what they put out: document 01, "Grid and grid file", and document 02, §2.
#![tactic(auto)]

ghost use Rattle.std.specs.Prelude.{◌≡◌, ◌≤◌, List, ℕ, length};
ghost use Rattle.model.specs.Lists.{laid};
ghost use Rattle.model.specs.Refusals.{afterwards};
ghost use Rattle.model.specs.Program.{refused_text, put_out};
ghost use Rattle.refusal.specs.Numbered.{numbered, told};
ghost use Rattle.grid_io.specs.Input.{Asks};
ghost use Rattle.grid_io.specs.Output.{Puts};

use print::Streams;
use refusal::Refusal;
use survey::Survey;

// The first `length` of the bytes are meant: room for every grid file and for every Esri ASCII grid.
#[derive(Clone, Copy)]
pub struct Output {
    pub bytes: [u8; 57434],
    pub length: usize,
}

// Room for an input: one byte more than the longest file has, so that a longer one is told from it.
pub fn room() -> [u8; 65537]
    ensures { 65537 ≡ length result }
{
    [0; 65537]
}

// No bytes yet.
pub fn blank() -> [u8; 57434]
    ensures { 57434 ≡ length result }
{
    [0; 57434]
}

// The survey of an input: refusals 9 to 15, then 7 of fewer than 12 bytes before the first record.
pub fn read(input: &[u8]) -> Result<Survey, Refusal>
    ensures { Asks input.now result }
{
    let mut s = survey::fresh();
    survey::load(&mut s, input)?;
    if input.len() < 12 + 5 * survey::count(s) + 12 {
        return Err(Refusal::GridRules);
    }
    Ok(s)
}

// `refused `, the number and a line feed, of whatever number.
pub fn refusal(no: u8) -> Output
    ensures { Puts (refused_text no) result }
{
    let mut bytes = blank();
    let length = digits::line(b"refused ", no as u64, &mut bytes);
    Output { bytes, length }
}

// What is put out of bytes that a text was written to, or was refused to be.
pub fn put_out(written: Result<usize, Refusal>, bytes: [u8; 57434]) -> Output
    ensures { (no : ℕ) (text was : List ℕ) → numbered written ≡ told no (length text) → bytes ≡ afterwards no (laid text was) was → Puts (put_out no text) result }
{
    match written {
        Ok(length) => Output { bytes, length },
        Err(e) => refusal(e.number()),
    }
}

// Reads standard input to its end and writes what `run` puts out of it; nothing where a read fails.
pub fn serve<F: FnOnce(&[u8]) -> Output>(rt: &HostRuntime, run: F)
    requires callable { F.IsAlwaysCallable run }
    requires room { (input : _) (o : Output) → F.post run input o → o.length ≤ length o.bytes }
{
    let mut io = Streams::new(rt);
    let mut input = room();
    let n = print::fill(&mut io, &mut input);
    if n < input.len() && !print::input_ended(&mut io) {
        return;
    }
    let o = run(&input[..n]);
    print::word(&mut io, &o.bytes[..o.length]);
}
