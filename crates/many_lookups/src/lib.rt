// Lookups at a list of locations, from bytes to bytes.
#![tactic(auto)]

ghost use Rattle.std.specs.Prelude.{◌≡◌, ◌+◌, ◌*◌, ◌/◌, ◌<◌, ◌≤◌, min, length};
ghost use Rattle.model.specs.Lists.{laid};
ghost use Rattle.model.specs.Bytes.{word_at};
ghost use Rattle.model.specs.Point.{State};
ghost use Rattle.refusal.specs.Numbered.{code};
ghost use Rattle.survey.specs.StateOf.{state_of};
ghost use Rattle.many_lookups.specs.Locations.{locations_in};
ghost use Rattle.many_lookups.specs.AnswersInto.{first_refusal, answer_fields, answers_bytes, AllRight, AnswersInto};

use refusal::Refusal;
use survey::{Found, Survey};

// The coordinate in the two bytes at i.
fn coordinate(locations: &[u8], i: usize) -> u32
    requires { i + 1 < length locations.now }
    ensures { result ≡ word_at locations.now i }
{
    numbers::word_at(locations, i) as u32
}

// Why the first lookup that is refused is refused, in a survey of n points. It is known before a byte is written.
fn refusal(n: usize, locations: &[u8]) -> Result<(), Refusal>
    ensures { (s : State) → length s.contents.points ≡ min n 256 → code result ≡ first_refusal s (locations_in locations.now) }
{
    let count = locations.len() / 4;
    for i in 0..count {
        let at = 4 * i;
        let x = coordinate(locations, at);
        let y = coordinate(locations, at + 2);
        refusals::of_lookup(n, x, y)?;
    }
    Ok(())
}

// The answer in two bytes, the count in two, the radius in four.
fn fields(f: Found) -> [u8; 8]
    ensures { result ≡ answer_fields f.answer f.count f.radius }
{
    let mut b = [0; 8];
    b[..2].copy_from_slice(&f.answer.to_be_bytes());
    b[2..4].copy_from_slice(&((f.count % 65536) as u16).to_be_bytes());
    b[4..].copy_from_slice(&f.radius.to_be_bytes());
    b
}

// The answers to the front of the lent bytes; the rest of them is untouched. Every lookup is accepted, so the `else` cannot come.
fn fill(s: Survey, locations: &[u8], out: &mut [u8])
    requires { (first_refusal (state_of s) (locations_in locations.now) ≡ 0) × (8 * (length locations.now / 4) ≤ length out.old) }
    ensures out_after { out.new ≡ laid (answers_bytes (state_of s) (locations_in locations.now)) out.old }
    ensures all_right { AllRight (state_of s) (locations_in locations.now) }
{
    let count = locations.len() / 4;
    for i in 0..count {
        let from = 4 * i;
        let x = coordinate(locations, from);
        let y = coordinate(locations, from + 2);
        let Ok(found) = survey::lookup(s, x, y) else {
            return;
        };
        let b = fields(found);
        let at = 8 * i;
        numbers::copy(&b, &mut out[at..]);
    }
}

// The answers at the locations, eight bytes each, to the front of the lent bytes: the first lookup's refusal, 1 or 6, then 8.
pub fn write(s: Survey, locations: &[u8], out: &mut [u8]) -> Result<(), Refusal>
    ensures { AnswersInto (state_of s) locations.now out.old (code result) out.new }
{
    refusal(survey::count(s), locations)?;
    if out.len() / 8 < locations.len() / 4 {
        return Err(Refusal::TooFewLent);
    }
    fill(s, locations, out);
    Ok(())
}
