// The survey file: from bytes to arrays of points, by the trailer at the end, and back.
#![tactic(auto)]

ghost use Rattle.std.specs.Prelude.{◌≡◌, length};
ghost use Rattle.model.specs.SurveyFile.{written_into};
ghost use Rattle.point_arrays.specs.PointArrays.{points_in};
ghost use Rattle.survey_file.specs.Reading.{ReadsAs};
ghost use Rattle.refusal.specs.Numbered.{numbered};
ghost use Rattle.survey_file.specs.Written.{written_as};

use refusal::Refusal;

// The points of a file: the first `count` of the arrays' elements.
#[derive(Clone, Copy)]
pub struct Reading {
    pub x: [u16; 256],
    pub y: [u16; 256],
    pub z: [i8; 256],
    pub count: usize,
}

// Reads a survey file: refusals 9 to 15.
pub fn read(file: &[u8]) -> Result<Reading, Refusal>
    ensures { ReadsAs file.now result }
{
    trailer::check(file)?;
    let end = file.len() - 12;
    let count = numbers::word_at(file, end);
    let start = end - 5 * count;
    let p = read_points::read(&file[start..end], count)?;
    let x = p.x;
    let y = p.y;
    let z = p.z;
    Ok(Reading { x, y, z, count })
}

// Writes the file of the points to the front of the lent bytes: refusal 8 where they are too few.
pub fn write<'a>(
    x: &'a [u16; 256],
    y: &'a [u16; 256],
    z: &'a [i8; 256],
    count: usize,
    out: &mut [u8],
) -> Result<usize, Refusal>
    ensures value { numbered result ≡ written_as (points_in x.now y.now z.now count) (length out.old) }
    ensures out_after { out.new ≡ written_into (points_in x.now y.now z.now count) out.old }
{
    let n = point_arrays::clamped(count);
    let end = 5 * n;
    if out.len() < end + 12 {
        return Err(Refusal::TooFewLent);
    }
    write_points::write(x, y, z, n, &mut out[..end]);
    let sum = numbers::total(&out[..end]);
    let t = trailer::of_records(n, sum);
    numbers::copy(&t, &mut out[end..]);
    Ok(end + 12)
}
