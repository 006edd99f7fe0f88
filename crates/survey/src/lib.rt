// The survey: at most 256 points, ascending by x, then y. What is kept of them stands beside them. A call that edits is lent the survey, and gives why it is refused; one that asks takes it by value.
#![tactic(auto)]

mod edits;

ghost use Rattle.std.specs.Prelude.{◌≡◌, ◌≤◌, length, Ok};
ghost use Rattle.model.specs.Point.{location};
ghost use Rattle.model.specs.Extent.{settled};
ghost use Rattle.model.specs.Refusals.{lookup_refusal};
ghost use Rattle.model.specs.SurveyFile.{written_into};
ghost use Rattle.model.specs.Calls.{Add, Change, Drop, Clear, Load, fresh as fresh_state};
ghost use Rattle.extent.specs.Kept.{as_extent};
ghost use Rattle.refusal.specs.Numbered.{numbered};
ghost use Rattle.survey_file.specs.Written.{written_as};
ghost use Rattle.lookup.specs.AnswersAs.{AnswersAs};
ghost use Rattle.survey.specs.StateOf.{contents_in, state_of, Plain};
ghost use Rattle.survey.specs.Replies.{Replies};
ghost use Rattle.survey.specs.LookedUp.{looked_up, Rounded, Decides};

pub use extent::Extent;
use lookup::Answered;
use metric::Viewpoint;
use neighbour_records::RecordList;
pub use neighbour_records::{Record, blank};
use neighbours::Chosen;
use refusal::Refusal;

#[derive(Clone, Copy)]
pub struct Survey {
    x: [u16; 256],
    y: [u16; 256],
    z: [i8; 256],
    count: usize,
    extent: Extent,
}

// What a lookup gives: the answer in 256ths of a step, the count of chosen points and the radius R in 256ths of a step.
#[derive(Clone, Copy)]
pub struct Found {
    pub answer: i16,
    pub count: usize,
    pub radius: u32,
}

// What a lookup with neighbours decides: what it gives, and the records to write to the list that it was lent.
#[derive(Clone, Copy)]
pub struct Decision {
    pub found: Found,
    pub list: RecordList,
}

// A survey of no points.
pub fn fresh() -> Survey
    ensures { (state_of result ≡ settled fresh_state) × Plain result }
{
    Survey {
        x: [0u16; 256],
        y: [0u16; 256],
        z: [0i8; 256],
        count: 0,
        extent: extent::zeros(),
    }
}

// How many points are present.
pub fn count(s: Survey) -> usize
    ensures { (result ≡ length (contents_in s).points) × (result ≤ 256) }
{
    point_arrays::clamped(s.count)
}

// What is kept of the points: the ends of their coordinates and of their values, and the initial radius R0; zeros of none.
pub fn extent(s: Survey) -> Extent
    ensures { as_extent result ≡ (state_of s).extent }
{
    let mut e = s.extent;
    e.radius = extent::clamped(e.radius);
    e
}

// A new point: refusals 1, 2, 3, 5.
pub fn add(s: &mut Survey, x: u32, y: u32, z: i32) -> Result<(), Refusal>
    ensures { Replies (Add x y z) s.old result s.new }
{
    refusals::of_add(&s.x, &s.y, s.count, x, y, z)?;
    let i = locate::rank(&s.x, &s.y, s.count, x, y);
    let t = edits::with_point(*s, i, x, y, z);
    *s = edits::settled(t);
    Ok(())
}

// Another value at a location: refusals 1, 2, 4.
pub fn change(s: &mut Survey, x: u32, y: u32, z: i32) -> Result<(), Refusal>
    ensures { Replies (Change x y z) s.old result s.new }
{
    refusals::of_change(&s.x, &s.y, s.count, x, y, z)?;
    let i = locate::find(&s.x, &s.y, s.count, x, y);
    let t = edits::with_value(*s, i, x, y, z);
    *s = edits::settled(t);
    Ok(())
}

// A point taken out: refusals 1, 4.
pub fn drop(s: &mut Survey, x: u32, y: u32) -> Result<(), Refusal>
    ensures { Replies (Drop x y) s.old result s.new }
{
    refusals::of_drop(&s.x, &s.y, s.count, x, y)?;
    let i = locate::find(&s.x, &s.y, s.count, x, y);
    let t = edits::without_point(*s, i);
    *s = edits::settled(t);
    Ok(())
}

// All points taken out.
pub fn clear(s: &mut Survey)
    ensures { Replies Clear s.old (Ok tt) s.new }
{
    let mut t = *s;
    t.count = 0;
    *s = edits::settled(t);
}

// The points of a survey file in place of the survey's: refusals 9 to 15.
pub fn load(s: &mut Survey, file: &[u8]) -> Result<(), Refusal>
    ensures { Replies (Load file.now) s.old result s.new }
{
    let f = survey_file::read(file)?;
    let xs = f.x;
    let ys = f.y;
    let zs = f.z;
    let mut t = *s;
    t.x = xs;
    t.y = ys;
    t.z = zs;
    t.count = f.count;
    *s = edits::settled(t);
    Ok(())
}

// The survey file to the front of the lent bytes, and its length: refusal 8.
pub fn write(s: Survey, out: &mut [u8]) -> Result<usize, Refusal>
    ensures value { numbered result ≡ written_as (contents_in s).points (length out.old) }
    ensures out_after { out.new ≡ written_into (contents_in s).points out.old }
{
    survey_file::write(&s.x, &s.y, &s.z, s.count, out)
}

// The answer at a location where the lookup is accepted, and the neighbours that it goes by.
fn answered(s: Survey, x: u32, y: u32) -> Answered
    requires { lookup_refusal x y (state_of s) ≡ 0 }
    ensures { AnswersAs (state_of s) (location x y) result }
{
    let v = Viewpoint {
        x: x as u16,
        y: y as u16,
    };
    let e = s.extent;
    let r0 = extent::clamped(e.radius);
    lookup::answer_at(&s.x, &s.y, &s.z, s.count, v, r0)
}

fn reported(a: Answered) -> Found
    ensures { (result.answer ≡ a.answer) × (result.count ≡ a.chosen.count) × (result.radius ≡ a.chosen.radius) }
{
    let c: Chosen = a.chosen;
    Found {
        answer: a.answer,
        count: c.count,
        radius: c.radius,
    }
}

// The interpolated value at a location: refusals 1, 6.
pub fn lookup(s: Survey, x: u32, y: u32) -> Result<Found, Refusal>
    ensures value { numbered result ≡ looked_up (state_of s) x y }
    ensures rounded { Rounded (state_of s) (location x y) (numbered result) }
{
    refusals::of_lookup(s.count, x, y)?;
    let a = answered(s, x, y);
    Ok(reported(a))
}

// A lookup with neighbours where `lent` records are lent: refusals 1, 6, 8. The crate lending writes the records.
pub fn decide(s: Survey, x: u32, y: u32, lent: usize) -> Result<Decision, Refusal>
    ensures { Decides (state_of s) x y lent result }
{
    refusals::of_lookup_neighbours(s.count, x, y, lent)?;
    let a = answered(s, x, y);
    Ok(Decision {
        found: reported(a),
        list: neighbour_records::records_of(a.chosen),
    })
}
