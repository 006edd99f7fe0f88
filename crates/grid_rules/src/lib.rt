// A grid's six numbers, their rules, and why a grid is refused: document 01, "Grid and grid file", and document 02, §2.
#![tactic(auto)]

ghost use Rattle.std.specs.Prelude.{◌≡◌, cond, ◌+◌, ◌*◌, ◌^◌, ◌<◌, eqb, length};
ghost use Rattle.model.specs.Point.{State};
ghost use Rattle.model.specs.Refusals.{enough};
ghost use Rattle.model.specs.Grid.{axis, proper, cell_count, grid_check};
ghost use Rattle.model.specs.Esri.{esri_check};
ghost use Rattle.refusal.specs.Numbered.{code};
ghost use Rattle.grid_rules.specs.GridOf.{grid_of};

use refusal::Refusal;

// The first column and row stand at (x0, y0), the others a step apart.
#[derive(Clone, Copy)]
pub struct Grid {
    pub x0: u16,
    pub y0: u16,
    pub step_x: u16,
    pub step_y: u16,
    pub columns: u16,
    pub rows: u16,
}

// Where column or row i is, counted from 0; it may lie past 16 bits.
pub fn coordinate(start: u16, step: u16, i: usize) -> u32
    requires { i < 64 }
    ensures { result ≡ start + i * step }
{
    u32::from(start) + i as u32 * u32::from(step)
}

// Whether the columns or the rows keep the rules.
fn is_axis(start: u16, step: u16, count: u16) -> bool
    ensures { result ≡ axis start step count }
{
    0 < step && (1..=64).contains(&count) && coordinate(start, step, usize::from(count) - 1) <= 4095
}

fn is_proper(g: Grid) -> bool
    ensures { result ≡ proper (grid_of g) }
{
    is_axis(g.x0, g.step_x, g.columns) && is_axis(g.y0, g.step_y, g.rows)
}

pub fn cell_count(g: Grid) -> usize
    ensures { (result ≡ cell_count (grid_of g)) × (result < 2 ^ 32) }
{
    usize::from(g.columns) * usize::from(g.rows)
}

// Refusal 7.
pub fn rules_refusal(g: Grid) -> Result<(), Refusal>
    ensures { code result ≡ cond (proper (grid_of g)) 0 7 }
{
    if is_proper(g) {
        return Ok(());
    }
    Err(Refusal::GridRules)
}

fn steps_refusal(g: Grid) -> Result<(), Refusal>
    ensures { code result ≡ cond (eqb g.step_x g.step_y) 0 16 }
{
    if g.step_x == g.step_y {
        return Ok(());
    }
    Err(Refusal::UnequalSteps)
}

fn empty_refusal(present: usize) -> Result<(), Refusal>
    ensures { code result ≡ cond (eqb present 0) 6 0 }
{
    if present == 0 {
        return Err(Refusal::Empty);
    }
    Ok(())
}

// Refusal 8.
pub fn room_refusal(lent: usize, needed: usize) -> Result<(), Refusal>
    ensures { code result ≡ enough lent needed }
{
    if lent < needed {
        return Err(Refusal::TooFewLent);
    }
    Ok(())
}

// Refusals 7, 6, 8: of a grid over `present` points that needs so many cells or bytes, where `lent` of them are lent.
pub fn refusal(g: Grid, present: usize, lent: usize, needed: usize) -> Result<(), Refusal>
    ensures { (s : State) → length s.contents.points ≡ present → code result ≡ grid_check (grid_of g) s (enough lent needed) }
{
    let rules = rules_refusal(g);
    let points = empty_refusal(present);
    let room = room_refusal(lent, needed);
    rules.and(points).and(room)
}

// Refusals 7, 16, 6: of an Esri ASCII grid over `present` points, before it is known how long its text is.
pub fn esri_refusal(g: Grid, present: usize) -> Result<(), Refusal>
    ensures { (s : State) → length s.contents.points ≡ present → code result ≡ esri_check (grid_of g) s 0 }
{
    let rules = rules_refusal(g);
    let steps = steps_refusal(g);
    let points = empty_refusal(present);
    rules.and(steps).and(points)
}
