// A grid's cells over a survey, row by row, into lent cells and into an array of their own.
#![tactic(auto)]

ghost use Rattle.std.specs.Prelude.{◌≡◌, true, ◌<◌, length, take};
ghost use Rattle.model.specs.Grid.{proper, cell_count, cell_location, row, cells as cells_of};
ghost use Rattle.refusal.specs.Numbered.{numbered};
ghost use Rattle.grid_rules.specs.GridOf.{grid_of};
ghost use Rattle.survey.specs.StateOf.{state_of};
ghost use Rattle.survey.specs.LookedUp.{looked_up, Rounded};
ghost use Rattle.grid_cells.specs.CellsRight.{RowRight, CellsRight};

use grid_rules::Grid;
use refusal::Refusal;
use survey::{Found, Survey};

// The lookup where column c and row r are.
fn look(s: Survey, g: Grid, c: usize, r: usize) -> Result<Found, Refusal>
    requires { (c < 64) × (r < 64) }
    ensures value { numbered result ≡ looked_up (state_of s) (cell_location (grid_of g) c r).x (cell_location (grid_of g) c r).y }
    ensures rounded { Rounded (state_of s) (cell_location (grid_of g) c r) (numbered result) }
{
    let x = grid_rules::coordinate(g.x0, g.step_x, c);
    let y = grid_rules::coordinate(g.y0, g.step_y, r);
    survey::lookup(s, x, y)
}

// The cells of row r, x ascending.
pub fn fill_row(s: Survey, g: Grid, r: usize, out: &mut [i16])
    requires { (proper (grid_of g) ≡ true) × (0 < length (state_of s).contents.points) × (r < g.rows) × (length out.old ≡ g.columns) }
    ensures out_after { out.new ≡ row (state_of s) (grid_of g) r }
    ensures row_right { RowRight (state_of s) (grid_of g) r }
{
    for (c, cell) in out.iter_mut().enumerate() {
        let Ok(found) = look(s, g, c, r) else {
            return;
        };
        *cell = found.answer;
    }
}

// All cells, y ascending.
pub fn fill(s: Survey, g: Grid, out: &mut [i16])
    requires { (proper (grid_of g) ≡ true) × (0 < length (state_of s).contents.points) × (length out.old ≡ cell_count (grid_of g)) }
    ensures out_after { out.new ≡ cells_of (state_of s) (grid_of g) }
    ensures cells_right { CellsRight (state_of s) (grid_of g) }
{
    let columns = usize::from(g.columns);
    let mut at = 0;
    // By the index of the row: the contract of chunks_exact_mut does not say what the list ends as.
    for r in 0..usize::from(g.rows) {
        let end = at + columns;
        fill_row(s, g, r, &mut out[at..end]);
        at = end;
    }
}

// Room for the cells of the largest grid.
fn blank() -> [i16; 4096]
    ensures { 4096 ≡ length result }
{
    [0; 4096]
}

// All cells at the front of an array of their own; what stands behind them is free.
pub fn cells(s: Survey, g: Grid) -> [i16; 4096]
    requires { (proper (grid_of g) ≡ true) × (0 < length (state_of s).contents.points) }
    ensures result_value { (take (cell_count (grid_of g)) result ≡ cells_of (state_of s) (grid_of g)) × (4096 ≡ length result) }
    ensures cells_right { CellsRight (state_of s) (grid_of g) }
{
    let n = grid_rules::cell_count(g);
    let mut values = blank();
    fill(s, g, &mut values[..n]);
    values
}
