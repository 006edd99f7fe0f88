// Grids over a survey: the cells, and the grid file.
#![tactic(auto)]

ghost use Rattle.std.specs.Prelude.{◌≡◌, true, ◌<◌, length};
ghost use Rattle.model.specs.Grid.{proper, cells_into};
ghost use Rattle.model.specs.GridFile.{grid_file, grid_file_length, grid_file_into};
ghost use Rattle.refusal.specs.Numbered.{numbered};
ghost use Rattle.grid_rules.specs.GridOf.{grid_of};
ghost use Rattle.survey.specs.StateOf.{state_of};
ghost use Rattle.grid_cells.specs.CellsRight.{CellsRight, WrittenRight};
ghost use Rattle.grid.specs.FilledAs.{filled_as, FilledRight, grid_written_as};

pub use grid_rules::Grid;
use refusal::Refusal;
use survey::Survey;

// The grid's cells to the front of the lent ones, and how many they are: refusals 7, 6, 8.
pub fn cells(s: Survey, g: Grid, out: &mut [i16]) -> Result<usize, Refusal>
    ensures value { numbered result ≡ filled_as (state_of s) (grid_of g) (length out.old) }
    ensures out_after { out.new ≡ cells_into (state_of s) (grid_of g) out.old }
    ensures filled_right { FilledRight (state_of s) (grid_of g) (numbered result) }
{
    let n = grid_rules::cell_count(g);
    grid_rules::refusal(g, survey::count(s), out.len(), n)?;
    grid_cells::fill(s, g, &mut out[..n]);
    Ok(n)
}

// All bytes of the grid file.
fn encode(s: Survey, g: Grid, out: &mut [u8])
    requires { (proper (grid_of g) ≡ true) × (0 < length (state_of s).contents.points) × (length out.old ≡ grid_file_length (grid_of g)) }
    ensures out_after { out.new ≡ grid_file (state_of s) (grid_of g) }
    ensures cells_right { CellsRight (state_of s) (grid_of g) }
{
    let n = grid_rules::cell_count(g);
    let values = grid_cells::cells(s, g);
    grid_bytes::write(g, &values[..n], out);
}

// The grid file to the front of the lent bytes, and its length: refusals 7, 6, 8.
pub fn write(s: Survey, g: Grid, out: &mut [u8]) -> Result<usize, Refusal>
    ensures value { numbered result ≡ grid_written_as (state_of s) (grid_of g) (length out.old) }
    ensures out_after { out.new ≡ grid_file_into (state_of s) (grid_of g) out.old }
    ensures written_right { WrittenRight (state_of s) (grid_of g) (numbered result) }
{
    let n = grid_rules::cell_count(g);
    let len = 2 * n + 20;
    grid_rules::refusal(g, survey::count(s), out.len(), len)?;
    encode(s, g, &mut out[..len]);
    Ok(len)
}
