// Grids over a survey file's points, from bytes to bytes: the grid file, and the Esri ASCII grid. Answers and lent numbers are those that C asks for.
#![tactic(auto)]

ghost use Rattle.std.specs.Prelude.{◌≡◌};
ghost use Rattle.grid_rules.specs.GridOf.{grid_of, grid_from};
ghost use Rattle.file_grids.specs.WritesGrid.{WritesGrid, WritesEsri};

use grid::Grid;

fn grid_from(x0: u16, y0: u16, step_x: u16, step_y: u16, columns: u16, rows: u16) -> Grid
    ensures { grid_of result ≡ grid_from x0 y0 step_x step_y columns rows }
{
    Grid {
        x0,
        y0,
        step_x,
        step_y,
        columns,
        rows,
    }
}

// The grid file to the front of the lent bytes, and its length: refusals 9 to 15, then 7, 6, 8.
pub fn grid_file(
    file: &[u8],
    x0: u16,
    y0: u16,
    step_x: u16,
    step_y: u16,
    columns: u16,
    rows: u16,
    out: &mut [u8],
    length: &mut usize,
) -> u8
    ensures { WritesGrid file.now (grid_from x0 y0 step_x step_y columns rows)
        out.old length.old result out.new length.new }
{
    let s = match file_access::read(file) {
        Ok(s) => s,
        Err(e) => return e.number(),
    };
    let g = grid_from(x0, y0, step_x, step_y, columns, rows);
    let written = grid::write(s, g, out);
    file_access::tell_length(written, length)
}

// The Esri ASCII grid to the front of the lent bytes, and its length: refusals 9 to 15, then 7, 16, 6, 8.
pub fn esri(
    file: &[u8],
    x0: u16,
    y0: u16,
    step_x: u16,
    step_y: u16,
    columns: u16,
    rows: u16,
    out: &mut [u8],
    length: &mut usize,
) -> u8
    ensures { WritesEsri file.now (grid_from x0 y0 step_x step_y columns rows)
        out.old length.old result out.new length.new }
{
    let s = match file_access::read(file) {
        Ok(s) => s,
        Err(e) => return e.number(),
    };
    let g = grid_from(x0, y0, step_x, step_y, columns, rows);
    let text = esri::write(s, g, out);
    file_access::tell_length(text, length)
}
