// The Esri ASCII grid of a grid and its cells, and its length: document 02, §2.
#![tactic(auto)]

ghost use Rattle.std.specs.Prelude.{◌≡◌, ◌+◌, ◌*◌, ◌<◌, ◌≤◌, length};
ghost use Rattle.model.specs.Lists.{laid};
ghost use Rattle.model.specs.Decimal.{places};
ghost use Rattle.model.specs.Esri.{header_lines, ended, text_of_cells};
ghost use Rattle.digits.specs.Line.{line_of};
ghost use Rattle.grid_rules.specs.GridOf.{grid_of};
ghost use Rattle.esri_text.specs.Parts.{laid_at, OfCells, rows_text};

use grid_rules::Grid;

// How many digits a number of 16 bits has.
fn places_of(n: u16) -> usize
    ensures { (result ≡ places n) × (result ≤ 5) }
{
    digits::places(u64::from(n))
}

// The keywords, the spaces after them, `-9999` and the line feeds are 65 bytes.
fn header_length(g: Grid) -> usize
    ensures { (result ≡ length (ended (header_lines (grid_of g)))) × (result ≤ 90) }
{
    let size = places_of(g.columns) + places_of(g.rows);
    let start = places_of(g.x0) + places_of(g.y0);
    65 + size + start + places_of(g.step_x)
}

// How many bytes the text takes.
pub fn text_length(g: Grid, values: &[i16]) -> usize
    requires { OfCells (grid_of g) values.now }
    ensures { (result ≡ length (text_of_cells (grid_of g) values.now)) × (result ≤ 57434) }
{
    header_length(g) + esri_cells::cells_length(values)
}

// A keyword with its space, a number and a line feed from `at` on, and where they end.
fn put_line(keyword: &[u8], n: u16, out: &mut [u8], at: usize) -> usize
    requires { at + length (line_of keyword.now n) ≤ length out.old }
    ensures value { result ≡ at + length (line_of keyword.now n) }
    ensures out_after { out.new ≡ laid_at at (line_of keyword.now n) out.old }
{
    at + digits::line(keyword, u64::from(n), &mut out[at..])
}

// The header's six lines, and how many bytes they take; the last one is of cells with no data, of which there are none.
fn put_header(g: Grid, out: &mut [u8]) -> usize
    requires { length (ended (header_lines (grid_of g))) ≤ length out.old }
    ensures value { result ≡ length (ended (header_lines (grid_of g))) }
    ensures out_after { out.new ≡ laid (ended (header_lines (grid_of g))) out.old }
{
    let rows = put_line(b"ncols ", g.columns, out, 0);
    let x = put_line(b"nrows ", g.rows, out, rows);
    let y = put_line(b"xllcenter ", g.x0, out, x);
    let step = put_line(b"yllcenter ", g.y0, out, y);
    let none = put_line(b"cellsize ", g.step_x, out, step);
    put_line(b"NODATA_value -", 9999, out, none)
}

// The rows, from the last to the first.
fn put_rows(g: Grid, values: &[i16], out: &mut [u8])
    requires { OfCells (grid_of g) values.now × (length (rows_text (grid_of g) values.now) ≡ length out.old) }
    ensures { out.new ≡ rows_text (grid_of g) values.now }
{
    let columns = usize::from(g.columns);
    let mut at = 0;
    for r in (0..usize::from(g.rows)).rev() {
        let first = columns * r;
        at += esri_cells::put_row(&values[first..first + columns], &mut out[at..]);
    }
}

// The whole text, where as many bytes are lent.
pub fn write(g: Grid, values: &[i16], out: &mut [u8])
    requires { OfCells (grid_of g) values.now × (length (text_of_cells (grid_of g) values.now) ≡ length out.old) }
    ensures { out.new ≡ text_of_cells (grid_of g) values.now }
{
    let at = put_header(g, out);
    put_rows(g, values, &mut out[at..]);
}
