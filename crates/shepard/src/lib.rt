// The library for C and Rust. Its state is the bytes of a survey file: a function reads the file, makes one call and writes what comes of it. Two read a grid file.
// In C a slice is two parameters, an address and a length. What is lent to be written overlaps nothing else that is handed over.
// A static library has the functions of its own crate alone, so each call is handed on here to the crate that makes it.
#![tactic(auto)]

ghost use Rattle.std.specs.Prelude.{◌≡◌, ◌/◌, length};
ghost use Rattle.model.specs.Lists.{laid};
ghost use Rattle.model.specs.Point.{location};
ghost use Rattle.model.specs.Refusals.{lookup_refusal, neighbours_refusal, afterwards};
ghost use Rattle.model.specs.SurveyFile.{file_refusal, file_points};
ghost use Rattle.model.specs.Calls.{Add, Change, Drop, fresh};
ghost use Rattle.file_access.specs.Access.{Writes};
ghost use Rattle.whole_files.specs.Counts.{Counts};
ghost use Rattle.file_edits.specs.Edits.{Edits};
ghost use Rattle.file_lookups.specs.FileLookups.{Finds, ManyFound};
ghost use Rattle.file_neighbours.specs.NeighbourBytes.{neighbour_bytes};
ghost use Rattle.grid_rules.specs.GridOf.{grid_from};
ghost use Rattle.file_grids.specs.WritesGrid.{WritesGrid, WritesEsri};
ghost use Rattle.grid_files.specs.GridTold.{GridTold, CellsTold};

// The file of a survey of no points: refusal 8.
#[unsafe(no_mangle)]
pub extern "C" fn shepard_fresh(out: &mut [u8], length: &mut usize) -> u8
    ensures { Writes 0 fresh.points out.old length.old result out.new length.new }
{
    whole_files::fresh(out, length)
}

// How many points a file has: refusals 9 to 15.
#[unsafe(no_mangle)]
pub extern "C" fn shepard_check(file: &[u8], count: &mut usize) -> u8
    ensures { Counts file.now count.old result count.new }
{
    whole_files::check(file, count)
}

// The file of the same points with no preamble: refusals 9 to 15, then 8.
#[unsafe(no_mangle)]
pub extern "C" fn shepard_rewrite(file: &[u8], out: &mut [u8], length: &mut usize) -> u8
    ensures { Writes (file_refusal file.now) (file_points file.now) out.old length.old
        result out.new length.new }
{
    whole_files::rewrite(file, out, length)
}

// A new point: refusals 9 to 15, then 1, 2, 3, 5, then 8.
#[unsafe(no_mangle)]
pub extern "C" fn shepard_add(
    file: &[u8],
    x: u32,
    y: u32,
    z: i32,
    out: &mut [u8],
    length: &mut usize,
) -> u8
    ensures { Edits (Add x y z) file.now out.old length.old
        result out.new length.new }
{
    file_edits::add(file, x, y, z, out, length)
}

// Another value at a location: refusals 9 to 15, then 1, 2, 4, then 8.
#[unsafe(no_mangle)]
pub extern "C" fn shepard_change(
    file: &[u8],
    x: u32,
    y: u32,
    z: i32,
    out: &mut [u8],
    length: &mut usize,
) -> u8
    ensures { Edits (Change x y z) file.now out.old length.old
        result out.new length.new }
{
    file_edits::change(file, x, y, z, out, length)
}

// A point taken out: refusals 9 to 15, then 1, 4, then 8.
#[unsafe(no_mangle)]
pub extern "C" fn shepard_drop(
    file: &[u8],
    x: u32,
    y: u32,
    out: &mut [u8],
    length: &mut usize,
) -> u8
    ensures { Edits (Drop x y) file.now out.old length.old
        result out.new length.new }
{
    file_edits::drop(file, x, y, out, length)
}

// The interpolated value at a location: refusals 9 to 15, then 1, 6.
#[unsafe(no_mangle)]
pub extern "C" fn shepard_lookup(
    file: &[u8],
    x: u32,
    y: u32,
    answer: &mut i16,
    count: &mut usize,
    radius: &mut u32,
) -> u8
    ensures { Finds (lookup_refusal x y) file.now (location x y) answer.old count.old radius.old
        result answer.new count.new radius.new }
{
    file_lookups::lookup(file, x, y, answer, count, radius)
}

// The answers at a list of locations: refusals 9 to 15, then 1 or 6 of the first that is refused, then 8.
#[unsafe(no_mangle)]
pub extern "C" fn shepard_lookup_many(file: &[u8], locations: &[u8], out: &mut [u8]) -> u8
    ensures { ManyFound file.now locations.now out.old result out.new }
{
    file_lookups::lookup_many(file, locations, out)
}

// The answer of `shepard_lookup`, and the chosen points' records as bytes, ten each, in order of choice: refusals 9 to 15, then 1, 6, 8.
#[unsafe(no_mangle)]
pub extern "C" fn shepard_lookup_neighbours(
    file: &[u8],
    x: u32,
    y: u32,
    records: &mut [u8],
    answer: &mut i16,
    count: &mut usize,
    radius: &mut u32,
) -> u8
    ensures finds { Finds (neighbours_refusal x y (length records.old / 10)) file.now (location x y)
        answer.old count.old radius.old
        result answer.new count.new radius.new }
    ensures records_after { records.new
        ≡ afterwards result (laid (neighbour_bytes file.now (location x y)) records.old) records.old }
{
    file_neighbours::lookup_neighbours(file, x, y, records, answer, count, radius)
}

// The grid file to the front of the lent bytes, and its length: refusals 9 to 15, then 7, 6, 8.
#[unsafe(no_mangle)]
pub extern "C" fn shepard_grid_file(
    file: &[u8],
    x0: u16,
    y0: u16,
    step_x: u16,
    step_y: u16,
    columns: u16,
    rows: u16,
    out: &mut [u8],
    length: &mut usize,
) -> u8
    ensures { WritesGrid file.now (grid_from x0 y0 step_x step_y columns rows)
        out.old length.old result out.new length.new }
{
    file_grids::grid_file(file, x0, y0, step_x, step_y, columns, rows, out, length)
}

// The Esri ASCII grid to the front of the lent bytes, and its length: refusals 9 to 15, then 7, 16, 6, 8.
#[unsafe(no_mangle)]
pub extern "C" fn shepard_esri(
    file: &[u8],
    x0: u16,
    y0: u16,
    step_x: u16,
    step_y: u16,
    columns: u16,
    rows: u16,
    out: &mut [u8],
    length: &mut usize,
) -> u8
    ensures { WritesEsri file.now (grid_from x0 y0 step_x step_y columns rows)
        out.old length.old result out.new length.new }
{
    file_grids::esri(file, x0, y0, step_x, step_y, columns, rows, out, length)
}

// The six numbers of a grid file: refusals 9, 10, 7, 12.
#[unsafe(no_mangle)]
pub extern "C" fn shepard_grid_check(
    file: &[u8],
    x0: &mut u16,
    y0: &mut u16,
    step_x: &mut u16,
    step_y: &mut u16,
    columns: &mut u16,
    rows: &mut u16,
) -> u8
    ensures { GridTold file.now
        (grid_from x0.old y0.old step_x.old step_y.old columns.old rows.old)
        result (grid_from x0.new y0.new step_x.new step_y.new columns.new rows.new) }
{
    grid_files::check(file, x0, y0, step_x, step_y, columns, rows)
}

// The cells of a grid file to the front of the lent ones, and how many there are: refusals 9, 10, 7, 12, then 8.
#[unsafe(no_mangle)]
pub extern "C" fn shepard_grid_cells(file: &[u8], cells: &mut [i16], count: &mut usize) -> u8
    ensures { CellsTold file.now cells.old count.old result cells.new count.new }
{
    grid_files::cells(file, cells, count)
}
