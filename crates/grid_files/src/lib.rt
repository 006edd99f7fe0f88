// Grid files read for callers in C and Rust: the six numbers to lent numbers, the cells to lent cells. Answers and lent numbers are those that C asks for.
#![tactic(auto)]

ghost use Rattle.grid_rules.specs.GridOf.{grid_from};
ghost use Rattle.grid_files.specs.GridTold.{GridTold, CellsTold};

// The six numbers of a grid file: refusals 9, 10, 7, 12.
pub fn check(
    file: &[u8],
    x0: &mut u16,
    y0: &mut u16,
    step_x: &mut u16,
    step_y: &mut u16,
    columns: &mut u16,
    rows: &mut u16,
) -> u8
    ensures { GridTold file.now
        (grid_from x0.old y0.old step_x.old step_y.old columns.old rows.old)
        result (grid_from x0.new y0.new step_x.new step_y.new columns.new rows.new) }
{
    let g = match grid_reading::open(file) {
        Ok(g) => g,
        Err(e) => return e.number(),
    };
    *x0 = g.x0;
    *y0 = g.y0;
    *step_x = g.step_x;
    *step_y = g.step_y;
    *columns = g.columns;
    *rows = g.rows;
    0
}

// The cells of a grid file to the front of the lent ones, and how many there are: refusals 9, 10, 7, 12, 8.
pub fn cells(file: &[u8], out: &mut [i16], count: &mut usize) -> u8
    ensures { CellsTold file.now out.old count.old result out.new count.new }
{
    match grid_reading::cells(file, out) {
        Ok(n) => {
            *count = n;
            0
        }
        Err(e) => e.number(),
    }
}
