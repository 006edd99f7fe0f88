// A grid that is filled one row a call, over the survey as it stood at the begin: document 02, §6.
#![tactic(auto)]

ghost use Rattle.std.specs.Prelude.{◌≡◌, length};
ghost use Rattle.model.specs.Filling.{NoGrid, row_refusal, row_into};
ghost use Rattle.refusal.specs.Numbered.{code, numbered};
ghost use Rattle.grid_rows.specs.FillingOf.{filling_of, Begins, Advances, rowed_as, RowRounded};

pub use grid_rules::Grid;
use refusal::Refusal;
use survey::Survey;

// The grid being filled: the survey at the begin, the grid, and the index of its next row. It stands beside the survey, which is edited meanwhile; a grid that no begin accepts stands for none begun.
#[derive(Clone, Copy)]
pub struct Filling {
    survey: Survey,
    grid: Grid,
    next: usize,
}

// What a row answers: its index, counted from 0, and how many cells it has.
#[derive(Clone, Copy)]
pub struct FilledRow {
    pub index: usize,
    pub cells: usize,
}

// No grid begun.
pub fn none() -> Filling
    ensures { filling_of result ≡ NoGrid }
{
    Filling {
        survey: survey::fresh(),
        grid: Grid {
            x0: 0,
            y0: 0,
            step_x: 0,
            step_y: 0,
            columns: 0,
            rows: 0,
        },
        next: 0,
    }
}

// A grid over the survey as it is now, in place of the one being filled: refusals 7, 6.
pub fn begin(f: &mut Filling, s: Survey, g: Grid) -> Result<(), Refusal>
    ensures { Begins f.old s g result f.new }
{
    grid_rules::refusal(g, survey::count(s), 0, 0)?;
    *f = Filling {
        survey: s,
        grid: g,
        next: 0,
    };
    Ok(())
}

// Refusal 17, with no grid begun or after its last row: that of a row where enough is lent.
fn finished_refusal(f: Filling) -> Result<(), Refusal>
    ensures { code result ≡ row_refusal (filling_of f) f.grid.columns }
{
    let g = f.grid;
    let begun = grid_rules::refusal(g, survey::count(f.survey), 0, 0);
    if begun.is_ok() && f.next < g.rows as usize {
        return Ok(());
    }
    Err(Refusal::NoRow)
}

// Refusals 17, 8: of the next row where `lent` cells are lent.
fn row_refusal(f: Filling, lent: usize) -> Result<(), Refusal>
    ensures { code result ≡ row_refusal (filling_of f) lent }
{
    let g = f.grid;
    let finished = finished_refusal(f);
    let room = grid_rules::room_refusal(lent, g.columns as usize);
    finished.and(room)
}

// The next row's cells to the front of the lent ones, which row it is, and how many cells it has: refusals 17, 8.
pub fn row(f: &mut Filling, out: &mut [i16]) -> Result<FilledRow, Refusal>
    ensures answer_value { numbered result ≡ rowed_as (filling_of f.old) (length out.old) }
    ensures advances { Advances f.old (length out.old) f.new }
    ensures out_after { out.new ≡ row_into (filling_of f.old) out.old }
    ensures row_rounded { RowRounded (filling_of f.old) (numbered result) }
{
    row_refusal(*f, out.len())?;
    let s = f.survey;
    let g = f.grid;
    let r = f.next;
    let n = g.columns as usize;
    grid_cells::fill_row(s, g, r, &mut out[..n]);
    f.next = r + 1;
    Ok(FilledRow { index: r, cells: n })
}
