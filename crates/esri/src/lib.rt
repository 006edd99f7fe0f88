// The Esri ASCII grid over a survey: document 02, §2.
#![tactic(auto)]

ghost use Rattle.std.specs.Prelude.{◌≡◌, length};
ghost use Rattle.model.specs.Esri.{text_of_cells, esri_into};
ghost use Rattle.survey.specs.StateOf.{state_of};
ghost use Rattle.refusal.specs.Numbered.{numbered};
ghost use Rattle.grid_rules.specs.GridOf.{grid_of};
ghost use Rattle.grid_cells.specs.CellsRight.{WrittenRight};
ghost use Rattle.esri_text.specs.Parts.{OfCells};
ghost use Rattle.esri.specs.EsriWritten.{TextPut, esri_written_as, TextFits};

pub use grid_rules::Grid;
use refusal::Refusal;
use survey::Survey;

// The text of a grid and its cells to the front of the lent bytes, and its length, which is known before a byte is written: refusal 8.
fn put(g: Grid, values: &[i16], out: &mut [u8]) -> Result<usize, Refusal>
    requires { OfCells (grid_of g) values.now }
    ensures { TextPut (text_of_cells (grid_of g) values.now) out.old (numbered result) out.new }
{
    let length = esri_text::text_length(g, values);
    if out.len() < length {
        return Err(Refusal::TooFewLent);
    }
    esri_text::write(g, values, &mut out[..length]);
    Ok(length)
}

// The Esri ASCII grid to the front of the lent bytes, and its length: refusals 7, 16, 6, 8.
pub fn write(s: Survey, g: Grid, out: &mut [u8]) -> Result<usize, Refusal>
    ensures value { numbered result ≡ esri_written_as (state_of s) (grid_of g) (length out.old) }
    ensures out_after { out.new ≡ esri_into (state_of s) (grid_of g) out.old }
    ensures written_right { WrittenRight (state_of s) (grid_of g) (numbered result) }
    ensures text_fits { TextFits (state_of s) (grid_of g) }
{
    grid_rules::esri_refusal(g, survey::count(s))?;
    let n = grid_rules::cell_count(g);
    let values = grid_cells::cells(s, g);
    put(g, &values[..n], out)
}
