// The last twenty bytes of a grid file, checked on reading, and the six numbers that bytes begin with: document 01, "Grid and grid file".
#![tactic(auto)]

ghost use Rattle.std.specs.Prelude.{◌≡◌, ◌+◌, ◌≤◌, ◌<◌, length, drop};
ghost use Rattle.model.specs.Bytes.{word_at, same};
ghost use Rattle.model.specs.GridFile.{grid_magic, grid_in};
ghost use Rattle.model.specs.GridReading.{columns_length, some_length, grid_file_check};
ghost use Rattle.refusal.specs.Numbered.{code};
ghost use Rattle.grid_rules.specs.GridOf.{grid_of};

use grid_rules::Grid;
use refusal::Refusal;

// The magic: the last four of them.
const MAGIC: [u8; 4] = *b"RLG1";

// The number in the two bytes at i.
fn word(bytes: &[u8], i: usize) -> u16
    requires { i + 1 < length bytes.now }
    ensures { result ≡ word_at bytes.now i }
{
    numbers::word_at(bytes, i) as u16
}

// The grid that bytes begin with: six numbers, two bytes each.
pub fn grid_of(bytes: &[u8]) -> Grid
    requires { 12 ≤ length bytes.now }
    ensures { grid_of result ≡ grid_in bytes.now }
{
    Grid {
        x0: word(bytes, 0),
        y0: word(bytes, 2),
        step_x: word(bytes, 4),
        step_y: word(bytes, 6),
        columns: word(bytes, 8),
        rows: word(bytes, 10),
    }
}

// Whether a grid of c columns and 1 to 64 rows has a file of n bytes.
fn has_rows(n: usize, c: usize) -> bool
    requires { c ≤ 64 }
    ensures { result ≡ columns_length n c }
{
    (1..65).any(|rows| 2 * (c * rows) + 20 == n)
}

// Whether some grid has a file of n bytes.
fn has_length(n: usize) -> bool
    ensures { result ≡ some_length n }
{
    (1..65).any(|columns| has_rows(n, columns))
}

// Whether the last four bytes, from i on, are the magic.
fn has_magic(file: &[u8], i: usize) -> bool
    requires { i + 4 ≡ length file.now }
    ensures { result ≡ same (drop i file.now) grid_magic }
{
    numbers::same(&file[i..], &MAGIC)
}

// Refusals 9, 10, 7, 12.
#[tactic(auto, unfolding(model::specs::GridReading::grid_file_check))]
pub fn check(file: &[u8]) -> Result<(), Refusal>
    ensures { code result ≡ grid_file_check file.now 0 }
{
    let len = file.len();
    if !has_length(len) {
        return Err(Refusal::FileLength);
    }
    let end = len - 20;
    if !has_magic(file, end + 16) {
        return Err(Refusal::Magic);
    }
    let g = grid_of(&file[end..]);
    grid_rules::rules_refusal(g)?;
    let cells = 2 * grid_rules::cell_count(g);
    if numbers::long_at(file, end + 12) != cells || len != cells + 20 {
        return Err(Refusal::BackDistance);
    }
    Ok(())
}
