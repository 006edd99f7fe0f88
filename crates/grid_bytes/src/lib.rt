// The bytes of a grid file, from a grid and its cells: document 01, "Grid and grid file".
#![tactic(auto)]

ghost use Rattle.std.specs.Prelude.{◌≡◌, ◌+◌, ◌*◌, ◌^◌, ◌<◌, ◌≤◌, length};
ghost use Rattle.model.specs.GridFile.{cells_bytes, grid_trailer, file_of_cells};
ghost use Rattle.grid_rules.specs.GridOf.{grid_of};

use grid_rules::Grid;

const MAGIC: [u8; 4] = *b"RLG1";

// The cells, two bytes each, in two's complement.
fn cells(values: &[i16], out: &mut [u8])
    requires { (length values.now ≤ 4096) × (length out.old ≡ 2 * length values.now) }
    ensures { out.new ≡ cells_bytes values.now }
{
    for (i, v) in values.iter().enumerate() {
        out[2 * i..2 * i + 2].copy_from_slice(&v.to_be_bytes());
    }
}

// What follows n bytes of cells: the six numbers, the bytes back to the first cell, the magic.
fn trailer(g: Grid, n: usize) -> [u8; 20]
    requires { n < 2 ^ 32 }
    ensures { result ≡ grid_trailer (grid_of g) n }
{
    let mut t = [0; 20];
    t[..2].copy_from_slice(&g.x0.to_be_bytes());
    t[2..4].copy_from_slice(&g.y0.to_be_bytes());
    t[4..6].copy_from_slice(&g.step_x.to_be_bytes());
    t[6..8].copy_from_slice(&g.step_y.to_be_bytes());
    t[8..10].copy_from_slice(&g.columns.to_be_bytes());
    t[10..12].copy_from_slice(&g.rows.to_be_bytes());
    t[12..16].copy_from_slice(&(n as u32).to_be_bytes());
    t[16..].copy_from_slice(&MAGIC);
    t
}

// The file of at most 4,096 cells.
pub fn write(g: Grid, values: &[i16], out: &mut [u8])
    requires { (length values.now ≤ 4096) × (length out.old ≡ 2 * length values.now + 20) }
    ensures { out.new ≡ file_of_cells (grid_of g) values.now }
{
    let end = 2 * values.len();
    cells(values, &mut out[..end]);
    let t = trailer(g, end);
    numbers::copy(&t, &mut out[end..]);
}
