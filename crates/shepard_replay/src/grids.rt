// A grid's cells, the grid file, and the Esri ASCII grid.
ghost use Rattle.std.specs.Prelude.{◌≤◌, length};

use crate::journal::Arguments;
use crate::{journal, replies, show};
use grid_rules::Grid;
use print::Streams;
use survey::Survey;

// The six numbers, two bytes each.
pub fn grid_of(a: Arguments) -> Grid {
    Grid {
        x0: a.word(0),
        y0: a.word(2),
        step_x: a.word(4),
        step_y: a.word(6),
        columns: a.word(8),
        rows: a.word(10),
    }
}

fn cells_into(io: &mut Streams, s: Survey, g: Grid, lent: &mut [i16]) {
    let f = grid::cells(s, g, lent);
    replies::filled(io, f);
    show::values(io, lent);
}

// The six numbers, and in four bytes m, how many cells are lent.
pub fn cells(io: &mut Streams, s: Survey) -> Option<()> {
    let a = journal::read(io, 16)?;
    let m = a.long(12) as usize;
    if 8192 < m {
        return None;
    }
    let mut lent = [-23131i16; 8192];
    cells_into(io, s, grid_of(a), &mut lent[..m]);
    Some(())
}

fn file_into(io: &mut Streams, s: Survey, g: Grid, lent: &mut [u8])
    requires { length lent.old ≤ 65536 }
{
    let w = grid::write(s, g, lent);
    replies::written(io, w);
    show::bytes(io, lent);
}

fn esri_into(io: &mut Streams, s: Survey, g: Grid, lent: &mut [u8])
    requires { length lent.old ≤ 65536 }
{
    let w = esri::write(s, g, lent);
    replies::written(io, w);
    show::bytes(io, lent);
}

// The six numbers, and in four bytes m, how many bytes are lent: for the Esri ASCII grid or for the grid file.
pub fn write(io: &mut Streams, s: Survey, as_esri: bool) -> Option<()> {
    let a = journal::read(io, 16)?;
    let m = a.long(12) as usize;
    if 65536 < m {
        return None;
    }
    let mut lent = [0xA5u8; 65536];
    if as_esri {
        esri_into(io, s, grid_of(a), &mut lent[..m]);
    } else {
        file_into(io, s, grid_of(a), &mut lent[..m]);
    }
    Some(())
}
