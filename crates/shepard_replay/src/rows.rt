// A grid that is filled one row a call, beside the survey.
use crate::{grids, journal, replies, show};
use grid_rows::Filling;
use print::Streams;
use survey::Survey;

// The six numbers.
pub fn begin(io: &mut Streams, s: Survey, f: &mut Filling) -> Option<()> {
    let a = journal::read(io, 12)?;
    let r = grid_rows::begin(f, s, grids::grid_of(a));
    replies::edited(io, r);
    Some(())
}

fn row_into(io: &mut Streams, f: &mut Filling, lent: &mut [i16]) {
    let r = grid_rows::row(f, lent);
    replies::row(io, r);
    show::values(io, lent);
}

// In four bytes m, how many cells are lent.
pub fn row(io: &mut Streams, f: &mut Filling) -> Option<()> {
    let a = journal::read(io, 4)?;
    let m = a.long(0) as usize;
    if 8192 < m {
        return None;
    }
    let mut lent = [-23131i16; 8192];
    row_into(io, f, &mut lent[..m]);
    Some(())
}
