// The line that answers a call.
use crate::show;
use grid_rows::FilledRow;
use print::Streams;
use refusal::Refusal;
use survey::{Extent, Found};

// For what is no call.
pub fn bad_journal(io: &mut Streams) {
    print::word(io, b"bad journal\n");
}

fn refused(io: &mut Streams, e: Refusal) {
    print::word(io, b"refused ");
    print::number(io, u64::from(e.number()));
    print::line_feed(io);
}

// For a call that edits or begins.
pub fn edited(io: &mut Streams, r: Result<(), Refusal>) {
    match r {
        Ok(()) => print::word(io, b"ok\n"),
        Err(e) => refused(io, e),
    }
}

fn found(io: &mut Streams, f: Found) {
    print::word(io, b"found ");
    print::signed(io, f.answer);
    print::space(io);
    print::number(io, f.count as u64);
    print::space(io);
    print::number(io, u64::from(f.radius));
    print::line_feed(io);
}

pub fn answered(io: &mut Streams, r: Result<Found, Refusal>) {
    match r {
        Ok(f) => found(io, f),
        Err(e) => refused(io, e),
    }
}

// A space and a coordinate.
fn coordinate(io: &mut Streams, n: u16) {
    print::space(io);
    print::number(io, n as u64);
}

// Least and greatest x, y and value, and R0.
pub fn ends(io: &mut Streams, e: Extent) {
    print::word(io, b"ends");
    coordinate(io, e.least_x);
    coordinate(io, e.greatest_x);
    coordinate(io, e.least_y);
    coordinate(io, e.greatest_y);
    print::space(io);
    show::value(io, e.least_z);
    print::space(io);
    show::value(io, e.greatest_z);
    print::space(io);
    print::number(io, e.radius as u64);
    print::line_feed(io);
}

fn counted(io: &mut Streams, name: &[u8], n: usize) {
    print::word(io, name);
    print::space(io);
    print::number(io, n as u64);
    print::line_feed(io);
}

pub fn written(io: &mut Streams, r: Result<usize, Refusal>) {
    match r {
        Ok(n) => counted(io, b"wrote", n),
        Err(e) => refused(io, e),
    }
}

pub fn filled(io: &mut Streams, r: Result<usize, Refusal>) {
    match r {
        Ok(n) => counted(io, b"cells", n),
        Err(e) => refused(io, e),
    }
}

// A row's index, and how many cells it has.
fn filled_row(io: &mut Streams, f: FilledRow) {
    print::word(io, b"row ");
    print::number(io, f.index as u64);
    print::space(io);
    print::number(io, f.cells as u64);
    print::line_feed(io);
}

pub fn row(io: &mut Streams, r: Result<FilledRow, Refusal>) {
    match r {
        Ok(f) => filled_row(io, f),
        Err(e) => refused(io, e),
    }
}
