// Add, change, drop and clear.
use crate::{journal, replies};
use print::Streams;
use survey::Survey;

// x, y and z, four bytes each.
pub fn add(io: &mut Streams, s: &mut Survey) -> Option<()> {
    let a = journal::read(io, 12)?;
    let r = survey::add(s, a.long(0), a.long(4), a.signed(8));
    replies::edited(io, r);
    Some(())
}

// x, y and z, four bytes each.
pub fn change(io: &mut Streams, s: &mut Survey) -> Option<()> {
    let a = journal::read(io, 12)?;
    let r = survey::change(s, a.long(0), a.long(4), a.signed(8));
    replies::edited(io, r);
    Some(())
}

// x and y, four bytes each.
pub fn drop(io: &mut Streams, s: &mut Survey) -> Option<()> {
    let a = journal::read(io, 8)?;
    let r = survey::drop(s, a.long(0), a.long(4));
    replies::edited(io, r);
    Some(())
}

pub fn clear(io: &mut Streams, s: &mut Survey) -> Option<()> {
    survey::clear(s);
    replies::edited(io, Ok(()));
    Some(())
}
