// What a call asks of the survey: lookups, without and with neighbours, and what is kept.
use crate::{journal, replies, show};
use print::Streams;
use survey::Survey;

// x and y, four bytes each.
pub fn lookup(io: &mut Streams, s: Survey) -> Option<()> {
    let a = journal::read(io, 8)?;
    replies::answered(io, survey::lookup(s, a.long(0), a.long(4)));
    Some(())
}

// x, y and m, how many records are lent, four bytes each.
pub fn lookup_neighbours(io: &mut Streams, s: Survey) -> Option<()> {
    let a = journal::read(io, 12)?;
    let m = a.long(8) as usize;
    if 32 < m {
        return None;
    }
    let r = lending::lookup_lending(s, a.long(0), a.long(4), show::untouched(), m);
    replies::answered(io, r.answer);
    show::records(io, r.records, m);
    Some(())
}

pub fn ends(io: &mut Streams, s: Survey) -> Option<()> {
    replies::ends(io, survey::extent(s));
    Some(())
}
