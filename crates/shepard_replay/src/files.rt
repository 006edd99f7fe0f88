// Load and write: the survey file.
ghost use Rattle.std.specs.Prelude.{◌≤◌, length};

use crate::{journal, replies, show};
use print::Streams;
use survey::Survey;

// Loads the next bytes, as many as fill `file`, and passes over the `rest`.
fn load_from(io: &mut Streams, s: &mut Survey, file: &mut [u8], rest: usize) -> Option<()> {
    journal::fill(io, file)?;
    journal::skip(io, rest)?;
    let r = survey::load(s, file);
    replies::edited(io, r);
    Some(())
}

// n in four bytes, and then n bytes, the file. A file has at most 65,536 bytes, so that of a longer one 65,537 are enough for its refusal.
pub fn load(io: &mut Streams, s: &mut Survey) -> Option<()> {
    let a = journal::read(io, 4)?;
    let n = a.long(0) as usize;
    let k = n.min(65537);
    let mut file = [0u8; 65537];
    load_from(io, s, &mut file[..k], n - k)
}

fn write_into(io: &mut Streams, s: Survey, lent: &mut [u8])
    requires { length lent.old ≤ 65536 }
{
    let w = survey::write(s, lent);
    replies::written(io, w);
    show::bytes(io, lent);
}

// In four bytes m, how many bytes are lent.
pub fn write(io: &mut Streams, s: Survey) -> Option<()> {
    let a = journal::read(io, 4)?;
    let m = a.long(0) as usize;
    if 65536 < m {
        return None;
    }
    let mut lent = [0xA5u8; 65536];
    write_into(io, s, &mut lent[..m]);
    Some(())
}
