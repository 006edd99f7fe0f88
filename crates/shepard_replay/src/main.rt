// Runs a journal of calls from standard input on one survey, fresh at the start, with no grid begun. A line answers each call, and a second one shows what was lent to it; what is no call is answered by `bad journal`, and ends the run.
#![tactic(auto)]

mod edits;
mod files;
mod grids;
mod journal;
mod lookups;
mod replies;
mod rows;
mod show;

use grid_rows::Filling;
use print::Streams;
use survey::Survey;

// Runs a call whose byte has been read: its arguments come next. Nothing of an unknown call, a number above its limit, or input that ends inside a call.
fn run_call(io: &mut Streams, s: &mut Survey, f: &mut Filling, call: u8) -> Option<()> {
    match call {
        b'a' => edits::add(io, s),
        b'c' => edits::change(io, s),
        b'd' => edits::drop(io, s),
        b'k' => edits::clear(io, s),
        b'l' => files::load(io, s),
        b'w' => files::write(io, *s),
        b'q' => lookups::lookup(io, *s),
        b'n' => lookups::lookup_neighbours(io, *s),
        b'e' => lookups::ends(io, *s),
        b'g' => grids::cells(io, *s),
        b'f' => grids::write(io, *s, false),
        b'p' => grids::write(io, *s, true),
        b'b' => rows::begin(io, *s, f),
        b'r' => rows::row(io, f),
        _ => None,
    }
}

// Runs the next call, if there is one: whether there may be more.
fn run_next(io: &mut Streams, s: &mut Survey, f: &mut Filling) -> bool {
    match journal::read(io, 1) {
        Some(a) => {
            let done = run_call(io, s, f, a.first());
            if done.is_none() {
                replies::bad_journal(io);
            }
            done.is_some()
        }
        None => false,
    }
}

// A proved loop has to end, and nothing says that the input does, so the calls go up to a number that no run comes to.
fn main(rt: HostRuntime) {
    let mut io = Streams::new(&rt);
    let mut s = survey::fresh();
    let mut f = grid_rows::none();
    for _ in 0..u64::MAX {
        if !run_next(&mut io, &mut s, &mut f) {
            break;
        }
    }
}
