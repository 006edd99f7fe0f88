// The line that shows all that was lent to a call, as it is after the call. Before it every lent byte is A5 hexadecimal, every lent cell A5A5, which is -23131, and every field of a lent record A5, so that what a call left alone is seen.
ghost use Rattle.std.specs.Prelude.{◌≤◌, length};

use print::Streams;
use survey::Record;

// At most 65,536 bytes, in hexadecimal.
pub fn bytes(io: &mut Streams, lent: &[u8])
    requires { length lent.now ≤ 65536 }
{
    print::word(io, b"bytes");
    if 0 < lent.len() {
        print::space(io);
        print::hexadecimal(io, lent);
    }
    print::line_feed(io);
}

// A space and the value, of each cell.
pub fn values(io: &mut Streams, lent: &[i16]) {
    print::word(io, b"values");
    for cell in lent {
        print::space(io);
        print::signed(io, *cell);
    }
    print::line_feed(io);
}

// Records that no call has written to.
pub fn untouched() -> [Record; 32] {
    [Record {
        x: 165,
        y: 165,
        z: -91,
        distance: 165,
        kind: 165,
    }; 32]
}

pub fn value(io: &mut Streams, z: i8) {
    print::signed(io, i16::from(z));
}

// What parts the fields of a record.
fn comma(io: &mut Streams) {
    print::word(io, b",");
}

// A space, and x, y, z, distance and kind.
fn record(io: &mut Streams, r: Record) {
    print::space(io);
    print::number(io, u64::from(r.x));
    comma(io);
    print::number(io, u64::from(r.y));
    comma(io);
    value(io, r.z);
    comma(io);
    print::number(io, u64::from(r.distance));
    comma(io);
    print::number(io, u64::from(r.kind));
}

// Of the list the first m were lent.
pub fn records(io: &mut Streams, list: [Record; 32], m: usize)
    requires { m ≤ 32 }
{
    print::word(io, b"records");
    for i in 0..m {
        record(io, list[i]);
    }
    print::line_feed(io);
}
