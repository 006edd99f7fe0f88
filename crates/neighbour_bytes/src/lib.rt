// Neighbour records as bytes, ten each, for a caller that lends bytes and no records.
#![tactic(auto)]

ghost use Rattle.std.specs.Prelude.{◌≡◌, ◌*◌, ◌≤◌, length, take};
ghost use Rattle.model.specs.Lists.{laid};
ghost use Rattle.neighbour_bytes.specs.Fields.{field_bytes, records_bytes};

use neighbour_records::Record;
use numbers::TwosComplement;

// x and y in two bytes each, z in one, the distance in four, the kind in one.
fn fields(a: Record) -> [u8; 10]
    ensures { result ≡ field_bytes a }
{
    let [x_high, x_low] = a.x.to_be_bytes();
    let [y_high, y_low] = a.y.to_be_bytes();
    let z = a.z.complement();
    let [d3, d2, d1, d0] = a.distance.to_be_bytes();
    [x_high, x_low, y_high, y_low, z, d3, d2, d1, d0, a.kind]
}

// The first n records to the front of the lent bytes; the rest of them is untouched.
pub fn write(list: [Record; 32], n: usize, out: &mut [u8])
    requires { (n ≤ 32) × (10 * n ≤ length out.old) }
    ensures { out.new ≡ laid (records_bytes (take n list)) out.old }
{
    for i in 0..n {
        numbers::copy(&fields(list[i]), &mut out[10 * i..]);
    }
}
