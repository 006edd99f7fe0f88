// The bytes of a survey file's records, from points held in arrays.
#![tactic(auto)]

ghost use Rattle.std.specs.Prelude.{◌≡◌, map, ◌*◌, ◌≤◌, length};
ghost use Rattle.model.specs.SurveyFile.{record_bytes, records};
ghost use Rattle.point_arrays.specs.PointArrays.{held, wrapped};

use numbers::TwosComplement;

// The five bytes of one point.
fn record(x: u16, y: u16, z: i8) -> [u8; 5]
    ensures { result ≡ record_bytes (wrapped (record { x = x; y = y; z = z })) }
{
    let [x_high, x_low] = point_arrays::coordinate(x).to_be_bytes();
    let [y_high, y_low] = point_arrays::coordinate(y).to_be_bytes();
    [x_high, x_low, y_high, y_low, z.complement()]
}

// The records of the first n points, five bytes each.
pub fn write<'a>(x: &'a [u16; 256], y: &'a [u16; 256], z: &'a [i8; 256], n: usize, out: &mut [u8])
    requires { (n ≤ 256) × (length out.old ≡ 5 * n) }
    ensures { out.new ≡ records (map wrapped (held x.now y.now z.now n)) }
{
    for i in 0..n {
        numbers::copy(&record(x[i], y[i], z[i]), &mut out[5 * i..]);
    }
}
