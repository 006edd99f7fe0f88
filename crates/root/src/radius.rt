// The initial radius R0: document 01, "Search radius", with document 02's §4.
ghost use Rattle.std.specs.Prelude.{◌≡◌, ◌<◌, ◌≤◌, ◌^◌};
ghost use Rattle.model.specs.Radius.{radius_of};

use crate::root_of;

// The documents' factor of the area, with 355/113 for π.
const SCALE: u64 = 65536 * 7 * 113;

// R0 of twice an area and a number of points, with 355/113 for π.
pub fn radius_of(twice: u64, count: u64) -> u32
    requires { (twice < 2 ^ 33) × (0 < count) × (count ≤ 256) }
    ensures { (result ≡ radius_of twice count) × (result < 2 ^ 25) }
{
    root_of(SCALE * twice / (355 * count * 2))
}
