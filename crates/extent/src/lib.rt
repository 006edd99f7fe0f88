// What is kept of the points: the ends of their coordinates and of their values, and the initial radius R0, over lent arrays and a count: document 02, §1.
#![tactic(auto)]

ghost use Rattle.std.specs.Prelude.{◌≡◌, List, [], ◌∷◌, ◌++◌, ◌^◌, ◌<◌, ◌≤◌, min, length};
ghost use Rattle.model.specs.Point.{Point, point, contents_of};
ghost use Rattle.model.specs.Extent.{extent_of};
ghost use Rattle.point_arrays.specs.PointArrays.{points_in};
ghost use Rattle.extent.specs.Kept.{as_extent, EndsOf};

// The least and the greatest x, y and value, and R0 in 256ths of a step.
#[derive(Clone, Copy)]
pub struct Extent {
    pub least_x: u16,
    pub greatest_x: u16,
    pub least_y: u16,
    pub greatest_y: u16,
    pub least_z: i8,
    pub greatest_z: i8,
    pub radius: u32,
}

// R0 as it is read: at most 2²⁴, which no points in the domain exceed.
pub fn clamped(radius: u32) -> u32
    ensures { result ≡ min radius (2 ^ 24) }
{
    radius.min(1 << 24)
}

// The extent of no point.
#[tactic(auto, using(laws::proofs::ExtentLaws::ends_none))]
pub fn zeros() -> Extent
    ensures { (as_extent result ≡ extent_of (contents_of [])) × (result.radius ≤ 2 ^ 24) }
{
    Extent {
        least_x: 0,
        greatest_x: 0,
        least_y: 0,
        greatest_y: 0,
        least_z: 0,
        greatest_z: 0,
        radius: 0,
    }
}

// The ends of one point; R0 is worked out when all points are seen.
#[tactic(auto, unfolding(model::specs::Lists::through, model::specs::Extent::values_by))]
fn ends_at(x: u16, y: u16, z: i8) -> Extent
    ensures { EndsOf (point x y z ∷ []) result }
{
    Extent {
        least_x: x,
        greatest_x: x,
        least_y: y,
        greatest_y: y,
        least_z: z,
        greatest_z: z,
        radius: 0,
    }
}

// The ends with one point more.
fn widened(e: Extent, x: u16, y: u16, z: i8) -> Extent
    ensures { (l : List Point) → 0 < length l → EndsOf l e → EndsOf (l ++ (point x y z ∷ [])) result }
{
    Extent {
        least_x: e.least_x.min(x),
        greatest_x: e.greatest_x.max(x),
        least_y: e.least_y.min(y),
        greatest_y: e.greatest_y.max(y),
        least_z: numbers::lesser(e.least_z, z),
        greatest_z: numbers::greater(e.greatest_z, z),
        radius: e.radius,
    }
}

// The ends of the first m points, in one pass.
fn ends_of<'a>(xs: &'a [u16; 256], ys: &'a [u16; 256], zs: &'a [i8; 256], m: usize) -> Extent
    requires { (0 < m) × (m ≤ 256) }
    ensures { EndsOf (points_in xs.now ys.now zs.now m) result }
{
    let mut e = ends_at(
        point_arrays::coordinate(xs[0]),
        point_arrays::coordinate(ys[0]),
        zs[0],
    );
    for i in 1..m {
        e = widened(
            e,
            point_arrays::coordinate(xs[i]),
            point_arrays::coordinate(ys[i]),
            zs[i],
        );
    }
    e
}

// The extent of the points.
pub fn extent_of<'a>(xs: &'a [u16; 256], ys: &'a [u16; 256], zs: &'a [i8; 256], n: usize) -> Extent
    ensures result_value { as_extent result ≡ extent_of (contents_of (points_in xs.now ys.now zs.now n)) }
    ensures radius_bound { result.radius ≤ 2 ^ 24 }
{
    let m = point_arrays::clamped(n);
    if m == 0 {
        return zeros();
    }
    let mut e = ends_of(xs, ys, zs, m);
    let twice = polygon::enclosed(xs, ys, m);
    e.radius = root::radius_of(twice, m as u64);
    e
}
