// Where a location is, or would go, among the points that arrays hold.
#![tactic(auto)]

ghost use Rattle.std.specs.Prelude.{◌≡◌, not, List, ℤ, pos};
ghost use Rattle.model.specs.Point.{point, at, precedes};
ghost use Rattle.point_arrays.specs.PointArrays.{points_in};
ghost use Rattle.locate.specs.Leading.{leading, elsewhere, not_after, passes};

// Whether the location (a, b) is (x, y).
fn same(a: u16, b: u16, x: u32, y: u32) -> bool
    ensures { (z : ℤ) → result ≡ at x y (point a b z) }
{
    u32::from(a) == x && u32::from(b) == y
}

// Whether (x, y) comes before the location (a, b).
fn comes_before(x: u32, y: u32, a: u16, b: u16) -> bool
    ensures { (z : ℤ) → result ≡ precedes (point x y (pos 0)) (point a b z) }
{
    (x, y) < (u32::from(a), u32::from(b))
}

// Whether a search for (x, y) stops at the location (a, b): where `behind`, at one that (x, y) comes before; otherwise at (x, y) itself.
fn stops(behind: bool, x: u32, y: u32, a: u16, b: u16) -> bool
    ensures { (z : ℤ) → not result ≡ passes behind x y (point a b z) }
{
    if behind {
        return comes_before(x, y, a, b);
    }
    same(a, b, x, y)
}

// How many points a search passes.
fn search<'a>(
    xs: &'a [u16; 256],
    ys: &'a [u16; 256],
    n: usize,
    x: u32,
    y: u32,
    behind: bool,
) -> usize
    ensures { (zs : List ℤ) → result ≡ leading (passes behind x y) (points_in xs.now ys.now zs n) }
{
    let m = point_arrays::clamped(n);
    for i in 0..m {
        let a = point_arrays::coordinate(xs[i]);
        let b = point_arrays::coordinate(ys[i]);
        if stops(behind, x, y, a, b) {
            return i;
        }
    }
    m
}

// The index of the point at a location, or the number of points where none is there.
#[tactic(auto, unfolding(crate::specs::Leading::passes))]
pub fn find<'a>(xs: &'a [u16; 256], ys: &'a [u16; 256], n: usize, x: u32, y: u32) -> usize
    ensures { (zs : List ℤ) → result ≡ leading (elsewhere x y) (points_in xs.now ys.now zs n) }
{
    search(xs, ys, n, x, y, false)
}

// The index that a point at a location would take: in front of the first that it comes before.
#[tactic(auto, unfolding(crate::specs::Leading::passes))]
pub fn rank<'a>(xs: &'a [u16; 256], ys: &'a [u16; 256], n: usize, x: u32, y: u32) -> usize
    ensures { (zs : List ℤ) → result ≡ leading (not_after x y) (points_in xs.now ys.now zs n) }
{
    search(xs, ys, n, x, y, true)
}
