// Twice the area of the convex polygon around points, over lent arrays and a count: document 02, §4.
#![tactic(auto)]

ghost use Rattle.std.specs.Prelude.{◌≡◌, [], ◌*◌, ◌≤◌};
ghost use Rattle.model.specs.Point.{location};
ghost use Rattle.model.specs.Polygon.{trim, extend, enclosed};
ghost use Rattle.point_arrays.specs.PointArrays.{locations_in};
ghost use Rattle.polygon.specs.Stacked.{stacked, turn_of, laced};

// The corners of a side of the polygon, from the first point on.
#[derive(Clone, Copy)]
struct Corners {
    xs: [u16; 256],
    ys: [u16; 256],
    depth: usize,
}

fn product(a: u16, b: u16) -> u64
    ensures { (result ≡ a * b) × (result ≤ 4294836225) }
{
    u64::from(a) * u64::from(b)
}

// Whether the way from a by b to c turns right, as the upper side does, or left; straight on is no turn.
#[tactic(auto, unfolding(crate::specs::Stacked::turn_of, model::specs::Polygon::turns_left, model::specs::Polygon::turns_right))]
fn turns(up: bool, ax: u16, ay: u16, bx: u16, by: u16, cx: u16, cy: u16) -> bool
    ensures { result ≡ turn_of up (location ax ay) (location bx by) (location cx cy) }
{
    let plus = product(ax, by) + product(bx, cy) + product(cx, ay);
    let minus = product(ay, bx) + product(by, cx) + product(cy, ax);
    if up {
        return plus < minus;
    }
    minus < plus
}

// How many corners of a side stay when it goes on to (px, py): the last ones go as long as the way by them does not turn.
fn staying<'a>(
    xs: &'a [u16; 256],
    ys: &'a [u16; 256],
    depth: usize,
    up: bool,
    px: u16,
    py: u16,
) -> usize
    requires { depth ≤ 256 }
    ensures upper_bound { result ≤ depth }
    ensures py_value { trim (turn_of up) (stacked xs.now ys.now depth) (location px py) ≡ stacked xs.now ys.now result }
{
    for last in (1..depth).rev() {
        if turns(up, xs[last - 1], ys[last - 1], xs[last], ys[last], px, py) {
            return last + 1;
        }
    }
    depth.min(1)
}

// The upper or the lower side around the first m points. Each point comes once and goes at most once, so this is linear in m.
fn side<'a>(xs: &'a [u16; 256], ys: &'a [u16; 256], m: usize, up: bool) -> Corners
    requires { m ≤ 256 }
    ensures depth_bound { result.depth ≤ 256 }
    ensures depth_value { stacked result.xs result.ys result.depth ≡ extend (turn_of up) [] (locations_in xs.now ys.now m) }
{
    let mut sx: [u16; 256] = [0; 256];
    let mut sy: [u16; 256] = [0; 256];
    let mut depth = 0;
    for i in 0..m {
        let px = point_arrays::coordinate(xs[i]);
        let py = point_arrays::coordinate(ys[i]);
        let k = staying(&sx, &sy, depth, up, px, py);
        sx[k] = px;
        sy[k] = py;
        depth = k + 1;
    }
    Corners {
        xs: sx,
        ys: sy,
        depth,
    }
}

// Each of a times the one before it of b, added up: one half of the shoelace formula along a side.
fn lace<'a>(a: &'a [u16; 256], b: &'a [u16; 256], depth: usize) -> u64
    requires { depth ≤ 256 }
    ensures { (result ≡ laced a.now b.now depth) × (result ≤ 256 * 4294836225) }
{
    let mut sum = 0;
    for i in 1..depth {
        sum += product(a[i], b[i - 1]);
    }
    sum
}

// Twice the area of the polygon around the points. Where they do not ascend by x, then y, as those of every survey do, the two sides may cross, and a difference below 0 is 0.
pub fn enclosed<'a>(xs: &'a [u16; 256], ys: &'a [u16; 256], n: usize) -> u64
    ensures { result ≡ enclosed (locations_in xs.now ys.now n) }
{
    let m = point_arrays::clamped(n);
    let low = side(xs, ys, m, false);
    let high = side(xs, ys, m, true);
    let plus = lace(&low.ys, &low.xs, low.depth) + lace(&high.xs, &high.ys, high.depth);
    let minus = lace(&low.xs, &low.ys, low.depth) + lace(&high.ys, &high.xs, high.depth);
    plus.saturating_sub(minus)
}
