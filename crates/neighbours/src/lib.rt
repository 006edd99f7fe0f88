// Which points a lookup goes by: document 01, "Who is chosen", over lent arrays and a count.
#![tactic(auto)]

mod choice;

ghost use Rattle.std.specs.Prelude.{◌≡◌, ℕ, ◌≤◌, cond, length};
ghost use Rattle.model.specs.Point.{Location, State};
ghost use Rattle.model.specs.Choice.{choice as choice_of, choice_apart};
ghost use Rattle.point_arrays.specs.PointArrays.{HoldsPoints};
ghost use Rattle.metric.specs.From.{Sees, Proper};
ghost use Rattle.squares.specs.Squares.{HoldsSquares};
ghost use Rattle.neighbours.specs.Chose.{Holds};
ghost use Rattle.neighbours.specs.Selects.{HoldsEnough};

use candidates::Candidates;
use metric::Viewpoint;

// A chosen point with its distance D and its offsets from the location. In this order of the fields a copy of the struct does not part the two offsets.
#[derive(Clone, Copy)]
pub struct Neighbour {
    pub dx: i16,
    pub dy: i16,
    pub x: u16,
    pub y: u16,
    pub distance: u32,
    pub z: i8,
}

// The neighbours, the first `count` of `items` in order of choice; the radius R; and whether four points or fewer are present.
#[derive(Clone, Copy)]
pub struct Chosen {
    pub items: [Neighbour; 10],
    pub count: usize,
    pub radius: u32,
    pub few: bool,
}

// How many of the nearest are chosen, and the radius R.
#[derive(Clone, Copy)]
struct Selection {
    count: usize,
    radius: u32,
}

// The first points in order, as many as the choice goes by, and how many points are within R0.
#[derive(Clone, Copy)]
struct Nearest {
    first: Candidates,
    within: u32,
}

// The nearest points by their squared distances and R0. Only those within a limit are put in order: the first of them are the first of all.
fn among<'a>(
    xs: &'a [u16; 256],
    ys: &'a [u16; 256],
    zs: &'a [i8; 256],
    squares: &'a [u32],
    r0: u32,
) -> Nearest
    requires { length squares.now ≤ 256 }
    ensures { (s : State) (p : Location) (n : ℕ) → HoldsPoints s xs.now ys.now zs.now n → HoldsSquares s p squares.now
        → r0 ≡ s.extent.radius → HoldsEnough s p result.within result.first }
{
    let reach = root::reach_of(r0);
    let within = squares::count_within(squares, reach);
    let limit = squares::limit_for(squares, within, reach);
    Nearest {
        first: candidates::first(xs, ys, zs, squares, limit),
        within,
    }
}

// Room for the squared distances of all points.
fn blank() -> [u32; 256]
    ensures { 256 ≡ length result }
{
    [0; 256]
}

// The nearest points of a viewpoint.
fn nearest_points<'a>(
    xs: &'a [u16; 256],
    ys: &'a [u16; 256],
    zs: &'a [i8; 256],
    n: usize,
    v: Viewpoint,
    r0: u32,
) -> Nearest
    requires { Proper v }
    ensures { (s : State) (p : Location) → HoldsPoints s xs.now ys.now zs.now n → Sees s p v → r0 ≡ s.extent.radius
        → HoldsEnough s p result.within result.first }
{
    let m = point_arrays::clamped(n);
    let mut room = blank();
    squares::fill(xs, ys, v, &mut room[..m]);
    among(xs, ys, zs, &room[..m], r0)
}

// The neighbours of a viewpoint, by rules 2 to 5 alone where `apart`.
fn choose_by<'a>(
    xs: &'a [u16; 256],
    ys: &'a [u16; 256],
    zs: &'a [i8; 256],
    n: usize,
    v: Viewpoint,
    r0: u32,
    apart: bool,
) -> Chosen
    requires { Proper v }
    ensures { (s : State) (p : Location) → HoldsPoints s xs.now ys.now zs.now n → Sees s p v → r0 ≡ s.extent.radius
        → Holds s p (cond apart (choice_apart s p) (choice_of s p)) result }
{
    let m = point_arrays::clamped(n);
    let b = nearest_points(xs, ys, zs, n, v, r0);
    let t = choice::selected(b.first, m, b.within, r0, apart);
    choice::filled(v, b.first, t, m)
}

// The neighbours of a viewpoint, for the initial radius R0.
pub fn choose<'a>(
    xs: &'a [u16; 256],
    ys: &'a [u16; 256],
    zs: &'a [i8; 256],
    n: usize,
    v: Viewpoint,
    r0: u32,
) -> Chosen
    requires { Proper v }
    ensures { (s : State) (p : Location) → HoldsPoints s xs.now ys.now zs.now n → Sees s p v → r0 ≡ s.extent.radius
        → Holds s p (choice_of s p) result }
{
    choose_by(xs, ys, zs, n, v, r0, false)
}

// The same by rules 2 to 5 alone, whether or not a point is at the viewpoint.
pub fn choose_apart<'a>(
    xs: &'a [u16; 256],
    ys: &'a [u16; 256],
    zs: &'a [i8; 256],
    n: usize,
    v: Viewpoint,
    r0: u32,
) -> Chosen
    requires { Proper v }
    ensures { (s : State) (p : Location) → HoldsPoints s xs.now ys.now zs.now n → Sees s p v → r0 ≡ s.extent.radius
        → Holds s p (choice_apart s p) result }
{
    choose_by(xs, ys, zs, n, v, r0, true)
}
