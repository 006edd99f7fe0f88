// The survey with one point put in, taken out, or written over, and with what is kept worked out anew.
ghost use Rattle.std.specs.Prelude.{◌++◌, ◌∷◌, ◌+◌, ◌≤◌, ◌<◌, length, take, drop, set};
ghost use Rattle.model.specs.Point.{point};
ghost use Rattle.model.specs.Invariant.{Sound};
ghost use Rattle.survey.specs.StateOf.{contents_in, Becomes, Settles};

use crate::Survey;

// A point at index i, those from there on one further.
pub(crate) fn with_point(s: Survey, i: usize, x: u32, y: u32, z: i32) -> Survey
    requires { (i ≤ length (contents_in s).points) × (length (contents_in s).points < 256) × Sound (point x y z) }
    ensures { Becomes s (take i (contents_in s).points ++ point x y z ∷ drop i (contents_in s).points) result }
{
    let n = s.count;
    let xs = s.x;
    let ys = s.y;
    let zs = s.z;
    let a = shift::put(xs, i, x as u16);
    let b = shift::put(ys, i, y as u16);
    let c = shift::put(zs, i, z as i8);
    let mut t = s;
    t.x = a;
    t.y = b;
    t.z = c;
    t.count = n + 1;
    t
}

// Without the point at index i, those behind it one nearer.
pub(crate) fn without_point(s: Survey, i: usize) -> Survey
    requires { i < length (contents_in s).points }
    ensures { Becomes s (take i (contents_in s).points ++ drop (i + 1) (contents_in s).points) result }
{
    let n = point_arrays::clamped(s.count);
    let xs = s.x;
    let ys = s.y;
    let zs = s.z;
    let a = shift::cut(xs, i);
    let b = shift::cut(ys, i);
    let c = shift::cut(zs, i);
    let mut t = s;
    t.x = a;
    t.y = b;
    t.z = c;
    t.count = n - 1;
    t
}

// The point (x, y, z) in place of the one at index i.
pub(crate) fn with_value(s: Survey, i: usize, x: u32, y: u32, z: i32) -> Survey
    requires { (i < length (contents_in s).points) × Sound (point x y z) }
    ensures { Becomes s (set (contents_in s).points i (point x y z)) result }
{
    let mut t = s;
    t.x[i] = x as u16;
    t.y[i] = y as u16;
    t.z[i] = z as i8;
    t
}

// What is kept, from the arrays, in place of what was kept before: the last step of every accepted edit.
pub(crate) fn settled(s: Survey) -> Survey
    ensures { Settles s result }
{
    let e = extent::extent_of(&s.x, &s.y, &s.z, s.count);
    let mut t = s;
    t.extent = e;
    t
}
