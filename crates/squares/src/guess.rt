// A guess at a limit that five points are within, and few more. Nothing rests on it, so these functions promise no more than that they end.
ghost use Rattle.std.specs.Prelude.{◌≡◌, ◌≤◌, length};

// Each of eight, or the square beside it where that is less.
fn least_of_eight(least: [u32; 8], squares: &[u32]) -> [u32; 8]
    requires { length squares.now ≡ 8 }
{
    let mut a = least;
    for i in 0..8 {
        a[i] = a[i].min(squares[i]);
    }
    a
}

// The least squares of eight groups, each of every eighth point; up to seven points at the end are in none. Eight are cut off by their indices, since
// `chunks_exact` is a call at a type, and bench/operations.py, which runs the program, has no word for one.
fn least_of_groups(squares: &[u32]) -> [u32; 8]
    requires { length squares.now ≤ 256 }
{
    let mut least = [u32::MAX; 8];
    for i in 0..squares.len() / 8 {
        let next = least_of_eight(least, &squares[8 * i..8 * i + 8]);
        least = next;
    }
    least
}

// The five least of five in order and one more, in order.
fn put(five: [u32; 5], n: u32) -> [u32; 5] {
    let mut a = five;
    let mut c = n;
    for held in a.iter_mut() {
        let t = *held;
        *held = t.min(c);
        c = t.max(c);
    }
    a
}

// The fifth least of eight.
fn fifth(eight: [u32; 8]) -> u32 {
    let mut five = [u32::MAX; 5];
    for n in eight {
        five = put(five, n);
    }
    five[4]
}

// The fifth least of the groups' least: each of five groups has a point within it.
pub(crate) fn of_five(squares: &[u32]) -> u32
    requires { length squares.now ≤ 256 }
{
    fifth(least_of_groups(squares))
}
