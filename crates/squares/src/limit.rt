// The search for a limit that enough points are within, and few more.
ghost use Rattle.std.specs.Prelude.{◌≤◌, length};
ghost use Rattle.squares.specs.Squares.{count_within};

// A limit to try between two: about four times the lower one while they are further apart than that, and then half way.
fn middle(low: u32, high: u32) -> u32 {
    if high / 4 > low {
        return 4 * low + 3;
    }
    low / 2 + high / 2
}

// A limit that no fewer than `need` are within, as they are within `to`: one with at most 16, where 16 tries from `from` on find it.
pub(crate) fn sought(squares: &[u32], from: u32, to: u32, need: u32) -> u32
    requires { (length squares.now ≤ 256) × (need ≤ count_within to squares.now) }
    ensures { need ≤ count_within result squares.now }
{
    let mut low = from;
    let mut high = to;
    for _ in 0..16 {
        let limit = middle(low, high);
        let k = crate::count_within(squares, limit);
        if k < need {
            low = limit;
        } else {
            high = limit;
            if k <= 16 {
                return high;
            }
        }
    }
    high
}

// A limit that five are within, and mostly few more, where fewer than five are within `reach`. A guess is tried first; how many are within it decides.
pub(crate) fn of_five(squares: &[u32], reach: u32) -> u32
    requires { (length squares.now ≤ 256) × (5 ≤ count_within 4294967295 squares.now) }
    ensures { 5 ≤ count_within result squares.now }
{
    let guess = crate::guess::of_five(squares);
    let k = crate::count_within(squares, guess);
    if k < 5 {
        return sought(squares, guess, u32::MAX, 5);
    }
    if k <= 16 {
        return guess;
    }
    sought(squares, reach, guess, 5)
}
