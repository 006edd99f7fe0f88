// Squared distances d² of all points from a location, and which points are within a limit: the first of them in order are the first of all.
#![tactic(auto)]

mod guess;
mod limit;

ghost use Rattle.std.specs.Prelude.{◌≡◌, List, ℕ, ◌≤◌, min, ℤ, length};
ghost use Rattle.model.specs.Point.{Location, State};
ghost use Rattle.point_arrays.specs.PointArrays.{HoldsPoints};
ghost use Rattle.metric.specs.From.{Sees, Proper};
ghost use Rattle.squares.specs.Squares.{HoldsSquares, Words, count_within, HoldsIndices, needed};

use metric::Viewpoint;

// d² of each point from a viewpoint, as many as there is room for.
pub fn fill<'a>(xs: &'a [u16; 256], ys: &'a [u16; 256], v: Viewpoint, out: &mut [u32])
    requires { Proper v × (length out.old ≤ 256) }
    ensures { (s : State) (p : Location) (zs : List ℤ) (n : ℕ) → HoldsPoints s xs.now ys.now zs n → Sees s p v
        → length out.old ≡ min n 256 → HoldsSquares s p out.new }
{
    for i in 0..out.len() {
        out[i] = metric::squared_from(v, xs[i], ys[i]);
    }
}

// How many are within the limit. Each is read, and so is seen to have 32 bits.
pub fn count_within(squares: &[u32], limit: u32) -> u32
    requires { length squares.now ≤ 256 }
    ensures { (result ≡ count_within limit squares.now) × Words squares.now }
{
    let mut k: u32 = 0;
    for d in squares {
        k += u32::from(*d <= limit);
    }
    k
}

// The indices of those within the limit, and how many they are. Each index is stored where the next goes, and stays where it counts: no branch turns on a point.
pub fn indices_within(squares: &[u32], limit: u32, at: &mut [u8]) -> usize
    requires { (length squares.now ≤ 256) × (length at.old ≡ 256) }
    ensures { HoldsIndices limit squares.now result at.new }
{
    let mut k: usize = 0;
    for (i, d) in squares.iter().enumerate() {
        at[k] = i as u8;
        k += usize::from(*d <= limit);
    }
    k
}

// A limit that as many are within as a choice goes by, and mostly few more, where k are within `reach`, the limit that R0 sets.
pub fn limit_for(squares: &[u32], k: u32, reach: u32) -> u32
    requires { (length squares.now ≤ 256) × Words squares.now × (k ≡ count_within reach squares.now) }
    ensures { needed k (length squares.now) ≤ count_within result squares.now }
{
    if squares.len() <= 11 {
        return u32::MAX;
    }
    if k <= 4 {
        return limit::of_five(squares, reach);
    }
    if k <= 16 {
        return reach;
    }
    limit::sought(squares, reach / 32, reach, 11)
}
