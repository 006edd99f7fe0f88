// The first points in order, of those within a limit, up to eleven: ten that may be chosen, and the first one left out.
#![tactic(auto)]

ghost use Rattle.std.specs.Prelude.{◌≡◌, map, ℕ, ◌<◌, ◌≤◌, ltb, length, take, get_or, true};
ghost use Rattle.model.specs.Lists.{All};
ghost use Rattle.model.specs.Order.{insert};
ghost use Rattle.model.specs.Distance.{distance_of};
ghost use Rattle.model.specs.Point.{Location, State, in_range};
ghost use Rattle.point_arrays.specs.PointArrays.{HoldsPoints};
ghost use Rattle.squares.specs.Squares.{HoldsSquares, Words};
ghost use Rattle.candidates.specs.Keys.{key_of, key_at, squared_of, candidate_of, Ascending, first_keys};
ghost use Rattle.candidates.specs.First.{list_of, HoldsFirst, InRange};

// A point with its distance D, before it is known whether it is chosen.
#[derive(Clone, Copy)]
pub struct Candidate {
    pub x: u16,
    pub y: u16,
    pub z: i8,
    pub distance: u32,
}

// The first `count` of `items`, in order.
#[derive(Clone, Copy)]
pub struct Candidates {
    pub items: [Candidate; 11],
    pub count: usize,
}

// What 1 in y and in x counts in a key.
const Y_UNIT: u64 = 256;

const X_UNIT: u64 = 4096 * Y_UNIT;

// Where a point comes in the order as one number, so that one comparison tells which of two comes first.
fn key_of(squared: u32, x: u16, y: u16, i: u8) -> u64
    requires { (x < 4096) × (y < 4096) }
    ensures { result ≡ key_of squared x y i }
{
    ((u64::from(squared) * 4096 + u64::from(x)) * 4096 + u64::from(y)) * 256 + u64::from(i)
}

// The key of the point at index i.
fn key_at<'a>(xs: &'a [u16; 256], ys: &'a [u16; 256], squares: &'a [u32], i: u8) -> u64
    requires { i < length squares.now }
    ensures { result ≡ key_at xs.now ys.now squares.now i }
{
    let k = usize::from(i);
    key_of(
        squares[k],
        point_arrays::coordinate(xs[k]),
        point_arrays::coordinate(ys[k]),
        i,
    )
}

// The first eleven of the keys held and one more: it goes along and is exchanged for each greater one, so that no branch turns on a key.
fn put(keys: [u64; 11], key: u64) -> [u64; 11]
    requires { Ascending keys }
    ensures { result ≡ take 11 (insert ltb key keys) }
{
    let mut a = keys;
    let mut c = key;
    for held in a.iter_mut() {
        let t = *held;
        *held = t.min(c);
        c = t.max(c);
    }
    a
}

// The first eleven keys of the points at these indices, in order.
fn first_keys<'a>(
    xs: &'a [u16; 256],
    ys: &'a [u16; 256],
    squares: &'a [u32],
    at: &'a [u8],
) -> [u64; 11]
    requires { All (λ i. i < length squares.now) at.now }
    ensures { result ≡ first_keys xs.now ys.now squares.now at.now }
{
    let mut keys = [u64::MAX; 11];
    for i in at {
        let next = put(keys, key_at(xs, ys, squares, *i));
        keys = next;
    }
    keys
}

fn squared_of(key: u64) -> u32
    ensures { result ≡ squared_of key }
{
    (key >> 32) as u32
}

// The squared distances that the keys say, in the first eleven places.
fn squares_of(keys: [u64; 11]) -> [u32; 12]
    ensures { (i : ℕ) → i < 11 → get_or result i 0 ≡ squared_of (get_or keys i 0) }
{
    let mut squares = [0u32; 12];
    for (j, key) in keys.iter().enumerate() {
        squares[j] = squared_of(*key);
    }
    squares
}

// What a key says, with the value at its index and its distance D.
fn candidate_of(zs: &[i8; 256], key: u64, distance: u32) -> Candidate
    requires { distance ≡ distance_of (squared_of key) }
    ensures { (result ≡ candidate_of zs.now key) × (in_range result.z ≡ true) }
{
    let i = (key % 256) as usize;
    Candidate {
        x: (key / X_UNIT % 4096) as u16,
        y: (key / Y_UNIT % 4096) as u16,
        z: zs[i],
        distance,
    }
}

// The candidates of the first n keys.
fn of_keys(zs: &[i8; 256], keys: [u64; 11], n: usize) -> [Candidate; 11]
    requires { n ≤ 11 }
    ensures { (take n result ≡ map (candidate_of zs.now) (take n keys)) × InRange (take n result) }
{
    let e = Candidate {
        x: 0,
        y: 0,
        z: 0,
        distance: 0,
    };
    let squares = squares_of(keys);
    let d = root::distances(&squares, n);
    let mut items = [e; 11];
    for j in 0..n {
        items[j] = candidate_of(zs, keys[j], d[j]);
    }
    items
}

// The first in order of the points whose squared distances are within the limit.
pub fn first<'a>(
    xs: &'a [u16; 256],
    ys: &'a [u16; 256],
    zs: &'a [i8; 256],
    squares: &'a [u32],
    limit: u32,
) -> Candidates
    requires { (length squares.now ≤ 256) × Words squares.now }
    ensures holds_first { (s : State) (p : Location) (n : ℕ) → HoldsPoints s xs.now ys.now zs.now n → HoldsSquares s p squares.now
        → HoldsFirst s p limit result }
    ensures in_range { InRange (list_of result) }
{
    let mut at = [0u8; 256];
    let found = squares::indices_within(squares, limit, &mut at);
    let keys = first_keys(xs, ys, squares, &at[..found]);
    let n = found.min(11);
    Candidates {
        items: of_keys(zs, keys, n),
        count: n,
    }
}
