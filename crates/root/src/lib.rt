// Whole square roots one bit at a time, a distance D by them, and which squared distances are within a radius: document 01, "Distance". Nothing here divides, and no float is used: `.ci/root_code.py`.
#![tactic(auto)]

mod radius;

ghost use Rattle.std.specs.Prelude.{◌≡◌, ℕ, ◌+◌, ◌<◌, ◌≤◌, ◌^◌, cond, leb, ltb, get_or};
ghost use Rattle.model.specs.Distance.{root, distance_of};

pub use radius::radius_of;

// The greatest number of 32 bits.
const MOST: u64 = (1 << 32) - 1;

// The next bit of a root: 1 where 4 root is less than what was brought down, so that 4 root + 1 goes into it. The two are compared as signed numbers, since plain x86-64 compares only these several at a time.
fn bit_of(four: u32, brought: u32) -> u32
    requires { (four < 2 ^ 31) × (brought < 2 ^ 31) }
    ensures { result ≡ cond (ltb four brought) 1 0 }
{
    // `as` here and in `distance_of`: `.ci/root_code.py` reads the program of these crates alone, and refuses a call of the library on the way of a root.
    ((four as i32) < brought as i32) as u32
}

// The greatest whole number whose square does not exceed n, one bit at a time, from the highest of 25 down.
// `root` has the bits found, `rest` what the digits of n so far have beside its square, `high` and `low` the digits to come. A step brings down two of them, and the next bit is 1 where 4 root + 1 goes into the rest.
pub fn root_of(n: u64) -> u32
    requires { n < 2 ^ 50 }
    ensures { (result ≡ root n) × (result < 2 ^ 25) }
{
    let mut high = (n >> 18) as u32;
    let mut low = (n << 46 >> 32) as u32;
    let mut rest: u32 = 0;
    let mut root: u32 = 0;
    let mut k: u32 = 0;
    loop {
        if k == 25 {
            break root;
        }
        let brought = 4 * rest + (high >> 30);
        let four = 4 * root;
        let taken = four + 1;
        let bit = bit_of(four, brought);
        rest = brought - bit * taken;
        root = 2 * root + bit;
        high = (high << 2) + (low >> 30);
        low = low << 2;
        k += 1;
    }
}

// D of a squared distance. The C name is for whoever examines its machine code by itself.
#[unsafe(no_mangle)]
#[tactic(auto, unfolding(model::specs::Distance::distance_of))]
pub extern "C" fn distance_of(d2: u32) -> u32
    ensures { result ≡ distance_of d2 }
{
    root_of(65536 * (d2 as u64))
}

// D of four squared distances more, side by side, where those before are known.
fn four_more(squares: &[u32; 12], known: [u32; 12], at: usize) -> [u32; 12]
    requires { (at ≤ 8) × ((i : ℕ) → i < at → get_or known i 0 ≡ distance_of (get_or squares.now i 0)) }
    ensures { (i : ℕ) → i < at + 4 → get_or result i 0 ≡ distance_of (get_or squares.now i 0) }
{
    let mut d = known;
    for i in at..at + 4 {
        d[i] = distance_of(squares[i]);
    }
    d
}

// D of the first n of these squared distances, four at a time: no root waits for another, nor a branch for a root. What stands behind them is free.
pub fn distances(squares: &[u32; 12], n: usize) -> [u32; 12]
    requires { n ≤ 12 }
    ensures { (i : ℕ) → i < n → get_or result i 0 ≡ distance_of (get_or squares.now i 0) }
{
    let mut d = [0u32; 12];
    // A `for` over the fours takes 3 instructions more of 1,098 with 4 of them, 2,100 with 8 and 3,102 with 12.
    let mut i = 0;
    while i < n {
        let more = four_more(squares, d, i);
        d = more;
        i += 4;
    }
    d
}

// The greatest squared distance whose D does not exceed r, or 2³² - 1 where that is more.
pub fn reach_of(r: u32) -> u32
    ensures { (d : ℕ) → d < 2 ^ 32 → leb d result ≡ leb (distance_of d) r }
{
    let n = u64::from(r);
    let k = (n * n + 2 * n) >> 16;
    k.min(MOST) as u32
}
