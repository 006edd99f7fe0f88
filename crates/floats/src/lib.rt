// Floats that are not negative against whole numbers: a whole number as a float, and the whole part of a float found by comparing.
#![tactic(auto)]

ghost use Rattle.std.specs.Prelude.{◌≡◌, ◌*◌, ◌/◌, ◌^◌, ◌<◌, ◌≤◌, T, leb};
ghost use Rattle.std.specs.Float.Ieee.Positive.{num, den};
ghost use Rattle.model.specs.Computed.{float};
ghost use Rattle.model.specs.Answer.{nearest_half};
ghost use Rattle.relative_error.specs.Close.{plain};

// 2⁵²: from there on the last digit of a float counts 1.
const TWO_52: f64 = 4503599627370496.0;

// What is guessed is below 2²⁵.
const GUESSES: u64 = 1 << 25;

// A whole number up to 2⁵³ as a float, exactly.
#[tactic(auto, unfolding(model::specs::Computed::float))]
pub fn to_float(n: u64) -> f64
    requires { n ≤ 2 ^ 53 }
    ensures { result ≡ float n }
{
    n as f64
}

// Whether a whole number is at most y, which is not negative.
#[tactic(auto, using(relative_error::proofs::Compare::int_le_float))]
fn at_most(m: u64, y: f64) -> bool
    requires { (m ≤ 2 ^ 53) × T (plain y) }
    ensures { result ≡ leb (m * den y) (num y) }
{
    to_float(m) <= y
}

// A number to try first: from 2⁵² on the last digit of y - 1/2 + 2⁵² counts 1, so that its last digits are mostly the whole part of y, which is 0 where the sum is less. Nothing rests on it.
fn guess(y: f64) -> u64
    ensures { result < 2 ^ 25 }
{
    let t = y - 0.5 + TWO_52;
    if TWO_52 <= t {
        return f64::to_bits(t) % GUESSES;
    }
    0
}

// The whole part of a float that is not negative and below 2²². A number is tried, first the guess and then the middle of what is left, until it is at most y and the next one is not.
pub fn whole_part(y: f64) -> u64
    requires { T (plain y) × (num y < 2 ^ 22 * den y) }
    ensures { (result ≡ num y / den y) × (result < 2 ^ 22) }
{
    let mut low = 0u64;
    let mut high = GUESSES;
    let mut k = guess(y);
    loop {
        if at_most(k, y) {
            if !at_most(k + 1, y) {
                break k;
            }
            low = k + 1;
        } else {
            high = k;
        }
        k = low + (high - low) / 2;
    }
}

// The whole number nearest to half of y: to 256 times the mean, where y is 512 times the mean.
#[tactic(auto, unfolding(model::specs::Answer::nearest_half))]
pub fn nearest_half(y: f64) -> u64
    requires { T (plain y) × (num y < 2 ^ 22 * den y) }
    ensures { (result ≡ nearest_half y) × (result ≤ 2 ^ 21) }
{
    (whole_part(y) + 1) / 2
}
