// The mean of numbers by weights, from two running sums: document 01, "Pull and mean". What the numbers are is the caller's.
#![tactic(auto)]

ghost use Rattle.std.specs.Prelude.{◌≡◌, ◌^◌, ◌≤◌, get_or};
ghost use Rattle.std.specs.Float.{binary64, nan};
ghost use Rattle.std.specs.Float.Ieee.{add, mul, div};
ghost use Rattle.model.specs.Computed.{float, sum_f, scaled_mean_f};

use floats::to_float;

// Two running sums, of weights and of weighted numbers.
#[derive(Clone, Copy)]
struct Sums {
    weight: f64,
    value: f64,
}

// The sums with one item more.
fn with_item(s: Sums, w: f64, x: f64) -> Sums
    ensures { (result.weight ≡ add binary64 s.weight w) × (result.value ≡ add binary64 s.value (mul binary64 w x)) }
{
    Sums {
        weight: s.weight + w,
        value: s.value + w * x,
    }
}

// The sums of the first n weights, and of each times its number.
fn sums_of(ws: &[f64; 10], xs: &[f64; 10], n: usize) -> Sums
    requires { n ≤ 10 }
    ensures { (result.weight ≡ sum_f (λ i. get_or ws.now i nan) n)
        × (result.value ≡ sum_f (λ i. mul binary64 (get_or ws.now i nan) (get_or xs.now i nan)) n) }
{
    let mut s = Sums {
        weight: 0.0,
        value: 0.0,
    };
    for i in 0..n {
        s = with_item(s, ws[i], xs[i]);
    }
    s
}

// The scale times the mean.
fn scaled(scale: u64, sums: Sums) -> f64
    requires { scale ≤ 2 ^ 53 }
    ensures { result ≡ mul binary64 (float scale) (div binary64 sums.value sums.weight) }
{
    to_float(scale) * (sums.value / sums.weight)
}

// The scale times the mean of the first n numbers.
pub fn scaled_mean(scale: u64, ws: &[f64; 10], xs: &[f64; 10], n: usize) -> f64
    requires { (scale ≤ 2 ^ 53) × (n ≤ 10) }
    ensures { result ≡ scaled_mean_f scale n (λ i. get_or ws.now i nan) (λ i. get_or xs.now i nan) }
{
    scaled(scale, sums_of(ws, xs, n))
}
