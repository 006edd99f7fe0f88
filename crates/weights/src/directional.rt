// Terms and weights: what each neighbour adds to the others' weights by the angle between them, document 01's shadow.
ghost use Rattle.std.specs.Prelude.{◌≡◌, ℕ, ◌+◌, ◌*◌, ◌^◌, ◌<◌, ◌≤◌, ◌*ℤ◌, get_or, length, false};
ghost use Rattle.std.specs.Float.{nan};
ghost use Rattle.model.specs.Computed.{sum_f, product_f, weight_f};
ghost use Rattle.model.specs.Weight.{all_edge};
ghost use Rattle.weights.specs.Seen.{inner_between, excess_between, cosine_gap, seen, Small, Bounded};
ghost use Rattle.weights.specs.Lists.{HasFactors, HasTerms};

use crate::factor;
use floats::to_float;
use neighbours::{Chosen, Neighbour};

// The product of two offsets.
fn offset_product(a: i16, b: i16) -> i64
    ensures { result ≡ a *ℤ b }
{
    i64::from(a) * i64::from(b)
}

// g, the inner product of the offsets of two neighbours.
fn inner(a: Neighbour, b: Neighbour) -> i64
    requires { Small a × Small b }
    ensures { result ≡ inner_between a b }
{
    offset_product(a.dx, b.dx) + offset_product(a.dy, b.dy)
}

// D D' of two neighbours.
fn product(a: Neighbour, b: Neighbour) -> u64
    requires { Small a × Small b }
    ensures { (result ≡ a.distance * b.distance) × (result ≤ 2 ^ 48) }
{
    u64::from(a.distance) * u64::from(b.distance)
}

// |D D' - 65,536 g| of two neighbours.
fn excess(a: Neighbour, b: Neighbour) -> u64
    requires { Small a × Small b }
    ensures { (result ≡ excess_between a b) × (result ≤ 2 ^ 53) }
{
    numbers::absolute(product(a, b) as i64 - 65536 * inner(a, b))
}

// |1 - cos| of two neighbours.
fn cosine_gap(a: Neighbour, b: Neighbour) -> f64
    requires { Small a × Small b }
    ensures { result ≡ cosine_gap a b }
{
    to_float(excess(a, b)) / to_float(product(a, b))
}

// Takes neighbour i into the sums t of what the first i, with the factors s, add to each other's terms. |1 - cos| of i and one before it goes into the
// sums of both. The rows come in order of choice, so each sum takes its parts in that order; the last part of the sum of i is its own, which is 0.
fn add_row(c: Chosen, i: usize, s: &[f64; 10], t: &mut [f64])
    requires bounded { Bounded c × (i < c.count) × (i < length t.old) }
    requires has_factors { HasFactors (seen c) s.now c.count × HasTerms (seen c) t.old i }
    ensures { HasTerms (seen c) t.new (i + 1) }
{
    let a = c.items[i];
    let own = s[i];
    let mut sum = 0.0;
    for j in 0..i {
        let v = cosine_gap(a, c.items[j]);
        sum += s[j] * v;
        t[j] += own * v;
    }
    t[i] = sum + 0.0;
}

// The sums of what the neighbours, with the factors s, add to the directional term of each.
fn terms(c: Chosen, s: &[f64; 10]) -> [f64; 10]
    requires { Bounded c × HasFactors (seen c) s.now c.count }
    ensures { HasTerms (seen c) result c.count }
{
    let mut t = [0.0; 10];
    for i in 0..c.count {
        add_row(c, i, s, &mut t);
    }
    t
}

// The sum of the first n.
fn sum_of(xs: &[f64; 10], n: usize) -> f64
    requires { n ≤ 10 }
    ensures { result ≡ sum_f (λ i. get_or xs.now i nan) n }
{
    let mut sum = 0.0;
    for x in &xs[..n] {
        sum += *x;
    }
    sum
}

// s² (1 + terms / factors), from the sums of the terms and of the factors.
fn weight(s: f64, terms: f64, factors: f64) -> f64
    ensures { result ≡ product_f s terms factors }
{
    s * s * (1.0 + terms / factors)
}

// The weights where some neighbour is not at the edge.
pub(crate) fn weights_apart(c: Chosen) -> [f64; 10]
    requires { Bounded c × (all_edge (seen c).influence c.count ≡ false) }
    ensures { (i : ℕ) → i < c.count → get_or result i nan ≡ weight_f (seen c) i }
{
    let s = factor::factors(c);
    let total = sum_of(&s, c.count);
    let t = terms(c, &s);
    let mut w = [0.0; 10];
    for i in 0..c.count {
        w[i] = weight(s[i], t[i], total);
    }
    w
}
