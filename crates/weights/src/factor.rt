// The factors of the neighbours, and whether all are at the edge.
ghost use Rattle.std.specs.Prelude.{◌≡◌, ℕ, ◌<◌, ◌≤◌, get_or};
ghost use Rattle.std.specs.Float.{nan};
ghost use Rattle.model.specs.Weight.{all_edge};
ghost use Rattle.model.specs.Computed.{factor_f};
ghost use Rattle.weights.specs.Seen.{seen};

use influence::{factor_of, influence_at, is_edge};
use neighbours::Chosen;

// The factors of the neighbours, in order of choice.
pub(crate) fn factors(c: Chosen) -> [f64; 10]
    requires { c.count ≤ 10 }
    ensures { (i : ℕ) → i < c.count → get_or result i nan ≡ factor_f ((seen c).influence i) }
{
    let mut s = [0.0; 10];
    for i in 0..c.count {
        s[i] = factor_of(influence_at(c.few, c.radius, c.items[i].distance));
    }
    s
}

// Whether each neighbour is at the edge.
pub(crate) fn all_edge(c: Chosen) -> bool
    requires { c.count ≤ 10 }
    ensures { result ≡ all_edge (seen c).influence c.count }
{
    for a in &c.items[..c.count] {
        if !is_edge(influence_at(c.few, c.radius, a.distance)) {
            return false;
        }
    }
    true
}
