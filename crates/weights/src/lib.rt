// Factors and weights of the neighbours of a lookup, in 64-bit floats: document 01, "Pull and mean". No value stands in a weight.
#![tactic(auto)]

mod directional;
mod factor;

ghost use Rattle.std.specs.Prelude.{◌≡◌, ℕ, ◌<◌, get_or};
ghost use Rattle.std.specs.Float.{nan};
ghost use Rattle.model.specs.Computed.{weight_f};
ghost use Rattle.weights.specs.Seen.{seen, Bounded};

use neighbours::Chosen;

// The weights of the neighbours, in order of choice: 1 each where all are at the edge.
pub fn weights(c: Chosen) -> [f64; 10]
    requires { Bounded c }
    ensures { (i : ℕ) → i < c.count → get_or result i nan ≡ weight_f (seen c) i }
{
    if factor::all_edge(c) {
        return [1.0; 10];
    }
    directional::weights_apart(c)
}
